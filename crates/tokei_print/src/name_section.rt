//! The name at the head of a row.
ghost use Rattle.std.specs.Prelude.{◌≡◌, ◌≤◌, IfOk, string_bytes};
ghost use Rattle.tokei_print.specs.NameSection.{shown_name};

use crate::layout::Layout;
use std::alloc::{AllocError, Global};

/// The name in its places; one of more bytes is its first characters and a bar.
fn shown_name(alloc: Global, places: usize, name: &str) -> Result<String, AllocError>
    requires { places ≤ 65535 }
    ensures { IfOk result (λ s. string_bytes s ≡ shown_name places name.now) }
{
    if places < name.len() {
        let shown = places.saturating_sub(1);
        format!(in alloc; "{name:.shown$}|")
    } else {
        format!(in alloc; "{name:<places$}")
    }
}

impl Layout {
    ghost use Rattle.std.specs.Prelude.{◌≡◌, IfOk, string_bytes};
    ghost use Rattle.tokei_print.specs.NameSection.{name_section};

    /// The prefix, a space and the name, and the mark of an inaccurate language.
    pub fn name_section(
        &self,
        alloc: Global,
        inaccurate: bool,
        name: &str,
        prefix: &str,
    ) -> Result<String, AllocError>
        ensures { IfOk result (λ s. string_bytes s
            ≡ name_section self.now.columns inaccurate name.now prefix.now) }
    {
        let mark = if inaccurate { "(!)" } else { "" };
        let places = (self.columns - 63)
            .saturating_sub(prefix.len())
            .saturating_sub(mark.len());
        let name = shown_name(alloc, places, name)?;
        let name = name.as_str();
        format!(in alloc; "{prefix} {name}{mark}")
    }
}
