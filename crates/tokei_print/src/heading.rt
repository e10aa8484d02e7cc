//! What stands above the languages.
use crate::layout::Layout;
use std::alloc::{AllocError, Global};

/// The names of the columns behind that of the languages, each right in its places.
const NAMES: &str = "          Files        Lines         Code     Comments       Blanks";

impl Layout {
    ghost use Rattle.std.specs.Prelude.{◌≡◌, IfOk, string_bytes};
    ghost use Rattle.tokei_print.specs.Heading.{header};

    /// The names of the columns, between two rows.
    pub fn header(&self, alloc: Global) -> Result<String, AllocError>
        ensures { IfOk result (λ s. string_bytes s ≡ header self.now.columns) }
    {
        let row = self.row();
        let places = self.columns - 69;
        let (language, names) = ("Language", NAMES);
        format!(in alloc; "{row} {language:<places$}{names}\n{row}")
    }
}
