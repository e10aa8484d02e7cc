//! The row of counts that take in those of the texts inside.
use crate::cells::counted_row;
use crate::layout::Layout;
use std::alloc::Global;
use tokei_stats::{CountError, Sums};

/// How many lines of all classes, in a subtotal two characters wider than in other rows.
const SUBTOTAL_LINES_WIDTH: usize = 14;

impl Layout {
    ghost use Rattle.std.specs.Prelude.{◌≡◌, ◌≤◌, length, IfOk, IsErrOf, string_bytes};
    ghost use Rattle.tokei_stats.specs.Seen.{sums_of};
    ghost use Rattle.tokei_print.specs.LinesFit.{LinesFit};
    ghost use Rattle.tokei_print.specs.Subtotal.{path_places, subtotal};

    /// The row of counts that take in those of the texts inside. `Overflow` only where the lines
    /// pass the greatest `usize`.
    pub fn subtotal(&self, alloc: Global, name: &str, counts: Sums) -> Result<String, CountError>
        requires { length name.now ≤ path_places self.now.columns }
        ensures ok { IfOk result (λ s. string_bytes s
            ≡ subtotal self.now name.now (sums_of counts)) }
        ensures overflow { IsErrOf result CountError.Overflow → ¬ LinesFit (sums_of counts) }
    {
        let places = self.columns - 56;
        let row = format!(in alloc; " {name:<places$}")?;
        counted_row(row, alloc, self.format, counts, SUBTOTAL_LINES_WIDTH)
    }
}
