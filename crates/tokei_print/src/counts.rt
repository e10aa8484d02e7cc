//! The counts of a row, and how many files have them.
ghost use Rattle.std.specs.Prelude.{◌≡◌, ◌++◌, IfOk, IsErrOf, OnOk, string_bytes};
ghost use Rattle.tokei_stats.specs.Seen.{sums_of};
ghost use Rattle.tokei_print.specs.FilesAndCounts.{files_and_counts};
ghost use Rattle.tokei_print.specs.LinesFit.{LinesFit};
ghost use Rattle.tokei_options.specs.Grouping.{separator_text};

use crate::cells::{counted_row, put_cell};
use std::alloc::Global;
use tokei_options::NumberFormat;
use tokei_options::columns::{FILES_COLUMN_WIDTH, LINES_COLUMN_WIDTH};
use tokei_stats::{CountError, Sums};

/// The row with the number of files and their counts behind its name. `Overflow` exactly where the
/// lines pass the greatest `usize`.
pub(crate) fn files_and_counts(
    name: String,
    alloc: Global,
    format: NumberFormat,
    files: usize,
    counts: Sums,
) -> Result<String, CountError>
    ensures ok { IfOk result (λ s. string_bytes s ≡ string_bytes name
        ++ files_and_counts (separator_text format.separator) files (sums_of counts)) }
    ensures fits { OnOk result (LinesFit (sums_of counts)) }
    ensures overflow { IsErrOf result CountError.Overflow → ¬ LinesFit (sums_of counts) }
{
    let mut row = name;
    put_cell(&mut row, alloc, format, files, FILES_COLUMN_WIDTH)?;
    counted_row(row, alloc, format, counts, LINES_COLUMN_WIDTH)
}
