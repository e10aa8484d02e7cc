//! Numbers in their places.
ghost use Rattle.std.specs.Prelude.{◌≡◌, ◌+◌, ◌≤◌, ◌∷◌, ◌++◌, string_bytes};
ghost use Rattle.std.specs.Prelude.{IfOk, IfErr, IsErrOf, OnErr, OnOk};
ghost use Rattle.tokei_stats.specs.Seen.{sums_of};
ghost use Rattle.tokei_stats.specs.Statistics.{lines_of};
ghost use Rattle.tokei_print.specs.Cells.{number_text, right_in};
ghost use Rattle.tokei_print.specs.LinesFit.{LinesFit};
ghost use Rattle.tokei_print.specs.Rules.{newline};
ghost use Rattle.tokei_stats.specs.ReportRow.{count_places};
ghost use Rattle.tokei_table.specs.Bytes.{space};
ghost use Rattle.tokei_options.specs.Grouping.{separator_text};

use std::alloc::{AllocError, Global};
use tokei_options::NumberFormat;
use tokei_options::columns::{BLANKS_COLUMN_WIDTH, CODE_COLUMN_WIDTH, COMMENTS_COLUMN_WIDTH};
use tokei_stats::{CountError, Sums};

/// All lines, of whatever class.
fn lines(counts: Sums) -> Result<usize, CountError>
    ensures sum { IfOk result (λ n. n ≡ lines_of (sums_of counts)) }
    ensures fits { OnOk result (LinesFit (sums_of counts)) }
    ensures past { OnErr result (¬ LinesFit (sums_of counts)) }
    ensures overflow { IfErr result (λ e. e ≡ CountError.Overflow) }
{
    match counts.blanks.checked_add(counts.code) {
        None => Err(CountError::Overflow),
        Some(begun) => match begun.checked_add(counts.comments) {
            None => Err(CountError::Overflow),
            Some(all) => Ok(all),
        },
    }
}

/// Puts a number behind what stands in the row, behind a space and right in its places.
pub(crate) fn put_cell(
    row: &mut String,
    alloc: Global,
    format: NumberFormat,
    number: usize,
    places: usize,
) -> Result<(), AllocError>
    requires { places ≤ 65535 }
    ensures { OnOk result (string_bytes row.new
        ≡ string_bytes row.old
        ++ (space ∷ right_in places (number_text (separator_text format.separator) number))) }
{
    let text = format.grouped(alloc, number)?;
    let text = text.as_str();
    write!(row, " {text:>places$}")
}

/// The row with lines, code, comments and blanks behind what stands in it, with so many places for
/// the lines, and with its end. `Overflow` exactly where the lines pass the greatest `usize`.
pub(crate) fn counted_row(
    row: String,
    alloc: Global,
    format: NumberFormat,
    counts: Sums,
    places: usize,
) -> Result<String, CountError>
    requires { places ≤ 65535 }
    ensures ok { IfOk result (λ s. string_bytes s
        ≡ string_bytes row ++ (space ∷ (right_in places
        (number_text (separator_text format.separator) (lines_of (sums_of counts)))
        ++ (space ∷ (right_in count_places
        (number_text (separator_text format.separator) (sums_of counts).code)
        ++ (space ∷ (right_in count_places
        (number_text (separator_text format.separator) (sums_of counts).comments)
        ++ (space ∷ right_in count_places
        (number_text (separator_text format.separator) (sums_of counts).blanks)))))))
        ++ newline)) }
    ensures fits { OnOk result (LinesFit (sums_of counts)) }
    ensures overflow { IsErrOf result CountError.Overflow → ¬ LinesFit (sums_of counts) }
{
    let lines = lines(counts)?;
    let mut row = row;
    put_cell(&mut row, alloc, format, lines, places)?;
    put_cell(&mut row, alloc, format, counts.code, CODE_COLUMN_WIDTH)?;
    put_cell(
        &mut row,
        alloc,
        format,
        counts.comments,
        COMMENTS_COLUMN_WIDTH,
    )?;
    put_cell(&mut row, alloc, format, counts.blanks, BLANKS_COLUMN_WIDTH)?;
    row.push_str("\n")?;
    Ok(row)
}
