//! How rows are laid out, and the rows that part others.
use std::alloc::Global;
use tokei_io::OutputError;
use tokei_options::NumberFormat;

/// How rows are laid out.
#[derive(Debug, Drop)]
pub struct Layout {
    /// The width of a row, in characters.
    pub columns: usize,
    /// Whether the files of each language are listed.
    pub list_files: bool,
    pub format: NumberFormat,
    row: String,
    subrow: String,
    ghost wide: { 81 ≤ columns },
    ghost narrow: { columns ≤ 65535 },
    ghost row_is: { string_bytes row ≡ heavy_row columns },
    ghost subrow_is: { string_bytes subrow ≡ light_row columns },
}

ghost use Rattle.std.specs.Prelude.{◌≡◌, ◌≤◌, string_bytes};
ghost use Rattle.tokei_print.specs.Rules.{row as heavy_row, subrow as light_row};

impl Layout {
    ghost use Rattle.std.specs.Prelude.{◌≡◌, ◌≤◌, IfOk, IfErr, string_bytes};

    /// A layout of so many columns.
    pub fn new(
        alloc: Global,
        columns: usize,
        list_files: bool,
        format: NumberFormat,
    ) -> Result<Layout, OutputError>
        requires wide { 81 ≤ columns }
        requires narrow { columns ≤ 65535 }
        ensures columns { IfOk result (λ layout. layout.columns ≡ columns) }
        ensures files { IfOk result (λ layout. layout.list_files ≡ list_files) }
        ensures format { IfOk result (λ layout. layout.format ≡ format) }
        ensures memory { IfErr result (λ e. e ≡ OutputError.Memory) }
    {
        let mut row = "━".repeat(alloc, columns)?;
        row.push_str("\n")?;
        let mut subrow = "─".repeat(alloc, columns)?;
        subrow.push_str("\n")?;
        Ok(Layout {
            columns,
            list_files,
            format,
            row,
            subrow,
        })
    }

    /// The heavy row.
    pub fn row(&self) -> &str
        ensures { result.now ≡ heavy_row self.entry.now.columns }
    {
        self.row.as_str()
    }

    /// The light row.
    pub fn subrow(&self) -> &str
        ensures { result.now ≡ light_row self.entry.now.columns }
    {
        self.subrow.as_str()
    }
}
