//! The rows of a file that holds other languages.
use crate::cells::counted_row;
use crate::joined::joined;
use crate::layout::Layout;
use std::alloc::{AllocError, Global};
use std::collections::BTreeMap;
use tokei_languages::name_of;
use tokei_options::columns::LINES_COLUMN_WIDTH;
use tokei_stats::{CodeStats, CountError, CountsCells, ReportRow};
use tokei_table::{LanguageTable, LanguageType};

impl Layout {
    ghost use Rattle.std.specs.Prelude.{◌≡◌, IfOk, IsErrOf, string_bytes};
    ghost use Rattle.tokei_stats.specs.Seen.{blobs_of, counts_of, entries_of, stats_of};
    ghost use Rattle.tokei_print.specs.BlobRows.{BlobRowsFit, blob_row, blob_rows, name_line, own_row};
    ghost use Rattle.tokei_print.specs.LinesFit.{LinesFit};
    ghost use Rattle.tokei_languages.specs.Names.{name_in};

    /// A file's name: alone where no other file stands above, and else between dashes.
    pub fn name_line(&self, alloc: Global, name: &str, first: bool) -> Result<String, AllocError>
        ensures { IfOk result (λ s. string_bytes s ≡ name_line self.now first name.now) }
    {
        if first {
            return format!(in alloc; " {name}\n");
        }
        let dashes = "-".repeat(alloc, (self.columns - 4).saturating_sub(name.len()))?;
        let dashes = dashes.as_str();
        format!(in alloc; "-- {name} {dashes}\n")
    }

    /// The own counts of a file, under the name of its language.
    pub fn own_row(
        &self,
        alloc: Global,
        name: &str,
        stats: &CodeStats,
    ) -> Result<String, AllocError>
        ensures { IfOk result (λ s. string_bytes s
            ≡ own_row self.now name.now (stats_of stats.now)) }
    {
        let counts = CountsCells {
            blanks: stats.blanks,
            code: stats.code,
            comments: stats.comments,
        };
        let row = ReportRow::new(name, counts, self.columns - 59);
        format!(in alloc; " |-{row}\n")
    }

    /// The own counts of a language inside a file. `Overflow` only where its lines pass the
    /// greatest `usize`.
    fn blob_row(
        &self,
        alloc: Global,
        name: &str,
        inaccurate: bool,
        stats: &CodeStats,
    ) -> Result<String, CountError>
        ensures ok { IfOk result (λ s. string_bytes s
            ≡ blob_row self.now inaccurate name.now (stats_of stats.now)) }
        ensures overflow { IsErrOf result CountError.Overflow → ¬ LinesFit (counts_of stats.now) }
    {
        let mut row = self.name_section(alloc, inaccurate, name, " |-")?;
        // where a language's row has its number of files
        row.push_str("         ")?;
        counted_row(
            row,
            alloc,
            self.format,
            stats.own_counts(),
            LINES_COLUMN_WIDTH,
        )
    }

    /// A row for each language inside a file.
    pub fn blob_rows(
        &self,
        alloc: Global,
        table: &LanguageTable,
        inaccurate: bool,
        blobs: &BTreeMap<LanguageType, CodeStats>,
    ) -> Result<String, CountError>
        ensures ok { IfOk result (λ s. string_bytes s
            ≡ blob_rows self.now (name_in table.now) inaccurate
            (blobs_of (entries_of blobs.now.entries))) }
        ensures overflow { IsErrOf result CountError.Overflow
            → ¬ BlobRowsFit (blobs_of (entries_of blobs.now.entries)) }
    {
        let mut rows = String::new(alloc);
        for (language, stats) in blobs.iter() {
            let row = self.blob_row(alloc, name_of(table, *language), inaccurate, stats);
            rows = joined(rows, row)?;
        }
        Ok(rows)
    }
}
