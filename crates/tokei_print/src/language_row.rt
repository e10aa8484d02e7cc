//! The row of a language.
ghost use Rattle.std.specs.Prelude.{◌≡◌, IfOk, IsErrOf, OnOk, string_bytes};
ghost use Rattle.tokei_languages.specs.Seen.{language_of};
ghost use Rattle.tokei_print.specs.LinesFit.{LinesFit};
ghost use Rattle.tokei_print.specs.LanguageRow.{language_row};

use crate::counts::files_and_counts;
use crate::layout::Layout;
use std::alloc::Global;
use tokei_languages::Language;
use tokei_stats::{CountError, Sums};

/// The language's row under this name. `Overflow` exactly where its lines pass the greatest
/// `usize`.
pub(crate) fn language_row(
    layout: &Layout,
    alloc: Global,
    language: &Language,
    name: &str,
) -> Result<String, CountError>
    ensures ok { IfOk result (λ s. string_bytes s
        ≡ language_row layout.now (language_of language.now) name.now) }
    ensures fits { OnOk result (LinesFit (language_of language.now).counts) }
    ensures overflow { IsErrOf result CountError.Overflow
        → ¬ LinesFit (language_of language.now).counts }
{
    let counts = Sums {
        blanks: language.blanks,
        code: language.code,
        comments: language.comments,
    };
    let row = layout.name_section(alloc, language.inaccurate, name, "")?;
    let files = language.reports.len();
    files_and_counts(row, alloc, layout.format, files, counts)
}
