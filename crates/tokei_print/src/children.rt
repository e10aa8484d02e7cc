//! The rows of the languages inside the files of another, and the subtotal below them.
ghost use Rattle.std.specs.Prelude.{◌≡◌, IfOk, IsErrOf, string_bytes};
ghost use Rattle.tokei_languages.specs.Seen.{language_of};
ghost use Rattle.tokei_languages.specs.Names.{name_in};
ghost use Rattle.tokei_print.specs.ChildrenBlock.{children_block};
ghost use Rattle.tokei_print.specs.ChildrenBlockFits.{ChildrenBlockFits};

use crate::inside::child_rows;
use crate::joined::joined;
use crate::layout::Layout;
use std::alloc::Global;
use tokei_languages::Language;
use tokei_stats::CountError;
use tokei_table::LanguageTable;

/// The rows of the languages inside, and their subtotal.
pub(crate) fn children_block(
    layout: &Layout,
    alloc: Global,
    table: &LanguageTable,
    language: &Language,
) -> Result<String, CountError>
    ensures ok { IfOk result (λ s. string_bytes s
        ≡ children_block layout.now (name_in table.now) (language_of language.now)) }
    ensures overflow { IsErrOf result CountError.Overflow
        → ¬ ChildrenBlockFits (language_of language.now) }
{
    let counts = language.summary_counts()?;
    let rows = child_rows(layout, alloc, table, &language.children)?;
    joined(rows, layout.subtotal(alloc, "(Total)", counts))
}
