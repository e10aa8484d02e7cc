//! The rows of all languages.
ghost use Rattle.std.specs.Prelude.{◌≡◌, IfOk, IsErrOf, string_bytes};
ghost use Rattle.tokei_languages.specs.Seen.{language_of};
ghost use Rattle.tokei_languages.specs.Names.{name_in};
ghost use Rattle.tokei_print.specs.ListedLanguages.{languages_in};
ghost use Rattle.tokei_print.specs.Results.{counts_block, files_block, group_of, is_empty_language, is_of_group};
ghost use Rattle.tokei_print.specs.Results.{language_block, language_blocks, parting, results_text, shows_children};
ghost use Rattle.tokei_print.specs.ResultsFit.{LanguageFits, LanguagesFit, ResultsFit};

use crate::children::children_block;
use crate::file_rows::{ListedLanguage, listed_files};
use crate::joined::joined;
use crate::language_row::language_row;
use crate::layout::Layout;
use crate::ordered::in_order;
use std::alloc::Global;
use tokei_languages::{Language, name_of};
use tokei_stats::CountError;
use tokei_table::{LanguageTable, LanguageType};

/// How the languages are shown.
#[derive(Clone, Copy)]
pub(crate) struct Showing<'a> {
    /// Of whose languages they are.
    pub(crate) table: &'a LanguageTable,
    /// Without the languages inside.
    pub(crate) compact: bool,
    /// Whether the files stand in their order already.
    pub(crate) sorted: bool,
}

/// Languages whose children are shown, or the others.
#[derive(Clone, Copy)]
struct Group {
    with_children: bool,
    /// Whether no row stands above.
    first: bool,
}

/// Whether no line was counted and no other language is inside.
fn is_empty(language: &Language) -> bool
    ensures { result ≡ is_empty_language (language_of language.now) }
{
    language.is_empty()
}

/// Whether the languages inside are shown.
fn shows_children(language: &Language, compact: bool) -> bool
    ensures { result ≡ shows_children compact (language_of language.now) }
{
    !compact && language.children.len() != 0
}

/// Whether the language is of the group whose children are shown, or of the other.
fn is_of_group(language: &Language, compact: bool, with_children: bool) -> bool
    ensures { result ≡ is_of_group compact with_children (language_of language.now) }
{
    if is_empty(language) {
        return false;
    }
    if with_children {
        shows_children(language, compact)
    } else {
        !shows_children(language, compact)
    }
}

/// What parts a language with more than one row from those above.
fn parting<'a>(layout: &'a Layout, language: &Language, compact: bool, first: bool) -> &'a str
    ensures { result.now ≡ parting layout.entry.now compact first (language_of language.entry.now) }
{
    if first {
        ""
    } else if shows_children(language, compact) || layout.list_files {
        layout.subrow()
    } else {
        ""
    }
}

/// A language's own row, and those of its children.
fn counts_block(
    layout: &Layout,
    alloc: Global,
    showing: Showing,
    name: &str,
    language: &Language,
) -> Result<String, CountError>
    ensures ok { IfOk result (λ s. string_bytes s
        ≡ counts_block layout.now (name_in showing.entry.table.now) showing.entry.compact name.now
        (language_of language.now)) }
    ensures overflow { IsErrOf result CountError.Overflow
        → ¬ LanguageFits layout.now.list_files showing.entry.compact showing.entry.sorted
        (language_of language.now) }
{
    let row = language_row(layout, alloc, language, name)?;
    if shows_children(language, showing.compact) {
        joined(row, children_block(layout, alloc, showing.table, language))
    } else {
        Ok(row)
    }
}

/// The rows of a language's files, where they are listed.
fn files_block(
    layout: &Layout,
    alloc: Global,
    showing: Showing,
    name: &str,
    language: &Language,
) -> Result<String, CountError>
    ensures ok { IfOk result (λ s. string_bytes s
        ≡ files_block layout.now (name_in showing.entry.table.now) showing.entry.compact
        showing.entry.sorted name.now (language_of language.now)) }
    ensures overflow { IsErrOf result CountError.Overflow
        → ¬ LanguageFits layout.now.list_files showing.entry.compact showing.entry.sorted
        (language_of language.now) }
{
    if !layout.list_files {
        return Ok(String::new(alloc));
    }
    let listed = ListedLanguage {
        table: showing.table,
        name,
        inaccurate: language.inaccurate,
    };
    let reports = in_order(alloc, &language.reports, showing.sorted)?;
    let subrow = String::from_str(alloc, layout.subrow())?;
    joined(
        subrow,
        listed_files(layout, alloc, listed, showing.compact, &reports),
    )
}

/// All rows of a language.
fn language_block(
    layout: &Layout,
    alloc: Global,
    showing: Showing,
    first: bool,
    entry: &(LanguageType, &Language),
) -> Result<String, CountError>
    ensures ok { IfOk result (λ s. string_bytes s
        ≡ language_block layout.now (name_in showing.entry.table.now) showing.entry.compact
        showing.entry.sorted first entry.now.0 (language_of entry.now.1.now)) }
    ensures overflow { IsErrOf result CountError.Overflow
        → ¬ LanguageFits layout.now.list_files showing.entry.compact showing.entry.sorted
        (language_of entry.now.1.now) }
{
    let language = entry.1;
    let name = name_of(showing.table, entry.0);
    let parting = String::from_str(alloc, parting(layout, language, showing.compact, first))?;
    let rows = joined(
        parting,
        counts_block(layout, alloc, showing, name, language),
    )?;
    joined(rows, files_block(layout, alloc, showing, name, language))
}

/// The rows of the languages of a group, one after the other.
fn group_rows(
    layout: &Layout,
    alloc: Global,
    showing: Showing,
    group: Group,
    languages: &[(LanguageType, &Language)],
) -> Result<String, CountError>
    ensures ok { IfOk result (λ s. string_bytes s
        ≡ language_blocks layout.now (name_in showing.entry.table.now) showing.entry.compact
        showing.entry.sorted group.first
        (group_of showing.entry.compact group.with_children (languages_in languages.now))) }
    ensures overflow { IsErrOf result CountError.Overflow
        → ¬ LanguagesFit layout.now.list_files showing.entry.compact showing.entry.sorted
        (group_of showing.entry.compact group.with_children (languages_in languages.now)) }
{
    let mut rows = String::new(alloc);
    let mut first = group.first;
    for entry in languages {
        if is_of_group(entry.1, showing.compact, group.with_children) {
            rows = joined(rows, language_block(layout, alloc, showing, first, entry))?;
            first = false;
        }
    }
    Ok(rows)
}

/// The rows of all languages.
pub(crate) fn results(
    layout: &Layout,
    alloc: Global,
    showing: Showing,
    languages: &[(LanguageType, &Language)],
) -> Result<String, CountError>
    ensures ok { IfOk result (λ s. string_bytes s
        ≡ results_text layout.now (name_in showing.entry.table.now) showing.entry.compact
        showing.entry.sorted (languages_in languages.now)) }
    ensures overflow { IsErrOf result CountError.Overflow
        → ¬ ResultsFit layout.now.list_files showing.entry.compact showing.entry.sorted
        (languages_in languages.now) }
{
    let alone = Group {
        with_children: false,
        first: true,
    };
    let rows = group_rows(layout, alloc, showing, alone, languages)?;
    let others = Group {
        with_children: true,
        first: rows.is_empty(),
    };
    joined(rows, group_rows(layout, alloc, showing, others, languages))
}
