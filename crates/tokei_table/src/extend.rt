//! A table in which languages gain extensions.
ghost use Rattle.std.specs.Prelude.{◌≡◌, ◌++◌, map, IfOk, OnOk};
ghost use Rattle.tokei_table_rules.specs.Extended.{addition_of, extended, gained, listed_for, with_extensions};
ghost use Rattle.tokei_table_rules.specs.MetNames.{words_of};
ghost use Rattle.tokei_table_row.specs.RowOf.{tokens_of, row_of};

use crate::language_type::LanguageType;
use std::alloc::{AllocError, Global};
use tokei_table_row::Syntax;
use tokei_table_rules::KnownTexts;
use tokei_table_rules::extend::{all_extensions, gained, with_extensions};

/// Adds the texts without copies.
fn add_listed<'a>(out: &mut Vec<&'a str>, texts: &'a [String]) -> Result<(), AllocError>
    ensures { OnOk result (words_of out.new.items ≡ words_of out.old.items ++ tokens_of texts.now) }
{
    for text in texts {
        out.push(text.as_str())?;
    }
    Ok(())
}

/// What is listed for the language, in order.
fn listed_for<'a>(
    alloc: Global,
    place: usize,
    additions: &[(LanguageType, &'a [String])],
) -> Result<Vec<&'a str>, AllocError>
    ensures { IfOk result (λ v. words_of v.items
        ≡ listed_for place (map addition_of additions.now)) }
{
    let mut out = Vec::new(alloc);
    for addition in additions {
        if addition.0.index() == place {
            add_listed(&mut out, addition.1)?;
        }
    }
    Ok(out)
}

/// The row with those of the extensions listed for it that aren't known yet, and which are known
/// from then on.
fn extended_row<'a>(
    alloc: Global,
    known: &mut KnownTexts<'a>,
    place: usize,
    row: &Syntax,
    additions: &[(LanguageType, &'a [String])],
) -> Result<Syntax, AllocError>
    ensures row { IfOk result (λ s. row_of s ≡ with_extensions (row_of row.now)
        (gained known.old (listed_for place (map addition_of additions.now)))) }
    ensures known { OnOk result (known.new ≡ known.old
        ++ gained known.old (listed_for place (map addition_of additions.now))) }
{
    let listed = listed_for(alloc, place, additions)?;
    let more = gained(alloc, known, &listed)?;
    with_extensions(alloc, row, &more)
}

/// The rows in which each language gains those of its listed extensions that no language has yet.
pub(crate) fn extended_rows<'a>(
    alloc: Global,
    rows: &'a [Syntax],
    additions: &[(LanguageType, &'a [String])],
) -> Result<Vec<Syntax>, AllocError>
    ensures { IfOk result (λ v. map row_of v.items
        ≡ extended (map row_of rows.now) (map addition_of additions.now)) }
{
    let mut known = all_extensions(alloc, rows)?;
    let mut out = Vec::new(alloc);
    for (place, row) in rows.iter().enumerate() {
        out.push(extended_row(alloc, &mut known, place, row, additions)?)?;
    }
    Ok(out)
}
