//! The order in which a report lists languages.
ghost use Rattle.std.specs.Prelude.{◌≡◌, ◌++◌, ◌∷◌, [], IfOk, OnOk};
ghost use Rattle.std.specs.Ordering.{is_lt};
ghost use Rattle.tokei_languages.specs.Seen.{language_of, languages_of};
ghost use Rattle.tokei_print.specs.ListedLanguages.{languages_in};
ghost use Rattle.tokei_print.specs.Sorted.{count_of, in_list_order, language_goes_first, languages_sorted};

use std::alloc::{AllocError, Global};
use std::cmp::Ordering;
use tokei_languages::{Language, Languages};
use tokei_options::Sort;
use tokei_table::LanguageType;

/// Adds a language to those that are listed.
fn add<'a>(
    listed: &mut Vec<(LanguageType, &'a Language)>,
    language: LanguageType,
    value: &'a Language,
) -> Result<(), AllocError>
    ensures { OnOk result (languages_in listed.new.items
        ≡ languages_in listed.old.items ++ (language, language_of value.now) ∷ []) }
{
    match listed.push((language, value)) {
        Ok(()) => Ok(()),
        Err(_) => Err(AllocError),
    }
}

/// The languages in the table's order.
pub(crate) fn listed(
    alloc: Global,
    languages: &Languages,
) -> Result<Vec<(LanguageType, &Language)>, AllocError>
    ensures { IfOk result (λ v. languages_in v.items ≡ languages_of languages.entry.now) }
{
    let mut all = Vec::new(alloc);
    for (language, value) in languages.iter() {
        add(&mut all, *language, value)?;
    }
    Ok(all)
}

/// The count of a language by which the sort goes.
fn count_of(sort: Sort, language: &Language) -> u128
    ensures { result ≡ count_of sort (language_of language.now) }
{
    match sort {
        Sort::Blanks => language.blanks as u128,
        Sort::Comments => language.comments as u128,
        Sort::Code => language.code as u128,
        Sort::Files => language.reports.len() as u128,
        Sort::Lines => {
            language.blanks as u128 + language.code as u128 + language.comments as u128
        }
    }
}

/// How the sort puts the first language to the second.
fn order_of(sort: Sort, first: &Language, second: &Language) -> Ordering
    ensures { is_lt result
        ≡ language_goes_first sort (language_of first.now) (language_of second.now) }
{
    count_of(sort, second).cmp(&count_of(sort, first))
}

/// The languages in the order of the sort; those of equal counts stay in the table's order.
fn sorted(
    alloc: Global,
    sort: Sort,
    languages: &Languages,
) -> Result<Vec<(LanguageType, &Language)>, AllocError>
    ensures { IfOk result (λ v. languages_in v.items
        ≡ languages_sorted sort (languages_of languages.entry.now)) }
{
    let mut all = listed(alloc, languages)?;
    all.sort_by(|first, second| order_of(sort, first.1, second.1))?;
    Ok(all)
}

/// The languages as a sorted report lists them.
pub(crate) fn in_list_order(
    alloc: Global,
    sort: Sort,
    reversed: bool,
    languages: &Languages,
) -> Result<Vec<(LanguageType, &Language)>, AllocError>
    ensures { IfOk result (λ v. languages_in v.items
        ≡ in_list_order sort reversed (languages_of languages.entry.now)) }
{
    let mut all = sorted(alloc, sort, languages)?;
    if reversed {
        all.reverse();
    }
    Ok(all)
}
