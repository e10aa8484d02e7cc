//! Laws of the definitions, each the contract of a function that does nothing, and of equality.
ghost use Rattle.std.specs.Prelude.{◌≡◌, ◌↔◌, IsTrue};
ghost use Rattle.tokei_languages.specs.Laws.{SummarisingOnceSuffices, SortsAreStable, StableSortsAreOne};
ghost use Rattle.tokei_languages.specs.Laws.{AnyOrderOfFilesCountsAlike};
ghost use Rattle.tokei_languages.specs.Seen.{language_of, languages_of};

use crate::language::Language;
use crate::languages::Languages;

/// Summarising a language twice is summarising it once.
pub fn summarising_once_suffices()
    ensures { SummarisingOnceSuffices }
{}

/// Each sort gives a stable permutation in order.
pub fn sorts_are_stable()
    ensures { SortsAreStable }
{}

/// Each sort has one stable permutation in order alone.
pub fn stable_sorts_are_one()
    ensures { StableSortsAreOne }
{}

/// Files counted in any order give equal totals, and only the order of reports differs.
pub fn any_order_of_files_counts_alike()
    ensures { AnyOrderOfFilesCountsAlike }
{}

/// Languages are equal by `==` exactly where all members are.
pub fn equality_is_of_all_members(language: &Language, other: &Language) -> bool
    ensures { IsTrue result ↔ (language_of language.now ≡ language_of other.now) }
{
    language == other
}

/// The counted languages are equal by `==` exactly where the same ones are there, with equal
/// members.
pub fn equality_is_of_all_languages(languages: &Languages, other: &Languages) -> bool
    ensures { IsTrue result ↔ (languages_of languages.now ≡ languages_of other.now) }
{
    languages == other
}
