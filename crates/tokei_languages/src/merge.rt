//! Adding languages to others, and taking that back.
ghost use Rattle.std.specs.Prelude.{◌≡◌, IfOk, IsErrOf, OnOk, OnErr, option_map};
ghost use Rattle.tokei_languages.specs.Maps.{put_at, taken_back};
ghost use Rattle.tokei_languages.specs.Merging.{merged_language, merged_languages, FitAt, MergeFits};
ghost use Rattle.tokei_languages.specs.Seen.{entries_of, language_of};
ghost use Rattle.tokei_languages.specs.TakenBack.{restored};
ghost use Rattle.tokei_languages.specs.Values.{language_at};

use crate::before::Before;
use crate::language::Language;
use std::collections::BTreeMap;
use tokei_stats::CountError;
use tokei_table::LanguageType;

/// Adds what was counted to that of the language. The answer is what `take_back` needs, or none
/// where the language is new.
fn add_at(
    languages: &mut BTreeMap<LanguageType, Language>,
    language: LanguageType,
    more: Language,
) -> Result<Option<Before>, CountError>
    ensures ok { OnOk result (entries_of languages.new.entries
        ≡ put_at (λ s. merged_language s (language_of more)) (language_of more)
        (entries_of languages.old.entries) language) }
    ensures fits { OnOk result
        (FitAt (language_at (entries_of languages.old.entries) language) (language_of more)) }
    ensures overflow { IsErrOf result CountError.Overflow
        → ¬ FitAt (language_at (entries_of languages.old.entries) language) (language_of more) }
    ensures back { IfOk result (λ before.
        taken_back (option_map restored before) (entries_of languages.new.entries) language
        ≡ entries_of languages.old.entries) }
    ensures err { OnErr result
        (entries_of languages.new.entries ≡ entries_of languages.old.entries) }
{
    if let Some(there) = languages.get_mut(&language) {
        let before = there.grow(more)?;
        return Ok(Some(before));
    }
    let _none = languages.insert(language, more)?;
    Ok(None)
}

/// Takes the language back to what it was, or out where it was new.
fn take_back(
    languages: &mut BTreeMap<LanguageType, Language>,
    language: LanguageType,
    before: Option<Before>,
)
    ensures { entries_of languages.new.entries
        ≡ taken_back (option_map restored before) (entries_of languages.old.entries) language }
{
    match before {
        Some(before) => {
            if let Some(there) = languages.get_mut(&language) {
                there.take_back(before);
            }
        }
        None => {
            let _added = languages.remove(&language);
        }
    }
}

/// Adds every language. A refusal changes nothing.
pub(crate) fn add_all(
    languages: &mut BTreeMap<LanguageType, Language>,
    mut more: BTreeMap<LanguageType, Language>,
) -> Result<(), CountError>
    ensures ok { OnOk result (entries_of languages.new.entries
        ≡ merged_languages (entries_of languages.old.entries) (entries_of more.entries)) }
    ensures fits { OnOk result
        (MergeFits (entries_of languages.old.entries) (entries_of more.entries)) }
    ensures overflow { IsErrOf result CountError.Overflow
        → ¬ MergeFits (entries_of languages.old.entries) (entries_of more.entries) }
    ensures err { OnErr result
        (entries_of languages.new.entries ≡ entries_of languages.old.entries) }
{
    let Some((language, first)) = more.pop_first() else {
        return Ok(());
    };
    let before = add_at(languages, language, first)?;
    if let Err(refused) = add_all(languages, more) {
        take_back(languages, language, before);
        return Err(refused);
    }
    Ok(())
}
