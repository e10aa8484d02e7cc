//! Reports by the language inside: how they are appended, and taken back.
ghost use Rattle.std.specs.Prelude.{◌≡◌, ◌++◌, IfOk, IfErr, OnOk, OnErr};
ghost use Rattle.tokei_languages.specs.Maps.{put_at, taken_back};
ghost use Rattle.tokei_languages.specs.Merging.{appended};
ghost use Rattle.tokei_languages.specs.Seen.{children_of, reports_of};
ghost use Rattle.tokei_languages.specs.TakenBack.{all_taken_back, first};

use std::alloc::Global;
use std::collections::BTreeMap;
use tokei_stats::{CountError, Report};
use tokei_table::LanguageType;

/// Appends the reports to those of the language. The answer is how many stood there, or none where
/// the language is new: it is what `take_back` needs.
fn append_at(
    children: &mut BTreeMap<LanguageType, Vec<Report>>,
    language: LanguageType,
    mut reports: Vec<Report>,
) -> Result<Option<usize>, CountError>
    ensures ok { OnOk result (children_of children.new.entries
        ≡ put_at (λ rs. rs ++ reports_of reports) (reports_of reports)
        (children_of children.old.entries) language) }
    ensures back { IfOk result (λ before.
        taken_back (first before) (children_of children.new.entries) language
        ≡ children_of children.old.entries) }
    ensures err { OnErr result
        (children_of children.new.entries ≡ children_of children.old.entries) }
    ensures memory { IfErr result (λ e. e ≡ CountError.Memory) }
{
    if let Some(there) = children.get_mut(&language) {
        let before = there.len();
        there.append(&mut reports)?;
        return Ok(Some(before));
    }
    let _none = children.insert(language, reports)?;
    Ok(None)
}

/// Leaves the language the reports that stood there before, or takes it out where it was new.
fn take_back(
    children: &mut BTreeMap<LanguageType, Vec<Report>>,
    language: LanguageType,
    before: Option<usize>,
)
    ensures { children_of children.new.entries
        ≡ taken_back (first before) (children_of children.old.entries) language }
{
    match before {
        Some(count) => {
            if let Some(there) = children.get_mut(&language) {
                there.truncate(count);
            }
        }
        None => {
            let _added = children.remove(&language);
        }
    }
}

/// Takes back what `append` did, the last first.
pub(crate) fn take_all_back(
    children: &mut BTreeMap<LanguageType, Vec<Report>>,
    mut before: Vec<(LanguageType, Option<usize>)>,
)
    ensures { children_of children.new.entries
        ≡ all_taken_back (children_of children.old.entries) before.items }
{
    while let Some(last) = before.pop() {
        take_back(children, last.0, last.1);
    }
}

/// Appends the reports of each language. A refusal changes nothing. The answer is what
/// `take_all_back` needs.
pub(crate) fn append(
    alloc: Global,
    children: &mut BTreeMap<LanguageType, Vec<Report>>,
    more: BTreeMap<LanguageType, Vec<Report>>,
) -> Result<Vec<(LanguageType, Option<usize>)>, CountError>
    ensures ok { OnOk result (children_of children.new.entries
        ≡ appended (children_of children.old.entries) (children_of more.entries)) }
    ensures back { IfOk result (λ before.
        all_taken_back (children_of children.new.entries) before.items
        ≡ children_of children.old.entries) }
    ensures err { OnErr result
        (children_of children.new.entries ≡ children_of children.old.entries) }
    ensures memory { IfErr result (λ e. e ≡ CountError.Memory) }
{
    let mut before = Vec::with_capacity(alloc, more.len())?;
    for (language, reports) in more {
        match append_at(children, language, reports) {
            Ok(count) => before.push((language, count)).unwrap(),
            Err(refused) => {
                take_all_back(children, before);
                return Err(refused);
            }
        }
    }
    Ok(before)
}
