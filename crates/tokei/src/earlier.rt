//! The results of earlier runs.
ghost use Rattle.std.specs.Prelude.{◌≡◌, IfErr, IfOk};
ghost use Rattle.tokei_languages.specs.Seen.{languages_of};
ghost use Rattle.tokei.specs.Earlier.{earlier_of};

use crate::job::Job;
use std::alloc::Global;
use tokei_languages::Languages;
use tokei_stats::CountError;

/// A copy of each language.
fn copied(alloc: Global, languages: &Languages) -> Result<Languages, CountError>
    ensures ok { IfOk result (λ copies. languages_of copies ≡ languages_of languages.now) }
    ensures memory { IfErr result (λ e. e ≡ CountError.Memory) }
{
    let mut copies = Languages::new(alloc);
    for (language, value) in languages.iter() {
        let copy = value.try_clone()?;
        let _none = copies.insert(*language, copy)?;
    }
    Ok(copies)
}

/// The languages of earlier runs, to which a job's own are added: a copy of each, and none where
/// the job has none.
pub fn earlier_languages(alloc: Global, job: &Job) -> Result<Languages, CountError>
    ensures ok { IfOk result (λ languages. languages_of languages ≡ earlier_of job.now.earlier) }
    ensures memory { IfErr result (λ e. e ≡ CountError.Memory) }
{
    match &job.earlier {
        Some(languages) => copied(alloc, languages),
        None => Ok(Languages::new(alloc)),
    }
}
