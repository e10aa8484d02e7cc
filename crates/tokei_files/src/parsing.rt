//! The report of one file.
ghost use Rattle.std.specs.Prelude.{◌≡◌, ◌≢◌, ◌<◌, None, Some, length, IfOk, IfErr, IsSomeAnd, string_bytes};
ghost use Rattle.tokei_config.specs.Seen.{settings_of};
ghost use Rattle.tokei_folders.specs.Answers.{Told};
ghost use Rattle.tokei_stats.specs.Overflow.{Fits};
ghost use Rattle.tokei_stats.specs.Seen.{stats_of};
ghost use Rattle.tokei_files.specs.declared.error.ParseFault.TheVariants.{Refused as NotRead, Memory as OutOfMemory, Overflow as TooMany};
ghost use Rattle.tokei_files.specs.Configs.{is_on};
ghost use Rattle.tokei_files.specs.Contents.{content_at};
ghost use Rattle.tokei_files.specs.ContentStatistics.{stats_at};
ghost use Rattle.tokei_folders.specs.AsTheyWere.{AsTheyWere, FaultsStay};

use crate::counting::Counting;
use crate::error::ParseFault;
use std::alloc::Global;
use tokei_config::Config;
use tokei_count::Counter;
use tokei_folders::Folders;
use tokei_stats::Report;
use tokei_table::LanguageType;

/// The report of the file at a path, in a language of the counter's table: what its content counts,
/// once it is decoded, under that path. The path comes back with each refusal, and the folders keep
/// their tree. `Overflow` comes only where a count of the file passes the greatest `usize`.
pub fn parse_file<F: Folders>(
    alloc: Global,
    counter: &Counter,
    language: LanguageType,
    folders: &mut F,
    path: String,
    config: &Config,
) -> Result<Report, (ParseFault, String)>
    requires { language < length counter.now }
    ensures folders { AsTheyWere F.tree F.memory_faults folders.old folders.new result }
    ensures told { Told (F.tree folders.old) (λ t. IfOk result (λ r. Some (stats_of r.stats)
        ≡ stats_at t counter.now (is_on (settings_of config.now).treat_doc_strings_as_comments)
        language (string_bytes path))) }
    ensures name { IfOk result (λ r. r.name ≡ path) }
    ensures back { IfErr result (λ e. e.1 ≡ path) }
    ensures refused { IfErr result (λ e. e.0 ≡ NotRead → Told (F.tree folders.old) (λ t.
        content_at t (string_bytes path) ≡ None)) }
    ensures overflow { IfErr result (λ e. e.0 ≡ TooMany
        → Told (F.tree folders.old) (λ t. IsSomeAnd
        (stats_at t counter.now (is_on (settings_of config.now).treat_doc_strings_as_comments)
        language (string_bytes path))
        (λ s. ¬ Fits s))) }
    ensures counted { IfErr result (λ e. e.0 ≢ OutOfMemory
        → FaultsStay F.memory_faults folders.old folders.new) }
{
    let reading = Counting {
        alloc,
        counter,
        config: config.counting(),
        types: None,
    };
    match reading.count_file(folders, language, path.as_str(), false) {
        Ok(stats) => Ok(Report { stats, name: path }),
        Err(fault) => Err((fault, path)),
    }
}
