//! What a run counts, made of the command line and what was found for it.
ghost use Rattle.std.specs.Prelude.{◌≡◌, IfErr, IfOk};
ghost use Rattle.tokei_cli.specs.CommandLines.{excludes_of};
ghost use Rattle.tokei_folders.specs.Answers.{Told};
ghost use Rattle.tokei_folders.specs.AsTheyWere.{SameTree};
ghost use Rattle.tokei_invocation.specs.Configs.{AreFlaws};
ghost use Rattle.tokei_invocation.specs.Endings.{HasFailed};
ghost use Rattle.tokei_invocation.specs.Statuses.{status_of};
ghost use Rattle.tokei_program.specs.Choices.{Chooses};
ghost use Rattle.tokei_program.specs.Columns.{columns_of};
ghost use Rattle.tokei_program.specs.Jobs.{IsJob, IsJobOf};
ghost use Rattle.tokei_program.specs.Reasons.{IsEndingBefore};
ghost use Rattle.tokei_walk.specs.Walks.{texts_of};

use crate::choices::Choices;
use std::alloc::{AllocError, Global};
use tokei::columns::FALLBACK_ROW_LEN;
use tokei::{Config, Folders, Job, LanguageTable, Languages, Source};
use tokei_cli::Cli;
use tokei_config::Flaw;
use tokei_invocation::{Ending, Env, check_roots, configuration, earlier};

/// The texts as owned ones.
fn all_owned(alloc: Global, texts: &[String]) -> Result<Vec<String>, AllocError>
    ensures { IfOk result (λ v. texts_of v.items ≡ texts_of texts.now) }
{
    let mut all = Vec::with_capacity(alloc, texts.len())?;
    for text in texts {
        all.push(String::from_str(alloc, text.as_str())?)?;
    }
    Ok(all)
}

/// The width of the report: that of the option, else that of the configuration, else 81.
fn columns(option: Option<usize>, configured: Option<usize>) -> usize
    ensures { result ≡ columns_of option configured }
{
    option.or(configured).unwrap_or(FALLBACK_ROW_LEN)
}

/// The run of a command line.
fn job_of(
    alloc: Global,
    cli: &Cli,
    choices: Choices,
    config: Config,
    earlier: Option<Languages>,
) -> Result<Job, AllocError>
    ensures members { IfOk result (IsJob cli.now) }
    ensures chosen { IfOk result (λ j. (j.wanted ≡ choices.wanted) × (j.sort ≡ choices.sort)
        × (j.numbers ≡ choices.numbers)) }
    ensures found { IfOk result (λ j. (j.config ≡ config) × (j.earlier ≡ earlier)) }
{
    Ok(Job {
        paths: all_owned(alloc, cli.input())?,
        ignored: all_owned(alloc, cli.ignored_directories())?,
        columns: columns(cli.columns, config.columns),
        config,
        earlier,
        wanted: choices.wanted,
        files: cli.files,
        compact: cli.compact,
        sort: choices.sort,
        reverse: cli.sort_reverse,
        numbers: choices.numbers,
    })
}

/// What the program is asked for: a command line, and the surroundings that it is given in.
#[derive(Clone, Copy)]
pub struct Request<'a> {
    pub cli: &'a Cli,
    pub env: &'a Env,
}

/// What is counted, and what is said beside it.
#[derive(Drop)]
pub struct Preparation {
    pub job: Job,
    /// The configuration files that count as empty though they are there.
    pub flaws: Vec<Flaw>,
}

/// What is counted, where all that the command line names is there.
pub fn prepare<F: Folders, S: Source>(
    alloc: Global,
    request: &Request,
    choices: Choices,
    table: &LanguageTable,
    folders: &mut F,
    input: &mut S,
) -> Result<Preparation, Ending>
    requires chosen { Chooses request.now.cli.now choices.wanted choices.sort choices.numbers }
    ensures same { SameTree F.tree folders.old folders.new }
    ensures excludes { IfOk result (λ p.
        texts_of p.job.ignored.items ≡ excludes_of request.now.cli.now) }
    ensures members { IfOk result (λ p. IsJob request.now.cli.now p.job) }
    ensures chosen { IfOk result (λ p. Chooses
        request.now.cli.now p.job.wanted p.job.sort p.job.numbers) }
    ensures told { Told (F.tree folders.old) (λ t. IfOk result (λ p. IsJobOf
        table.now request.now.cli.now request.now.env.now t (S.remaining input.old) p.job)) }
    ensures flawed { Told (F.tree folders.old) (λ t. IfOk result (λ p.
        AreFlaws table.now request.now.env.now t p.flaws.items)) }
    ensures cause { Told (F.tree folders.old) (λ t. IfErr result (IsEndingBefore
        table.now request.now.cli.now t (S.remaining input.old)
        (HasFailed (S.remaining input.old) (S.faults input.old) (S.faults input.new)))) }
    ensures failed { IfErr result (λ e. status_of e ≡ 1) }
{
    let read = configuration(alloc, request.cli, request.env, table, folders)?;
    let earlier = earlier(alloc, table, request.cli, folders, input)?;
    check_roots(alloc, folders, request.cli.input())?;
    let job = job_of(alloc, request.cli, choices, read.config, earlier)?;
    Ok(Preparation {
        job,
        flaws: read.flaws,
    })
}
