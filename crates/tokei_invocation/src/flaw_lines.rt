//! The configuration files that count as empty though they are there, as lines of a log.
ghost use Rattle.std.specs.Prelude.{◌≡◌, ◌++◌, ◌∷◌, [], IfOk, OnOk, map, string_bytes};
ghost use Rattle.tokei_invocation.specs.FlawLines.{explained, flaw_line, flaw_lines, happened, told_of, words_of_cause, words_of_setting};

use crate::note_lines::filter;
use crate::shown::followed;
use log::sink::Lines;
use log::{Level, Record};
use std::alloc::{AllocError, Global};
use tokei_cli::Cli;
use tokei_config::{Cause, Flaw, Setting};
use tokei_stats::shown::shown;

/// What is wrong with a member.
fn words_of_setting(setting: Setting) -> &'static str
    ensures { result.now ≡ words_of_setting setting }
{
    match setting {
        Setting::Columns => "'columns' is no number of columns",
        Setting::Hidden => "'hidden' is neither true nor false",
        Setting::NoIgnore => "'no_ignore' is neither true nor false",
        Setting::NoIgnoreParent => "'no_ignore_parent' is neither true nor false",
        Setting::NoIgnoreDot => "'no_ignore_dot' is neither true nor false",
        Setting::NoIgnoreVcs => "'no_ignore_vcs' is neither true nor false",
        Setting::TreatDocStringsAsComments => {
            "'treat_doc_strings_as_comments' is neither true nor false"
        }
        Setting::Sort => "'sort' is no column",
        Setting::Types => "'types' is no list of languages",
        Setting::Languages => "'languages' is no table of languages and their extensions",
    }
}

/// Why a file counts as empty.
fn words(cause: Cause) -> &'static str
    ensures { result.now ≡ words_of_cause cause }
{
    match cause {
        Cause::Unreadable => "it can't be read",
        Cause::NotUtf8 => "it isn't UTF-8",
        Cause::NotToml => "it isn't TOML",
        Cause::BadSetting(setting) => words_of_setting(setting),
    }
}

/// Why a file counts as empty, with what else is known of it.
fn explained(alloc: Global, flaw: &Flaw) -> Result<String, AllocError>
    ensures { IfOk result (λ text. string_bytes text ≡ explained flaw.now) }
{
    followed(alloc, words(flaw.cause), flaw.detail.as_str())
}

/// The file, and why it counts as empty.
fn told(alloc: Global, flaw: &Flaw) -> Result<String, AllocError>
    ensures { IfOk result (λ text. string_bytes text ≡ told_of flaw.now) }
{
    let place = shown(alloc, flaw.place.as_str())?;
    let why = explained(alloc, flaw)?;
    format!(in alloc; "{place}: {why}")
}

/// What has happened.
#[tactic(auto, unfolding(crate::specs::FlawLines::happened))]
fn happened() -> &'static str
    ensures { result.now ≡ happened }
{
    "configuration counts as empty"
}

/// Adds the line of a file that counts as empty.
fn push_flaw(alloc: Global, flaw: &Flaw, lines: &mut Lines) -> Result<(), AllocError>
    ensures { OnOk result (lines.new ≡ lines.old ++ flaw_line flaw.now ∷ []) }
{
    let text = told(alloc, flaw)?;
    let record = Record::builder()
        .level(Level::Warn)
        .target(happened())
        .args(text.as_str())
        .build();
    lines.push(&record)
}

/// Adds the lines of all of them.
fn push_flaws(alloc: Global, flaws: &[Flaw], lines: &mut Lines) -> Result<(), AllocError>
    ensures { OnOk result (lines.new ≡ lines.old ++ map flaw_line flaws.now) }
{
    for flaw in flaws {
        push_flaw(alloc, flaw, lines)?;
    }
    Ok(())
}

/// Adds the lines of the configuration files that count as empty, where warnings are shown.
pub fn log_flaws(
    alloc: Global,
    cli: &Cli,
    flaws: &[Flaw],
    lines: &mut Lines,
) -> Result<(), AllocError>
    ensures { OnOk result (lines.new ≡ lines.old ++ flaw_lines cli.now flaws.now) }
{
    if filter(cli.verbose).allows(Level::Warn) {
        push_flaws(alloc, flaws, lines)
    } else {
        Ok(())
    }
}
