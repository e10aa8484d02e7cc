//! The lines of what was passed over.
ghost use Rattle.std.specs.Prelude.{◌≡◌, ◌++◌, IfOk, OnOk, flat_map, map, string_bytes};
ghost use Rattle.tokei_invocation.specs.NotesText.{ended, passed_text};

use crate::flaw_lines::log_flaws;
use crate::note_lines::log_notes;
use crate::types::log_types;
use log::sink::Lines;
use std::alloc::{AllocError, Global};
use tokei_cli::Cli;
use tokei_config::Flaw;
use tokei_table::LanguageTable;
use tokei_walk::Note;

/// Puts a line and its newline behind the text.
fn push_line(text: &mut String, line: &str) -> Result<(), AllocError>
    ensures { OnOk result (string_bytes text.new ≡ string_bytes text.old ++ ended line.now) }
{
    text.push_str(line)?;
    text.push('\n')?;
    Ok(())
}

/// The lines, each with its newline.
fn text_of(alloc: Global, lines: &[String]) -> Result<String, AllocError>
    ensures { IfOk result (λ text. string_bytes text
        ≡ flat_map ended (map string_bytes lines.now)) }
{
    let mut text = String::new(alloc);
    for line in lines {
        push_line(&mut text, line.as_str())?;
    }
    Ok(text)
}

/// The lines of what a run passed over, by notes as they are shown, of the configuration files that
/// count as empty, and of the words of its command line that name no language of the table; of
/// those that are shown where `--verbose` was given so often. It fails where memory runs out.
pub fn passed_text(
    alloc: Global,
    table: &LanguageTable,
    cli: &Cli,
    notes: &[Note],
    flaws: &[Flaw],
) -> Result<String, AllocError>
    ensures { IfOk result (λ text. string_bytes text
        ≡ passed_text table.now cli.now notes.now flaws.now) }
{
    let mut lines = Lines::new(alloc);
    log_notes(notes, cli.verbose, &mut lines)?;
    log_flaws(alloc, cli, flaws, &mut lines)?;
    log_types(alloc, table, cli, &mut lines)?;
    text_of(alloc, lines.as_slice())
}
