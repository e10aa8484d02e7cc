//! The words of `--types` that name no language, as lines of a log.
ghost use Rattle.std.specs.Prelude.{◌≡◌, ◌++◌, ◌∷◌, [], OnOk, map, string_bytes};
ghost use Rattle.tokei_invocation.specs.Types.{has_outer_blanks, is_unnamed, piece_line, type_lines, unnamed_in, unnamed_of, words_of_piece};

use crate::note_lines::filter;
use log::sink::Lines;
use log::{Level, Record};
use std::alloc::{AllocError, Global};
use tokei_cli::Cli;
use tokei_stats::shown::shown;
use tokei_table::{LanguageTable, LanguageType};
use tokei_table_row::trim;

/// Whether blanks stand at an end of a text.
fn has_outer_blanks(text: &str) -> bool
    ensures { result ≡ has_outer_blanks text.now }
{
    trim(text.as_bytes()).len() < text.len()
}

/// What is said of a piece that names no language.
fn words(piece: &str) -> &'static str
    ensures { result.now ≡ words_of_piece piece.now }
{
    if has_outer_blanks(piece) {
        "no language with these blanks"
    } else {
        "no such language"
    }
}

/// Whether a piece names no language.
fn is_unnamed(table: &LanguageTable, piece: &str) -> bool
    ensures { result ≡ is_unnamed table.now piece.now }
{
    LanguageType::from_str(table, piece).is_none()
}

/// Adds the line of a piece that names no language.
fn push_piece(alloc: Global, piece: &str, lines: &mut Lines) -> Result<(), AllocError>
    ensures { OnOk result (lines.new ≡ lines.old ++ piece_line piece.now ∷ []) }
{
    let shown = shown(alloc, piece)?;
    let quoted = format!(in alloc; "'{shown}'")?;
    let record = Record::builder()
        .level(Level::Warn)
        .target(words(piece))
        .args(quoted.as_str())
        .build();
    lines.push(&record)
}

/// Adds the lines of the pieces of a word, between its commas, that name no language.
fn push_pieces(
    alloc: Global,
    table: &LanguageTable,
    word: &str,
    lines: &mut Lines,
) -> Result<(), AllocError>
    ensures { OnOk result
        (lines.new ≡ lines.old ++ map piece_line (unnamed_in table.now word.now)) }
{
    for piece in word.split(',') {
        if is_unnamed(table, piece) {
            push_piece(alloc, piece, lines)?;
        }
    }
    Ok(())
}

/// Adds those of all words.
fn push_words(
    alloc: Global,
    table: &LanguageTable,
    words: &[String],
    lines: &mut Lines,
) -> Result<(), AllocError>
    ensures { OnOk result (lines.new
        ≡ lines.old ++ map piece_line (unnamed_of table.now (map string_bytes words.now))) }
{
    for word in words {
        push_pieces(alloc, table, word.as_str(), lines)?;
    }
    Ok(())
}

/// Adds the lines of the words of `--types` that name no language, where warnings are shown.
pub fn log_types(
    alloc: Global,
    table: &LanguageTable,
    cli: &Cli,
    lines: &mut Lines,
) -> Result<(), AllocError>
    ensures { OnOk result (lines.new ≡ lines.old ++ type_lines table.now cli.now) }
{
    if !filter(cli.verbose).allows(Level::Warn) {
        return Ok(());
    }
    match &cli.types {
        Some(words) => push_words(alloc, table, words.as_slice(), lines),
        None => Ok(()),
    }
}
