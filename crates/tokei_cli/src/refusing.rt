//! Why the word of an option is refused that takes one of a few words.
use clap::error::ErrorKind;
use clap::{Arg, ArgAction, Command, Error};
use std::alloc::{AllocError, Global};

/// What the parser itself says where such an option is handed other words: it lists those that the
/// option takes, and suggests a near one.
fn parser_text<'a>(
    alloc: Global,
    option: &'a str,
    possible: &'a [&'a str],
    words: &'a [String],
) -> Result<Option<String>, AllocError> {
    let arg = Arg::new(alloc, option)
        .long(option)
        .action(ArgAction::Set)
        .value_parser(possible);
    let command = Command::new(alloc, "tokei").no_binary_name(true).arg(arg)?;
    match command.try_get_matches_from(words) {
        Ok(_) => Ok(None),
        Err(error) => Ok(Some(error_text(alloc, &error)?)),
    }
}

/// The text of an error of the parser.
fn error_text(alloc: Global, error: &Error) -> Result<String, AllocError> {
    match error.kind() {
        ErrorKind::OutOfMemory => Err(AllocError),
        _ => format!(in alloc; "{error}"),
    }
}

/// The same of texts that don't live equally long.
fn said_of(
    alloc: Global,
    option: &str,
    possible: &[&str],
    words: &[String],
) -> Result<Option<String>, AllocError> {
    parser_text(alloc, option, possible, words)
}

/// Why a word is refused that is none of those that its option takes. The text lists these, and
/// suggests one that is near.
pub fn refused_word(
    alloc: Global,
    option: &str,
    word: &str,
    possible: &[&str],
) -> Result<String, AllocError> {
    let given = format!(in alloc; "--{option}={word}")?;
    match said_of(alloc, option, possible, &[given])? {
        Some(text) => Ok(text),
        None => refused_because(alloc, option, word, "no such word", possible),
    }
}

/// Why a word is refused, with this cause.
pub fn refused_because(
    alloc: Global,
    option: &str,
    word: &str,
    cause: &str,
    possible: &[&str],
) -> Result<String, AllocError> {
    let listed = possible.join(alloc, ", ")?;
    format!(in alloc;
        "error: invalid value '{word}' for '--{option} <{option}>': {cause}\n  [possible values: {listed}]\n\nFor more information, try '--help'.\n"
    )
}
