//! The words of a command line that are read by the types that they name.
ghost use Rattle.std.specs.Prelude.{◌≡◌, true, IfErr, IfOk};
ghost use Rattle.tokei_invocation.specs.OutputEndings.{is_out_of_memory};
ghost use Rattle.tokei_invocation.specs.Statuses.{status_of};
ghost use Rattle.tokei_program.specs.Choices.{Chooses, GivesFormat, HasUnread, wanted_of};
ghost use Rattle.tokei_program.specs.Words.{IsUnread, ReadsAs};

use std::alloc::{AllocError, Global};
use std::str::FromStr;
use tokei::{Format, FormatError, NumberFormatStyle, Sort, Streaming, Wanted};
use tokei_cli::{Cli, refused_because, refused_word};
use tokei_invocation::Ending;

/// The words that choose a column.
const COLUMNS: [&str; 5] = ["files", "lines", "blanks", "code", "comments"];

/// The words that choose the form of a stream.
const STREAMING: [&str; 2] = ["simple", "json"];

/// The words that choose how numbers are shown.
const STYLES: [&str; 4] = ["plain", "commas", "dots", "underscores"];

/// What the words of a command line choose.
#[derive(Drop)]
pub struct Choices {
    pub wanted: Wanted,
    pub sort: Option<Sort>,
    pub numbers: NumberFormatStyle,
}

/// What a word is read as, where there is a word; refused with a text that names the word and its
/// option.
fn read<T: FromStr>(
    alloc: Global,
    option: &str,
    possible: &[&str],
    word: &Option<String>,
) -> Result<Option<T>, Ending>
where
    T::Err: Drop,
    ensures read { IfOk result (ReadsAs T.from_str_gives word.now) }
    ensures refused { IfErr result (λ e. status_of e ≡ 2 → IsUnread T.from_str_gives word.now) }
    ensures cause { IfErr result (λ e. status_of e ≡ 1 → is_out_of_memory e ≡ true) }
{
    let Some(word) = word else {
        return Ok(None);
    };
    match T::from_str(word.as_str()) {
        Ok(value) => Ok(Some(value)),
        Err(_) => Err(Ending::Refused(refused_word(alloc, option, word.as_str(), possible)?)),
    }
}

/// That the format of this name isn't built in.
fn not_built(alloc: Global, word: &str) -> Result<String, AllocError> {
    let cause = "this format isn't built in";
    refused_because(alloc, "output", word, cause, Format::supported())
}

/// The format that a word names, where there is a word; refused with a text that says so where it
/// names one that isn't built in.
fn output(alloc: Global, word: &Option<String>) -> Result<Option<Format>, Ending>
    ensures read { IfOk result (ReadsAs GivesFormat word.now) }
    ensures refused { IfErr result (λ e. status_of e ≡ 2 → IsUnread GivesFormat word.now) }
    ensures cause { IfErr result (λ e. status_of e ≡ 1 → is_out_of_memory e ≡ true) }
{
    if let Some(text) = word {
        if matches!(Format::from_str(text.as_str()), Err(FormatError::NotBuilt)) {
            return Err(Ending::Refused(not_built(alloc, text.as_str())?));
        }
    }
    read::<Format>(alloc, "output", Format::supported(), word)
}

/// What is written: a stream before a document, and a document before the report.
fn wanted(streaming: Option<Streaming>, output: Option<Format>) -> Wanted
    ensures { result ≡ wanted_of streaming output }
{
    match (streaming, output) {
        (Some(form), _) => Wanted::Stream(form),
        (None, Some(format)) => Wanted::Document(format),
        (None, None) => Wanted::Report,
    }
}

impl Choices {
    /// Reads the words of output, streaming, sort and num-format. One that isn't known makes it a
    /// refused command line, and nothing else does; else memory ran out.
    pub fn of(alloc: Global, cli: &Cli) -> Result<Choices, Ending>
        ensures read { IfOk result (λ c. Chooses cli.now c.wanted c.sort c.numbers) }
        ensures refused { IfErr result (λ e. status_of e ≡ 2 → HasUnread cli.now) }
        ensures cause { IfErr result (λ e. status_of e ≡ 1 → is_out_of_memory e ≡ true) }
    {
        let output = output(alloc, &cli.output)?;
        let streaming = read::<Streaming>(alloc, "streaming", &STREAMING, &cli.streaming)?;
        let option = if cli.sort_reverse { "rsort" } else { "sort" };
        let sort = read::<Sort>(alloc, option, &COLUMNS, &cli.sort)?;
        let numbers = read::<NumberFormatStyle>(alloc, "num-format", &STYLES, &cli.number_format)?;
        Ok(Choices {
            wanted: wanted(streaming, output),
            sort,
            numbers: numbers.unwrap_or(NumberFormatStyle::Plain),
        })
    }
}
