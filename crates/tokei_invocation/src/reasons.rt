//! How a run ends, in the words that folders, readers and writers have for it.
ghost use Rattle.std.specs.Prelude.{◌≡◌, true, Err, IfOk, string_bytes};
ghost use Rattle.tokei_invocation.specs.Endings.{IsEndingOfTable, IsTableTold};
ghost use Rattle.tokei_invocation.specs.OutputEndings.{is_ending_of, is_out_of_memory, is_unreadable, is_unwritten};
ghost use Rattle.tokei_invocation.specs.Statuses.{status_of};
ghost use Rattle.tokei_table_json.specs.Outcome.{outcome};

use crate::ending::Ending;
use std::alloc::{AllocError, Global};
use tokei_folders::Folders;
use tokei_io::{OutputError, Sink, Source};
use tokei_stats::shown::shown;
use tokei_table_json::{TableError, TableFlaw};

/// The words, where there are some.
fn some_words(words: Result<String, AllocError>) -> Option<String> {
    match words {
        Ok(words) => if words.is_empty() { None } else { Some(words) },
        Err(_) => None,
    }
}

/// Memory ran out: for the content of the place that folders name, where they do.
pub fn no_memory<F: Folders>(alloc: Global, folders: &F) -> Ending
    ensures failed { status_of result ≡ 1 }
    ensures told { is_out_of_memory result ≡ true }
{
    match some_words(shown(alloc, folders.unheld())) {
        Some(place) => Ending::NoRoom(place),
        None => Ending::Memory,
    }
}

/// A place, and why the table there is refused: with the language and the member that go wrong,
/// where those can be told.
fn table_and_cause(
    alloc: Global,
    place: &str,
    error: TableError,
    bytes: &[u8],
) -> Result<String, AllocError>
    ensures { outcome bytes.now ≡ Err error
        → IfOk result (λ text. IsTableTold place.now bytes.now (string_bytes text)) }
{
    match TableFlaw::find(alloc, bytes)? {
        Some(flaw) => format!(in alloc; "{place}: {flaw}"),
        None => format!(in alloc; "{place}: {error}"),
    }
}

/// The table at a place is refused.
pub fn refused_table(alloc: Global, place: &str, error: TableError, bytes: &[u8]) -> Ending
    ensures failed { status_of result ≡ 1 }
    ensures told { outcome bytes.now ≡ Err error
        → IsEndingOfTable place.now bytes.now result }
{
    match table_and_cause(alloc, place, error, bytes) {
        Ok(text) => Ending::Table(text),
        Err(_) => Ending::Memory,
    }
}

/// Earlier results couldn't be read from a source.
pub fn unreadable<S: Source>(alloc: Global, source: &S) -> Ending
    ensures failed { status_of result ≡ 1 }
    ensures told { is_unreadable result ≡ true }
{
    match some_words(source.cause(alloc)) {
        Some(cause) => Ending::UnreadableBy(cause),
        None => Ending::Unreadable,
    }
}

/// A writer had a fault.
fn unwritten<W: Sink>(alloc: Global, writer: &W) -> Ending
    ensures failed { status_of result ≡ 1 }
    ensures told { is_unwritten result ≡ true }
{
    match some_words(writer.cause(alloc)) {
        Some(cause) => Ending::Unwritten(cause),
        None => Ending::Write,
    }
}

/// An output ended.
pub fn ended<W: Sink>(alloc: Global, error: OutputError, writer: &W) -> Ending
    ensures failed { status_of result ≡ 1 }
    ensures told { is_ending_of error result ≡ true }
{
    match error {
        OutputError::Memory => Ending::Memory,
        OutputError::Overflow => Ending::Overflow,
        OutputError::Write => unwritten(alloc, writer),
    }
}

/// A run over these folders ended.
pub fn run_ended<F: Folders, W: Sink>(
    alloc: Global,
    error: OutputError,
    folders: &F,
    writer: &W,
) -> Ending
    ensures failed { status_of result ≡ 1 }
    ensures told { is_ending_of error result ≡ true }
{
    match error {
        OutputError::Memory => no_memory(alloc, folders),
        error => ended(alloc, error, writer),
    }
}
