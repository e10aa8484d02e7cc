//! Earlier results, as bytes or read from a source, and added to languages.
ghost use Rattle.std.specs.Prelude.{◌≡◌, ◌≢◌, ◌<◌, ◌≤◌, length, IfErr, IfOk, IfSome, IsErrOf, OnErr, OnOk, Err};
ghost use Rattle.std.specs.Io.KnownBytes.{IsAtEnd};
ghost use Rattle.tokei_earlier.specs.Adding.{IsAdded, PassesUsize};
ghost use Rattle.tokei_earlier.specs.Outcome.{outcome_of_bytes};
ghost use Rattle.tokei_earlier.specs.Bounds.{most_bytes};
ghost use Rattle.tokei_io.specs.Reads.{most_reads};
ghost use Rattle.tokei_languages.specs.Seen.{languages_of};

use crate::document::parse_bytes;
use crate::error::InputError;
use std::alloc::Global;
use tokei_io::Source;
use tokei_languages::Languages;
use tokei_stats::CountError;
use tokei_table::LanguageTable;

/// The most reads of one input.
const MAX_READS: u64 = 4_294_967_296;

/// The most bytes of one input.
const MAX_BYTES: usize = 4_294_967_296;

/// All bytes of a source, of which there are at most `MAX_BYTES`, in at most `MAX_READS` reads.
fn read_all<S: Source>(alloc: Global, source: &mut S) -> Result<Vec<u8>, InputError>
    ensures bytes { IfOk result (λ v. IfSome (S.remaining source.old) (λ text. v.items ≡ text)) }
    ensures end { OnOk result (IsAtEnd (S.remaining source.new)) }
    ensures bound { IfOk result (λ v. length v.items ≤ most_bytes) }
    ensures too_long { result ≡ Err InputError.TooLong
        → IfSome (S.remaining source.old) (λ text. most_bytes < length text) }
    ensures fault { S.faults source.old < u64.MAX → result ≢ Err InputError.Unreadable
        → S.faults source.new ≡ S.faults source.old }
    ensures reads_ran_out { S.faults source.old < u64.MAX → result ≡ Err InputError.Unreadable
        → S.faults source.new ≡ S.faults source.old
        → IfSome (S.remaining source.old) (λ text. most_reads ≤ length text) }
    ensures refused { IfErr result (λ e. e ≢ InputError.Unreadable → e ≢ InputError.TooLong
        → e ≡ InputError.Memory) }
{
    let mut bytes = Vec::new(alloc);
    let mut buffer = [0u8; 65536];
    for _ in 0..MAX_READS {
        match source.pull(&mut buffer) {
            Err(_) => return Err(InputError::Unreadable),
            Ok(0) => return Ok(bytes),
            Ok(n) if n > MAX_BYTES - bytes.len() => return Err(InputError::TooLong),
            Ok(n) => bytes.extend_from_slice(&buffer[..n])?,
        }
    }
    Err(InputError::Unreadable)
}

/// Adds the languages of the bytes, however many they are. A refusal changes nothing.
fn add_all(
    alloc: Global,
    table: &LanguageTable,
    bytes: &[u8],
    languages: &mut Languages,
) -> Result<(), InputError>
    ensures added { OnOk result
        (IsAdded table.now (languages_of languages.old) (languages_of languages.new) bytes.now) }
    ensures overflow { IsErrOf result InputError.Overflow
        → PassesUsize table.now (languages_of languages.old) bytes.now }
    ensures refused { IfErr result (λ e. e ≢ InputError.Memory → e ≢ InputError.Overflow
        → outcome_of_bytes table.now bytes.now ≡ Err e) }
    ensures unreadable { result ≢ Err InputError.Unreadable }
    ensures too_long { result ≢ Err InputError.TooLong }
    ensures err { OnErr result (languages_of languages.new ≡ languages_of languages.old) }
{
    let read = parse_bytes(alloc, table, bytes)?;
    match languages.add(read) {
        Ok(()) => Ok(()),
        Err(CountError::Memory) => Err(InputError::Memory),
        Err(CountError::Overflow) => Err(InputError::Overflow),
    }
}

/// Reads all of the reader as earlier results, and adds their languages. Refused as `Format::parse`
/// refuses a text, bytes that aren't UTF-8 as `NotJson`; `Unreadable` where the reader had a fault
/// or didn't end within 4,294,967,296 reads; `TooLong` where it has more bytes than that, of which
/// no more is then kept in memory; `Overflow` only where a sum of two counts passes the
/// greatest `usize`; `Memory` where an allocation failed. A refusal leaves the languages as they
/// were, and of the reader's place nothing is said.
pub fn add_input<S: Source>(
    alloc: Global,
    table: &LanguageTable,
    reader: &mut S,
    languages: &mut Languages,
) -> Result<(), InputError>
    ensures added { OnOk result (IfSome (S.remaining reader.old)
        (IsAdded table.now (languages_of languages.old) (languages_of languages.new))) }
    ensures whole { OnOk result (IsAtEnd (S.remaining reader.new)) }
    ensures overflow { IsErrOf result InputError.Overflow → IfSome (S.remaining reader.old)
        (PassesUsize table.now (languages_of languages.old)) }

    // The other causes but `Memory` are those of the bytes.
    ensures refused { IfErr result (λ e. e ≢ InputError.Memory → e ≢ InputError.Overflow
        → e ≢ InputError.Unreadable → e ≢ InputError.TooLong
        → IfSome (S.remaining reader.old) (λ bytes. outcome_of_bytes table.now bytes ≡ Err e)) }

    // A fault of the reader gives `Unreadable`, and without one `Unreadable` says that the reads
    // ran out.
    ensures read_fault { S.faults reader.old < u64.MAX → result ≢ Err InputError.Unreadable
        → S.faults reader.new ≡ S.faults reader.old }
    ensures reads_ran_out { S.faults reader.old < u64.MAX → result ≡ Err InputError.Unreadable
        → S.faults reader.new ≡ S.faults reader.old
        → IfSome (S.remaining reader.old) (λ bytes. most_reads ≤ length bytes) }

    // More bytes than there may be are refused as that, and no others are.
    ensures bound { OnOk result
        (IfSome (S.remaining reader.old) (λ bytes. length bytes ≤ most_bytes)) }
    ensures too_long { result ≡ Err InputError.TooLong
        → IfSome (S.remaining reader.old) (λ bytes. most_bytes < length bytes) }

    ensures err { OnErr result (languages_of languages.new ≡ languages_of languages.old) }
{
    let bytes = read_all(alloc, reader)?;
    add_all(alloc, table, &bytes, languages)
}

/// Adds the languages of bytes that are earlier results. Refused as `Format::parse` refuses a text,
/// bytes that aren't UTF-8 as `NotJson`; `TooLong` where there are more than 4,294,967,296 of them;
/// `Overflow` only where a sum of two counts passes the greatest `usize`; `Memory` where an
/// allocation failed. A refusal leaves the languages as they were.
pub fn add_bytes(
    alloc: Global,
    table: &LanguageTable,
    bytes: &[u8],
    languages: &mut Languages,
) -> Result<(), InputError>
    ensures added { OnOk result
        (IsAdded table.now (languages_of languages.old) (languages_of languages.new) bytes.now) }
    ensures overflow { IsErrOf result InputError.Overflow
        → PassesUsize table.now (languages_of languages.old) bytes.now }
    ensures refused { IfErr result (λ e. e ≢ InputError.Memory → e ≢ InputError.Overflow
        → e ≢ InputError.TooLong → outcome_of_bytes table.now bytes.now ≡ Err e) }
    ensures unreadable { result ≢ Err InputError.Unreadable }
    ensures bound { OnOk result (length bytes.now ≤ most_bytes) }
    ensures too_long { result ≡ Err InputError.TooLong → most_bytes < length bytes.now }
    ensures err { OnErr result (languages_of languages.new ≡ languages_of languages.old) }
{
    if bytes.len() > MAX_BYTES {
        return Err(InputError::TooLong);
    }
    add_all(alloc, table, bytes, languages)
}
