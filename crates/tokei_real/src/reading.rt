//! Reading a file, or its head.
ghost use Rattle.std.specs.Prelude.{◌≡◌, ◌<◌, ◌≤◌, ◌≢◌, IfErr, IfOk, IfSome, length, take};
ghost use Rattle.std.specs.Io.{ReadsAtMost};
ghost use Rattle.std.specs.IoError.{error_kind};
ghost use Rattle.std.specs.Io.KnownBytes.{Consumes, IsAtEnd};

use crate::limited::{Limited, MAX_READS};
use crate::retried::retried;
use crate::status::status;
use std::alloc::Global;
use std::fs::{File, Metadata, OpenFile};
use std::io;
use std::io::{Error, ErrorKind, Read};
use std::rt::Files;
use tokei_folders::Content;

/// How many bytes the head of a file has at most.
const HEAD: u64 = 128;

/// How many bytes the memory has at least into which listed files are read. Most files of source
/// code have fewer.
const ROOM: usize = 65_536;

/// The most bytes that are read at a place that a user names.
pub const MAX_NAMED_BYTES: u64 = 4_294_967_296;

/// That there are more bytes than these.
fn too_many(alloc: Global, most: u64) -> io::Result<Error> {
    let words = format!(in alloc; "more than {most} bytes")?;
    Ok(Error::new(ErrorKind::FileTooLarge, words.as_str()))
}

/// All that a reader has left. Room is made once for the number of bytes that it is said to have;
/// where it has more or fewer, all of them are read.
pub fn all_of<R: Read + Drop>(alloc: Global, reader: R, said: usize) -> io::Result<Vec<u8>>
    ensures { IfOk result (λ v. IfSome (R.remaining reader) (λ text. v.items ≡ text)) }
{
    // One byte more, so that the read that meets the end needs no further room.
    let mut bytes = Vec::with_capacity(alloc, said.saturating_add(1))?;
    Limited::new(reader).read_to_end(&mut bytes)?;
    Ok(bytes)
}

/// Reads what a reader has left to the front of a buffer, until that is full or the reader has
/// ended; how many bytes.
fn fill<R: Read>(reader: &mut R, buffer: &mut [u8]) -> io::Result<usize>
    ensures bound { ReadsAtMost result buffer.new }
    ensures read { IfOk result (λ n. Consumes (R.remaining reader.old) (R.remaining reader.new)
        (take n buffer.new)) }
    ensures end { IfOk result (λ n. n < length buffer.new → IsAtEnd (R.remaining reader.new)) }
{
    let mut filled = 0;
    for _ in 0..MAX_READS {
        if filled >= buffer.len() {
            return Ok(filled);
        }
        match reader.read(&mut buffer[filled..]) {
            Ok(0) => return Ok(filled),
            Ok(n) => filled += n,
            Err(e) if e.kind() == ErrorKind::Interrupted => {}
            Err(e) => return Err(e),
        }
    }
    Err(Error::from(ErrorKind::Other))
}

/// All that a reader has left, where that is `most` bytes at most; a reader that has more is
/// refused. Room is made once for the number of bytes that it is said to have.
pub fn all_within<R: Read + Drop>(
    alloc: Global,
    reader: R,
    said: usize,
    most: u64,
) -> io::Result<Vec<u8>>
    ensures bytes { IfOk result (λ v. IfSome (R.remaining reader) (λ text. v.items ≡ text)) }
    ensures bound { IfOk result (λ v. length v.items ≤ most) }
{
    let limit = most.saturating_add(1);
    let bytes = all_of(alloc, reader.take(limit), said)?;
    if bytes.len() as u64 >= limit {
        return Err(too_many(alloc, most)?);
    }
    Ok(bytes)
}

/// What the system says of an open file.
fn ask_status_of_file<F: OpenFile>(file: &F) -> io::Result<Metadata>
    ensures { IfErr result (λ e. error_kind e ≢ ErrorKind.Interrupted) }
{
    retried!(file.metadata())
}

/// All that an open file has left, read to the front of the room. Only where that is filled is the
/// length asked, and room made for the rest; where the file has more or fewer bytes, all of them
/// are read.
pub fn all_into<R: Read + OpenFile + Drop>(mut reader: R, mut room: Vec<u8>) -> io::Result<Content>
    ensures { IfOk result (λ c. IfSome (R.remaining reader) (λ text. c ≡ text)) }
{
    let filled = fill(&mut reader, &mut room)?;
    if filled < room.len() {
        return Ok(Content::front_of(room, filled));
    }
    let said = ask_status_of_file(&reader)?.len() as usize;
    // One byte more, so that the read that meets the end needs no further room.
    room.reserve(said.saturating_sub(filled).saturating_add(1))?;
    Limited::new(reader).read_to_end(&mut room)?;
    Ok(Content::from_vec(room))
}

/// The first 128 bytes of what a reader has left, or all where there are fewer.
pub fn head_of<R: Read + Drop>(alloc: Global, reader: R) -> io::Result<Vec<u8>>
    ensures { IfOk result (λ v. IfSome (R.remaining reader) (λ text. v.items ≡ take 128 text)) }
{
    let mut bytes = Vec::with_capacity(alloc, 129)?;
    Limited::new(reader).take(HEAD).read_to_end(&mut bytes)?;
    Ok(bytes)
}

/// How many bytes the file at a place has, links followed. Anything else isn't read, and never
/// opened: opening a pipe would wait for its writer.
fn length_of_file<R: Files>(rt: &R, place: &str) -> io::Result<usize> {
    let metadata = status(rt, place)?;
    if !metadata.is_file() {
        return Err(Error::from(ErrorKind::InvalidInput));
    }
    Ok(metadata.len() as usize)
}

/// The content of the file at a place.
pub(crate) fn content<R: Files + AllocGlobal>(rt: &R, place: &str) -> io::Result<Vec<u8>> {
    let length = length_of_file(rt, place)?;
    all_of(rt.alloc(), File::open(rt, place)?, length)
}

/// The content of the file at a place, of which a listing or a status has told that it is one. Only
/// a change since then could make the opening wait. It is read into the room, which gains `ROOM`
/// bytes where it has fewer.
pub(crate) fn listed_content<R: Files>(
    rt: &R,
    place: &str,
    mut room: Vec<u8>,
) -> io::Result<Content> {
    if room.len() < ROOM {
        room.resize(ROOM, 0)?;
    }
    all_into(File::open(rt, place)?, room)
}

/// All that is read at a place that a user names, a pipe or a device too, which are waited for; a
/// folder and more than `MAX_NAMED_BYTES` bytes are refused.
pub(crate) fn named_content<R: Files + AllocGlobal>(rt: &R, place: &str) -> io::Result<Vec<u8>> {
    let file = File::open(rt, place)?;
    let said = ask_status_of_file(&file)?.len();
    if said > MAX_NAMED_BYTES {
        return Err(too_many(rt.alloc(), MAX_NAMED_BYTES)?);
    }
    all_within(rt.alloc(), file, said as usize, MAX_NAMED_BYTES)
}

/// The first 128 bytes of the file at a place, or all where there are fewer.
pub(crate) fn head<R: Files + AllocGlobal>(rt: &R, place: &str) -> io::Result<Vec<u8>> {
    length_of_file(rt, place)?;
    head_of(rt.alloc(), File::open(rt, place)?)
}
