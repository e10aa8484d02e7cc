//! The entries of a folder.
ghost use Rattle.std.specs.Prelude.{◌≡◌, ◌↔◌, ◌≢◌, ◌++◌, [], ◌∷◌, OnOk, IfOk, IfErr};
ghost use Rattle.std.specs.List.Sorted.{IsPermutation, IsSorted};
ghost use Rattle.std.specs.Fs.{file_type, IsFile, IsDir};
ghost use Rattle.std.specs.IoError.{error_kind};
ghost use Rattle.tokei_real.specs.Listings.{by_name, by_bytes};

use crate::refusals::{Refusal, Refusals};
use crate::retried::retried;
use std::alloc::{AllocError, Global};
use std::fs::{DirEntry, Metadata};
use std::io::{Error, ErrorKind};
use std::rt::Files;
use std::{fs, io};
use tokei_folders::places::joined;
use tokei_folders::{Entry, Kind, Listing, Text};

/// What the system says stands there. A link that isn't followed is neither a file nor a folder,
/// nor is a device, a pipe or a socket.
pub(crate) fn kind_of(metadata: &Metadata) -> Kind
    ensures file { result ≡ Kind.File ↔ IsFile (file_type metadata.now) }
    ensures folder { result ≡ Kind.Folder ↔ IsDir (file_type metadata.now) }
{
    if metadata.is_file() {
        Kind::File
    } else if metadata.is_dir() {
        Kind::Folder
    } else {
        Kind::Other
    }
}

/// Puts the entries in the byte order of their names; where memory is refused they stay as they
/// were.
fn put_in_order(entries: &mut Vec<Entry>) -> Result<(), AllocError>
    ensures sorted { OnOk result (IsSorted by_name entries.new.items) }
    ensures same { IsPermutation entries.old.items entries.new.items }
{
    entries.sort_by(|a, b| a.name.as_str().cmp(b.name.as_str()))?;
    Ok(())
}

/// Puts names in their byte order; where memory is refused they stay as they were.
fn put_names_in_order(names: &mut Vec<Text>) -> Result<(), AllocError>
    ensures sorted { OnOk result (IsSorted by_bytes names.new.items) }
    ensures same { IsPermutation names.old.items names.new.items }
{
    names.sort_by(|a, b| a.as_str().cmp(b.as_str()))?;
    Ok(())
}

/// Keeps why an entry of the folder at a place is lost, where memory suffices for that.
fn keep_refusal(alloc: Global, place: &str, name: &str, error: Error, refusals: &mut Vec<Refusal>) {
    if let Ok(place) = joined(alloc, place, name) {
        let place = place.into_string();
        let _kept = refusals.push(Refusal { place, error });
    }
}

/// What a folder holds, in no order, and why entries of it are lost.
#[derive(Drop)]
struct Unordered {
    listing: Listing,
    refusals: Vec<Refusal>,
}

/// Adds what the system says of an entry of the folder at a place: one that is removed meanwhile is
/// left out, and one of which it doesn't say what stands there is lost. It is refused out of memory
/// alone.
fn add_entry(
    alloc: Global,
    place: &str,
    name: Text,
    said: io::Result<Kind>,
    found: &mut Unordered,
) -> io::Result<()>
    ensures entry { IfOk said (λ k. OnOk result (found.new.listing.entries.items
        ≡ found.old.listing.entries.items ++ record { name = name; kind = k } ∷ [])) }
    ensures lost { IfErr said (λ e. error_kind e ≢ ErrorKind.NotFound → OnOk result
        (found.new.listing.lost.items ≡ found.old.listing.lost.items ++ name ∷ [])) }
    ensures named { found.new.listing.unnamed ≡ found.old.listing.unnamed }
{
    match said {
        Ok(kind) => found.listing.entries.push(Entry { name, kind })?,
        Err(e) if e.kind() == ErrorKind::NotFound => {}
        Err(e) if e.kind() == ErrorKind::OutOfMemory => return Err(e),
        Err(e) => {
            keep_refusal(alloc, place, name.as_str(), e, &mut found.refusals);
            found.listing.lost.push(name)?;
        }
    }
    Ok(())
}

/// What the system says of an entry, no link followed.
fn ask_status_of_entry<R: Files + Clone + Drop>(entry: &DirEntry<R>) -> io::Result<Metadata>
    ensures { IfErr result (λ e. error_kind e ≢ ErrorKind.Interrupted) }
{
    retried!(entry.metadata())
}

/// What stands at an entry, no link followed.
fn kind_of_entry<R: Files + Clone + Drop>(entry: &DirEntry<R>) -> io::Result<Kind> {
    Ok(kind_of(&ask_status_of_entry(entry)?))
}

/// Nothing of a folder.
fn nothing_found(alloc: Global) -> Unordered {
    Unordered {
        listing: Listing {
            entries: Vec::new(alloc),
            lost: Vec::new(alloc),
            unnamed: 0,
        },
        refusals: Vec::new(alloc),
    }
}

/// Adds an entry of the folder at a place, as the system gives it; one whose name is no text is
/// counted.
fn add_given<R: Files + Clone + Drop>(
    alloc: Global,
    place: &str,
    given: io::Result<DirEntry<R>>,
    found: &mut Unordered,
) -> io::Result<()> {
    match given {
        Ok(entry) => {
            let name = Text::from_str(alloc, entry.file_name())?;
            add_entry(alloc, place, name, kind_of_entry(&entry), found)
        }
        Err(e) if e.kind() == ErrorKind::InvalidFilename => {
            found.listing.unnamed = found.listing.unnamed.saturating_add(1);
            Ok(())
        }
        Err(e) => Err(e),
    }
}

/// Adds what the folder at a place holds.
fn add_all<R: Files + AllocGlobal + Clone + Drop>(
    rt: &R,
    place: &str,
    found: &mut Unordered,
) -> io::Result<()> {
    for given in fs::read_dir(rt, place)? {
        add_given(rt.alloc(), place, given, found)?;
    }
    Ok(())
}

/// What the folder at a place holds, in no order, as far as no signal interrupts that.
fn found_once<R: Files + AllocGlobal + Clone + Drop>(rt: &R, place: &str) -> io::Result<Unordered> {
    let mut found = nothing_found(rt.alloc());
    add_all(rt, place, &mut found)?;
    Ok(found)
}

/// What the folder at a place holds, in no order.
fn found<R: Files + AllocGlobal + Clone + Drop>(rt: &R, place: &str) -> io::Result<Unordered>
    ensures { IfErr result (λ e. error_kind e ≢ ErrorKind.Interrupted) }
{
    retried!(found_once(rt, place))
}

/// What the folder at a place holds, in the byte order of the names; why entries are lost is kept.
pub(crate) fn listing<R: Files + AllocGlobal + Clone + Drop>(
    rt: &R,
    place: &str,
    refusals: &mut Refusals,
) -> io::Result<Listing>
    ensures sorted { IfOk result (λ l. IsSorted by_name l.entries.items) }
    ensures lost_sorted { IfOk result (λ l. IsSorted by_bytes l.lost.items) }
{
    let Unordered {
        mut listing,
        refusals: why,
    } = found(rt, place)?;
    refusals.keep_all(why);
    put_in_order(&mut listing.entries)?;
    put_names_in_order(&mut listing.lost)?;
    Ok(listing)
}
