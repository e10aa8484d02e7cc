//! The rules of a folder, read from its ignore files.
ghost use Rattle.std.specs.Prelude.{◌≡◌, ◌++◌, ◌&&◌, [], ◌∷◌, OnOk, OnErr, IfOk, cond, is_some, codes};
ghost use Rattle.tokei_walk.specs.Noted.{NotesSay, noted_at, noted_level, noted_of};
ghost use Rattle.tokei_walk.specs.Notes.{Grows, bad_line_notes, ignore_notes};
ghost use Rattle.tokei_folders.specs.Answers.{Told, node_kind};
ghost use Rattle.tokei_folders.specs.AsTheyWere.{AsTheyWere};
ghost use Rattle.tokei_folders.specs.Ends.{without_last};
ghost use Rattle.tokei_folders.specs.Tree.{names_of, node_at};
ghost use Rattle.tokei_walk.specs.Sought.{level_of, listed, lists as is_listed};
ghost use Rattle.tokei_walk.specs.Levels.{patterns_at, level_at};
ghost use Rattle.tokei_ignore.specs.IgnoreFiles.{patterns_of, bad_lines_of};

use crate::kept_file::{Note, NoteKind};
use crate::levels::{Level, Rules};
use std::alloc::{AllocError, Global};
use std::cmp::Ordering;
use tokei_folders::places::joined;
use tokei_folders::{Entry, Fault, Folders, Items, Kind, Text};
use tokei_ignore::{IgnoreFile, IndexedPatterns};

/// Adds a note.
#[tactic(auto, using(crate::proofs::Growing::grows_same, crate::proofs::Growing::grows_on))]
pub fn note(
    alloc: Global,
    notes: &mut Items<Note>,
    kind: NoteKind,
    place: &str,
) -> Result<(), AllocError>
    ensures ok { OnOk result
        (notes.new ≡ notes.old ++ record { kind = kind; place = place.now } ∷ []) }
    ensures err { OnErr result (notes.new ≡ notes.old) }
    ensures grows { Grows notes.old notes.new }
{
    let place = Text::from_str(alloc, place)?;
    notes.push(Note { kind, place })?;
    Ok(())
}

/// What stands at a place, where anything does; nothing, with a note, where that can't be told.
#[tactic(auto, using(crate::proofs::Growing::grows_same, crate::proofs::Growing::grows_on))]
fn kind_at<F: Folders>(
    alloc: Global,
    folders: &mut F,
    notes: &mut Items<Note>,
    place: &str,
) -> Result<Option<Kind>, AllocError>
    ensures folders { AsTheyWere F.tree F.memory_faults folders.old folders.new result }
    ensures notes { Grows notes.old notes.new }
    ensures told { Told (F.tree folders.old) (λ t. IfOk result
        (λ k. k ≡ node_kind (node_at t (names_of place.now)))) }
    ensures quiet { Told (F.tree folders.old) (λ t. OnOk result (notes.new ≡ notes.old)) }
{
    match folders.kind_if_any(place) {
        Ok(kind) => Ok(kind),
        Err(Fault::Refused) => {
            note(alloc, notes, NoteKind::UnreadIgnore, place)?;
            Ok(None)
        }
        Err(Fault::Memory) => Err(AllocError),
    }
}

/// The patterns of an ignore file with this content. Leaves a note of each bad line.
#[tactic(auto, using(crate::proofs::Growing::grows_same, crate::proofs::Growing::grows_on))]
fn patterns_in(
    alloc: Global,
    notes: &mut Items<Note>,
    content: &[u8],
    place: &str,
) -> Result<IndexedPatterns, AllocError>
    ensures notes { Grows notes.old notes.new }
    ensures patterns { IfOk result (λ ps. ps ≡ patterns_of content.now) }
    ensures bad { OnOk result
        (notes.new ≡ notes.old ++ bad_line_notes place.now (bad_lines_of content.now)) }
{
    let file = IgnoreFile::parse(alloc, content)?;
    let bad_lines = file.bad_lines;
    for _ in 0..bad_lines {
        note(alloc, notes, NoteKind::BadLine, place)?;
    }
    Ok(file.patterns)
}

/// The patterns of an ignore file, where it is there and can be read.
fn patterns_of_file<F: Folders>(
    alloc: Global,
    folders: &mut F,
    notes: &mut Items<Note>,
    place: &str,
) -> Result<IndexedPatterns, AllocError>
    ensures folders { AsTheyWere F.tree F.memory_faults folders.old folders.new result }
    ensures notes { Grows notes.old notes.new }
    ensures told { Told (F.tree folders.old) (λ t. IfOk result
        (λ ps. ps ≡ patterns_at (node_at t (names_of place.now)))) }
    ensures noted { Told (F.tree folders.old) (λ t. OnOk result
        (notes.new ≡ notes.old ++ ignore_notes place.now (node_at t (names_of place.now)))) }
{
    match kind_at(alloc, folders, notes, place)? {
        Some(Kind::File) => {}
        _ => return Ok(IndexedPatterns::new(alloc)),
    }
    match folders.read(place) {
        Ok(content) => patterns_in(alloc, notes, content.as_slice(), place),
        Err(Fault::Refused) => {
            note(alloc, notes, NoteKind::UnreadIgnore, place)?;
            Ok(IndexedPatterns::new(alloc))
        }
        Err(Fault::Memory) => Err(AllocError),
    }
}

/// An ignore file of a folder, by the path that leads to it from there.
#[derive(Clone, Copy)]
struct IgnoreName<'a> {
    /// Whether it is read; one that isn't has no patterns.
    on: bool,
    name: &'a str,
}

/// The patterns of a folder's ignore file; none where it is off.
#[tactic(auto, using(crate::proofs::Growing::grows_same, crate::proofs::Growing::grows_on))]
fn patterns_of_name<F: Folders>(
    alloc: Global,
    folders: &mut F,
    notes: &mut Items<Note>,
    place: &str,
    file: IgnoreName,
) -> Result<IndexedPatterns, AllocError>
    ensures folders { AsTheyWere F.tree F.memory_faults folders.old folders.new result }
    ensures notes { Grows notes.old notes.new }
    ensures told { Told (F.tree folders.old) (λ t. IfOk result (λ ps. ps
        ≡ cond file.entry.on (patterns_at (node_at t
        (names_of place.now ++ names_of file.entry.name.now))) [])) }
    ensures noted { Told (F.tree folders.old) (λ t. OnOk result (NotesSay notes.old notes.new
        (cond file.entry.on (noted_at t (names_of place.now) (names_of file.entry.name.now)) []))) }
{
    if !file.on {
        return Ok(IndexedPatterns::new(alloc));
    }
    let whole = joined(alloc, place, file.name)?;
    patterns_of_file(alloc, folders, notes, whole.as_str())
}

/// The patterns of two ignore files of a folder.
fn patterns_of_two<F: Folders>(
    alloc: Global,
    folders: &mut F,
    notes: &mut Items<Note>,
    place: &str,
    first: IgnoreName,
    second: IgnoreName,
) -> Result<(IndexedPatterns, IndexedPatterns), AllocError>
    ensures folders { AsTheyWere F.tree F.memory_faults folders.old folders.new result }
    ensures notes { Grows notes.old notes.new }
    ensures first { Told (F.tree folders.old) (λ t. IfOk result (λ p. p.0
        ≡ cond first.entry.on (patterns_at (node_at t
        (names_of place.now ++ names_of first.entry.name.now))) [])) }
    ensures second { Told (F.tree folders.old) (λ t. IfOk result (λ p. p.1
        ≡ cond second.entry.on (patterns_at (node_at t
        (names_of place.now ++ names_of second.entry.name.now))) [])) }
    ensures noted { Told (F.tree folders.old) (λ t. OnOk result (NotesSay notes.old notes.new
        (cond first.entry.on (noted_at t (names_of place.now) (names_of first.entry.name.now)) []
        ++ cond second.entry.on (noted_at t (names_of place.now) (names_of second.entry.name.now))
        []))) }
{
    let before = patterns_of_name(alloc, folders, notes, place, first)?;
    let after = patterns_of_name(alloc, folders, notes, place, second)?;
    Ok((before, after))
}

/// Whether a folder has an entry `.git`, where git's rules are on.
#[tactic(auto, using(crate::proofs::Growing::grows_same, crate::proofs::Growing::grows_on))]
fn is_repository<F: Folders>(
    alloc: Global,
    folders: &mut F,
    notes: &mut Items<Note>,
    on: bool,
    place: &str,
) -> Result<bool, AllocError>
    ensures folders { AsTheyWere F.tree F.memory_faults folders.old folders.new result }
    ensures notes { Grows notes.old notes.new }
    ensures told { Told (F.tree folders.old) (λ t. IfOk result
        (λ b. b ≡ (on && is_some (node_at t (names_of place.now ++ names_of (codes ".git")))))) }
    ensures quiet { Told (F.tree folders.old) (λ t. OnOk result (notes.new ≡ notes.old)) }
{
    if !on {
        return Ok(false);
    }
    let whole = joined(alloc, place, ".git")?;
    let kind = kind_at(alloc, folders, notes, whole.as_str())?;
    Ok(kind.is_some())
}

/// Whether an entry of this name is listed, of whatever kind.
fn lists(entries: &[Entry], name: &str) -> bool
    ensures { result ≡ is_listed entries.now name.now }
{
    for entry in entries {
        if entry.name.as_str().cmp(name) == Ordering::Equal {
            return true;
        }
    }
    false
}

/// Which ignore files of a folder are sought, and whether git's rules begin there.
#[derive(Clone, Copy)]
pub struct Sought {
    pub git: bool,
    pub tokeignore: bool,
    pub ignore: bool,
    pub gitignore: bool,
}

/// Of the ignore files that the rules ask for, those that are listed.
#[tactic(auto, unfolding(crate::specs::Sought::listed))]
pub fn sought_among(rules: &Rules, entries: &[Entry]) -> Sought
    ensures { result ≡ listed rules.now entries.now }
{
    Sought {
        git: rules.git && lists(entries, ".git"),
        tokeignore: rules.dot && lists(entries, ".tokeignore"),
        ignore: rules.dot && lists(entries, ".ignore"),
        gitignore: rules.git && lists(entries, ".gitignore"),
    }
}

/// Reads the ignore files of a folder that are sought, and adds its rules to those of others.
pub fn read_sought<F: Folders>(
    alloc: Global,
    folders: &mut F,
    notes: &mut Items<Note>,
    sought: Sought,
    place: &str,
    levels: &mut Items<Level>,
) -> Result<(), AllocError>
    ensures folders { AsTheyWere F.tree F.memory_faults folders.old folders.new result }
    ensures notes { Grows notes.old notes.new }
    ensures told { Told (F.tree folders.old) (λ t. OnOk result
        (levels.new ≡ levels.old ++ level_of t sought (names_of place.now) ∷ [])) }
    ensures last { OnOk result (without_last levels.new ≡ levels.old) }
    ensures noted { Told (F.tree folders.old) (λ t. OnOk result
        (NotesSay notes.old notes.new (noted_of t sought (names_of place.now)))) }
{
    let named = IgnoreName {
        on: sought.tokeignore,
        name: ".tokeignore",
    };
    let plain = IgnoreName {
        on: sought.ignore,
        name: ".ignore",
    };
    let (tokeignore, ignore) = patterns_of_two(alloc, folders, notes, place, named, plain)?;
    let listed = IgnoreName {
        on: sought.gitignore,
        name: ".gitignore",
    };
    let excluded = IgnoreName {
        on: sought.git,
        name: ".git/info/exclude",
    };
    let (gitignore, git_exclude) = patterns_of_two(alloc, folders, notes, place, listed, excluded)?;
    levels.push(Level {
        tokeignore,
        ignore,
        gitignore,
        git_exclude,
        git: sought.git,
    })?;
    Ok(())
}

/// Reads the rules of a folder that isn't listed, and adds them to those of others.
pub fn read_level<F: Folders>(
    alloc: Global,
    folders: &mut F,
    notes: &mut Items<Note>,
    rules: &Rules,
    place: &str,
    levels: &mut Items<Level>,
) -> Result<(), AllocError>
    ensures folders { AsTheyWere F.tree F.memory_faults folders.old folders.new result }
    ensures notes { Grows notes.old notes.new }
    ensures told { Told (F.tree folders.old) (λ t. OnOk result
        (levels.new ≡ levels.old ++ level_at t rules.now (names_of place.now) ∷ [])) }
    ensures noted { Told (F.tree folders.old) (λ t. OnOk result
        (NotesSay notes.old notes.new (noted_level t rules.now (names_of place.now)))) }
{
    let git = is_repository(alloc, folders, notes, rules.git, place)?;
    let sought = Sought {
        git,
        tokeignore: rules.dot,
        ignore: rules.dot,
        gitignore: rules.git,
    };
    read_sought(alloc, folders, notes, sought, place, levels)
}
