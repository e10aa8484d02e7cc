//! The tree of a text.
ghost use Rattle.std.specs.Prelude.{◌≡◌, ◌≢◌, None, Some, IfErr, IfOk};
ghost use Rattle.json.specs.Value.{value_view};
ghost use Rattle.serde_json.specs.Read.{of_json, read as read_text};
ghost use Rattle.serde_json.specs.View.{view};
ghost use Rattle.serde_json.specs.Written.{has_float as data_has_float};
ghost use Rattle.tokei_json_tree.specs.Reading.{IsReadingOf};
ghost use Rattle.tokei_json_tree.specs.TreeData.{data_of};
ghost use Rattle.tokei_json_tree.specs.Unordered.{unordered_data};
ghost use Rattle.tokei_json_tree.specs.Without.{IsReadingWithout};

use crate::converted::converted;
use crate::fractions::has_float;
use crate::missed::Missed;
use crate::ordering::{is_plain, ordered};
use crate::ranges::is_in_range;
use crate::tree::{MAX_DEPTH, Tree};
use crate::without::tree_without;
use bumpalo::Bump;
use json::{Reader, Scratch};
use serde_json::Value;
use std::alloc::{AllocError, Global};

/// Why a text has no tree.
#[derive(Clone, Copy, Debug, PartialEq, Eq)]
pub enum ReadError {
    /// `serde_json` has no reading of it.
    NotJson,
    /// An allocation failed.
    Memory,
}

impl From<AllocError> for ReadError {
    ghost use Rattle.std.specs.Prelude.{◌≡◌};
    ghost use Rattle.tokei_json_tree.specs.declared.reading.ReadError.TheVariants.{Memory};

    ghost from_gives = { λ _ e. e ≡ Memory };

    fn from(_refused: AllocError) -> ReadError {
        ReadError::Memory
    }
}

/// A text that was read.
#[derive(Drop)]
pub struct Reading<'t> {
    pub tree: Tree<'t>,
    /// Whether it holds a number that isn't a whole one of 64 bits.
    pub has_fraction: bool,
}

/// What a tree borrows from.
#[derive(Drop)]
pub struct Room {
    bump: Bump,
    scratch: Scratch,
    value: Option<Value>,
}

impl Room {
    /// Room for one tree.
    pub fn new(alloc: Global) -> Room {
        Room {
            bump: Bump::new(alloc),
            scratch: Scratch::new(alloc),
            value: None,
        }
    }
}

/// The tree of a text as it stands there. Its objects may have keys in another order or twice.
fn tree_of<'t>(
    bump: &'t Bump,
    scratch: &'t mut Scratch,
    text: &'t str,
) -> Result<Tree<'t>, ReadError>
    ensures tree { IfOk result (λ t. read_text text.now ≡ of_json (value_view t)) }
    ensures refused { IfErr result (λ e. e ≢ ReadError.Memory
        → (e ≡ ReadError.NotJson) × (read_text text.now ≡ None)) }
{
    let mut reader = Reader::new(text, scratch)?;
    let tree = match json::Value::read(bump, &mut reader, MAX_DEPTH) {
        Ok(tree) => tree,
        Err(json::Error::OutOfMemory) => return Err(ReadError::Memory),
        Err(_) => return Err(ReadError::NotJson),
    };
    if reader.next().is_some() {
        return Err(ReadError::NotJson);
    }
    Ok(tree)
}

/// The value of a text.
fn value_of(alloc: Global, text: &str) -> Result<Value, ReadError>
    ensures value { IfOk result (λ v. read_text text.now ≡ Some (view v)) }
    ensures refused { IfErr result (λ e. e ≢ ReadError.Memory
        → (e ≡ ReadError.NotJson) × (read_text text.now ≡ None)) }
{
    match Value::from_str(alloc, text) {
        Ok(value) => Ok(value),
        Err(e) => if e.is_memory() {
            Err(ReadError::Memory)
        } else {
            Err(ReadError::NotJson)
        },
    }
}

/// Reads a text. Refused is exactly what `serde_json` has no reading of; `Memory` comes only where
/// an allocation failed. A text takes longer that has a number but whole ones of 64 bits from 0 on,
/// a key twice in an object, or members that stand far from the place of their keys: its tree is
/// made of the value that `serde_json` makes of it.
pub fn read<'t>(alloc: Global, room: &'t mut Room, text: &'t str) -> Result<Reading<'t>, ReadError>
    ensures tree { IfOk result (λ r. IsReadingOf text.now (value_view r.tree)) }
    ensures fraction { IfOk result
        (λ r. r.has_fraction ≡ data_has_float (data_of (value_view r.tree))) }
    ensures refused { IfErr result (λ e. e ≢ ReadError.Memory
        → (e ≡ ReadError.NotJson) × (read_text text.now ≡ None)) }
{
    let bump = &room.bump;
    let tree = tree_of(bump, &mut room.scratch, text)?;
    if is_plain(&tree) {
        return Ok(Reading {
            tree,
            has_fraction: false,
        });
    }
    if let Some(tree) = ordered(bump, &tree)? {
        return Ok(Reading {
            tree,
            has_fraction: false,
        });
    }
    let value = room.value.insert(value_of(alloc, text)?);
    Ok(Reading {
        tree: converted(alloc, bump, value)?,
        has_fraction: has_float(value),
    })
}

/// Reads a text that is an object, but for its members of that name: of these the tree holds
/// `null` in place of what stands there, so it takes no room for it. `Unusual` is what isn't JSON,
/// and what `read` reads by the value of `serde_json`; it says nothing more of the text. `Memory`
/// comes only where an allocation failed.
pub fn read_without<'t>(room: &'t mut Room, text: &'t str, name: &str) -> Result<Tree<'t>, Missed>
    ensures { IfOk result (λ t. IsReadingWithout name.now text.now (value_view t)) }
{
    let bump = &room.bump;
    let tree = tree_without(bump, &mut room.scratch, text, name)?;
    if is_plain(&tree) {
        return Ok(tree);
    }
    match ordered(bump, &tree)? {
        Some(tree) => Ok(tree),
        None => Err(Missed::Unusual),
    }
}

/// Reads a text whose objects may have their keys in any order, and some twice: it leaves them so,
/// and reads no text a second time. Refused is exactly what `serde_json` has no reading of;
/// `Memory` comes only where an allocation failed.
pub fn read_unordered<'t>(room: &'t mut Room, text: &'t str) -> Result<Tree<'t>, ReadError>
    ensures tree { IfOk result (λ t. read_text text.now ≡ Some (unordered_data (value_view t))) }
    ensures refused { IfErr result (λ e. e ≢ ReadError.Memory
        → (e ≡ ReadError.NotJson) × (read_text text.now ≡ None)) }
{
    let tree = tree_of(&room.bump, &mut room.scratch, text)?;
    if !is_in_range(&tree) {
        return Err(ReadError::NotJson);
    }
    Ok(tree)
}
