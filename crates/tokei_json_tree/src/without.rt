//! The tree of a text but for the members of one name, whose values are passed over.
ghost use Rattle.std.specs.Prelude.{◌≡◌, ◌<◌, [], true, length, IfOk, OnOk};
ghost use Rattle.json.specs.Json.{Json, members, value};
ghost use Rattle.json.specs.Value.{value_view, members_view};
ghost use Rattle.serde_json.specs.Read.{of_json, read as read_text};
ghost use Rattle.tokei_json_tree.specs.Emptied.{any, are_counted, emptied, emptied_value, is_counted};
ghost use Rattle.tokei_json_tree.specs.Tokens.{IsRead, itself};

use crate::missed::Missed;
use crate::passing::{Numbers, pass_value};
use crate::tree::{MAX_DEPTH, Tree, TreeMembers};
use bumpalo::Bump;
use json::{Error, Reader, Scratch, Token, Value};

/// The next value, whose lists and objects may nest `depth` deep.
fn read_value<'t>(bump: &'t Bump, reader: &mut Reader<'t>, depth: usize) -> Result<Tree<'t>, Missed>
    ensures read { IfOk result
        (λ t. IsRead (value depth) any itself (value_view t) reader.old reader.new) }
    ensures shorter { OnOk result (length reader.new < length reader.old) }
{
    match Value::read(bump, reader, depth) {
        Ok(tree) => Ok(tree),
        Err(Error::OutOfMemory) => Err(Missed::Memory),
        Err(_) => Err(Missed::Unusual),
    }
}

/// Puts the members of an object, whose values may nest `depth` deep, into an empty list; those of
/// that name hold `null`.
fn put_members<'t>(
    bump: &'t Bump,
    reader: &mut Reader<'t>,
    depth: usize,
    name: &str,
    made: &mut TreeMembers<'t>,
) -> Result<(), Missed>
    requires { made.old.items ≡ [] }
    ensures { OnOk result (IsRead (members (value depth) (length reader.old)) (are_counted name.now)
        (emptied name.now) (members_view made.new.items) reader.old reader.new) }
{
    loop {
        match reader.next_key() {
            Ok(Some(key)) => {
                made.reserve(1)?;
                if key == name {
                    if !pass_value(reader, depth, Numbers::Counts) {
                        return Err(Missed::Unusual);
                    }
                    made.push_reserved((key, Value::Null));
                } else {
                    let value = read_value(bump, reader, depth)?;
                    made.push_reserved((key, value));
                }
            }
            Ok(None) => return Ok(()),
            Err(_) => return Err(Missed::Unusual),
        }
    }
}

/// The next value, which is an object.
fn read_object<'t>(
    bump: &'t Bump,
    reader: &mut Reader<'t>,
    depth: usize,
    name: &str,
) -> Result<Tree<'t>, Missed>
    ensures { IfOk result (λ t. IsRead (value depth) (is_counted name.now) (emptied_value name.now)
        (value_view t) reader.old reader.new) }
{
    match reader.next() {
        Some(Token::BeginObject) if depth > 0 => {
            let mut made = Vec::new(bump);
            put_members(bump, reader, depth - 1, name, &mut made)?;
            Ok(Value::Object(made))
        }
        _ => Err(Missed::Unusual),
    }
}

/// The tree of a text as it stands there, in which the outermost object's members of that name hold
/// `null`; the numbers in their values are counts.
pub(crate) fn tree_without<'t>(
    bump: &'t Bump,
    scratch: &'t mut Scratch,
    text: &'t str,
    name: &str,
) -> Result<Tree<'t>, Missed>
    ensures { IfOk result (λ t. (j : Json) × (read_text text.now ≡ of_json j)
        × (is_counted name.now j ≡ true) × (emptied_value name.now j ≡ value_view t)) }
{
    let mut reader = Reader::new(text, scratch)?;
    let tree = read_object(bump, &mut reader, MAX_DEPTH, name)?;
    if reader.next().is_some() {
        return Err(Missed::Unusual);
    }
    Ok(tree)
}
