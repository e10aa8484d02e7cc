//! A notebook's JSON without what nobody asks for: only the members that tell its cells become a
//! tree, and the others, such as outputs, are passed over.
ghost use Rattle.std.specs.Prelude.{◌≡◌, ◌<◌, [], length, IfOk, OnOk, Some};
ghost use Rattle.json.specs.Json.{Json, items, members, value};
ghost use Rattle.json.specs.Value.{value_view, items_view, members_view};
ghost use Rattle.serde_json.specs.Read.{read as read_text};
ghost use Rattle.tokei_json_tree.specs.Unordered.{unordered_data, is_in_range, are_items_in_range, are_members_in_range};
ghost use Rattle.tokei_json_tree.specs.Tokens.{IsRead, itself};
ghost use Rattle.tokei_notebook.specs.Kept.{is_kept_in_cell, kept_in_cell, kept_of_cell, kept_of_items};
ghost use Rattle.tokei_notebook.specs.Kept.{kept_of_cells, kept_in_notebook, kept_of_notebook};

use bumpalo::Bump;
use json::{Error, Reader, Scratch, Token, Value};
use tokei_json_tree::{
    MAX_DEPTH, Missed, Numbers, Tree, TreeItems, TreeMembers, is_in_range, pass_value,
};

/// The next value, whose lists and objects may nest `depth` deep.
fn read_value<'t>(bump: &'t Bump, reader: &mut Reader<'t>, depth: usize) -> Result<Tree<'t>, Missed>
    ensures read { IfOk result
        (λ t. IsRead (value depth) is_in_range itself (value_view t) reader.old reader.new) }
    ensures shorter { OnOk result (length reader.new < length reader.old) }
{
    match Value::read(bump, reader, depth) {
        Ok(tree) => if is_in_range(&tree) {
            Ok(tree)
        } else {
            Err(Missed::Unusual)
        },
        Err(Error::OutOfMemory) => Err(Missed::Memory),
        Err(_) => Err(Missed::Unusual),
    }
}

/// Whether a cell's member of that name is asked for.
fn is_kept_in_cell(name: &str) -> bool
    ensures { result ≡ is_kept_in_cell name.now }
{
    name == "cell_type" || name == "source"
}

/// Puts what is kept of a cell's members, whose values may nest `depth` deep, into an empty list.
fn put_cell_members<'t>(
    bump: &'t Bump,
    reader: &mut Reader<'t>,
    depth: usize,
    made: &mut TreeMembers<'t>,
) -> Result<(), Missed>
    requires { made.old.items ≡ [] }
    ensures read { OnOk result (IsRead (members (value depth) (length reader.old))
        are_members_in_range kept_in_cell (members_view made.new.items) reader.old reader.new) }
    ensures shorter { OnOk result (length reader.new < length reader.old) }
{
    loop {
        match reader.next_key() {
            Ok(Some(key)) => {
                if is_kept_in_cell(key) {
                    made.reserve(1)?;
                    let value = read_value(bump, reader, depth)?;
                    made.push_reserved((key, value));
                } else if !pass_value(reader, depth, Numbers::InRange) {
                    return Err(Missed::Unusual);
                }
            }
            Ok(None) => return Ok(()),
            Err(_) => return Err(Missed::Unusual),
        }
    }
}

/// What is kept of a cell.
fn read_cell<'t>(bump: &'t Bump, reader: &mut Reader<'t>, depth: usize) -> Result<Tree<'t>, Missed>
    ensures read { IfOk result (λ t. IsRead (value depth) is_in_range kept_of_cell (value_view t)
        reader.old reader.new) }
    ensures shorter { OnOk result (length reader.new < length reader.old) }
{
    match reader.next() {
        Some(Token::BeginObject) if depth > 0 => {
            let mut made = Vec::new(bump);
            put_cell_members(bump, reader, depth - 1, &mut made)?;
            Ok(Value::Object(made))
        }
        _ => Err(Missed::Unusual),
    }
}

/// Puts what is kept of a list of cells into an empty list.
fn put_cells<'t>(
    bump: &'t Bump,
    reader: &mut Reader<'t>,
    depth: usize,
    made: &mut TreeItems<'t>,
) -> Result<(), Missed>
    requires { made.old.items ≡ [] }
    ensures read { OnOk result (IsRead (items (value depth) (length reader.old))
        are_items_in_range kept_of_items (items_view made.new.items) reader.old reader.new) }
    ensures shorter { OnOk result (length reader.new < length reader.old) }
{
    while !reader.take_end_array() {
        made.reserve(1)?;
        let cell = read_cell(bump, reader, depth)?;
        made.push_reserved(cell);
    }
    Ok(())
}

/// What is kept of a notebook's cells.
fn read_cells<'t>(bump: &'t Bump, reader: &mut Reader<'t>, depth: usize) -> Result<Tree<'t>, Missed>
    ensures read { IfOk result (λ t. IsRead (value depth) is_in_range kept_of_cells (value_view t)
        reader.old reader.new) }
    ensures shorter { OnOk result (length reader.new < length reader.old) }
{
    match reader.next() {
        Some(Token::BeginArray) if depth > 0 => {
            let mut made = Vec::new(bump);
            put_cells(bump, reader, depth - 1, &mut made)?;
            Ok(Value::Array(made))
        }
        _ => Err(Missed::Unusual),
    }
}

/// Puts what is kept of a notebook's members into an empty list.
fn put_notebook_members<'t>(
    bump: &'t Bump,
    reader: &mut Reader<'t>,
    depth: usize,
    made: &mut TreeMembers<'t>,
) -> Result<(), Missed>
    requires { made.old.items ≡ [] }
    ensures { OnOk result (IsRead (members (value depth) (length reader.old)) are_members_in_range
        kept_in_notebook (members_view made.new.items) reader.old reader.new) }
{
    loop {
        match reader.next_key() {
            Ok(Some(key)) => {
                if key == "cells" {
                    made.reserve(1)?;
                    let cells = read_cells(bump, reader, depth)?;
                    made.push_reserved((key, cells));
                } else if key == "metadata" {
                    made.reserve(1)?;
                    let metadata = read_value(bump, reader, depth)?;
                    made.push_reserved((key, metadata));
                } else if !pass_value(reader, depth, Numbers::InRange) {
                    return Err(Missed::Unusual);
                }
            }
            Ok(None) => return Ok(()),
            Err(_) => return Err(Missed::Unusual),
        }
    }
}

/// What is kept of a notebook.
fn read_notebook<'t>(
    bump: &'t Bump,
    reader: &mut Reader<'t>,
    depth: usize,
) -> Result<Tree<'t>, Missed>
    ensures { IfOk result (λ t. IsRead (value depth) is_in_range kept_of_notebook (value_view t)
        reader.old reader.new) }
{
    match reader.next() {
        Some(Token::BeginObject) if depth > 0 => {
            let mut made = Vec::new(bump);
            put_notebook_members(bump, reader, depth - 1, &mut made)?;
            Ok(Value::Object(made))
        }
        _ => Err(Missed::Unusual),
    }
}

/// What is kept of the notebook that a text holds. `Unusual` is no JSON, a number without a value,
/// and what is no object whose cells are a list of objects.
pub(crate) fn read_kept<'t>(
    bump: &'t Bump,
    scratch: &'t mut Scratch,
    text: &'t str,
) -> Result<Tree<'t>, Missed>
    ensures { IfOk result (λ t. (j : Json) × (read_text text.now ≡ Some (unordered_data j))
        × (kept_of_notebook j ≡ value_view t)) }
{
    let mut reader = Reader::new(text, scratch)?;
    let tree = read_notebook(bump, &mut reader, MAX_DEPTH)?;
    if reader.next().is_some() {
        return Err(Missed::Unusual);
    }
    Ok(tree)
}
