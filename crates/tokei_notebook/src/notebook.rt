//! The cells of a notebook.
ghost use Rattle.std.specs.Prelude.{◌≡◌, ◌<◌, [], ◌∷◌, length, map, option_map, IfOk, IfSome, Some};
ghost use Rattle.json.specs.Value.{value_view, items_view};
ghost use Rattle.serde_json.specs.Data.{item, no_items};
ghost use Rattle.serde_json.specs.Read.{read as read_text};
ghost use Rattle.tokei_json_tree.specs.Unordered.{unordered_data, unordered_items};
ghost use Rattle.tokei_notebook.specs.Cells.{cell_of, by_kernel, by_extension, get_in, code_language, text_of, joined};
ghost use Rattle.tokei_notebook.specs.Cells.{source_of, cells_in, cells_at, cells_of, notebook_cells, AreKnown};
ghost use Rattle.tokei_table.specs.Families.{fallback};

use crate::kept::read_kept;
use crate::layout::{has_notebook_layout, is_markdown};
use bumpalo::Bump;
use json::{Scratch, Value};
use std::alloc::{AllocError, Global};
use tokei_json_tree::{Missed, ReadError, Room, Tree, TreeItems, last_member, read_unordered};
use tokei_table::{LanguageTable, LanguageType};

/// A cell of a notebook.
#[derive(Drop)]
pub struct Cell {
    /// The language that it is read in.
    pub language: LanguageType,
    /// Its text, which is UTF-8.
    pub source: Vec<u8>,
}

/// The language on which a notebook falls back, else its own.
fn fallback(table: &LanguageTable, notebook: LanguageType, name: &str) -> LanguageType
    requires { notebook < length table.now }
    ensures known { result < length table.now }
    ensures value { result ≡ fallback table.now notebook name.now }
{
    LanguageType::from_name(table, name).unwrap_or(notebook)
}

fn by_kernel(table: &LanguageTable, member: Option<&Tree<'_>>) -> Option<LanguageType>
    ensures known { IfSome result (λ l. l < length table.now) }
    ensures value { result ≡ by_kernel table.now
        (option_map (λ v. unordered_data (value_view v.now)) member.entry) }
{
    match member {
        Some(Value::String(word)) => LanguageType::from_str(table, word),
        _ => None,
    }
}

fn by_extension(table: &LanguageTable, member: Option<&Tree<'_>>) -> Option<LanguageType>
    ensures known { IfSome result (λ l. l < length table.now) }
    ensures value { result ≡ by_extension table.now
        (option_map (λ v. unordered_data (value_view v.now)) member.entry) }
{
    match member {
        Some(Value::String(extension)) => LanguageType::from_file_extension(table, extension),
        _ => None,
    }
}

fn get_in<'v, 't>(value: &'v Tree<'t>, outer: &str, inner: &str) -> Option<&'v Tree<'t>>
    ensures { option_map (λ v. unordered_data (value_view v.now)) result
        ≡ get_in outer.now inner.now (unordered_data (value_view value.now)) }
{
    match last_member(value, outer) {
        Some(member) => last_member(member, inner),
        None => None,
    }
}

/// The language of code cells.
#[tactic(auto, unfolding(crate::specs::Cells::code_language))]
fn code_language(
    table: &LanguageTable,
    notebook: LanguageType,
    metadata: Option<&Tree<'_>>,
) -> LanguageType
    requires { notebook < length table.now }
    ensures known { result < length table.now }
    ensures value { result ≡ code_language table.now notebook
        (option_map (λ v. unordered_data (value_view v.now)) metadata.entry) }
{
    if let Some(metadata) = metadata {
        if let Some(named) = by_kernel(table, get_in(metadata, "kernelspec", "language")) {
            return named;
        }
        let extension = get_in(metadata, "language_info", "file_extension");
        if let Some(found) = by_extension(table, extension) {
            return found;
        }
    }
    fallback(table, notebook, "Python")
}

fn text_of<'t>(value: &Tree<'t>) -> &'t [u8]
    ensures { result.now ≡ text_of (unordered_data (value_view value.entry.now)) }
{
    match value {
        Value::String(text) => text.as_bytes(),
        _ => &[],
    }
}

fn joined(alloc: Global, items: &TreeItems<'_>) -> Result<Vec<u8>, AllocError>
    ensures { IfOk result (λ v. v.items ≡ joined (unordered_items (items_view items.now.items))) }
{
    let mut text = Vec::new(alloc);
    for item in items {
        text.extend_from_slice(text_of(item))?;
    }
    Ok(text)
}

fn source_of(alloc: Global, member: Option<&Tree<'_>>) -> Result<Vec<u8>, AllocError>
    ensures { IfOk result (λ v. v.items
        ≡ source_of (option_map (λ w. unordered_data (value_view w.now)) member.entry)) }
{
    match member {
        Some(Value::Array(items)) => joined(alloc, items),
        _ => Ok(Vec::new(alloc)),
    }
}

/// The cell that a value is, Markdown in the one language and code in the other.
fn cell_in(
    alloc: Global,
    markdown: LanguageType,
    code: LanguageType,
    value: &Tree<'_>,
) -> Result<Cell, AllocError>
    ensures { IfOk result (λ c. cell_of c ∷ []
        ≡ cells_in markdown code (item (unordered_data (value_view value.now)) no_items)) }
{
    let language = if is_markdown(last_member(value, "cell_type")) {
        markdown
    } else {
        code
    };
    Ok(Cell {
        language,
        source: source_of(alloc, last_member(value, "source"))?,
    })
}

/// The cells of a list.
fn cells_in(
    alloc: Global,
    markdown: LanguageType,
    code: LanguageType,
    items: &TreeItems<'_>,
) -> Result<Vec<Cell>, AllocError>
    ensures { IfOk result (λ v. map cell_of v.items
        ≡ cells_in markdown code (unordered_items (items_view items.now.items))) }
{
    let mut cells = Vec::new(alloc);
    for item in items {
        let cell = cell_in(alloc, markdown, code, item)?;
        cells.push(cell)?;
    }
    Ok(cells)
}

fn cells_at(
    alloc: Global,
    markdown: LanguageType,
    code: LanguageType,
    member: Option<&Tree<'_>>,
) -> Result<Vec<Cell>, AllocError>
    ensures { IfOk result (λ v. map cell_of v.items ≡ cells_at markdown code
        (option_map (λ w. unordered_data (value_view w.now)) member.entry)) }
{
    match member {
        Some(Value::Array(items)) => cells_in(alloc, markdown, code, items),
        _ => Ok(Vec::new(alloc)),
    }
}

/// The cells of a JSON value; one without the layout of a notebook has none.
#[tactic(auto, unfolding(crate::specs::Cells::cells_of))]
fn cells_of(
    alloc: Global,
    table: &LanguageTable,
    notebook: LanguageType,
    value: &Tree<'_>,
) -> Result<Vec<Cell>, AllocError>
    requires { notebook < length table.now }
    ensures { IfOk result (λ v. map cell_of v.items
        ≡ cells_of table.now notebook (Some (unordered_data (value_view value.now)))) }
{
    if !has_notebook_layout(value) {
        return Ok(Vec::new(alloc));
    }
    let markdown = fallback(table, notebook, "Markdown");
    let code = code_language(table, notebook, last_member(value, "metadata"));
    cells_at(alloc, markdown, code, last_member(value, "cells"))
}

/// The cells of a text of which only they and the metadata become a tree; none where it isn't read
/// so.
fn cells_of_kept(
    alloc: Global,
    table: &LanguageTable,
    notebook: LanguageType,
    text: &str,
) -> Result<Option<Vec<Cell>>, AllocError>
    requires { notebook < length table.now }
    ensures { IfOk result (λ o. IfSome o (λ v. map cell_of v.items
        ≡ cells_of table.now notebook (read_text text.now))) }
{
    let bump = Bump::new(alloc);
    let mut scratch = Scratch::new(alloc);
    match read_kept(&bump, &mut scratch, text) {
        Ok(value) => Ok(Some(cells_of(alloc, table, notebook, &value)?)),
        Err(Missed::Unusual) => Ok(None),
        Err(Missed::Memory) => Err(AllocError),
    }
}

/// The cells of a text the whole of which becomes a tree, for a text that isn't read as above. Of
/// these only one whose member `cells` stands twice, at first in another layout, has any.
fn cells_of_whole(
    alloc: Global,
    table: &LanguageTable,
    notebook: LanguageType,
    text: &str,
) -> Result<Vec<Cell>, AllocError>
    requires { notebook < length table.now }
    ensures { IfOk result
        (λ v. map cell_of v.items ≡ cells_of table.now notebook (read_text text.now)) }
{
    let mut room = Room::new(alloc);
    match read_unordered(&mut room, text) {
        Ok(value) => cells_of(alloc, table, notebook, &value),
        Err(ReadError::NotJson) => Ok(Vec::new(alloc)),
        Err(ReadError::Memory) => Err(AllocError),
    }
}

/// The cells of a text in the table's language of notebooks, in their order; a text that is no
/// notebook has none. It fails where memory runs out.
pub fn cells(
    alloc: Global,
    table: &LanguageTable,
    notebook: LanguageType,
    text: &[u8],
) -> Result<Vec<Cell>, AllocError>
    requires { notebook < length table.now }
    ensures value { IfOk result (λ v. map cell_of v.items
        ≡ notebook_cells table.now notebook text.now) }
    ensures known { IfOk result (λ v. AreKnown (length table.now) (map cell_of v.items)) }
{
    let text = match std::str::from_utf8(text) {
        Ok(text) => text,
        Err(_) => return Ok(Vec::new(alloc)),
    };
    match cells_of_kept(alloc, table, notebook, text)? {
        Some(cells) => Ok(cells),
        None => cells_of_whole(alloc, table, notebook, text),
    }
}
