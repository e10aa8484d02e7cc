//! Tables as deep as JSON may nest, and deeper.
use crate::made_texts::text_of;
use crate::verdict::{Wrong, all_right};
use std::alloc::Global;
use tokei_table::LanguageTable;
use tokei_table_json::{FromJson, TableError};

/// How many languages the table of a text has that has a member to be passed over that is so many
/// lists deep.
fn languages_behind_lists(alloc: Global, depth: usize) -> Result<usize, TableError> {
    let pieces = [
        (r#"{"languages":{},"v":"#, 1),
        ("[", depth),
        ("]", depth),
        ("}", 1),
    ];
    match text_of(alloc, &pieces) {
        Ok(text) => match LanguageTable::from_json(alloc, text.as_bytes()) {
            Ok(table) => Ok(table.len()),
            Err(refused) => Err(refused),
        },
        Err(_) => Err(TableError::Memory),
    }
}

/// How deep the lists are, and how many languages the table has. `serde_json` reads values that are
/// up to 127 deep, the table itself counted.
static DEPTHS: [(usize, Result<usize, TableError>); 4] = [
    (126, Ok(0)),
    (127, Err(TableError::NotJson)),
    (128, Err(TableError::NotJson)),
    (20_000, Err(TableError::NotJson)),
];

/// The place of the first depth at which another answer is given, and that depth, if there is one.
fn first_wrong_depth(alloc: Global) -> Option<Wrong> {
    for (at, (depth, want)) in DEPTHS.iter().enumerate() {
        if languages_behind_lists(alloc, *depth) != *want {
            return Some((at, *depth));
        }
    }
    None
}

#[test]
fn too_deep(rt: HostRuntime) {
    all_right(&rt, first_wrong_depth(rt.alloc()));
}
