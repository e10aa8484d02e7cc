//! Which of the rows a word, a MIME type, a file's name or a script's head stands for. Of two rows
//! the first is answered.
ghost use Rattle.std.specs.Prelude.{◌≡◌, ◌≤◌, length, map, take, is_some, option_map, false};
ghost use Rattle.std.specs.Str.{is_utf8};
ghost use Rattle.tokei_table_rules.specs.Lookups.{first_where, has_name, has_name_in_any_case, has_mime};
ghost use Rattle.tokei_table_rules.specs.Lookups.{has_extension, ends_with_one, has_path_suffix};
ghost use Rattle.tokei_table_rules.specs.Lookups.{extension_of, from_lowered_name};
ghost use Rattle.tokei_table_rules.specs.Shebangs.{first_word, behind_word, from_env};
ghost use Rattle.tokei_table_rules.specs.Shebangs.{from_words, head_line, from_shebang};
ghost use Rattle.tokei_table_rules.specs.TextIndex.{has_text, misses_rows};
ghost use Rattle.tokei_table_rules.specs.Walks.{has_walked};
ghost use Rattle.tokei_table_row.specs.Bytes.{line_len};
ghost use Rattle.tokei_table_row.specs.RowOf.{row_of, tokens_of};

use crate::indexed_rows::IndexedRows;
use crate::names::has_name;
use crate::text_index::TextKind;
use memchr::memrchr;
use tokei_table_row::Syntax;
use tokei_table_row::ext::{
    begins_with_one, holds, is_line_ending_whitespace, solid_len, trim_start,
};

#[tactic(auto, unfolding(crate::specs::Lookups::ends_with_one))]
fn ends_with_one(suffixes: &[String], name: &[u8]) -> bool
    ensures { result ≡ ends_with_one (tokens_of suffixes.now) name.now }
{
    for suffix in suffixes {
        if name.ends_with(suffix.as_bytes()) {
            return true;
        }
    }
    false
}

/// Whether that is one of the row's texts of the kind; of path suffixes, whether it ends with one.
#[inline(always)]
fn has_text(row: &Syntax, kind: TextKind, text: &[u8]) -> bool
    ensures { result ≡ has_text kind text.now (row_of row.now) }
{
    match kind {
        TextKind::Names => has_name(row, text),
        TextKind::LoweredNames => row.name.as_bytes().eq_ignore_ascii_case(text),
        TextKind::Extensions => holds(&row.extensions, text),
        TextKind::Filenames => holds(&row.filenames, text),
        TextKind::SuffixTails => ends_with_one(&row.path_suffixes, text),
    }
}

/// The first row that has the text, by the index of that kind.
#[inline(always)]
fn first_indexed(rows: &IndexedRows, kind: TextKind, text: &[u8]) -> Option<usize>
    requires { misses_rows kind rows.now ≡ false }
    ensures { result ≡ first_where (has_text kind text.now) rows.now }
{
    let places = rows.places(kind, text);
    for place in places {
        if has_text(rows.row(*place), kind, text) {
            return Some(*place);
        }
    }
    None
}

/// The first row with that key or name.
pub fn with_name(rows: &IndexedRows, word: &str) -> Option<usize>
    ensures { result ≡ first_where (has_name word.now) rows.now }
{
    first_indexed(rows, TextKind::Names, word.as_bytes())
}

/// The first row whose name is that word in any ASCII case.
pub fn with_name_in_any_case(rows: &IndexedRows, word: &str) -> Option<usize>
    ensures { result ≡ first_where (has_name_in_any_case word.now) rows.now }
{
    first_indexed(rows, TextKind::LoweredNames, word.as_bytes())
}

/// The first row with that extension.
pub fn with_extension(rows: &IndexedRows, extension: &[u8]) -> Option<usize>
    ensures { result ≡ first_where (has_extension extension.now) rows.now }
{
    first_indexed(rows, TextKind::Extensions, extension)
}

/// By which of its texts a row is found in a walk over all rows.
#[derive(Clone, Copy)]
enum WalkedKind {
    Mime,
    PathSuffix,
    Shebang,
    Env,
}

/// Whether one of the row's texts of the kind is that text, is its suffix or begins it.
#[inline(always)]
fn has_walked(row: &Syntax, kind: WalkedKind, text: &[u8]) -> bool
    ensures { result ≡ has_walked kind text.now (row_of row.now) }
{
    match kind {
        WalkedKind::Mime => holds(&row.mime, text),
        WalkedKind::PathSuffix => ends_with_one(&row.path_suffixes, text),
        WalkedKind::Shebang => holds(&row.shebangs, text),
        WalkedKind::Env => begins_with_one(&row.env, text),
    }
}

/// The first of all rows that has the text.
#[inline(always)]
fn first_walked(rows: &[Syntax], kind: WalkedKind, text: &[u8]) -> Option<usize>
    ensures { result ≡ first_where (has_walked kind text.now) (map row_of rows.now) }
{
    for (i, row) in rows.iter().enumerate() {
        if has_walked(row, kind, text) {
            return Some(i);
        }
    }
    None
}

/// The first row with that MIME type.
pub fn with_mime(rows: &[Syntax], mime: &[u8]) -> Option<usize>
    ensures { result ≡ first_where (has_mime mime.now) (map row_of rows.now) }
{
    first_walked(rows, WalkedKind::Mime, mime)
}

fn with_path_suffix(rows: &IndexedRows, name: &[u8]) -> Option<usize>
    ensures { result ≡ first_where (has_path_suffix name.now) rows.now }
{
    if rows.has_short_suffix() {
        first_walked(rows.rows(), WalkedKind::PathSuffix, name)
    } else {
        first_indexed(rows, TextKind::SuffixTails, name)
    }
}

/// What follows the last dot of a file's name, where that dot isn't the name's first byte.
fn extension(name: &[u8]) -> Option<&[u8]>
    ensures { option_map (λ e. e.now) result ≡ extension_of name.entry.now }
{
    match memrchr(b'.', name) {
        Some(at) => if at == 0 { None } else { Some(&name[at + 1..]) },
        None => None,
    }
}

/// Whether a file's name has an extension, be it an empty one: a dot that isn't its first byte.
pub fn has_extension(name: &str) -> bool
    ensures { result ≡ is_some (extension_of name.now) }
{
    extension(name.as_bytes()).is_some()
}

/// The first row with that whole name of a file, else with a suffix of it, else with its extension.
pub fn in_lowered_name(rows: &IndexedRows, name: &[u8]) -> Option<usize>
    ensures { result ≡ from_lowered_name rows.now name.now }
{
    if let Some(at) = first_indexed(rows, TextKind::Filenames, name) {
        return Some(at);
    }
    if let Some(at) = with_path_suffix(rows, name) {
        return Some(at);
    }
    with_extension(rows, extension(name)?)
}

fn line_len(text: &[u8]) -> usize
    ensures value { result ≡ line_len text.now }
    ensures within { result ≤ length text.now }
{
    for (i, byte) in text.iter().enumerate() {
        if is_line_ending_whitespace(*byte) {
            return i;
        }
    }
    text.len()
}

fn of_program(rows: &[Syntax], rest: &[u8]) -> Option<usize>
    ensures { result ≡ from_env (map row_of rows.now) (first_word rest.now) }
{
    let rest = trim_start(rest);
    let program = &rest[..solid_len(rest)];
    if program.is_empty() {
        return None;
    }
    first_walked(rows, WalkedKind::Env, program)
}

fn in_line(rows: &[Syntax], line: &[u8]) -> Option<usize>
    ensures { result
        ≡ from_words (map row_of rows.now) (first_word line.now) (behind_word line.now) }
{
    let line = trim_start(line);
    let (word, rest) = line.split_at(solid_len(line));
    if word.is_empty() {
        return None;
    }
    if let Some(at) = first_walked(rows, WalkedKind::Shebang, word) {
        return Some(at);
    }
    if word == "#!/usr/bin/env".as_bytes() {
        of_program(rows, rest)
    } else {
        None
    }
}

fn at_most(text: &[u8], len: usize) -> &[u8]
    ensures { result.now ≡ take len text.entry.now }
{
    if text.len() <= len {
        text
    } else {
        &text[..len]
    }
}

fn head_line(head: &[u8]) -> &[u8]
    ensures { result.now ≡ head_line head.entry.now }
{
    let head = at_most(head, 128);
    &head[..line_len(head)]
}

fn is_utf8(bytes: &[u8]) -> bool
    ensures { result ≡ is_utf8 bytes.now }
{
    match std::str::from_utf8(bytes) {
        Ok(_) => true,
        Err(_) => false,
    }
}

/// The row of a script with that head, of which the first line of the first 128 bytes is looked at.
pub fn in_head(rows: &[Syntax], head: &[u8]) -> Option<usize>
    ensures { result ≡ from_shebang (map row_of rows.now) head.now }
{
    let line = head_line(head);
    if is_utf8(line) {
        in_line(rows, line)
    } else {
        None
    }
}
