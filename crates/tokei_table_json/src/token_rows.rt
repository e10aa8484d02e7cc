//! Rows of a table as its tokens come, without a tree.
ghost use Rattle.std.specs.Prelude.{◌≡◌, [], ◌∷◌, true, IfOk, IfSome, map};
ghost use Rattle.json.specs.Token.{Token as SpecToken};
ghost use Rattle.tokei_table_row.specs.RowOf.{row_of};
ghost use Rattle.tokei_table_json.specs.Escaped.{is_escaped_language};
ghost use Rattle.tokei_table_json.specs.Filled.{with_member, filled};
ghost use Rattle.tokei_table_json.specs.Layout.{is_language};
ghost use Rattle.tokei_table_json.specs.MemberEscapes.{keeps_escapes};
ghost use Rattle.tokei_table_json.specs.MemberLayout.{fits};
ghost use Rattle.tokei_table_json.specs.Next.{IsNext, AreMembersNext, IsTableText};
ghost use Rattle.tokei_table_json.specs.Rows.{row_in, rows_in};

use crate::escaped::keeps_escapes;
use crate::layout::fits;
use crate::members::{Member, member_of};
use crate::rows::{put_name, put_pairs, put_texts, put_truth, read_member};
use crate::token_lists::{next_pairs, next_text, next_texts, next_truth};
use bumpalo::Bump;
use json::{Reader, Scratch, Token, Value};
use std::alloc::{AllocError, Global};
use tokei_json_tree::ordering::{ascends, is_plain};
use tokei_table_row::Syntax;

/// How deep lists and objects stand in one another at most in a member of a language: those of a
/// text in `serde_json`, less the table, `languages` and the language.
const MEMBER_DEPTH: usize = 124;

/// How many bytes a language takes in a text, a little less than most do.
const LANGUAGE_LEN: usize = 200;

/// Room for the items of a list whose end isn't read yet.
#[derive(Drop)]
struct Lists {
    texts: Vec<String>,
    pairs: Vec<(String, String)>,
}

/// Whether an object begins here: takes one token.
fn begins_object(reader: &mut Reader<'_>) -> bool
    ensures { result ≡ true → reader.old ≡ SpecToken.begin_object ∷ reader.new }
{
    matches!(reader.next(), Some(Token::BeginObject))
}

/// Reads the next member's value by its tree into the row of a language that may be of kind `html`,
/// and tells whether it could.
fn put_tree<'t>(
    alloc: Global,
    bump: &'t Bump,
    reader: &mut Reader<'t>,
    row: &mut Syntax,
    key: &str,
) -> Result<bool, AllocError>
    ensures { IfOk result (λ done. done ≡ true
        → IsNext (fits true key.now) (keeps_escapes true key.now)
        (λ d. with_member true key.now d (row_of row.old)) 124 reader.old reader.new
        (row_of row.new)) }
{
    let Ok(tree) = Value::read(bump, reader, MEMBER_DEPTH) else {
        return Ok(false);
    };
    if !is_plain(&tree) || !fits(true, key, &tree) || !keeps_escapes(true, key, &tree) {
        return Ok(false);
    }
    read_member(alloc, row, true, key, &tree)?;
    Ok(true)
}

/// Reads the next member's value into the row of a language that may be of kind `html`, and tells
/// whether it could.
fn put_next<'t>(
    alloc: Global,
    bump: &'t Bump,
    reader: &mut Reader<'t>,
    lists: &mut Lists,
    row: &mut Syntax,
    key: &str,
) -> Result<bool, AllocError>
    ensures { IfOk result (λ done. done ≡ true
        → IsNext (fits true key.now) (keeps_escapes true key.now)
        (λ d. with_member true key.now d (row_of row.old)) 124 reader.old reader.new
        (row_of row.new)) }
{
    match member_of(key) {
        Member::Texts(list) => match next_texts(alloc, reader, &mut lists.texts)? {
            Some(texts) => put_texts(row, list, texts),
            None => return Ok(false),
        },
        Member::Pairs(list) => match next_pairs(alloc, reader, &mut lists.pairs)? {
            Some(pairs) => put_pairs(row, list, pairs),
            None => return Ok(false),
        },
        Member::Truth(member) => match next_truth(reader) {
            Some(truth) => put_truth(row, member, truth),
            None => return Ok(false),
        },
        Member::Name => match next_text(alloc, reader)? {
            Some(name) => put_name(row, name),
            None => return Ok(false),
        },
        Member::Kind | Member::Contexts | Member::Other => {
            return put_tree(alloc, bump, reader, row, key);
        }
    }
    Ok(true)
}

/// Reads the members that come next, up to the brace that closes them, into the row of a language
/// that may be of kind `html`, and tells whether it could.
fn put_members<'t>(
    alloc: Global,
    bump: &'t Bump,
    reader: &mut Reader<'t>,
    lists: &mut Lists,
    row: &mut Syntax,
) -> Result<bool, AllocError>
    ensures { IfOk result (λ done. done ≡ true → AreMembersNext (fits true) (keeps_escapes true)
        (λ ms. filled true ms (row_of row.old)) 124 reader.old reader.new (row_of row.new)) }
{
    let mut last = None;
    loop {
        match reader.next_key() {
            Ok(None) => return Ok(true),
            Ok(Some(key)) => {
                if !ascends(last, key) || !put_next(alloc, bump, reader, lists, row, key)? {
                    return Ok(false);
                }
                last = Some(key);
            }
            Err(_) => return Ok(false),
        }
    }
}

/// The row of the language that comes next under that key. Tags are read before the kind is known,
/// as those of a language of kind `html`, and dropped where it is of another.
fn next_row<'t>(
    alloc: Global,
    bump: &'t Bump,
    reader: &mut Reader<'t>,
    lists: &mut Lists,
    key: &str,
) -> Result<Option<Syntax>, AllocError>
    ensures { IfOk result (λ found. IfSome found (λ s. IsNext is_language is_escaped_language
        (row_in key.now) 125 reader.old reader.new (row_of s))) }
{
    let mut row = Syntax::new(alloc, key)?;
    if !begins_object(reader) || !put_members(alloc, bump, reader, lists, &mut row)? {
        return Ok(None);
    }
    if !row.is_html() {
        row.contexts = Vec::new(alloc);
    }
    Ok(Some(row))
}

/// The rows of the languages that come next, up to the brace that closes them, in a list with room
/// for that many.
fn next_rows<'t>(
    alloc: Global,
    bump: &'t Bump,
    reader: &mut Reader<'t>,
    room: usize,
) -> Result<Option<Vec<Syntax>>, AllocError>
    ensures { IfOk result (λ found. IfSome found (λ v. AreMembersNext (λ k. is_language)
        (λ k. is_escaped_language) rows_in 125 reader.old reader.new (map row_of v.items))) }
{
    let mut made = Vec::with_capacity(alloc, room)?;
    let mut lists = Lists {
        texts: Vec::new(alloc),
        pairs: Vec::new(alloc),
    };
    let mut last = None;
    loop {
        match reader.next_key() {
            Ok(None) => return Ok(Some(made)),
            Ok(Some(key)) => {
                if !ascends(last, key) {
                    return Ok(None);
                }
                let Some(row) = next_row(alloc, bump, reader, &mut lists, key)? else {
                    return Ok(None);
                };
                made.push(row)?;
                last = Some(key);
            }
            Err(_) => return Ok(None),
        }
    }
}

/// Whether a member of that name begins here, whose value is an object: takes two tokens.
fn begins_member(reader: &mut Reader<'_>, name: &str) -> bool
    ensures { result ≡ true
        → reader.old ≡ SpecToken.key name.now ∷ SpecToken.begin_object ∷ reader.new }
{
    match reader.next_key() {
        Ok(Some(key)) => key == name && begins_object(reader),
        _ => false,
    }
}

/// Whether an object ends here, and the text behind it.
fn ends(reader: &mut Reader<'_>) -> bool
    ensures { result ≡ true → reader.old ≡ SpecToken.end_object ∷ [] }
{
    match reader.next_key() {
        Ok(None) => reader.next().is_none(),
        _ => false,
    }
}

/// The rows of a table's text, in the order of their keys, without a tree of the text. None where
/// the text is no table, and also where a table has members beside `languages`, keys of an object
/// that aren't in byte order, or a number but whole ones of 64 bits from 0 on: its tree tells then.
/// It fails where memory runs out.
pub fn rows_in_order(alloc: Global, text: &str) -> Result<Option<Vec<Syntax>>, AllocError>
    ensures { IfOk result
        (λ found. IfSome found (λ v. IsTableText text.now (map row_of v.items))) }
{
    let bump = Bump::new(alloc);
    let mut scratch = Scratch::new(alloc);
    let mut reader = Reader::new(text, &mut scratch)?;
    if !begins_object(&mut reader) || !begins_member(&mut reader, "languages") {
        return Ok(None);
    }
    let rows = next_rows(alloc, &bump, &mut reader, text.len() / LANGUAGE_LEN)?;
    if !ends(&mut reader) {
        return Ok(None);
    }
    Ok(rows)
}
