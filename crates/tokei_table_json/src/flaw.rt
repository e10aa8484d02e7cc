//! Where the text of a refused table goes wrong.
ghost use Rattle.std.specs.Prelude.{◌≡◌, ◌<◌, ◌++◌, not, Err, map, length, string_bytes};
ghost use Rattle.std.specs.Prelude.{is_some, is_err, IfOk, IfSome};
ghost use Rattle.std.specs.List.{list_all, list_any};
ghost use Rattle.json.specs.Value.{value_view};
ghost use Rattle.serde_json.specs.Read.{read as read_text};
ghost use Rattle.serde_json.specs.Written.{has_float};
ghost use Rattle.tokei_json_tree.specs.Ordered.{IsOrdered};
ghost use Rattle.tokei_json_tree.specs.TreeData.{data_of};
ghost use Rattle.tokei_table_json.specs.Flaws.{IsFlaw, Tells, TellsToken, TellsName, TellsTotal, TellsFallback};
ghost use Rattle.tokei_table_json.specs.Flaws.{rows_in, rows_in_data, rows_in_value};
ghost use Rattle.tokei_table_json.specs.Flaws.{is_flawed_value, is_flawed_data, is_flawed};
ghost use Rattle.tokei_table_json.specs.Members.{member_of};
ghost use Rattle.tokei_table_json.specs.Outcome.{outcome, outcome_of, outcome_of_value, tested};
ghost use Rattle.tokei_table_json.specs.Sentences.{fault_of, form_of, subject_of};
ghost use Rattle.tokei_table.specs.KeyOrder.{IsInKeyOrder};
ghost use Rattle.tokei_table_row.specs.RowOf.{row_of};
ghost use Rattle.tokei_table_rules.specs.Fallbacks.{has_fallbacks};
ghost use Rattle.tokei_table_rules.specs.RowNames.{is_total, names_twice, shares_earlier};
ghost use Rattle.tokei_table_rules.specs.Tokens.{has_tokens};
ghost use Rattle.tokei_table_json.specs.declared.error.TableError.TheVariants.{Token, NamedTwice, NamedTotal};
ghost use Rattle.tokei_table_json.specs.declared.error.TableError.TheVariants.{Fallback};

use crate::error::TableError;
use crate::escaped::is_escaped_table;
use crate::layout::has_layout;
use crate::members::{Member, member_of};
use crate::misfits::{misescaped_language, unfit_language};
use crate::reading::{test, text_of};
use crate::rows::rows_of;
use std::alloc::{AllocError, Global};
use std::fmt;
use tokei_json_tree::{ReadError, Reading, Room, read};
use tokei_table_row::Syntax;
use tokei_table_rules::names::{second_of_name, shared_name};
use tokei_table_rules::well_formed::{bad_member, is_total, missing_key};

/// Where the text of a refused table goes wrong.
#[derive(Debug, Drop)]
pub struct TableFlaw {
    /// Why the table is refused.
    pub cause: TableError,
    /// The key of the language.
    pub language: String,
    /// The member of the language where the cause is `Layout`, `Escape` or `Token`, and empty where
    /// the language isn't even an object. The name that stands for two languages where it is
    /// `NamedTwice`, the key of the missing language where it is `Fallback`, and else empty.
    pub word: String,
    /// The other language of that name, which stands later, or empty.
    pub other: String,
}

/// What a member of a language has to hold, in words.
fn form_of(member: &str) -> &str
    ensures { result.now ≡ form_of (member_of member.now) }
{
    match member_of(member) {
        Member::Name | Member::Kind => "text",
        Member::Truth(_) => "truth value",
        Member::Pairs(_) => "list of pairs of texts",
        Member::Contexts => "list of objects, each with a tag in a language of kind 'html'",
        Member::Texts(_) | Member::Other => "list of texts",
    }
}

impl TableFlaw {
    /// How the sentence begins, up to the language's key: a text, a name and a text.
    fn subject(&self) -> (&str, &str, &str)
        ensures { result.0.now ++ (result.1.now ++ result.2.now)
            ≡ subject_of self.now.cause (string_bytes self.now.word) }
    {
        let word = self.word.as_str();
        match self.cause {
            TableError::Layout if word.is_empty() => ("the language '", "", ""),
            TableError::Layout | TableError::Escape => ("'", word, "' of the language '"),
            TableError::NamedTwice => ("the name '", word, "' stands for the languages '"),
            _ => ("the language '", "", ""),
        }
    }

    /// How the sentence goes on behind the quote that closes the key: a text, a name and a text.
    fn fault(&self) -> (&str, &str, &str)
        ensures { result.0.now ++ (result.1.now ++ result.2.now) ≡ fault_of self.now.cause
            (string_bytes self.now.word) (string_bytes self.now.other) }
    {
        let word = self.word.as_str();
        match self.cause {
            TableError::Layout if word.is_empty() => (" is no object", "", ""),
            TableError::Layout => (" is no ", form_of(word), ""),
            TableError::Escape => (" has an unknown escape", "", ""),
            TableError::Token => (
                ": a token of '",
                word,
                "' is empty, blank or holds a newline",
            ),
            TableError::NamedTwice => (" and '", self.other.as_str(), "'"),
            TableError::NamedTotal => (" is named Total", "", ""),
            TableError::Fallback => (" needs '", word, "', which is missing"),
            TableError::NotJson | TableError::Memory => ("", "", ""),
        }
    }
}

/// The flaw in a sentence, which names the language and the member.
impl fmt::Display for TableFlaw {
    ghost use Rattle.std.specs.Prelude.{Some};
    ghost use Rattle.tokei_table_json.specs.Sentences.{sentence_of};

    ghost output = { λ flaw. Some (sentence_of flaw) };

    fn fmt<W: fmt::Write>(&self, f: &mut fmt::Formatter<W>) -> fmt::Result {
        let (start, name, joint) = self.subject();
        let language = self.language.as_str();
        let (verb, object, end) = self.fault();
        write!(f, "{start}{name}{joint}{language}'{verb}{object}{end}")
    }
}

/// A flaw of that cause in the language.
fn flaw(
    alloc: Global,
    cause: TableError,
    language: &str,
    word: &str,
) -> Result<TableFlaw, AllocError>
    ensures { IfOk result (IsFlaw cause language.now word.now) }
{
    let language = String::from_str(alloc, language)?;
    let word = String::from_str(alloc, word)?;
    Ok(TableFlaw {
        cause,
        language,
        word,
        other: String::new(alloc),
    })
}

/// The flaw of a language and its member, where there is one.
fn misfit(
    alloc: Global,
    cause: TableError,
    found: Option<(&str, Option<&str>)>,
) -> Result<Option<TableFlaw>, AllocError>
    ensures cause { IfOk result (λ o. IfSome o (λ f. f.cause ≡ cause)) }
    ensures found { IfOk result (λ o. is_some o ≡ is_some found.entry) }
{
    match found {
        Some((language, member)) => {
            Ok(Some(flaw(alloc, cause, language, member.unwrap_or(""))?))
        }
        None => Ok(None),
    }
}

fn token_flaw(alloc: Global, rows: &[Syntax]) -> Result<Option<TableFlaw>, AllocError>
    ensures found { IfOk result (λ o. is_some o ≡ not (list_all has_tokens (map row_of rows.now))) }
    ensures tells { IfOk result (λ o. IfSome o (Tells (Err Token) (map row_of rows.now))) }
{
    for row in rows {
        if let Some(member) = bad_member(row) {
            return Ok(Some(flaw(alloc, TableError::Token, row.key.as_str(), member)?));
        }
    }
    Ok(None)
}

/// The flaw of a name that the row at that place shares with one before it.
fn clash(alloc: Global, rows: &[Syntax], place: usize) -> Result<Option<TableFlaw>, AllocError>
    requires { place < length rows.now }
    ensures found { IfOk result (λ o. is_some o ≡ shares_earlier (map row_of rows.now) place) }
    ensures tells { IfOk result (λ o. IfSome o (Tells (Err NamedTwice) (map row_of rows.now))) }
{
    let row = &rows[place];
    for earlier in &rows[..place] {
        if let Some(name) = shared_name(row, earlier) {
            let mut found = flaw(alloc, TableError::NamedTwice, earlier.key.as_str(), name)?;
            found.other.push_str(row.key.as_str())?;
            return Ok(Some(found));
        }
    }
    Ok(None)
}

fn name_flaw(alloc: Global, rows: &[Syntax]) -> Result<Option<TableFlaw>, AllocError>
    ensures found { IfOk result (λ o. is_some o ≡ names_twice (map row_of rows.now)) }
    ensures tells { IfOk result (λ o. IfSome o (Tells (Err NamedTwice) (map row_of rows.now))) }
{
    match second_of_name(alloc, rows)? {
        Some(place) => clash(alloc, rows, place),
        None => Ok(None),
    }
}

fn total_flaw(alloc: Global, rows: &[Syntax]) -> Result<Option<TableFlaw>, AllocError>
    ensures found { IfOk result (λ o. is_some o ≡ list_any is_total (map row_of rows.now)) }
    ensures tells { IfOk result (λ o. IfSome o (Tells (Err NamedTotal) (map row_of rows.now))) }
{
    for row in rows {
        if is_total(row) {
            return Ok(Some(flaw(alloc, TableError::NamedTotal, row.key.as_str(), "")?));
        }
    }
    Ok(None)
}

fn fallback_flaw(alloc: Global, rows: &[Syntax]) -> Result<Option<TableFlaw>, AllocError>
    ensures found { IfOk result (λ o. is_some o
        ≡ not (list_all (has_fallbacks (map row_of rows.now)) (map row_of rows.now))) }
    ensures tells { IfOk result (λ o. IfSome o (Tells (Err Fallback) (map row_of rows.now))) }
{
    for row in rows {
        if let Some(key) = missing_key(rows, row) {
            return Ok(Some(flaw(alloc, TableError::Fallback, row.key.as_str(), key)?));
        }
    }
    Ok(None)
}

/// What of the rows, which are in the order of their keys, forbids a count.
#[tactic(auto, unfolding(crate::specs::Outcome::tested))]
fn row_flaw(alloc: Global, rows: &[Syntax]) -> Result<Option<TableFlaw>, AllocError>
    requires { IsInKeyOrder (map row_of rows.now) }
    ensures found { IfOk result (λ o. is_some o ≡ is_err (tested (map row_of rows.now))) }
    ensures tells { IfOk result (λ o. IfSome o
        (Tells (tested (map row_of rows.now)) (map row_of rows.now))) }
{
    match test(alloc, rows) {
        Ok(()) => Ok(None),
        Err(TableError::Token) => token_flaw(alloc, rows),
        Err(TableError::NamedTwice) => name_flaw(alloc, rows),
        Err(TableError::NamedTotal) => total_flaw(alloc, rows),
        Err(TableError::Fallback) => fallback_flaw(alloc, rows),
        // Rows are refused for no other cause.
        Err(_) => Err(AllocError),
    }
}

/// What of a text's JSON keeps it from being a table.
#[tactic(auto, unfolding(crate::specs::Outcome::outcome_of_value, crate::specs::Layout::has_layout))]
fn reading_flaw(alloc: Global, read: &Reading<'_>) -> Result<Option<TableFlaw>, AllocError>
    requires ordered { IsOrdered (value_view read.now.tree) }
    requires fraction { read.now.has_fraction ≡ has_float (data_of (value_view read.now.tree)) }
    ensures found { IfOk result
        (λ o. is_some o ≡ is_flawed_value (data_of (value_view read.now.tree))) }
    ensures tells { IfOk result (λ o. IfSome o
        (Tells (outcome_of_value (data_of (value_view read.now.tree)))
        (rows_in_value (data_of (value_view read.now.tree))))) }
{
    if read.has_fraction || !has_layout(&read.tree) {
        return misfit(alloc, TableError::Layout, unfit_language(&read.tree));
    }
    if !is_escaped_table(&read.tree) {
        return misfit(alloc, TableError::Escape, misescaped_language(&read.tree));
    }
    let rows = rows_of(alloc, &read.tree)?;
    row_flaw(alloc, &rows)
}

/// What of a text, whose tree stands in the room, keeps it from being a table.
fn flaw_in(alloc: Global, room: &mut Room, text: &str) -> Result<Option<TableFlaw>, AllocError>
    ensures found { IfOk result (λ o. is_some o ≡ is_flawed_data (read_text text.now)) }
    ensures tells { IfOk result (λ o. IfSome o
        (Tells (outcome_of (read_text text.now)) (rows_in_data (read_text text.now)))) }
{
    match read(alloc, room, text) {
        Ok(read) => reading_flaw(alloc, &read),
        Err(ReadError::Memory) => Err(AllocError),
        Err(ReadError::NotJson) => Ok(None),
    }
}

/// What of a text keeps it from being a table.
fn text_flaw(alloc: Global, text: &str) -> Result<Option<TableFlaw>, AllocError>
    ensures found { IfOk result (λ o. is_some o ≡ is_flawed_data (read_text text.now)) }
    ensures tells { IfOk result (λ o. IfSome o
        (Tells (outcome_of (read_text text.now)) (rows_in_data (read_text text.now)))) }
{
    let mut room = Room::new(alloc);
    flaw_in(alloc, &mut room, text)
}

impl TableFlaw {
    /// Where a text that `LanguageTable::from_json` refuses goes wrong. None is told of a table, of
    /// what is no JSON text, or where no language of its own is at fault. It fails where memory
    /// runs out.
    pub fn find(alloc: Global, bytes: &[u8]) -> Result<Option<TableFlaw>, AllocError>
        ensures cause { IfOk result (λ o. IfSome o (λ f. outcome bytes.now ≡ Err f.cause)) }
        ensures found { IfOk result (λ o. is_some o ≡ is_flawed bytes.now) }
        ensures token { IfOk result (λ o. IfSome o (TellsToken (rows_in bytes.now))) }
        ensures name { IfOk result (λ o. IfSome o (TellsName (rows_in bytes.now))) }
        ensures total { IfOk result (λ o. IfSome o (TellsTotal (rows_in bytes.now))) }
        ensures fallback { IfOk result (λ o. IfSome o (TellsFallback (rows_in bytes.now))) }
    {
        match text_of(bytes) {
            Ok(text) => text_flaw(alloc, text),
            Err(_) => Ok(None),
        }
    }
}
