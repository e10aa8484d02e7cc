//! What the public calls answer to a row, compared with what the row wants as it is said.
use crate::compared::{put_difference, put_missed};
use crate::error::RowError;
use crate::members::Members;
use crate::page::Page;
use crate::row::{Row, has_word};
use crate::said::Said;
use std::alloc::Global;
use std::fmt::{Debug, Display};
use std::mem;
use std::str::from_utf8;
use toml::{Table, Value};

/// What the public calls answer to a row, each under the member which says what is wanted. An
/// answer is compared as soon as it is said. What goes wrong is kept until all is said, so that who
/// says it needs no exit.
#[derive(Drop)]
pub struct Answers<'a> {
    /// What texts are made with.
    pub alloc: Global,
    row: Row<'a>,
    members: Members,
    said: Vec<&'static str>,
    left: &'static str,
    parts: Table,
    /// The lines that tell why the row doesn't hold; none where it holds.
    pub told: Page,
    wrong: Option<RowError>,
}

/// Whether a value, which should be a list of texts, has one that stands in a text, or doesn't,
/// other than wanted.
fn has_other(values: &[Value], text: &str, stand: bool) -> bool {
    for value in values {
        match value {
            Value::String(part) if text.contains(part.as_str()) == stand => {}
            _ => return true,
        }
    }
    false
}

impl<'a> Answers<'a> {
    /// No answers yet to a row.
    pub fn new(alloc: Global, row: Row<'a>, members: Members) -> Answers<'a> {
        Answers {
            alloc,
            row,
            members,
            said: Vec::new(alloc),
            left: "",
            parts: Table::new(alloc),
            told: Page::new(alloc),
            wrong: None,
        }
    }

    /// Keeps why the row can't be asked, where nothing went wrong before.
    pub fn fail(&mut self, cause: RowError) {
        if self.wrong.is_none() {
            self.wrong = Some(cause);
        }
    }

    /// Whether something went wrong.
    pub fn is_wrong(&self) -> bool {
        self.wrong.is_some()
    }

    /// What a call gives; where it gives nothing, why is kept.
    pub fn got<T, E: Into<RowError>>(&mut self, given: Result<T, E>) -> Option<T> {
        match given {
            Ok(value) => Some(value),
            Err(cause) => {
                self.fail(cause.into());
                None
            }
        }
    }

    /// What a call gives; where it gives nothing, why is kept, and another value stands for it.
    pub fn read<T: Drop, E: Into<RowError>>(&mut self, given: Result<T, E>, other: T) -> T {
        match self.got(given) {
            Some(value) => value,
            None => other,
        }
    }

    /// Keeps why a call failed, where it did.
    pub fn done<T: Drop, E: Into<RowError>>(&mut self, made: Result<T, E>) {
        let _made = self.got(made);
    }

    /// Tells why the row can't be asked.
    pub fn refuse(&mut self, cause: &Page) {
        self.told.put_indented(cause);
        self.fail(RowError::Told);
    }

    /// Leaves a member out of what is compared, whatever is then answered for it.
    pub fn leave(&mut self, member: &'static str) {
        self.left = member;
    }

    /// Whether what came for a member is what is wanted.
    fn agrees(&self, member: &'static str, came: &Value) -> bool {
        match self.row.value(member) {
            Some(wanted) => *came == *wanted,
            None => has_word(self.members.optional, member),
        }
    }

    /// Compares what came for a member with what is wanted, unless something went wrong before.
    fn compare(&mut self, member: &'static str, came: &Value) {
        let said = self.said.push(member);
        self.done(said);
        if self.wrong.is_none() && self.left != member && !self.agrees(member, came) {
            let wanted = self.row.value(member);
            put_difference(self.alloc, &mut self.told, member, wanted, came);
        }
    }

    /// Answers for a member.
    pub fn say(&mut self, member: &'static str, said: Said<'_>) {
        let came = self.value_of(said);
        self.compare(member, &came);
    }

    /// Answers for a member by what a page holds.
    pub fn say_page(&mut self, member: &'static str, page: &Page) {
        match page.text() {
            Some(text) => self.say(member, Said::Text(text)),
            None => self.fail(RowError::Memory),
        }
    }

    /// Answers for a member by how a value is shown.
    pub fn say_shown<T: Display>(&mut self, member: &'static str, value: &T) {
        let mut page = Page::new(self.alloc);
        page.put_shown(value);
        self.say_page(member, &page);
    }

    /// Answers for a member by how a value is shown to a programmer.
    pub fn say_debug<T: Debug>(&mut self, member: &'static str, value: &T) {
        let mut page = Page::new(self.alloc);
        page.put_debug(value);
        self.say_page(member, &page);
    }

    /// Answers for a member by the text that bytes are.
    pub fn say_written(&mut self, member: &'static str, written: &[u8]) {
        match from_utf8(written) {
            Ok(text) => self.say(member, Said::Text(text)),
            Err(_) => self.fail(RowError::Kind(member, "what came: that is no text")),
        }
    }

    /// Says of a member that it is as it should be; else what came in its place.
    fn say_if(&mut self, member: &'static str, is_right: bool, came: &str) {
        if is_right {
            let said = self.said.push(member);
            self.done(said);
        } else {
            self.say(member, Said::Text(came));
        }
    }

    /// Answers for a member that is a list of texts by a text, in which all of them should stand.
    pub fn say_standing(&mut self, member: &'static str, text: &str) {
        let row = self.row;
        let parts = self.list(&row, member);
        self.say_if(member, !has_other(parts, text, true), text);
    }

    /// Answers for a member that is a list of texts by a text, in which none of them should stand.
    pub fn say_absent(&mut self, member: &'static str, text: &str) {
        let row = self.row;
        let parts = self.list(&row, member);
        self.say_if(member, !has_other(parts, text, false), text);
    }

    /// Answers for a member that is a text by another one, which should begin with it.
    pub fn say_begun(&mut self, member: &'static str, text: &str) {
        let row = self.row;
        let head = self.text(&row, member);
        self.say_if(member, text.starts_with(head), text);
    }

    /// Puts what is said under a name into the table that is said next.
    pub fn put(&mut self, name: &str, said: Said<'_>) {
        let value = self.value_of(said);
        let name = self.string(name);
        let put = self.parts.insert(name, value);
        self.done(put);
    }

    /// Answers for a member by the table of what was put.
    pub fn say_parts(&mut self, member: &'static str) {
        let parts = mem::replace(&mut self.parts, Table::new(self.alloc));
        self.compare(member, &Value::Table(parts));
    }

    /// Tells the members of a list for which nothing came, though the row wants something.
    fn miss_all(&mut self, members: &'static [&'static str]) {
        for member in members {
            if !has_word(&self.said, member) && self.left != *member {
                if let Some(wanted) = self.row.value(member) {
                    put_missed(self.alloc, &mut self.told, member, wanted);
                }
            }
        }
    }

    /// Tells what went wrong, or else all members for which nothing came, though the row wants
    /// something.
    pub fn finish(&mut self) {
        match self.wrong {
            None => {
                self.miss_all(self.members.wanted);
                self.miss_all(self.members.optional);
            }
            Some(cause) => cause.tell(&mut self.told),
        }
    }
}
