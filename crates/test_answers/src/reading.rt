//! How the members of a row are read. Where one can't be, why is kept, and something empty stands
//! for it: so who reads a row needs no exit, and of a row that can't be asked only what was kept
//! first is told.
use crate::answers::Answers;
use crate::error::RowError;
use crate::row::{Row, has_word};
use hex::FromHexError;
use std::alloc::AllocError;
use toml::Value;

impl Answers<'_> {
    /// The value of a member, which the row has to have.
    fn needed<'r>(&mut self, row: &Row<'r>, member: &'static str) -> Option<&'r Value> {
        let value = row.value(member);
        if value.is_none() {
            self.fail(RowError::Missing(member));
        }
        value
    }

    /// What a value of a member was read as, which has to be of a kind; where it isn't, another one
    /// stands for it.
    fn of_kind<T: Drop>(
        &mut self,
        member: &'static str,
        kind: &'static str,
        read: Option<T>,
        other: T,
    ) -> T {
        match read {
            Some(value) => value,
            None => {
                self.fail(RowError::Kind(member, kind));
                other
            }
        }
    }

    /// The text that a value is.
    pub fn text_of<'v>(&mut self, member: &'static str, value: &'v Value) -> &'v str {
        self.of_kind(member, "a text", value.as_str(), "")
    }

    /// The text of a member of a row.
    pub fn text<'r>(&mut self, row: &Row<'r>, member: &'static str) -> &'r str {
        match self.needed(row, member) {
            Some(value) => self.text_of(member, value),
            None => "",
        }
    }

    /// The text of a member of a row, where it has one.
    pub fn text_if<'r>(&mut self, row: &Row<'r>, member: &'static str) -> Option<&'r str> {
        if row.has(member) {
            Some(self.text(row, member))
        } else {
            None
        }
    }

    /// The bytes of a text, which may be written in hexadecimal digits instead, under a name of its
    /// own: so are bytes that aren't UTF-8.
    pub fn bytes(&mut self, row: &Row, member: &'static str, hex: &'static str) -> Vec<u8> {
        match self.text_if(row, hex) {
            Some(digits) => self.decode(hex, digits),
            None => {
                let bytes = Vec::from_slice(self.alloc, self.text(row, member).as_bytes());
                self.read(bytes, Vec::new(self.alloc))
            }
        }
    }

    /// The bytes that hexadecimal digits are.
    pub fn decode(&mut self, member: &'static str, digits: &str) -> Vec<u8> {
        match hex::decode(self.alloc, digits) {
            Ok(bytes) => return bytes,
            Err(FromHexError::OutOfMemory) => self.fail(RowError::Memory),
            Err(_) => self.fail(RowError::Kind(member, "pairs of hexadecimal digits")),
        }
        Vec::new(self.alloc)
    }

    /// The number that a value is, which is a text of digits where it passes the greatest of TOML.
    fn number_of(&mut self, member: &'static str, value: &Value) -> u64 {
        let number = match value {
            Value::Integer(number) => u64::try_from(*number).ok(),
            Value::String(digits) => digits.parse::<u64>().ok(),
            _ => None,
        };
        self.of_kind(member, "a number", number, 0)
    }

    /// The number of a member of a row.
    pub fn number(&mut self, row: &Row, member: &'static str) -> u64 {
        match self.needed(row, member) {
            Some(value) => self.number_of(member, value),
            None => 0,
        }
    }

    /// The number of a member of a row, where it has one.
    pub fn number_if(&mut self, row: &Row, member: &'static str) -> Option<u64> {
        if row.has(member) {
            Some(self.number(row, member))
        } else {
            None
        }
    }

    /// The place in a text, or the length of one, that a value is.
    fn place_of(&mut self, member: &'static str, value: &Value) -> usize {
        let number = self.number_of(member, value);
        self.of_kind(member, "a number", usize::try_from(number).ok(), 0)
    }

    /// The number of a member of a row that is a place in a text, or the length of one.
    pub fn place(&mut self, row: &Row, member: &'static str) -> usize {
        match self.needed(row, member) {
            Some(value) => self.place_of(member, value),
            None => 0,
        }
    }

    /// The three numbers that a value is.
    pub fn three_of(&mut self, member: &'static str, value: &Value) -> (usize, usize, usize) {
        match self.list_of(member, value) {
            [first, second, third] => (
                self.place_of(member, first),
                self.place_of(member, second),
                self.place_of(member, third),
            ),
            _ => {
                self.fail(RowError::Kind(member, "three numbers"));
                (0, 0, 0)
            }
        }
    }

    /// The three numbers of a member of a row.
    pub fn three(&mut self, row: &Row, member: &'static str) -> (usize, usize, usize) {
        match self.needed(row, member) {
            Some(value) => self.three_of(member, value),
            None => (0, 0, 0),
        }
    }

    /// Whether a member of a row is true; none where it is left out.
    pub fn flag_if(&mut self, row: &Row, member: &'static str) -> Option<bool> {
        match row.value(member) {
            Some(value) => Some(self.of_kind(member, "true or false", value.as_bool(), false)),
            None => None,
        }
    }

    /// Whether a member of a row is true. One that is left out is false.
    pub fn flag(&mut self, row: &Row, member: &'static str) -> bool {
        self.flag_if(row, member) == Some(true)
    }

    /// The values of a list that a value is.
    pub fn list_of<'v>(&mut self, member: &'static str, value: &'v Value) -> &'v [Value] {
        match value.as_array() {
            Some(values) => values.as_slice(),
            None => {
                self.fail(RowError::Kind(member, "a list"));
                &[]
            }
        }
    }

    /// The values of a member of a row that is a list. One that is left out is empty.
    pub fn list<'r>(&mut self, row: &Row<'r>, member: &'static str) -> &'r [Value] {
        match row.value(member) {
            Some(value) => self.list_of(member, value),
            None => &[],
        }
    }

    /// The texts of a member of a row that is a list of texts. One that is left out is empty.
    pub fn texts<'r>(&mut self, row: &Row<'r>, member: &'static str) -> Vec<&'r str> {
        let mut texts = Vec::new(self.alloc);
        for value in self.list(row, member) {
            let text = self.text_of(member, value);
            self.done(texts.push(text));
        }
        texts
    }

    /// A text that a call makes.
    pub fn made(&mut self, text: Result<String, AllocError>) -> String {
        self.read(text, String::new(self.alloc))
    }

    /// A text as an owned one.
    pub fn string(&mut self, text: &str) -> String {
        self.made(String::from_str(self.alloc, text))
    }

    /// The texts of a list that a value is, as owned ones.
    pub fn strings_of(&mut self, member: &'static str, value: &Value) -> Vec<String> {
        let mut strings = Vec::new(self.alloc);
        for value in self.list_of(member, value) {
            let text = self.text_of(member, value);
            let string = self.string(text);
            self.done(strings.push(string));
        }
        strings
    }

    /// The texts of a member of a row that is a list of texts, as owned ones. One that is left out
    /// is empty.
    pub fn strings(&mut self, row: &Row, member: &'static str) -> Vec<String> {
        match row.value(member) {
            Some(value) => self.strings_of(member, value),
            None => Vec::new(self.alloc),
        }
    }

    /// A list of one text.
    pub fn one_string(&mut self, text: &str) -> Vec<String> {
        let mut strings = Vec::new(self.alloc);
        let string = self.string(text);
        self.done(strings.push(string));
        strings
    }

    /// Tells a member of a row, or of a table in it, whose shared value isn't there: read as one
    /// that is left out, it might pass.
    pub fn refuse_unshared(&mut self, row: &Row) {
        if let Some(member) = row.unshared() {
            let told = ["  the member ", member, ": there is no such shared value\n"];
            self.told.put_all(&told);
            self.fail(RowError::Told);
        }
    }

    /// A value that is a table, read as a row.
    pub fn inner<'r>(
        &mut self,
        row: &Row<'r>,
        member: &'static str,
        value: &'r Value,
    ) -> Option<Row<'r>> {
        let inner = row.inner(value);
        match &inner {
            Some(table) => self.refuse_unshared(table),
            None => self.fail(RowError::Kind(member, "a table")),
        }
        inner
    }

    /// The member of a row that is a table, read as a row; none where it is left out.
    pub fn table_if<'r>(&mut self, row: &Row<'r>, member: &'static str) -> Option<Row<'r>> {
        match row.members.get(member) {
            Some(value) => self.inner(row, member, value),
            None => None,
        }
    }

    /// Keeps that a table, of a member of a row, has another member than these, where it has.
    pub fn only(&mut self, table: &Row, member: &'static str, known: &[&str]) {
        for (name, _) in table.members {
            if !has_word(known, name.as_str()) {
                self.fail(RowError::Unknown(member));
            }
        }
    }
}
