//! A row, and what its members are.
use toml::{Table, Value};

/// A row of a file, or a table in a row. Any member may be written as `{ shared = "NAME" }`: it is
/// then what the file's table `[shared]` has under the name.
#[derive(Clone, Copy)]
pub struct Row<'a> {
    /// The row's name.
    pub name: &'a str,
    /// What the row has.
    pub members: &'a Table,
    shared: Option<&'a Table>,
}

/// The text that a table names, where it is `{ shared = "NAME" }`.
fn shared_name(members: &Table) -> Option<&str> {
    if members.len() != 1 {
        return None;
    }
    match members.get("shared") {
        Some(Value::String(name)) => Some(name.as_str()),
        _ => None,
    }
}

impl<'a> Row<'a> {
    /// A row with its name and members, in a file with these shared values.
    pub fn new(name: &'a str, members: &'a Table, shared: Option<&'a Table>) -> Row<'a> {
        Row {
            name,
            members,
            shared,
        }
    }

    /// What a value is, where it may be written as a shared one.
    fn resolved(&self, value: &'a Value) -> Option<&'a Value> {
        let Value::Table(members) = value else {
            return Some(value);
        };
        match shared_name(members) {
            Some(name) => match self.shared {
                Some(shared) => shared.get(name),
                None => None,
            },
            None => Some(value),
        }
    }

    /// The value of a member, where the row has it.
    pub fn value(&self, member: &str) -> Option<&'a Value> {
        match self.members.get(member) {
            Some(value) => self.resolved(value),
            None => None,
        }
    }

    /// Whether the row has a member.
    pub fn has(&self, member: &str) -> bool {
        self.members.get(member).is_some()
    }

    /// A value that is a table, read as a row; none where it is none.
    pub fn inner(&self, value: &'a Value) -> Option<Row<'a>> {
        match self.resolved(value) {
            Some(Value::Table(members)) => Some(Row::new(self.name, members, self.shared)),
            _ => None,
        }
    }

    /// The first name of a member whose value is written as a shared one that isn't there.
    pub fn unshared(&self) -> Option<&'a str> {
        for (member, value) in self.members {
            if self.resolved(value).is_none() {
                return Some(member.as_str());
            }
        }
        None
    }

    /// The first name of a member that is in none of these lists.
    pub fn unknown(&self, lists: &[&[&str]]) -> Option<&'a str> {
        for (member, _) in self.members {
            if !is_known(lists, member.as_str()) {
                return Some(member.as_str());
            }
        }
        None
    }
}

/// Whether one of these lists has a word.
fn is_known(lists: &[&[&str]], wanted: &str) -> bool {
    for list in lists {
        if has_word(list, wanted) {
            return true;
        }
    }
    false
}

/// Whether a list of words has a word.
pub fn has_word(words: &[&str], wanted: &str) -> bool {
    for word in words {
        if *word == wanted {
            return true;
        }
    }
    false
}
