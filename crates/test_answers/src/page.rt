//! A text that grows.
use std::alloc::{AllocError, Global};
use std::fmt::{Debug, Display};

/// A text that grows. Where memory runs out it is no text from then on, so that who adds to it
/// needs no exit.
#[derive(Drop)]
pub struct Page {
    text: String,
    is_cut: bool,
}

impl Page {
    /// An empty text.
    pub fn new(alloc: Global) -> Page {
        Page {
            text: String::new(alloc),
            is_cut: false,
        }
    }

    /// Keeps whether memory ran out.
    fn keep(&mut self, added: Result<(), AllocError>) {
        self.is_cut |= added.is_err();
    }

    /// Keeps that memory ran out.
    pub fn cut(&mut self) {
        self.is_cut = true;
    }

    /// Whether nothing was added.
    pub fn is_empty(&self) -> bool {
        self.text.is_empty()
    }

    /// The text; none where memory ran out.
    pub fn text(&self) -> Option<&str> {
        if self.is_cut {
            None
        } else {
            Some(self.text.as_str())
        }
    }

    /// Adds a text.
    pub fn put(&mut self, text: &str) {
        let added = self.text.push_str(text);
        self.keep(added);
    }

    /// Adds texts, one behind the other.
    pub fn put_all(&mut self, texts: &[&str]) {
        for text in texts {
            self.put(text);
        }
    }

    /// Adds the lines of a text, each behind a mark.
    pub fn put_lines(&mut self, mark: &str, text: &str) {
        for line in text.split('\n') {
            self.put_all(&["    ", mark, ": ", line, "\n"]);
        }
    }

    /// Adds the lines of a page that aren't empty, each behind two blanks.
    pub fn put_indented(&mut self, page: &Page) {
        match page.text() {
            Some(text) => {
                for line in text.split('\n') {
                    if !line.is_empty() {
                        self.put_all(&["  ", line, "\n"]);
                    }
                }
            }
            None => self.is_cut = true,
        }
    }

    /// Adds how a value is shown.
    pub fn put_shown<T: Display>(&mut self, value: &T) {
        let added = write!(self.text, "{value}");
        self.keep(added);
    }

    /// Adds how a value is shown to a programmer.
    pub fn put_debug<T: Debug>(&mut self, value: &T) {
        let added = write!(self.text, "{value:?}");
        self.keep(added);
    }

    /// Adds a line of a name, three counts and a mark.
    pub fn put_counts(&mut self, name: &str, counts: (usize, usize, usize), mark: &str) {
        let (blanks, code, comments) = counts;
        let added = writeln!(self.text, "{name} {blanks} {code} {comments}{mark}");
        self.keep(added);
    }
}
