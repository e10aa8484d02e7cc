//! What is told of the rows of a file.
use std::alloc::Global;
use test_answers::Page;

/// What is told of the rows of a file.
#[derive(Drop)]
pub struct Told {
    /// How many rows hold.
    pub hold: usize,
    /// How many don't.
    pub fail: usize,
    /// How many aren't asked, since the program's table isn't given.
    pub wait: usize,
    /// The lines on those that don't.
    pub lines: Page,
}

impl Told {
    /// Nothing yet.
    pub fn new(alloc: Global) -> Told {
        Told {
            hold: 0,
            fail: 0,
            wait: 0,
            lines: Page::new(alloc),
        }
    }

    /// Adds a row, or a file, of which something is told.
    pub fn refuse(&mut self, file: &str, what: &[&str]) {
        self.fail = self.fail.saturating_add(1);
        self.lines.put_all(&[file, ": "]);
        self.lines.put_all(what);
        self.lines.put("\n");
    }

    /// Adds a row with a name, and the lines that tell why it doesn't hold.
    pub fn refuse_row(&mut self, file: &str, name: &str, faults: &[&str]) {
        self.refuse(file, &["\"", name, "\" doesn't hold"]);
        self.lines.put_all(faults);
    }

    /// Adds a row with a name, and why it doesn't hold; it holds where nothing is told.
    pub fn add(&mut self, file: &str, name: &str, faults: &Page) {
        match faults.text() {
            Some("") => self.hold = self.hold.saturating_add(1),
            Some(faults) => self.refuse_row(file, name, &[faults]),
            None => self.lines.cut(),
        }
    }
}
