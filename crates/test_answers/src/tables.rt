//! The tables by which rows are asked.
use crate::answers::Answers;
use crate::bench_table::bench_json;
use crate::error::RowError;
use crate::page::Page;
use crate::row::Row;
use std::alloc::Global;
use std::fs;
use std::io::ErrorKind;
use tokei_table::LanguageTable;
use tokei_table_json::{FromJson, TableError};

/// The tables by which a file's rows are asked.
#[derive(Drop)]
pub struct Tables {
    /// The table of rows that have none themselves.
    pub named: Option<LanguageTable>,
    /// The bench table, where another one is named in its place.
    pub bench: Option<LanguageTable>,
    /// The program's table, which rows name as `languages.json`; else why they can't be asked by it.
    pub program: Result<LanguageTable, RowError>,
}

/// Why a row can't be asked that names a table which isn't there.
const NO_TABLE: RowError = RowError::Words("there is no such table");

/// The tables by which one row is asked.
#[derive(Clone, Copy)]
pub struct Asked<'a> {
    /// The row's own table, the one that it names, or the one of rows that have neither.
    pub by: Option<&'a LanguageTable>,
    /// The bench table, where the row is asked by another one in its place.
    pub bench: Option<&'a LanguageTable>,
}

impl<'a> Asked<'a> {
    /// The table by which the row is asked.
    pub fn table(&self) -> Result<&'a LanguageTable, RowError> {
        match self.by {
            Some(table) => Ok(table),
            None => Err(RowError::Missing("table_json")),
        }
    }
}

impl Tables {
    /// The table that a row names as `table_file`, else its own one.
    fn own<'a>(
        &'a self,
        row: &Row,
        own: Option<&'a LanguageTable>,
        answers: &mut Answers,
    ) -> Option<&'a LanguageTable> {
        match (answers.text_if(row, "table_file"), own) {
            (None, own) => return own,
            (Some("languages.json"), None) => match &self.program {
                Ok(table) => return Some(table),
                Err(cause) => answers.fail(*cause),
            },
            (Some(_), None) => answers.fail(NO_TABLE),
            (Some(_), Some(_)) => answers.fail(RowError::Words("it has two tables")),
        }
        None
    }

    /// The tables by which a row is asked that has its own one, names one, or neither.
    pub fn asked<'a>(
        &'a self,
        row: &Row,
        own: Option<&'a LanguageTable>,
        answers: &mut Answers,
    ) -> Asked<'a> {
        match self.own(row, own, answers) {
            Some(own) => Asked {
                by: Some(own),
                bench: None,
            },
            None => Asked {
                by: self.named.as_ref(),
                bench: self.bench.as_ref(),
            },
        }
    }
}

/// The table at a path.
fn table_at(rt: &HostRuntime, path: &str) -> anyhow::Result<LanguageTable> {
    let bytes = fs::read(rt, path)?;
    Ok(LanguageTable::from_json(rt.alloc(), &bytes)?)
}

/// The bench table.
fn bench_table(rt: &HostRuntime) -> anyhow::Result<LanguageTable> {
    Ok(LanguageTable::from_json(rt.alloc(), bench_json())?)
}

/// The program's table, which is at a path.
pub fn program_table(rt: &HostRuntime, path: &str) -> Result<LanguageTable, RowError> {
    match fs::read(rt, path) {
        Ok(bytes) => match LanguageTable::from_json(rt.alloc(), &bytes) {
            Ok(table) => Ok(table),
            Err(TableError::Memory) => Err(RowError::Memory),
            Err(_) => Err(RowError::Words("the table that it names can't be read")),
        },
        Err(cause) if cause.kind() == ErrorKind::OutOfMemory => Err(RowError::Memory),
        Err(_) => Err(NO_TABLE),
    }
}

/// The tables of a file whose rows may be asked by the table at a path, else by the bench table;
/// none where they have tables of their own.
pub fn made_tables(rt: &HostRuntime, by_table: bool, path: Option<&str>) -> anyhow::Result<Tables> {
    let bench = if by_table {
        Some(bench_table(rt)?)
    } else {
        None
    };
    match path {
        Some(path) => Ok(Tables {
            named: Some(table_at(rt, path)?),
            bench,
            program: Err(NO_TABLE),
        }),
        None => Ok(Tables {
            named: bench,
            bench: None,
            program: Err(NO_TABLE),
        }),
    }
}

/// The table that a text in a row is.
fn read(alloc: Global, text: &str, answers: &mut Answers) -> Option<LanguageTable> {
    match LanguageTable::from_json(alloc, text.as_bytes()) {
        Ok(table) => Some(table),
        Err(TableError::Memory) => {
            answers.fail(RowError::Memory);
            None
        }
        Err(cause) => {
            let mut shown = Page::new(alloc);
            shown.put_shown(&cause);
            answers.refuse(&shown);
            None
        }
    }
}

/// The table that a row has itself: of its member `table_json`.
pub fn own_table(row: &Row, answers: &mut Answers) -> Option<LanguageTable> {
    match answers.text_if(row, "table_json") {
        Some(text) => read(answers.alloc, text, answers),
        None => None,
    }
}
