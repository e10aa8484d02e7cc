//! What the arguments ask for.
use anyhow::bail;
use std::env;

/// What the arguments ask for.
#[derive(Drop)]
pub struct Request {
    /// The path of the table of rows that have none themselves; else that is the bench table.
    pub table: Option<String>,
    /// The path of the program's table, which a row may name.
    pub program_table: Option<String>,
    /// The file whose rows alone are asked.
    pub file: Option<String>,
    /// The name of the rows that alone are asked.
    pub row: Option<String>,
}

impl Request {
    /// Whether the rows of a file are asked.
    pub fn asks(&self, name: &str) -> bool {
        match &self.file {
            Some(file) => file.as_str() == name,
            None => true,
        }
    }
}

/// What the program's arguments ask for: `--table PATH`, `--program-table PATH`, `--file NAME`,
/// `--row NAME`.
pub fn requested(rt: &HostRuntime) -> anyhow::Result<Request> {
    let mut words = env::args(rt)?;
    let _program = words.next();
    let mut request = Request {
        table: None,
        program_table: None,
        file: None,
        row: None,
    };
    for _ in 0..4 {
        let (Some(word), value) = (words.next(), words.next()) else {
            return Ok(request);
        };
        match word.as_str() {
            "--table" => request.table = value,
            "--program-table" => request.program_table = value,
            "--file" => request.file = value,
            "--row" => request.row = value,
            _ => bail!(
                "the arguments are --table PATH, --program-table PATH, --file NAME and --row NAME"
            ),
        }
    }
    Ok(request)
}
