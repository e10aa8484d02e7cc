//! How long the counting of so many files takes.
use crate::made_folders::{FOLDERS, LINES_OF_FILE, MadeFolders};
use anyhow::bail;
use std::alloc::Global;
use std::time::{Clock, Duration, Instant};
use tokei_config::Config;
use tokei_languages::Languages;
use tokei_statistics::CountFiles;
use tokei_table::LanguageTable;

/// Of so many runs the quickest one stands.
const RUNS: usize = 5;

/// A number of files, their lines, and its quickest run.
#[derive(Drop)]
pub struct Measured {
    pub files: usize,
    /// How many lines are blank, code and comments.
    pub lines: (usize, usize, usize),
    /// The time of the quickest run so far; `Duration::MAX` before the first one.
    pub least: Duration,
}

/// The statistics of so many files in each folder.
fn counted(alloc: Global, table: &LanguageTable, each: usize) -> anyhow::Result<Languages> {
    let mut folders = MadeFolders::new(alloc, each);
    let mut roots = Vec::new(alloc);
    roots.push(String::from_str(alloc, ".")?)?;
    let none = Vec::new(alloc);
    let mut languages = Languages::new(alloc);
    let _notes = languages.get_statistics(table, &mut folders, &roots, &none, &Config::new())?;
    Ok(languages)
}

impl Measured {
    /// The number of files, counted once, with no run timed yet. It fails where the folders can't
    /// hold as many each, and where not each file is counted.
    pub fn new(alloc: Global, table: &LanguageTable, files: usize) -> anyhow::Result<Measured> {
        if files % FOLDERS != 0 {
            bail!("{FOLDERS} folders can't have as many of {files} files each");
        }
        let languages = counted(alloc, table, files / FOLDERS)?;
        let sums = languages.summary_counts()?;
        let lines = (sums.blanks, sums.code, sums.comments);
        let (blanks, code, comments) = LINES_OF_FILE;
        let expected = (
            files.checked_mul(blanks),
            files.checked_mul(code),
            files.checked_mul(comments),
        );
        if (Some(lines.0), Some(lines.1), Some(lines.2)) != expected {
            bail!("not each file is counted");
        }
        Ok(Measured {
            files,
            lines,
            least: Duration::MAX,
        })
    }

    /// Times one run.
    fn run(&mut self, rt: &impl Clock, alloc: Global, table: &LanguageTable) -> anyhow::Result<()> {
        let begun = Instant::now(rt)?;
        let languages = counted(alloc, table, self.files / FOLDERS)?;
        let took = begun.elapsed(rt)?;
        drop(languages);
        self.least = self.least.min(took);
        Ok(())
    }
}

/// Times some runs of each, in turn, so that a while in which the machine is slow meets all of
/// them.
pub fn time(
    rt: &impl Clock,
    alloc: Global,
    table: &LanguageTable,
    measured: &mut [Measured],
) -> anyhow::Result<()> {
    for _ in 0..RUNS {
        for one in measured.iter_mut() {
            one.run(rt, alloc, table)?;
        }
    }
    Ok(())
}
