//! What rows are about.
use crate::program_rows::{command_lines, configuration_files, notes, program, program_faults};
use test_answers::{Answers, Asked, Members, Row};
use test_texts::{
    blocks, bytes, captures, contexts, counting, look_ups, next_places, openers, reports, sums,
    syntaxes, tables, texts,
};
use test_trees::{
    documents, files, ignore_files, languages, memory_folders, patterns, printed, read_back,
    statistics, walks, words,
};
use tokei::LanguageTable;

/// What rows are about: each has a module that asks.
#[derive(Clone, Copy)]
enum About {
    Blocks,
    Bytes,
    Captures,
    Contexts,
    Counting,
    LookUps,
    NextPlaces,
    Openers,
    Reports,
    Sums,
    Syntaxes,
    Tables,
    Texts,
    Documents,
    Files,
    IgnoreFiles,
    Languages,
    MemoryFolders,
    Patterns,
    Printed,
    ReadBack,
    Statistics,
    Walks,
    Words,
    CommandLines,
    ConfigurationFiles,
    Notes,
    Program,
    ProgramFaults,
}

/// What rows are about: the name of their file, the members of its rows, and the calls that they
/// are asked of.
#[derive(Clone, Copy)]
pub struct Subject(&'static str, &'static Members, About);

/// Those of texts, in the order of their files' names. A constant's parts would be code wherever it
/// is named, and one list of all takes the prover more steps than it has.
static OF_TEXTS: [Subject; 13] = [
    Subject("blocks.toml", &blocks::MEMBERS, About::Blocks),
    Subject("bytes.toml", &bytes::MEMBERS, About::Bytes),
    Subject("captures.toml", &captures::MEMBERS, About::Captures),
    Subject("contexts.toml", &contexts::MEMBERS, About::Contexts),
    Subject("counting.toml", &counting::MEMBERS, About::Counting),
    Subject("look_ups.toml", &look_ups::MEMBERS, About::LookUps),
    Subject("next_places.toml", &next_places::MEMBERS, About::NextPlaces),
    Subject("openers.toml", &openers::MEMBERS, About::Openers),
    Subject("reports.toml", &reports::MEMBERS, About::Reports),
    Subject("sums.toml", &sums::MEMBERS, About::Sums),
    Subject("syntaxes.toml", &syntaxes::MEMBERS, About::Syntaxes),
    Subject("tables.toml", &tables::MEMBERS, About::Tables),
    Subject("texts.toml", &texts::MEMBERS, About::Texts),
];

/// Those of trees, in the order of their files' names.
static OF_TREES: [Subject; 11] = [
    Subject("documents.toml", &documents::MEMBERS, About::Documents),
    Subject("files.toml", &files::MEMBERS, About::Files),
    Subject(
        "ignore_files.toml",
        &ignore_files::MEMBERS,
        About::IgnoreFiles,
    ),
    Subject("languages.toml", &languages::MEMBERS, About::Languages),
    Subject(
        "memory_folders.toml",
        &memory_folders::MEMBERS,
        About::MemoryFolders,
    ),
    Subject("patterns.toml", &patterns::MEMBERS, About::Patterns),
    Subject("printed.toml", &printed::MEMBERS, About::Printed),
    Subject("read_back.toml", &read_back::MEMBERS, About::ReadBack),
    Subject("statistics.toml", &statistics::MEMBERS, About::Statistics),
    Subject("walks.toml", &walks::MEMBERS, About::Walks),
    Subject("words.toml", &words::MEMBERS, About::Words),
];

/// Those of runs and of the program, in the order of their files' names.
static OF_PROGRAM: [Subject; 9] = [
    Subject(
        "command_lines.toml",
        &command_lines::MEMBERS,
        About::CommandLines,
    ),
    Subject(
        "configuration_files.toml",
        &configuration_files::MEMBERS,
        About::ConfigurationFiles,
    ),
    Subject("notes.toml", &notes::MEMBERS, About::Notes),
    Subject("program.toml", &program::MEMBERS, About::Program),
    Subject(
        "program_faults.toml",
        &program_faults::MEMBERS,
        About::ProgramFaults,
    ),
    Subject("report_orders.toml", &program::MEMBERS, About::Program),
    Subject("report_widths.toml", &program::MEMBERS, About::Program),
    Subject("run_sums.toml", &program::MEMBERS, About::Program),
    Subject("runs.toml", &program::MEMBERS, About::Program),
];

impl Subject {
    /// Those of texts.
    pub fn of_texts() -> &'static [Subject] {
        &OF_TEXTS
    }

    /// Those of trees.
    pub fn of_trees() -> &'static [Subject] {
        &OF_TREES
    }

    /// Those of runs and of the program.
    pub fn of_program() -> &'static [Subject] {
        &OF_PROGRAM
    }

    /// The name of the file with the subject's rows.
    pub fn file(&self) -> &'static str {
        self.0
    }

    /// The members of the subject's rows.
    pub fn members(&self) -> Members {
        *self.1
    }

    /// Asks the public calls, and says what they answer.
    pub fn ask(&self, asked: &Asked, row: &Row, answers: &mut Answers) {
        match self.2 {
            About::Blocks => blocks::came(row, answers),
            About::Bytes => bytes::came(row, answers),
            About::Captures => captures::came(row, answers),
            About::NextPlaces => next_places::came(row, answers),
            About::Texts => texts::came(row, answers),
            About::IgnoreFiles => ignore_files::came(row, answers),
            About::MemoryFolders => memory_folders::came(row, answers),
            About::Patterns => patterns::came(row, answers),
            About::Walks => walks::came(row, answers),
            About::Words => words::came(row, answers),
            About::CommandLines => command_lines::came(row, answers),
            About::ConfigurationFiles => configuration_files::came(asked, row, answers),
            About::Notes => notes::came(row, answers),
            About::Program => program::came(row, answers),
            About::ProgramFaults => program_faults::came(row, answers),
            _ => match asked.table() {
                Ok(table) => ask_by(self.2, (table, asked.bench), row, answers),
                Err(cause) => answers.fail(cause),
            },
        }
    }
}

/// Asks the public calls that need a table, and says what they answer: by that one, and by the
/// bench table where another one is named in its place.
fn ask_by(
    about: About,
    (table, bench): (&LanguageTable, Option<&LanguageTable>),
    row: &Row,
    answers: &mut Answers,
) {
    match about {
        About::Contexts => contexts::came(table, row, answers),
        About::Counting => counting::came(table, bench, row, answers),
        About::LookUps => look_ups::came(table, row, answers),
        About::Openers => openers::came(table, row, answers),
        About::Reports => reports::came(table, row, answers),
        About::Sums => sums::came(table, row, answers),
        About::Syntaxes => syntaxes::came(table, row, answers),
        About::Tables => tables::came(table, row, answers),
        About::Documents => documents::came(table, row, answers),
        About::Files => files::came(table, row, answers),
        About::Languages => languages::came(table, row, answers),
        About::Printed => printed::came(table, row, answers),
        About::ReadBack => read_back::came(table, row, answers),
        About::Statistics => statistics::came(table, row, answers),
        _ => {}
    }
}
