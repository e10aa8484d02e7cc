//! What a command line that is taken holds.
use test_answers::{Answers, Row, Said};
use tokei_cli::Cli;

/// Says what the readers of a command line answer.
fn say_readers(cli: &Cli, answers: &mut Answers) {
    answers.put("input", Said::Texts(cli.input()));
    answers.put(
        "ignored_directories",
        Said::Texts(cli.ignored_directories()),
    );
    if let Some(input) = cli.file_input() {
        answers.put("file_input", Said::Text(input));
    }
    if let Some(table) = cli.table() {
        answers.put("table", Said::Text(table));
    }
    answers.say_parts("readers");
}

/// Says the column to sort by, the inputs, the width, how often `-v` was given, and whether others
/// were.
fn say_options(cli: &Cli, answers: &mut Answers) {
    if let Some(sort) = &cli.sort {
        answers.put("sort", Said::Text(sort.as_str()));
    }
    if let Some(columns) = cli.columns {
        answers.put("columns", Said::Number(columns as u128));
    }
    answers.put("input", Said::Texts(cli.input()));
    answers.put("sort_reverse", Said::Flag(cli.sort_reverse));
    answers.put("files", Said::Flag(cli.files));
    answers.put("compact", Said::Flag(cli.compact));
    answers.put("verbose", Said::Number(cli.verbose as u128));
    answers.say_parts("options");
}

/// Answers what a command line holds that is taken: of the members that the row has, or all as
/// `Debug` shows them.
pub fn taken(row: &Row, cli: &Cli, answers: &mut Answers) {
    if row.has("readers") {
        say_readers(cli, answers);
    } else if row.has("options") {
        say_options(cli, answers);
    } else {
        answers.say_debug("members", cli);
    }
}
