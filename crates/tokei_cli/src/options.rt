//! The options, and what help says of each.
ghost use Rattle.std.specs.Prelude.{◌≡◌, IfOk, codes, map};
ghost use Rattle.clap.specs.Lexer.{usize_max};
ghost use Rattle.clap.specs.Words.{app_of, new_rule};
ghost use Rattle.clap.specs.declared.builder.action.ArgAction.TheVariants.{Append};
ghost use Rattle.tokei_cli.specs.Options.{line_app, local, rule_of_row, ruled};

use crate::version::VERSION;
use clap::builder::ValueParser;
use clap::{Arg, ArgAction, Command};
use std::alloc::{AllocError, Global};

/// An option with a long name, as the tables have it.
#[derive(Clone, Copy, Drop)]
struct OptionRow {
    /// What its values are read back by.
    id: &'static str,
    long: &'static str,
    letter: Option<char>,
    action: ArgAction,
    /// What its value has to be, where it isn't any text.
    parser: Option<ValueParser<'static>>,
    /// The options beside which it is refused.
    others: &'static [&'static str],
    /// What help says of it.
    help: &'static str,
}

/// The options in the order of help: on what the report shows, on formats for other programs and
/// the list of languages, on the order of the report and which languages it has, on which ignore
/// files are obeyed, on what else is left out and on files that the program reads, and on notes.
static OPTIONS: [OptionRow; 19] = [
    OptionRow {
        id: "columns",
        long: "columns",
        letter: Some('c'),
        action: ArgAction::Set,
        parser: Some(ValueParser::Unsigned(0, u64::MAX)),
        others: &["output"],
        help: "Prints the report at this width, in columns; at least 81.",
    },
    OptionRow {
        id: "files",
        long: "files",
        letter: Some('f'),
        action: ArgAction::SetTrue,
        parser: None,
        others: &[],
        help: "Also lists every file.",
    },
    OptionRow {
        id: "compact",
        long: "compact",
        letter: Some('C'),
        action: ArgAction::SetTrue,
        parser: None,
        others: &[],
        help: "Prints no statistics of embedded languages.",
    },
    OptionRow {
        id: "num-format",
        long: "num-format",
        letter: Some('n'),
        action: ArgAction::Set,
        parser: None,
        others: &["output"],
        help: "How numbers are printed: plain (1234, the default), commas (1,234), dots (1.234) or \
               underscores (1_234).",
    },
    OptionRow {
        id: "output",
        long: "output",
        letter: Some('o'),
        action: ArgAction::Set,
        parser: None,
        others: &[],
        help: "Writes the results in a format for other programs, in place of the report: json.",
    },
    OptionRow {
        id: "streaming",
        long: "streaming",
        letter: None,
        action: ArgAction::Set,
        parser: None,
        others: &[],
        help: "Writes a record of each file as it is counted (language, path, lines, blanks, code, \
               comments): simple or json.",
    },
    OptionRow {
        id: "languages",
        long: "languages",
        letter: Some('l'),
        action: ArgAction::SetTrue,
        parser: None,
        others: &["input"],
        help: "Lists the languages and their extensions, and counts nothing.",
    },
    OptionRow {
        id: "sort",
        long: "sort",
        letter: Some('s'),
        action: ArgAction::Set,
        parser: None,
        others: &["rsort"],
        help: "Sorts the languages by a column: files, lines, blanks, code or comments.",
    },
    OptionRow {
        id: "rsort",
        long: "rsort",
        letter: Some('r'),
        action: ArgAction::Set,
        parser: None,
        others: &[],
        help: "Sorts the languages by a column, and reverses the order.",
    },
    OptionRow {
        id: "types",
        long: "types",
        letter: Some('t'),
        action: ArgAction::Append,
        parser: None,
        others: &[],
        help: "Counts only these languages, separated by commas, as in -t=Rust,Markdown.",
    },
    OptionRow {
        id: "no-ignore",
        long: "no-ignore",
        letter: None,
        action: ArgAction::SetTrue,
        parser: None,
        others: &[],
        help: "Obeys no ignore file; implies --no-ignore-parent, --no-ignore-dot and --no-ignore-vcs.",
    },
    OptionRow {
        id: "no-ignore-parent",
        long: "no-ignore-parent",
        letter: None,
        action: ArgAction::SetTrue,
        parser: None,
        others: &[],
        help: "Obeys no ignore file of the folders above.",
    },
    OptionRow {
        id: "no-ignore-dot",
        long: "no-ignore-dot",
        letter: None,
        action: ArgAction::SetTrue,
        parser: None,
        others: &[],
        help: "Obeys neither .ignore nor .tokeignore.",
    },
    OptionRow {
        id: "no-ignore-vcs",
        long: "no-ignore-vcs",
        letter: None,
        action: ArgAction::SetTrue,
        parser: None,
        others: &[],
        help: "Obeys none of git's ignore files, those of the folders above included.",
    },
    OptionRow {
        id: "exclude",
        long: "exclude",
        letter: Some('e'),
        action: ArgAction::Append,
        parser: None,
        others: &[],
        help: "Leaves out all files and folders that match the pattern; may be given several times.",
    },
    OptionRow {
        id: "hidden",
        long: "hidden",
        letter: None,
        action: ArgAction::SetTrue,
        parser: None,
        others: &[],
        help: "Counts hidden files too.",
    },
    OptionRow {
        // its name is the id of the inputs
        id: "file_input",
        long: "input",
        letter: Some('i'),
        action: ArgAction::Set,
        parser: None,
        others: &[],
        help: "Adds the statistics of an earlier run, written by -o json: a file, or stdin.",
    },
    OptionRow {
        id: "table",
        long: "table",
        letter: None,
        action: ArgAction::Set,
        parser: None,
        others: &[],
        help: "The file of the table of languages; without it the one installed with the program, \
               else languages.json in the current folder.",
    },
    OptionRow {
        id: "verbose",
        long: "verbose",
        letter: Some('v'),
        action: ArgAction::Count,
        parser: None,
        others: &[],
        help: "Shows more notes: -v warnings, -vv and -vvv everything; without it errors alone.",
    },
];

impl OptionRow {
    /// The option, as the parser takes it.
    fn option<'a>(&self, alloc: Global) -> Result<Arg<'a>, AllocError>
        ensures { IfOk result (λ a. ruled a ≡ local (rule_of_row self.now)) }
    {
        let mut option = Arg::new(alloc, self.id)
            .long(self.long)
            .action(self.action)
            .help(self.help);
        if let Some(letter) = self.letter {
            option = option.short(letter);
        }
        if let Some(parser) = self.parser {
            option = option.value_parser(parser);
        }
        option.conflicts_with_all(self.others)
    }
}

/// The files and folders to be counted.
fn input<'a>(alloc: Global) -> Arg<'a>
    ensures { ruled result ≡ local (record (new_rule (codes "input")) {
      action = Some Append;
      range = Some (record { start_inclusive = 0; end_inclusive = usize_max });
    }) }
{
    Arg::new(alloc, "input")
        .action(ArgAction::Append)
        .num_args(0..)
        .help("The files and folders to be counted; the current folder where none is given.")
}

/// The options of these rows.
fn options_of<'a>(alloc: Global, rows: &[OptionRow]) -> Result<Vec<Arg<'a>>, AllocError>
    ensures { IfOk result (λ v. map ruled v.items ≡ map local (map rule_of_row rows.now)) }
{
    let mut options = Vec::new(alloc);
    for row in rows {
        options.push(row.option(alloc)?)?;
    }
    Ok(options)
}

/// The whole command line, as its parser takes it.
pub fn command<'a>(alloc: Global) -> Result<Command<'a>, AllocError>
    ensures { IfOk result (λ c. app_of c ≡ line_app) }
{
    let mut options = options_of(alloc, &OPTIONS)?;
    options.push(input(alloc))?;
    Command::new(alloc, "tokei")
        .version(VERSION)
        .about("Counts blank, code and comment lines, by language.")
        .args(options)?
        .bin_name("tokei")
}
