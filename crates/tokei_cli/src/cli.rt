//! A command line as read.
ghost use Rattle.std.specs.Prelude.{◌≡◌, ◌≢◌, [], IfErr, IfOk, IsSome, codes, is_some, map, option_map, string_bytes};
ghost use Rattle.std.specs.Prelude.{true, unwrap_or};
ghost use Rattle.std.specs.Option.{option_or};
ghost use Rattle.clap.specs.Words.{all_of, first_of, found_of, one_of, rows_of};
ghost use Rattle.tokei_cli.specs.CommandLines.{inputs_of, excludes_of, file_input_of, table_of};
ghost use Rattle.tokei_cli.specs.Lines.{IsLine, IsLineOf, IsNumber, inputs_given, is_on};
ghost use Rattle.tokei_cli.specs.Texts.{IsShown};

use crate::cli_error::{CliError, answer};
use crate::options::command;
use clap::ArgMatches;
use std::alloc::{AllocError, Global};

/// The options and inputs of a command line.
#[derive(Debug, Drop)]
pub struct Cli {
    /// The width of the report, in columns, where one is asked for.
    pub columns: Option<usize>,
    /// Whether every file is listed.
    pub files: bool,
    /// Whether hidden files are counted.
    pub hidden: bool,
    /// Whether no ignore file is obeyed.
    pub no_ignore: bool,
    /// Whether no ignore file of the folders above is obeyed.
    pub no_ignore_parent: bool,
    /// Whether neither `.ignore` nor `.tokeignore` is obeyed.
    pub no_ignore_dot: bool,
    /// Whether none of git's ignore files is obeyed.
    pub no_ignore_vcs: bool,
    /// The format of the output, in place of the report.
    pub output: Option<String>,
    /// The form of the records of files.
    pub streaming: Option<String>,
    /// Whether the languages are listed and nothing is counted.
    pub print_languages: bool,
    /// The column to sort by, of either option.
    pub sort: Option<String>,
    /// Whether the sorted order is reversed.
    pub sort_reverse: bool,
    /// The words of `--types`, which aren't split yet.
    pub types: Option<Vec<String>>,
    /// Whether embedded languages are left out of the report.
    pub compact: bool,
    /// How numbers are printed, where that is asked for.
    pub number_format: Option<String>,
    /// How often `--verbose` was given.
    pub verbose: u8,
    exclude: Vec<String>,
    file_input: Option<String>,
    input: Vec<String>,
    table: Option<String>,
}

/// The texts as owned ones.
fn all_owned(alloc: Global, texts: &[&str]) -> Result<Vec<String>, AllocError>
    ensures { IfOk result (λ v. map string_bytes v.items ≡ map (λ t. t.now) texts.now) }
{
    let mut all = Vec::with_capacity(alloc, texts.len())?;
    for text in texts {
        all.push(String::from_str(alloc, text)?)?;
    }
    Ok(all)
}

/// Whether an option without a value is given.
fn flag(matches: &ArgMatches<'_>, id: &str) -> bool
    ensures { result ≡ is_on (one_of id.now (rows_of (found_of matches.now))) }
{
    matches.get_one::<bool>(id).unwrap_or(false)
}

/// The number that an option is given, where it is.
fn number(matches: &ArgMatches<'_>, id: &str) -> Option<usize>
    ensures { IsNumber (one_of id.now (rows_of (found_of matches.now))) result }
{
    matches.get_one::<usize>(id)
}

/// All values of an option as texts, where it is given.
fn texts<'m, 'a>(matches: &'m ArgMatches<'a>, id: &str) -> Option<&'m [&'a str]>
    ensures { option_map (λ ts. map (λ t. t.now) ts.now) result
        ≡ all_of id.now (rows_of (found_of matches.now)) }
{
    matches.get_strs(id)
}

/// The first value of an option as an owned text, where it is given.
fn value(alloc: Global, matches: &ArgMatches<'_>, id: &str) -> Result<Option<String>, AllocError>
    ensures { IfOk result (λ o. option_map string_bytes o
        ≡ first_of id.now (rows_of (found_of matches.now))) }
{
    match matches.get_str(id) {
        None => Ok(None),
        Some(text) => Ok(Some(String::from_str(alloc, text)?)),
    }
}

/// All values of an option, where it is given.
fn given(
    alloc: Global,
    matches: &ArgMatches<'_>,
    id: &str,
) -> Result<Option<Vec<String>>, AllocError>
    ensures { IfOk result (λ o. option_map (λ v. map string_bytes v.items) o
        ≡ all_of id.now (rows_of (found_of matches.now))) }
{
    match texts(matches, id) {
        Some(texts) => Ok(Some(all_owned(alloc, texts)?)),
        None => Ok(None),
    }
}

/// All values of an option, or none where it wasn't given.
fn values(alloc: Global, matches: &ArgMatches<'_>, id: &str) -> Result<Vec<String>, AllocError>
    ensures { IfOk result (λ v. map string_bytes v.items
        ≡ unwrap_or (all_of id.now (rows_of (found_of matches.now))) []) }
{
    match texts(matches, id) {
        Some(texts) => all_owned(alloc, texts),
        None => all_owned(alloc, &[]),
    }
}

/// The inputs of a command line that may name none: then the current folder.
fn inputs(alloc: Global, matches: &ArgMatches<'_>) -> Result<Vec<String>, AllocError>
    ensures { IfOk result (λ v. map string_bytes v.items
        ≡ inputs_given (all_of (codes "input") (rows_of (found_of matches.now)))) }
{
    match texts(matches, "input") {
        Some(texts) if !texts.is_empty() => all_owned(alloc, texts),
        _ => all_owned(alloc, &["."]),
    }
}

/// The column to sort by, where one is asked for, and whether the order is reversed.
fn order(alloc: Global, matches: &ArgMatches<'_>) -> Result<(Option<String>, bool), AllocError>
    ensures column { IfOk result (λ o. option_map string_bytes o.0 ≡ option_or
        (first_of (codes "rsort") (rows_of (found_of matches.now)))
        (first_of (codes "sort") (rows_of (found_of matches.now)))) }
    ensures reversed { IfOk result (λ o. o.1
        ≡ is_some (first_of (codes "rsort") (rows_of (found_of matches.now)))) }
{
    match value(alloc, matches, "rsort")? {
        Some(word) => Ok((Some(word), true)),
        None => Ok((value(alloc, matches, "sort")?, false)),
    }
}

/// The words that the options on formats are given.
#[derive(Drop)]
struct Formats {
    output: Option<String>,
    streaming: Option<String>,
    number_format: Option<String>,
}

/// Reads what the options on formats are given.
fn read_formats(alloc: Global, matches: &ArgMatches<'_>) -> Result<Formats, AllocError>
    ensures output { IfOk result (λ f. option_map string_bytes f.output
        ≡ first_of (codes "output") (rows_of (found_of matches.now))) }
    ensures streaming { IfOk result (λ f. option_map string_bytes f.streaming
        ≡ first_of (codes "streaming") (rows_of (found_of matches.now))) }
    ensures numbers { IfOk result (λ f. option_map string_bytes f.number_format
        ≡ first_of (codes "num-format") (rows_of (found_of matches.now))) }
{
    Ok(Formats {
        output: value(alloc, matches, "output")?,
        streaming: value(alloc, matches, "streaming")?,
        number_format: value(alloc, matches, "num-format")?,
    })
}

/// What a command line names of files and folders.
#[derive(Drop)]
struct Paths {
    exclude: Vec<String>,
    file_input: Option<String>,
    input: Vec<String>,
    table: Option<String>,
}

/// Reads the patterns, files and folders that a command line names.
fn read_paths(alloc: Global, matches: &ArgMatches<'_>) -> Result<Paths, AllocError>
    ensures excludes { IfOk result (λ p. map string_bytes p.exclude.items
        ≡ unwrap_or (all_of (codes "exclude") (rows_of (found_of matches.now))) []) }
    ensures file_input { IfOk result (λ p. option_map string_bytes p.file_input
        ≡ first_of (codes "file_input") (rows_of (found_of matches.now))) }
    ensures inputs { IfOk result (λ p. map string_bytes p.input.items
        ≡ inputs_given (all_of (codes "input") (rows_of (found_of matches.now)))) }
    ensures table { IfOk result (λ p. option_map string_bytes p.table
        ≡ first_of (codes "table") (rows_of (found_of matches.now))) }
{
    Ok(Paths {
        exclude: values(alloc, matches, "exclude")?,
        file_input: value(alloc, matches, "file_input")?,
        input: inputs(alloc, matches)?,
        table: value(alloc, matches, "table")?,
    })
}

impl Cli {
    /// Reads the words of a command line, of which the first is the program's name. A refused
    /// command line, and one that asks for help or the version, are errors with the text to be
    /// shown: for these two `HELP` or `VERSION_LINE`.
    pub fn from_words<'a>(alloc: Global, words: &'a [&'a str]) -> Result<Cli, CliError>
        ensures of_words { IfOk result (IsLineOf (map (λ w. w.now) words.entry.now)) }
        ensures inputs { IfOk result (λ c. inputs_of c ≢ []) }
        ensures reverse { IfOk result (λ c. c.sort_reverse ≡ true → IsSome c.sort) }
        ensures shown { IfErr result IsShown }
    {
        match command(alloc)?.try_get_matches_from(words) {
            Ok(matches) => Ok(Cli::of(alloc, &matches)?),
            Err(error) => Err(answer(alloc, &error)),
        }
    }

    /// What the parse found.
    fn of(alloc: Global, matches: &ArgMatches<'_>) -> Result<Cli, AllocError>
        ensures { IfOk result (IsLine (rows_of (found_of matches.now))) }
    {
        let (sort, sort_reverse) = order(alloc, matches)?;
        let types = given(alloc, matches, "types")?;
        let formats = read_formats(alloc, matches)?;
        let paths = read_paths(alloc, matches)?;
        Ok(Cli {
            columns: number(matches, "columns"),
            files: flag(matches, "files"),
            hidden: flag(matches, "hidden"),
            no_ignore: flag(matches, "no-ignore"),
            no_ignore_parent: flag(matches, "no-ignore-parent"),
            no_ignore_dot: flag(matches, "no-ignore-dot"),
            no_ignore_vcs: flag(matches, "no-ignore-vcs"),
            output: formats.output,
            streaming: formats.streaming,
            print_languages: flag(matches, "languages"),
            sort,
            sort_reverse,
            types,
            compact: flag(matches, "compact"),
            number_format: formats.number_format,
            verbose: matches.get_count("verbose"),
            exclude: paths.exclude,
            file_input: paths.file_input,
            input: paths.input,
            table: paths.table,
        })
    }

    /// The files and folders to be counted; the current folder, `.`, where none is named.
    pub fn input(&self) -> &[String]
        ensures { map string_bytes result.now ≡ inputs_of self.now }
    {
        self.input.as_slice()
    }

    /// The patterns of files and folders that are left out.
    pub fn ignored_directories(&self) -> &[String]
        ensures { map string_bytes result.now ≡ excludes_of self.now }
    {
        self.exclude.as_slice()
    }

    /// What names the results of an earlier run.
    pub fn file_input(&self) -> Option<&str>
        ensures { option_map (λ t. t.now) result ≡ file_input_of self.now }
    {
        match &self.file_input {
            Some(text) => Some(text.as_str()),
            None => None,
        }
    }

    /// The file of the table of languages, where one is named.
    pub fn table(&self) -> Option<&str>
        ensures { option_map (λ t. t.now) result ≡ table_of self.now }
    {
        match &self.table {
            Some(text) => Some(text.as_str()),
            None => None,
        }
    }
}
