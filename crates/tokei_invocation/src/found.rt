//! What the command line and the environment name, as it is found: the table of languages, the
//! configuration, earlier results, and whether something stands at each root.
ghost use Rattle.std.specs.Prelude.{◌≡◌, true, IfErr, IfOk, OnOk, None, Some, Ok, string_bytes};
ghost use Rattle.tokei_cli.specs.CommandLines.{file_input_of};
ghost use Rattle.tokei_folders.specs.Answers.{Told};
ghost use Rattle.tokei_folders.specs.AsTheyWere.{SameTree};
ghost use Rattle.tokei_invocation.specs.Configs.{AreFlaws, IsConfig};
ghost use Rattle.tokei_invocation.specs.Earlier.{AreEarlier, AreRead, bytes_named};
ghost use Rattle.tokei_invocation.specs.Endings.{HasFailed, InputFailed, IsEndingAt, IsEndingOfEarlier};
ghost use Rattle.tokei_invocation.specs.Endings.{IsEndingOfInput, IsEndingOfNoTable, IsEndingOfRoot, IsEndingOfRoots, Names};
ghost use Rattle.tokei_invocation.specs.OutputEndings.{is_out_of_memory};
ghost use Rattle.tokei_invocation.specs.Roots.{AllStand, stands};
ghost use Rattle.tokei_invocation.specs.Statuses.{status_of};
ghost use Rattle.tokei_invocation.specs.Tables.{content_at, place_of_table, table_at};
ghost use Rattle.tokei_walk.specs.Walks.{texts_of};

use crate::ending::Ending;
use crate::environment::{Env, config_dirs};
use crate::reasons::{no_memory, refused_table, unreadable};
use std::alloc::{AllocError, Global};
use tokei_cli::{Cli, OverrideConfig};
use tokei_config::{Config, ConfigRead};
use tokei_earlier::{InputError, add_bytes, add_input};
use tokei_folders::{Fault, Folders, Kind};
use tokei_io::Source;
use tokei_languages::Languages;
use tokei_stats::shown::shown;
use tokei_table::LanguageTable;
use tokei_table_json::{FromJson, TableError};

/// The table in the current folder, for where neither the command line nor the environment names
/// one.
const DEFAULT_TABLE: &str = "languages.json";

/// The place of the table: that of the option, else that of the environment.
fn place_of_table<'a>(cli: &'a Cli, env: &'a Env) -> &'a str
    ensures { result.now ≡ place_of_table env.now cli.now }
{
    match (cli.table(), &env.table) {
        (Some(place), _) => place,
        (None, Some(place)) => place.as_str(),
        (None, None) => DEFAULT_TABLE,
    }
}

/// Why no table can be read at a place, by what stands there.
fn cause_at<F: Folders>(folders: &mut F, place: &str) -> Result<&'static str, AllocError>
    ensures same { SameTree F.tree folders.old folders.new }
{
    match folders.kind(place) {
        Ok(Kind::File) => Ok("the file can't be read"),
        Ok(Kind::Folder) => Ok("it is a folder"),
        Ok(Kind::Other) => Ok("it is no file"),
        Err(Fault::Refused) => Ok("nothing can be found there"),
        Err(Fault::Memory) => Err(AllocError),
    }
}

/// What to do where no table can be read and no option names one.
fn remedy(cli: &Cli) -> &'static str {
    match cli.table() {
        Some(_) => "",
        None => "; name one with --table",
    }
}

/// A place at which no table can be read, and why: in the system's words, or by what stands there;
/// and then what to do.
fn place_and_cause<F: Folders>(
    alloc: Global,
    folders: &mut F,
    place: &str,
    remedy: &str,
) -> Result<String, AllocError>
    ensures same { SameTree F.tree folders.old folders.new }
    ensures named { IfOk result (λ text. Names place.now (string_bytes text)) }
{
    let words = folders.cause(alloc)?;
    let cause = if words.is_empty() {
        cause_at(folders, place)?
    } else {
        words.as_str()
    };
    format!(in alloc; "{place}: {cause}{remedy}")
}

/// That no table can be read at a place, why, and what to do.
fn no_table<F: Folders>(alloc: Global, folders: &mut F, place: &str, remedy: &str) -> Ending
    ensures same { SameTree F.tree folders.old folders.new }
    ensures failed { status_of result ≡ 1 }
    ensures told { IsEndingOfNoTable place.now result }
{
    match place_and_cause(alloc, folders, place, remedy) {
        Ok(text) => Ending::NoTable(text),
        Err(_) => Ending::Memory,
    }
}

/// The table that the command line names, else the one of the environment. Over a known tree
/// `NoTable` names its place, at which no file can be read, and `Table` says why the one there is
/// refused; else memory ran out.
pub fn table_of<F: Folders>(
    alloc: Global,
    cli: &Cli,
    env: &Env,
    folders: &mut F,
) -> Result<LanguageTable, Ending>
    ensures same { SameTree F.tree folders.old folders.new }
    ensures told { Told (F.tree folders.old) (λ t. IfOk result
        (λ rows. table_at t (place_of_table env.now cli.now) ≡ Some (Ok rows))) }
    ensures cause { Told (F.tree folders.old) (λ t. IfErr result (IsEndingAt
        (place_of_table env.now cli.now) (content_at t (place_of_table env.now cli.now)))) }
    ensures failed { IfErr result (λ e. status_of e ≡ 1) }
{
    let place = place_of_table(cli, env);
    match folders.read_named(place) {
        Ok(bytes) => match LanguageTable::from_json(alloc, &bytes) {
            Ok(table) => Ok(table),
            Err(TableError::Memory) => Err(Ending::Memory),
            Err(error) => Err(refused_table(alloc, place, error, &bytes)),
        },
        Err(Fault::Memory) => Err(no_memory(alloc, folders)),
        Err(Fault::Refused) => Err(no_table(alloc, folders, place, remedy(cli))),
    }
}

/// The configuration of the user's files, below the options of the command line, and the files that
/// count as empty. It fails only where memory runs out.
pub fn configuration<F: Folders>(
    alloc: Global,
    cli: &Cli,
    env: &Env,
    table: &LanguageTable,
    folders: &mut F,
) -> Result<ConfigRead, Ending>
    ensures same { SameTree F.tree folders.old folders.new }
    ensures told { Told (F.tree folders.old) (λ t. IfOk result (λ r.
        IsConfig table.now cli.now env.now t r.config)) }
    ensures flawed { Told (F.tree folders.old) (λ t. IfOk result (λ r.
        AreFlaws table.now env.now t r.flaws.items)) }
    ensures cause { IfErr result (λ e. is_out_of_memory e ≡ true) }
    ensures failed { IfErr result (λ e. status_of e ≡ 1) }
{
    let dirs = config_dirs(alloc, env)?;
    let mut read = Config::read_config_files(alloc, table, folders, &dirs)?;
    cli.override_config(alloc, table, &mut read.config)?;
    Ok(read)
}

/// The languages of earlier results of that name that are read from a source.
fn languages_of<S: Source>(
    alloc: Global,
    table: &LanguageTable,
    name: String,
    source: &mut S,
) -> Result<Languages, Ending>
    ensures read { IfOk result (AreRead table.now (S.remaining source.old)) }
    ensures cause { IfErr result (IsEndingOfInput
        table.now (string_bytes name) (S.remaining source.old)
        (HasFailed (S.remaining source.old) (S.faults source.old) (S.faults source.new))) }
    ensures failed { IfErr result (λ e. status_of e ≡ 1) }
{
    let mut languages = Languages::new(alloc);
    match add_input(alloc, table, source, &mut languages) {
        Ok(()) => Ok(languages),
        Err(InputError::Memory) => Err(Ending::Memory),
        Err(InputError::Unreadable) => Err(unreadable(alloc, source)),
        Err(InputError::TooLong) => Err(Ending::TooLong(name)),
        Err(InputError::Overflow) => Err(Ending::Overflow),
        Err(_) => Err(Ending::Input(name)),
    }
}

/// The languages of earlier results of that name that are bytes.
fn languages_in(
    alloc: Global,
    table: &LanguageTable,
    name: String,
    bytes: &[u8],
) -> Result<Languages, Ending>
    ensures read { IfOk result (AreRead table.now (Some bytes.now)) }
    ensures cause { IfErr result (IsEndingOfInput
        table.now (string_bytes name) (Some bytes.now) ⊥) }
    ensures failed { IfErr result (λ e. status_of e ≡ 1) }
{
    let mut languages = Languages::new(alloc);
    match add_bytes(alloc, table, bytes, &mut languages) {
        Ok(()) => Ok(languages),
        Err(InputError::Memory) => Err(Ending::Memory),
        Err(InputError::TooLong) => Err(Ending::TooLong(name)),
        Err(InputError::Overflow) => Err(Ending::Overflow),
        Err(_) => Err(Ending::Input(name)),
    }
}

/// A name, and why nothing could be read by it, where the folders have words for that and the name
/// doesn't begin as a document does.
fn with_cause<F: Folders>(alloc: Global, name: &str, folders: &F) -> Result<String, AllocError>
    ensures { IfOk result (λ text. Names name.now (string_bytes text)) }
{
    let words = folders.cause(alloc)?;
    if words.is_empty() || name.as_bytes().starts_with(b"{") {
        return String::from_str(alloc, name);
    }
    format!(in alloc; "{name}: {words}")
}

/// The earlier results that are a text, which is no file's name.
fn earlier_in<F: Folders>(
    alloc: Global,
    table: &LanguageTable,
    text: &str,
    folders: &F,
) -> Result<Languages, Ending>
    ensures read { IfOk result (AreRead table.now (Some text.now)) }
    ensures cause { IfErr result (IsEndingOfInput table.now text.now (Some text.now) ⊥) }
    ensures failed { IfErr result (λ e. status_of e ≡ 1) }
{
    let name = with_cause(alloc, text, folders)?;
    languages_in(alloc, table, name, text.as_bytes())
}

/// The earlier results of that name: the file's; where it can't be read those on standard input, if
/// the name is `stdin`; and else the name is their text.
fn earlier_of<F: Folders, S: Source>(
    alloc: Global,
    table: &LanguageTable,
    name: &str,
    folders: &mut F,
    input: &mut S,
) -> Result<Languages, Ending>
    ensures same { SameTree F.tree folders.old folders.new }
    ensures told { Told (F.tree folders.old) (λ t. IfOk result (AreRead
        table.now (bytes_named t (S.remaining input.old) name.now))) }
    ensures cause { Told (F.tree folders.old) (λ t. IfErr result (IsEndingOfInput table.now
        name.now (bytes_named t (S.remaining input.old) name.now) (InputFailed t name.now
        (HasFailed (S.remaining input.old) (S.faults input.old) (S.faults input.new))))) }
    ensures failed { IfErr result (λ e. status_of e ≡ 1) }
{
    let held = String::from_str(alloc, name)?;
    match folders.read_named(name) {
        Ok(bytes) => languages_in(alloc, table, held, &bytes),
        Err(Fault::Memory) => Err(no_memory(alloc, folders)),
        Err(Fault::Refused) if name == "stdin" => languages_of(alloc, table, held, input),
        Err(Fault::Refused) => earlier_in(alloc, table, name, folders),
    }
}

/// The earlier results that the command line names, if it names any. Over a known tree, and where
/// the bytes are known that the name means, `Input` and `TooLong` have the name, and say that they
/// are refused or too many, and `Overflow` says that a sum of theirs passes the greatest `usize`.
/// `Unreadable` and `UnreadableBy` come only where the name means standard input, and that
/// had a fault or didn't end within 4,294,967,296 reads; else memory ran out.
pub fn earlier<F: Folders, S: Source>(
    alloc: Global,
    table: &LanguageTable,
    cli: &Cli,
    folders: &mut F,
    input: &mut S,
) -> Result<Option<Languages>, Ending>
    ensures same { SameTree F.tree folders.old folders.new }
    ensures told { Told (F.tree folders.old) (λ t. IfOk result (AreEarlier
        table.now t (S.remaining input.old) (file_input_of cli.now))) }
    ensures cause { Told (F.tree folders.old) (λ t. IfErr result (IsEndingOfEarlier
        table.now t (S.remaining input.old)
        (HasFailed (S.remaining input.old) (S.faults input.old) (S.faults input.new))
        (file_input_of cli.now))) }
    ensures failed { IfErr result (λ e. status_of e ≡ 1) }
{
    match cli.file_input() {
        None => Ok(None),
        Some(name) => Ok(Some(earlier_of(alloc, table, name, folders, input)?)),
    }
}

/// Refuses a root at which nothing stands; the empty one is such.
fn check_root<F: Folders>(alloc: Global, folders: &mut F, root: &str) -> Result<(), Ending>
    ensures same { SameTree F.tree folders.old folders.new }
    ensures told { Told (F.tree folders.old) (λ t. OnOk result (stands t root.now ≡ true)) }
    ensures cause { Told (F.tree folders.old) (λ t. IfErr result (IsEndingOfRoot t root.now)) }
    ensures failed { IfErr result (λ e. status_of e ≡ 1) }
{
    if root.is_empty() {
        return Err(Ending::Missing(String::new(alloc)));
    }
    match folders.kind(root) {
        Ok(_) => Ok(()),
        Err(Fault::Memory) => Err(Ending::Memory),
        Err(Fault::Refused) => Err(Ending::Missing(shown(alloc, root)?)),
    }
}

/// Refuses the first root at which nothing stands: over a known tree `Missing` names it, and else
/// memory ran out.
pub fn check_roots<F: Folders>(
    alloc: Global,
    folders: &mut F,
    roots: &[String],
) -> Result<(), Ending>
    ensures same { SameTree F.tree folders.old folders.new }
    ensures told { Told (F.tree folders.old) (λ t. OnOk result (AllStand t (texts_of roots.now))) }
    ensures cause { Told (F.tree folders.old)
        (λ t. IfErr result (IsEndingOfRoots t (texts_of roots.now))) }
    ensures failed { IfErr result (λ e. status_of e ≡ 1) }
{
    for root in roots {
        check_root(alloc, folders, root.as_str())?;
    }
    Ok(())
}
