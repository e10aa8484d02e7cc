//! The rows of a file, and of all files.
use crate::request::Request;
use crate::subject::Subject;
use crate::told::Told;
use anyhow::bail;
use std::alloc::Global;
use std::collections::BTreeSet;
use std::fs;
use test_answers::{Answers, Page, Row, Tables, made_tables, own_table, program_table};
use toml::{Table, Value};

/// How a file's rows are asked.
#[derive(Drop)]
struct How<'a, 't> {
    alloc: Global,
    subject: &'a Subject,
    only: Option<&'a str>,
    has_program_table: bool,
    tables: &'t Tables,
}

/// The rows of a file, and its shared values.
#[derive(Clone, Copy)]
struct List<'a> {
    rows: &'a [Value],
    shared: Option<&'a Table>,
}

/// Asks what a row asks of the public calls, and tells where it doesn't hold. Where a shared value
/// isn't there, or its own table can't be read, nothing is asked.
fn tell(how: &How, row: &Row, answers: &mut Answers) {
    answers.refuse_unshared(row);
    let own = own_table(row, answers);
    let asked = how.tables.asked(row, own.as_ref(), answers);
    if !answers.is_wrong() {
        how.subject.ask(&asked, row, answers);
    }
    answers.finish();
}

/// Asks a row with its name. One that names the program's table waits where that isn't given.
fn ask_named(how: &How, told: &mut Told, row: &Row) {
    let (file, members) = (how.subject.file(), how.subject.members());
    let known = [&["name"], members.given, members.wanted, members.optional];
    if let Some(member) = row.unknown(&known) {
        told.refuse_row(file, row.name, &["  the member ", member, " isn't known\n"]);
        return;
    }
    if !how.has_program_table && row.has("table_file") {
        told.wait = told.wait.saturating_add(1);
        return;
    }
    let mut answers = Answers::new(how.alloc, *row, members);
    tell(how, row, &mut answers);
    told.add(file, row.name, &answers.told);
}

/// Tells that a row has no name.
fn tell_nameless(how: &How, told: &mut Told, place: usize) {
    let mut shown = Page::new(how.alloc);
    shown.put_shown(&place.saturating_add(1));
    match shown.text() {
        Some(place) => told.refuse(
            how.subject.file(),
            &["row ", place, " doesn't hold\n  it has no name"],
        ),
        None => told.lines.cut(),
    }
}

/// Asks the row in a place, unless another one is asked for.
fn ask<'a>(
    how: &How,
    told: &mut Told,
    seen: &mut BTreeSet<&'a str>,
    list: &List<'a>,
    place: usize,
) {
    let Some(row) = list.rows.get(place) else {
        return;
    };
    let (Some(members), Some(Value::String(name))) = (row.as_table(), row.get("name")) else {
        return tell_nameless(how, told, place);
    };
    let name = name.as_str();
    match seen.insert(name) {
        Ok(true) => {
            if how.only.unwrap_or(name) == name {
                ask_named(how, told, &Row::new(name, members, list.shared));
            }
        }
        Ok(false) => told.refuse_row(how.subject.file(), name, &["  the name stands twice\n"]),
        Err(_) => told.lines.cut(),
    }
}

/// Asks all rows of a file, unless memory runs out.
fn ask_all(how: &How, told: &mut Told, list: &List) {
    let mut seen = BTreeSet::new(how.alloc);
    for place in 0..list.rows.len() {
        if told.lines.text().is_some() {
            ask(how, told, &mut seen, list, place);
        }
    }
}

/// Asks the rows of a file's members, and tells a member that is neither `row` nor `shared`.
fn ask_members(how: &How, told: &mut Told, members: &Table) {
    let file = how.subject.file();
    if let Some(member) = Row::new("", members, None).unknown(&[&["row", "shared"]]) {
        told.refuse(file, &["the member ", member, " isn't known"]);
    }
    match members.get("row") {
        Some(Value::Array(rows)) => {
            let list = List {
                rows: rows.as_slice(),
                shared: members.get("shared").and_then(Value::as_table),
            };
            ask_all(how, told, &list);
        }
        _ => told.refuse(file, &["there are no rows"]),
    }
}

/// Tells that a file isn't TOML, and why.
fn tell_cause(alloc: Global, file: &str, told: &mut Told, cause: toml::de::Error) {
    if cause.is_memory() {
        told.lines.cut();
    } else {
        let mut shown = Page::new(alloc);
        shown.put_shown(&cause);
        told.refuse(file, &["it isn't TOML"]);
        told.lines.put_indented(&shown);
    }
}

/// Whether a row that is asked names the program's table.
fn names_table(members: &Table, only: Option<&str>) -> bool {
    let Some(Value::Array(rows)) = members.get("row") else {
        return false;
    };
    for row in rows.as_slice() {
        if row.get("table_file").is_some() {
            let name = row.get("name").and_then(Value::as_str);
            if only.is_none() || name == only {
                return true;
            }
        }
    }
    false
}

/// Asks the rows of a file's text. The program's table is read where a row names it.
fn ask_text(
    rt: &HostRuntime,
    subject: &Subject,
    request: &Request,
    tables: &mut Tables,
    told: &mut Told,
    text: &str,
) {
    let members = match toml::table_from_str(rt.alloc(), text) {
        Ok(members) => members,
        Err(cause) => return tell_cause(rt.alloc(), subject.file(), told, cause),
    };
    let only = request.row.as_ref().map(String::as_str);
    if let Some(path) = &request.program_table {
        if names_table(&members, only) {
            tables.program = program_table(rt, path.as_str());
        }
    }
    let how = How {
        alloc: rt.alloc(),
        subject,
        only,
        has_program_table: request.program_table.is_some(),
        tables,
    };
    ask_members(&how, told, &members);
}

/// Asks the rows of a subject's file.
fn ask_file(
    rt: &HostRuntime,
    subject: &Subject,
    request: &Request,
    told: &mut Told,
) -> anyhow::Result<()> {
    let path = request.table.as_ref().map(String::as_str);
    let mut tables = made_tables(rt, subject.members().by_table, path)?;
    match fs::read_to_string(rt, subject.file()) {
        Ok(text) => ask_text(rt, subject, request, &mut tables, told, text.as_str()),
        Err(_) => told.refuse(subject.file(), &["it can't be read"]),
    }
    Ok(())
}

/// Prints what is told of a file; whether all its rows hold.
fn print_told(rt: &HostRuntime, file: &str, told: &Told) -> anyhow::Result<bool> {
    let Some(lines) = told.lines.text() else {
        bail!("out of memory");
    };
    let (hold, fail, wait) = (told.hold, told.fail, told.wait);
    if wait != 0 {
        println!(rt; "{file}: {wait} rows wait for the program's table")?;
    }
    if fail == 0 {
        println!(rt; "{file}: {hold} rows hold")?;
    } else {
        print!(rt; "{file}: {hold} rows hold, {fail} don't\n{lines}")?;
    }
    Ok(fail == 0)
}

/// Asks the rows of those of some files that are asked for, and prints what is told of each; whether
/// all hold.
fn ask_list(rt: &HostRuntime, request: &Request, subjects: &[Subject]) -> anyhow::Result<bool> {
    let mut all_hold = true;
    for subject in subjects {
        if request.asks(subject.file()) {
            let mut told = Told::new(rt.alloc());
            ask_file(rt, subject, request, &mut told)?;
            all_hold &= print_told(rt, subject.file(), &told)?;
        }
    }
    Ok(all_hold)
}

/// Asks the rows of the file that is asked for, or of all, and prints what is told of each; whether
/// all hold.
pub fn ask_files(rt: &HostRuntime, request: &Request) -> anyhow::Result<bool> {
    let texts_hold = ask_list(rt, request, Subject::of_texts())?;
    let trees_hold = ask_list(rt, request, Subject::of_trees())?;
    let program_holds = ask_list(rt, request, Subject::of_program())?;
    Ok(texts_hold && trees_hold && program_holds)
}
