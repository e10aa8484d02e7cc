//! Rows of walks: the files that are kept of a tree, and what is noted.
use crate::folders::{folders_of, roots};
use crate::odd_folders::Watched;
use test_answers::{Answers, Members, Page, Row, RowError, Said};
use tokei_folders::Folders;
use tokei_walk::{KeptFile, Note, Rules, Walk, kept_files};

/// The members of these rows: a tree, roots, excludes, and the rules that aren't asked for. Where
/// they are `unnamed`, each folder has a name more, which isn't UTF-8. `kept` are the files and
/// then the notes, a line for each, and `met` are both in the order in which a walk meets them;
/// `calls` and `reads` are how many calls reach the folders, and how many of these read a file.
pub const MEMBERS: Members = Members {
    given: &[
        "files",
        "files_hex",
        "unread",
        "headless",
        "unlisted",
        "roots",
        "excludes",
        "without",
        "unnamed",
    ],
    wanted: &["kept"],
    optional: &["calls", "reads", "met"],
    by_table: false,
};

/// What is asked of a tree.
#[derive(Drop)]
struct Wanted {
    roots: Vec<String>,
    excludes: Vec<String>,
    rules: Rules,
}

/// The rules that are asked for: all but those without which a row walks.
fn rules(row: &Row, answers: &mut Answers) -> Rules {
    let mut rules = Rules {
        parents: true,
        dot: true,
        git: true,
        hidden: true,
    };
    for value in answers.list(row, "without") {
        match answers.text_of("without", value) {
            "parents" => rules.parents = false,
            "dot" => rules.dot = false,
            "git" => rules.git = false,
            "hidden" => rules.hidden = false,
            _ => answers.fail(RowError::Kind("without", "a list of parents, dot, git and hidden")),
        }
    }
    rules
}

/// Adds a file's path; its place too, where it is another.
fn put_file(page: &mut Page, file: &KeptFile) {
    let (path, place) = (file.path.as_str(), file.place.as_str());
    if path == place {
        page.put_all(&[path, "\n"]);
    } else {
        page.put_all(&[path, " at ", place, "\n"]);
    }
}

/// Adds the kind and the place of each note.
fn put_notes(page: &mut Page, notes: &[Note]) {
    for note in notes {
        page.put_debug(&note.kind);
        page.put_all(&[":", note.place.as_str(), "\n"]);
    }
}

/// Says the files and notes that `kept_files` answers.
fn say_kept<F: Folders>(folders: &mut F, wanted: &Wanted, answers: &mut Answers) {
    let (roots, excludes) = (wanted.roots.as_slice(), wanted.excludes.as_slice());
    let made = kept_files(answers.alloc, folders, roots, excludes, &wanted.rules);
    if let Ok(kept) = &made {
        let mut page = Page::new(answers.alloc);
        for file in kept.files.as_slice() {
            put_file(&mut page, file);
        }
        put_notes(&mut page, kept.notes.as_slice());
        answers.say_page("kept", &page);
    }
    answers.done(made);
}

/// Adds the notes that stand behind the first `seen` ones, and answers how many there are.
fn put_new_notes(page: &mut Page, notes: &[Note], seen: usize) -> usize {
    if seen < notes.len() {
        put_notes(page, &notes[seen..]);
    }
    notes.len()
}

/// Adds the files and notes that a walk answers, one call after the other, up to ten thousand: to
/// `kept` the files and then the notes, and to `met` each note before the file whose call left it:
/// those that stand from the beginning before the first file, those of the last call at the end.
fn put_steps<F: Folders>(
    folders: &mut F,
    walk: &mut Walk,
    kept: &mut Page,
    met: &mut Page,
    answers: &mut Answers,
) {
    let mut seen = 0;
    for _ in 0..10_000 {
        let found = answers.read(walk.next(folders), None);
        seen = put_new_notes(met, walk.notes(), seen);
        match found {
            Some(file) => {
                put_file(kept, &file);
                put_file(met, &file);
            }
            None => break,
        }
    }
    put_notes(kept, walk.notes());
}

/// Says the files and notes that a walk answers: the same as `kept_files` does, and in which order.
fn say_walked<F: Folders>(folders: &mut F, wanted: &Wanted, answers: &mut Answers) {
    let (roots, excludes) = (wanted.roots.as_slice(), wanted.excludes.as_slice());
    let mut made = Walk::new(answers.alloc, roots, excludes, &wanted.rules);
    if let Ok(walk) = &mut made {
        let mut kept = Page::new(answers.alloc);
        let mut met = Page::new(answers.alloc);
        put_steps(folders, walk, &mut kept, &mut met, answers);
        answers.say_page("kept", &kept);
        answers.say_page("met", &met);
    }
    answers.done(made);
}

/// What the calls answer.
pub fn came(row: &Row, answers: &mut Answers) {
    let wanted = Wanted {
        roots: roots(row, answers),
        excludes: answers.strings(row, "excludes"),
        rules: rules(row, answers),
    };
    let mut folders = Watched {
        inner: folders_of(row, answers),
        unnamed: answers.flag(row, "unnamed"),
        calls: 0,
        reads: 0,
    };
    say_kept(&mut folders, &wanted, answers);
    answers.say("calls", Said::Number(folders.calls as u128));
    answers.say("reads", Said::Number(folders.reads as u128));
    say_walked(&mut folders, &wanted, answers);
}
