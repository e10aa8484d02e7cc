//! Rows of folders in memory: what they answer to calls that are made in turn.
use crate::folders::folders_of;
use std::str::from_utf8;
use test_answers::{Answers, Members, Page, Row, RowError};
use tokei_folders::{Above, Fault, Folders, Kind, Listing};
use tokei_memory::{Call, MemoryFolders};

/// The members of these rows: a tree, and calls, each with its place. `answers` has a line for each
/// call.
pub const MEMBERS: Members = Members {
    given: &["files", "calls"],
    wanted: &["answers"],
    optional: &[],
    by_table: false,
};

/// How a call ended. What a question answers is added to a page.
type Ended = Result<(), Fault>;

/// Adds what stands at a place.
fn put_kind(kind: Result<Kind, Fault>, page: &mut Page) -> Ended {
    match kind {
        Ok(kind) => {
            page.put(match kind {
                Kind::File => " file",
                Kind::Folder => " folder",
                Kind::Other => " other",
            });
            Ok(())
        }
        Err(cause) => Err(cause),
    }
}

/// Adds the names that a folder lists.
fn put_list(listing: Result<Listing, Fault>, page: &mut Page) -> Ended {
    match listing {
        Ok(listing) => {
            for entry in listing.entries.as_slice() {
                page.put_all(&[" ", entry.name.as_str()]);
            }
            Ok(())
        }
        Err(cause) => Err(cause),
    }
}

/// Adds the folders above a place, each with the name that leads down from it.
fn put_above(above: Result<Vec<Above>, Fault>, page: &mut Page) -> Ended {
    match above {
        Ok(above) => {
            for folder in above.as_slice() {
                let (place, name) = (folder.place.as_str(), folder.name.as_str());
                page.put_all(&[" (", name, " in ", place, ")"]);
            }
            Ok(())
        }
        Err(cause) => Err(cause),
    }
}

/// Adds the text of a file, or of its head.
fn put_text(bytes: Result<Vec<u8>, Fault>, page: &mut Page) -> Ended {
    match bytes {
        Ok(bytes) => {
            page.put_all(&[" ", from_utf8(&bytes).unwrap_or("no text")]);
            Ok(())
        }
        Err(cause) => Err(cause),
    }
}

/// Adds that a change was made.
fn put_done(changed: Ended, page: &mut Page) -> Ended {
    if changed.is_ok() {
        page.put(" done");
    }
    changed
}

/// Makes a call that changes folders; none where there is no such call.
fn changed(folders: &mut MemoryFolders, call: &str, place: &str) -> Option<Ended> {
    let refused = match call {
        "add_file" => return Some(folders.add_file(place, b"")),
        "add_folder" => return Some(folders.add_folder(place)),
        "refuse" => return Some(folders.refuse(place)),
        "refuse_list" => Call::List,
        "refuse_read" => Call::Read,
        "refuse_head" => Call::Head,
        _ => return None,
    };
    Some(folders.refuse_call(place, refused))
}

/// Makes a call, and adds what it answers; none where there is no such call.
fn made(folders: &mut MemoryFolders, call: &str, place: &str, page: &mut Page) -> Option<Ended> {
    Some(match call {
        "kind" => put_kind(folders.kind(place), page),
        "list" => put_list(folders.list(place), page),
        "above" => put_above(folders.above(place), page),
        "read" => put_text(folders.read(place), page),
        "head" => put_text(folders.head(place), page),
        _ => match changed(folders, call, place) {
            Some(changed) => put_done(changed, page),
            None => return None,
        },
    })
}

/// Makes a call, and adds a line of what it answers.
fn put_line(folders: &mut MemoryFolders, call: &str, page: &mut Page, answers: &mut Answers) {
    let (name, place) = call.split_once(' ').unwrap_or((call, ""));
    page.put_all(&[call, ":"]);
    match made(folders, name, place, page) {
        Some(Ok(())) => page.put("\n"),
        Some(Err(Fault::Refused)) => page.put(" refused\n"),
        Some(Err(Fault::Memory)) => answers.fail(RowError::Memory),
        None => answers.fail(RowError::Kind("calls", "a list of calls of folders")),
    }
}

/// What the calls answer.
pub fn came(row: &Row, answers: &mut Answers) {
    let mut folders = folders_of(row, answers);
    let mut page = Page::new(answers.alloc);
    for value in answers.list(row, "calls") {
        let call = answers.text_of("calls", value);
        put_line(&mut folders, call, &mut page, answers);
    }
    answers.say_page("answers", &page);
}
