//! Folders in memory, as a row has them.
use test_answers::{Answers, Row};
use tokei_memory::{Call, MemoryFolders};

/// Adds a file, or a folder where the place ends in a slash.
fn add_file(folders: &mut MemoryFolders, place: &str, content: &[u8], answers: &mut Answers) {
    let added = if place.ends_with('/') {
        folders.add_folder(place)
    } else {
        folders.add_file(place, content)
    };
    answers.done(added);
}

/// Adds the files of a member that is a table: each place, and the text of the file there.
pub fn add_texts(
    folders: &mut MemoryFolders,
    row: &Row,
    member: &'static str,
    answers: &mut Answers,
) {
    if let Some(files) = answers.table_if(row, member) {
        for (place, content) in files.members {
            let text = answers.text_of(member, content);
            add_file(folders, place.as_str(), text.as_bytes(), answers);
        }
    }
}

/// Adds the files of `files_hex`: each place, and the bytes of the file there, as hexadecimal
/// digits.
fn add_bytes(folders: &mut MemoryFolders, row: &Row, answers: &mut Answers) {
    if let Some(files) = answers.table_if(row, "files_hex") {
        for (place, content) in files.members {
            let digits = answers.text_of("files_hex", content);
            let bytes = answers.decode("files_hex", digits);
            add_file(folders, place.as_str(), &bytes, answers);
        }
    }
}

/// The calls that folders of a row may refuse: the member with the places, and the call.
static REFUSED: [(&str, Call); 3] = [
    ("unread", Call::Read),
    ("headless", Call::Head),
    ("unlisted", Call::List),
];

/// The folders that a row's `files` and `files_hex` make. Those in `unread` refuse to be read,
/// those in `headless` to have their heads read, and those in `unlisted` to be listed.
pub fn folders_of(row: &Row, answers: &mut Answers) -> MemoryFolders {
    let mut folders = MemoryFolders::new(answers.alloc);
    add_texts(&mut folders, row, "files", answers);
    add_bytes(&mut folders, row, answers);
    for (member, call) in REFUSED {
        for place in answers.list(row, member) {
            let place = answers.text_of(member, place);
            answers.done(folders.refuse_call(place, call));
        }
    }
    folders
}

/// The roots of a walk: the folder at the top where the row tells none.
pub fn roots(row: &Row, answers: &mut Answers) -> Vec<String> {
    if row.has("roots") {
        answers.strings(row, "roots")
    } else {
        answers.one_string(".")
    }
}
