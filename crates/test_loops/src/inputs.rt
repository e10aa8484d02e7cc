//! Earlier results that are long, of which a read fails, or which are read in many reads.
use crate::given::{seven_lines, two_languages};
use crate::readers::Slow;
use std::alloc::{AllocError, Global};
use tokei_earlier::{InputError, add_input};
use tokei_io::{Counted, FailOnce};
use tokei_languages::Languages;
use tokei_table::{LanguageTable, LanguageType};

/// Earlier results of C with a name of more bytes than one read takes.
fn long_input(alloc: Global) -> Result<String, AllocError> {
    let head =
        r#"{"C":{"blanks":0,"children":{},"code":1,"comments":0,"inaccurate":false,"reports":[{"name":""#;
    let name = "a".repeat(alloc, 70_000)?;
    let tail = r#"","stats":{"blanks":0,"blobs":{},"code":1,"comments":0}}]},"Total":0}"#;
    format!(in alloc; "{head}{name}{tail}")
}

/// Whether the read with a number came, which fails; what the addition to a language of seven lines
/// of code returned; how many languages there are then, and how many lines of code that one has.
type Left = (bool, Result<(), InputError>, usize, Option<usize>);

/// What is left of a language of seven lines of code where this read of earlier results fails;
/// `None` where there is no such language, or no memory for it.
fn left_of(alloc: Global, table: &LanguageTable, text: &str, call: u64) -> Option<Left> {
    let language = LanguageType::from_name(table, "D")?;
    let mut languages = seven_lines(alloc, language)?;
    let mut reader = FailOnce::new(Counted::new(text.as_bytes()), call);
    let answer = add_input(alloc, table, &mut reader, &mut languages);
    let code = match languages.get(language) {
        Some(left) => Some(left.code),
        None => None,
    };
    Some((reader.failed(), answer, languages.len(), code))
}

const UNREADABLE: Left = (true, Err(InputError::Unreadable), 1, Some(7));

/// What is left where each of three reads fails, and where none does, since there is no fourth one.
static LEFT: [Left; 4] = [
    UNREADABLE,
    UNREADABLE,
    UNREADABLE,
    (false, Ok(()), 2, Some(7)),
];

/// The first read where something else is left, if there is one; `u64::MAX` where there is no such
/// table or text.
fn first_wrong_read(alloc: Global) -> Option<u64> {
    let Ok(table) = two_languages(alloc) else {
        return Some(u64::MAX);
    };
    let Ok(text) = long_input(alloc) else {
        return Some(u64::MAX);
    };
    let mut call = 0_u64;
    for want in &LEFT {
        if left_of(alloc, &table, text.as_str(), call) != Some(*want) {
            return Some(call);
        }
        call = call.saturating_add(1);
    }
    None
}

#[test]
fn each_read_fails_once(rt: HostRuntime) {
    let wrong = first_wrong_read(rt.alloc());
    assert!(rt; wrong.is_none(), "{wrong:?}");
}

/// Blanks and a document without languages, of two hundred thousand bytes.
fn long_document(alloc: Global) -> Result<String, AllocError> {
    let mut text = " ".repeat(alloc, 199_989)?;
    text.push_str("{\"Total\":0}")?;
    Ok(text)
}

/// Whether that text is read as such a document, two bytes in each read.
fn adds_nothing(alloc: Global) -> bool {
    let Ok(text) = long_document(alloc) else {
        return false;
    };
    let Ok(table) = two_languages(alloc) else {
        return false;
    };
    let mut reader = Counted::new(Slow {
        left: text.as_bytes(),
        fails: false,
    });
    let mut languages = Languages::new(alloc);
    let added = add_input(alloc, &table, &mut reader, &mut languages);
    added == Ok(()) && languages.len() == 0
}

#[test]
fn a_hundred_thousand_reads_are_one_text(rt: HostRuntime) {
    assert!(rt; adds_nothing(rt.alloc()));
}
