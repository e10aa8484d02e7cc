//! Runs over folders of which each call fails in turn: the languages from before stay, with those
//! of the first files.
use crate::given::{files, seven_lines, texts, two_languages};
use std::alloc::Global;
use tokei_config::Config;
use tokei_folders::{Fault, Folders};
use tokei_languages::{Language, Languages};
use tokei_memory::{Call, FailingFolders, MemoryFolders};
use tokei_statistics::CountFiles;
use tokei_stats::CountError;
use tokei_table::{LanguageTable, LanguageType};

/// A tree of two files of C, one that can't be read between them, and one whose head is asked for
/// its language.
fn tree(alloc: Global) -> Result<MemoryFolders, Fault> {
    let mut folders = files(
        alloc,
        &[
            ("a.c", "x;\n"),
            ("b.c", "y;\n"),
            ("c.c", "x;\n"),
            ("z", "no script"),
        ],
    )?;
    folders.refuse_call("b.c", Call::Read)?;
    Ok(folders)
}

/// Adds what is below the roots to the languages, by `get_statistics`, which renews counts, or by
/// `get_all_files`; why it was refused.
fn add_all<F: Folders>(
    renews: bool,
    table: &LanguageTable,
    folders: &mut F,
    roots: &[String],
    languages: &mut Languages,
) -> Option<CountError> {
    let config = Config::new();
    let added = if renews {
        languages.get_statistics(table, folders, roots, &[], &config)
    } else {
        languages.get_all_files(table, folders, roots, &[], &config)
    };
    match added {
        Ok(_notes) => None,
        Err(refused) => Some(refused),
    }
}

/// What a call left of C: why it was refused, how many lines of code there are, how many files are
/// named in their order, and whether one is marked as unread.
type Left = (Option<CountError>, usize, usize, bool);

/// The files that are read, in the order of a walk.
static NAMES: [&str; 2] = ["./a.c", "./c.c"];

/// How many files of a language are named, where they are the first that are read, in their order;
/// else `usize::MAX`.
fn named(language: &Language) -> usize {
    match language.reports.as_slice() {
        [] => 0,
        [one] => if one.name.as_str() == NAMES[0] {
            1
        } else {
            usize::MAX
        },
        [one, other] => if one.name.as_str() == NAMES[0] && other.name.as_str() == NAMES[1] {
            2
        } else {
            usize::MAX
        },
        _ => usize::MAX,
    }
}

/// What the call leaves of seven earlier lines of C, over folders that fail behind so many calls;
/// `None` where C is lost, or there is no memory for it.
fn left_behind(
    alloc: Global,
    renews: bool,
    table: &LanguageTable,
    roots: &[String],
    passes: u64,
) -> Option<Left> {
    let c = LanguageType::from_name(table, "C")?;
    let Ok(tree) = tree(alloc) else {
        return None;
    };
    let mut languages = seven_lines(alloc, c)?;
    let mut folders = FailingFolders::new(tree, passes);
    let refused = add_all(renews, table, &mut folders, roots, &mut languages);
    match languages.get(c) {
        Some(left) => Some((refused, left.code, named(left), left.inaccurate)),
        None => None,
    }
}

const MEMORY: Option<CountError> = Some(CountError::Memory);

/// What is left where the call with this number fails: three calls find the files, one reads each
/// of them, and one the head. No call has the last number; then counts may be renewed.
static LEFT: [Left; 8] = [
    (MEMORY, 7, 0, false),
    (MEMORY, 7, 0, false),
    (MEMORY, 7, 0, false),
    (MEMORY, 7, 0, false),
    (MEMORY, 7, 1, false),
    (MEMORY, 7, 1, true),
    (MEMORY, 7, 2, true),
    (None, 7, 2, true),
];

/// Whether what is left has to be, behind so many calls. Where counts are renewed only two lines of
/// code are left at last.
fn is_left(left: &Option<Left>, want: &Left, renews: bool) -> bool {
    let (refused, code, named, marked) = *want;
    let code = if renews && refused.is_none() { 2 } else { code };
    *left == Some((refused, code, named, marked))
}

/// The first call that leaves something else where it fails, if there is one; `u64::MAX` where no
/// run can be begun.
fn first_wrong_call(alloc: Global) -> Option<u64> {
    let Ok(table) = two_languages(alloc) else {
        return Some(u64::MAX);
    };
    let Ok(roots) = texts(alloc, &["."]) else {
        return Some(u64::MAX);
    };
    for renews in [false, true] {
        for (passes, want) in LEFT.iter().enumerate() {
            let left = left_behind(alloc, renews, &table, roots.as_slice(), passes as u64);
            if !is_left(&left, want, renews) {
                return Some(passes as u64);
            }
        }
    }
    None
}

#[test]
fn each_call_of_folders_that_fails_leaves_the_first_files(rt: HostRuntime) {
    let wrong = first_wrong_call(rt.alloc());
    assert!(rt; wrong.is_none(), "{wrong:?}");
}
