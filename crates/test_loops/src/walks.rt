//! Walks over folders of which each call fails in turn.
use crate::given::{files, texts};
use std::alloc::{AllocError, Global};
use tokei_folders::Folders;
use tokei_memory::{FailingFolders, MemoryFolders};
use tokei_walk::{Rules, Walk, kept_files};

/// All rules apply.
const ALL: Rules = Rules {
    parents: true,
    dot: true,
    git: true,
    hidden: true,
};

/// A tree with an ignore file of each kind.
static TREE: &[(&str, &str)] = &[
    (".git/info/exclude", "*.o"),
    (".gitignore", "*.a"),
    (".ignore", "[a\n*.b"),
    (".tokeignore", "!d"),
    ("d/a.b", ""),
    ("d/a.c", ""),
    ("d/e/a.c", ""),
    ("f.a", ""),
    ("f.c", ""),
    ("f.o", ""),
];

static ROOTS: &[&str] = &["d", ".", "f.c"];

/// What is kept of it.
static KEPT: [&str; 6] = ["d/a.c", "d/e/a.c", "./d/a.c", "./d/e/a.c", "./f.c", "f.c"];

/// Whether the file that is kept behind so many others has that path.
fn is_kept(count: usize, path: &str) -> bool {
    match KEPT.get(count) {
        Some(kept) => *kept == path,
        None => false,
    }
}

/// Whether a walk met no fault, and returned all that is kept; `None` where what it returned aren't
/// the first files that are kept, where it says otherwise whether it failed, or where it goes on.
fn is_whole<F: Folders>(folders: &mut F, walk: &mut Walk) -> Option<bool> {
    let mut count = 0_usize;
    let mut fails = false;
    for _ in 0..100 {
        match walk.next(folders) {
            Ok(Some(file)) => {
                count = if is_kept(count, file.path.as_str()) {
                    count.saturating_add(1)
                } else {
                    usize::MAX
                };
            }
            Ok(None) => break,
            Err(AllocError) => {
                fails = true;
                break;
            }
        }
    }
    let is_over = matches!(walk.next(folders), Ok(None)) && walk.failed() == fails;
    if is_over && (count == KEPT.len() || fails && count < KEPT.len()) {
        Some(!fails)
    } else {
        None
    }
}

/// The same of a walk over folders that fail behind so many calls; `None` where it can't be begun
/// too.
fn is_walked(alloc: Global, roots: &[String], tree: MemoryFolders, passes: u64) -> Option<bool> {
    match Walk::new(alloc, roots, &[], &ALL) {
        Ok(mut walk) => is_whole(&mut FailingFolders::new(tree, passes), &mut walk),
        Err(AllocError) => None,
    }
}

/// Whether `kept_files` returns all that is kept of such folders; else it is out of memory.
fn is_collected(alloc: Global, roots: &[String], tree: MemoryFolders, passes: u64) -> Option<bool> {
    match kept_files(
        alloc,
        &mut FailingFolders::new(tree, passes),
        roots,
        &[],
        &ALL,
    ) {
        Ok(kept) => if kept.files.as_slice().len() == KEPT.len() {
            Some(true)
        } else {
            None
        },
        Err(AllocError) => Some(false),
    }
}

/// Whether a walk and `kept_files` meet no fault in such folders; `None` where only one of them
/// does, or they aren't as they have to be.
fn are_whole(alloc: Global, roots: &[String], passes: u64) -> Option<bool> {
    let walked = match files(alloc, TREE) {
        Ok(tree) => is_walked(alloc, roots, tree, passes),
        Err(_) => None,
    };
    let collected = match files(alloc, TREE) {
        Ok(tree) => is_collected(alloc, roots, tree, passes),
        Err(_) => None,
    };
    if walked == collected { walked } else { None }
}

/// How many calls pass in the first run that meets no fault, where each run before it is told to
/// meet one.
fn calls_of_a_whole_run(alloc: Global) -> Option<u64> {
    match texts(alloc, ROOTS) {
        Ok(roots) => {
            for passes in 0..1_000 {
                match are_whole(alloc, roots.as_slice(), passes) {
                    Some(true) => return Some(passes),
                    Some(false) => {}
                    None => return None,
                }
            }
            None
        }
        Err(AllocError) => None,
    }
}

#[test]
fn each_call_that_fails_is_told(rt: HostRuntime) {
    let calls = calls_of_a_whole_run(rt.alloc());
    assert!(rt; matches!(calls, Some(calls) if calls > 20), "{calls:?}");
}
