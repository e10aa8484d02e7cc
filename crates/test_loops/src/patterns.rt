//! Patterns that would not end within a test's time, were each of their stars gone back to.
use std::alloc::{AllocError, Global};
use tokei_folders::{Items, Text};
use tokei_ignore::Pattern;

/// A path of one name, of so many `a`.
fn long_name(alloc: Global, length: usize) -> Result<Items<Text>, AllocError> {
    let name = "a".repeat(alloc, length)?;
    let mut names = Items::new(alloc);
    names.push(Text::from_str(alloc, name.as_str())?)?;
    Ok(names)
}

/// Whether a line has a pattern, and it doesn't fit a file whose name is so many `a`.
fn is_no_match(alloc: Global, line: &str, length: usize) -> bool {
    match long_name(alloc, length) {
        Ok(names) => match Pattern::parse(alloc, line) {
            Ok(Some(pattern)) => !pattern.fits(names.as_slice(), false),
            Ok(None) | Err(_) => false,
        },
        Err(_) => false,
    }
}

static HOSTILE: [(&str, usize); 4] = [
    ("*a*a*a*a*b", 10_000),
    ("*a*a*a*a*b", 1_000_000),
    ("*aaaaaaaab*aaaaaaaab", 1_000_000),
    ("**/*a*/**/*a*/b", 1_000_000),
];

/// A match that went back to every star would not end within a test's time.
#[test]
fn a_hostile_pattern_ends(rt: HostRuntime) {
    for (line, length) in HOSTILE {
        assert!(rt; is_no_match(rt.alloc(), line, length), "{line}");
    }
}
