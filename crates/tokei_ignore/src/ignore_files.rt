//! The patterns of an ignore file, and what they decide.
ghost use Rattle.std.specs.Prelude.{◌≡◌, ◌≤◌, ◌<◌, ◌≢◌, ◌==◌, ◌++◌, [], ◌∷◌, Err, OnOk, IfOk, IfSome, MatchOption, length};
ghost use Rattle.std.specs.List.{slice_split};
ghost use Rattle.tokei_ignore.specs.IgnoreFiles.{outcome_of_line, verdict_of, without_mark as unmarked, without_return as unreturned, patterns_of, patterns_of_line, is_bad_line, bad_lines_of, last_fitting};
ghost use Rattle.tokei_ignore.specs.declared.patterns.PatternError.TheVariants.{Memory as MemoryError};

use crate::indexed_patterns::{FEW, IndexedPatterns};
use crate::patterns::{Pattern, PatternError};
use std::alloc::{AllocError, Global};
use std::str;
use tokei_folders::{Items, Text};

/// What an ignore file decides about an entry.
#[derive(Clone, Copy, Debug, PartialEq, Eq)]
pub enum Verdict {
    Ignore,
    Keep,
}

/// The patterns of an ignore file.
#[derive(Drop)]
pub struct IgnoreFile {
    /// The patterns of its lines, in order.
    pub patterns: IndexedPatterns,
    /// How many of its lines are bad and passed over.
    pub bad_lines: usize,
}

fn without_mark(bytes: &[u8]) -> &[u8]
    ensures { result.now ≡ unmarked bytes.entry.now }
{
    match bytes {
        [0xEF, 0xBB, 0xBF, rest @ ..] => rest,
        _ => bytes,
    }
}

fn without_return(line: &[u8]) -> &[u8]
    ensures { result.now ≡ unreturned line.entry.now }
{
    match line.split_last() {
        None => line,
        Some((last, front)) => if *last == b'\r' { front } else { line },
    }
}

/// What stands before the first newline, and what behind it, where there is one.
fn cut_at_newline(bytes: &[u8]) -> (&[u8], Option<&[u8]>)
    ensures last { MatchOption result.1
        (slice_split (λ b. b == 10) bytes.entry.now ≡ result.0.now ∷ [])
        (λ rest. slice_split (λ b. b == 10) bytes.entry.now
        ≡ result.0.now ∷ slice_split (λ b. b == 10) rest.now) }
    ensures shorter { IfSome result.1 (λ rest. length rest.now < length bytes.entry.now) }
{
    for (i, b) in bytes.iter().enumerate() {
        if *b == b'\n' {
            return (&bytes[..i], Some(&bytes[i + 1..]));
        }
    }
    (bytes, None)
}

#[tactic(auto, unfolding(crate::specs::IgnoreFiles::outcome_of_line))]
fn outcome(alloc: Global, line: &[u8]) -> Result<Option<Pattern>, PatternError>
    ensures { result ≢ Err MemoryError → result ≡ outcome_of_line line.now }
{
    match str::from_utf8(line) {
        Ok(text) => Pattern::parse(alloc, text),
        Err(_) => Err(PatternError::Bad),
    }
}

/// Adds the pattern of a line, where it has one; whether the line is bad.
#[tactic(auto, unfolding(crate::specs::IgnoreFiles::patterns_of_line, crate::specs::IgnoreFiles::is_bad_line))]
fn push_line(alloc: Global, line: &[u8], patterns: &mut Items<Pattern>) -> Result<bool, AllocError>
    ensures patterns { OnOk result (patterns.new ≡ patterns.old ++ patterns_of_line line.now) }
    ensures bad { IfOk result (λ b. b ≡ is_bad_line line.now) }
{
    match outcome(alloc, without_return(line)) {
        Ok(Some(pattern)) => {
            patterns.push(pattern)?;
            Ok(false)
        }
        Ok(None) => Ok(false),
        Err(PatternError::Bad) => Ok(true),
        Err(PatternError::Memory) => Err(AllocError),
    }
}

/// That the bad lines of bytes can be counted: there is one for each newline at most, and one more.
fn bad_lines_fit(bytes: &[u8])
    ensures { bad_lines_of bytes.now ≤ usize.MAX }
{
    prove!(bytes.len() < usize::MAX);
}

impl IgnoreFile {
    /// Reads the bytes of an ignore file: a mark EF BB BF at their front is dropped, and each line
    /// is read as a pattern. A line that isn't UTF-8 is bad.
    #[tactic(auto, unfolding(crate::specs::IgnoreFiles::patterns_of, crate::specs::IgnoreFiles::bad_lines_of))]
    pub fn parse(alloc: Global, bytes: &[u8]) -> Result<IgnoreFile, AllocError>
        ensures patterns { IfOk result (λ f. f.patterns ≡ patterns_of bytes.now) }
        ensures bad_lines { IfOk result (λ f. f.bad_lines ≡ bad_lines_of bytes.now) }
    {
        bad_lines_fit(bytes);
        let mut patterns = Items::new(alloc);
        let mut bad_lines = 0usize;
        let mut left = without_mark(bytes);
        loop {
            let (line, rest) = cut_at_newline(left);
            if push_line(alloc, line, &mut patterns)? {
                bad_lines = bad_lines.saturating_add(1);
            }
            match rest {
                Some(rest) => left = rest,
                None => break,
            }
        }
        Ok(IgnoreFile {
            patterns: IndexedPatterns::of(alloc, patterns)?,
            bad_lines,
        })
    }

    /// What the file decides about an entry, by its names from the file's folder down to it, of
    /// which there is one at least, and by whether it is a folder: the last pattern that fits
    /// decides. It takes no memory.
    pub fn verdict(&self, names: &[Text], folder: bool) -> Option<Verdict>
        requires { 0 < length names.now }
        ensures { result ≡ last_fitting self.now.patterns names.now folder }
    {
        verdict_among(&self.patterns, names, folder)
    }
}

/// A negated pattern keeps what it fits.
fn given_by(pattern: &Pattern) -> Verdict
    ensures { result ≡ verdict_of pattern.now }
{
    if pattern.negated {
        Verdict::Keep
    } else {
        Verdict::Ignore
    }
}

/// What the patterns decide: the last one that fits. It takes no memory.
pub fn verdict_among(patterns: &IndexedPatterns, names: &[Text], folder: bool) -> Option<Verdict>
    ensures { result ≡ last_fitting patterns.now names.now folder }
{
    let list = patterns.as_slice();
    if list.len() < FEW {
        return verdict_of_few(list, names, folder);
    }
    match patterns.latest_fitting(names, folder) {
        0 => None,
        place => Some(given_by(&list[place - 1])),
    }
}

/// The same, tried from the last pattern on.
fn verdict_of_few(patterns: &[Pattern], names: &[Text], folder: bool) -> Option<Verdict>
    ensures { result ≡ last_fitting patterns.now names.now folder }
{
    let mut left = patterns;
    while let Some((pattern, front)) = left.split_last() {
        if pattern.fits(names, folder) {
            return Some(given_by(pattern));
        }
        left = front;
    }
    None
}
