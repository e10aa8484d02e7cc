//! The pattern of a line, and when it fits an entry.
ghost use Rattle.std.specs.Prelude.{◌≡◌, ◌≢◌, ◌<◌, ◌==◌, Err, Ok, IfOk, length};
ghost use Rattle.std.specs.List.{slice_split, list_any};
ghost use Rattle.std.specs.Str.{chars};
ghost use Rattle.tokei_ignore.specs.Segments.{spans_names};
ghost use Rattle.tokei_ignore.specs.Patterns.{is_double_star, is_slash, segment_of, segments_from, closed as closed_segments, ends_in_names as ends_in_any_names, unanchored as unanchored_segments, from_rest as pattern_from_rest, from_front as pattern_from_front, from_end as pattern_from_end, from_line as pattern_from_line, line_pattern, exclude_pattern, fits_entry};
ghost use Rattle.tokei_ignore.specs.declared.patterns.PatternError.TheVariants.{Memory as MemoryError};

use crate::ends::{cut_at_slash, front_before, trimmed};
use crate::matching::fits_names;
use crate::pieces::{Piece, Segment};
use crate::reading::pieces;
use std::alloc::{AllocError, AllocFailed, Global};
use thiserror::Error;
use tokei_folders::{Items, Text};

/// Why a line is no pattern that can be used.
#[derive(Clone, Copy, Debug, PartialEq, Eq, Error)]
pub enum PatternError {
    /// A class without its end in the segment, a range that runs backward, a named class, or a
    /// backslash that ends a segment.
    #[error("bad pattern")]
    Bad,
    /// Memory was refused.
    #[error("out of memory")]
    Memory,
}

impl From<AllocError> for PatternError {
    ghost use Rattle.std.specs.Prelude.{◌≡◌};
    ghost use Rattle.tokei_ignore.specs.declared.patterns.PatternError.TheVariants.{Memory};

    ghost from_gives = { λ _ e. e ≡ Memory };

    fn from(_refused: AllocError) -> PatternError {
        PatternError::Memory
    }
}

impl<T: Drop> From<AllocFailed<T>> for PatternError {
    ghost use Rattle.std.specs.Prelude.{◌≡◌};
    ghost use Rattle.tokei_ignore.specs.declared.patterns.PatternError.TheVariants.{Memory};

    ghost from_gives = { λ _ e. e ≡ Memory };

    fn from(_refused: AllocFailed<T>) -> PatternError {
        PatternError::Memory
    }
}

/// A line of an ignore file that names files.
#[derive(Drop)]
pub struct Pattern {
    /// Whether what fits is kept.
    pub negated: bool,
    /// Whether it fits no file.
    pub folders_only: bool,
    pub segments: Items<Segment>,
}

fn is_double(chars: &[char]) -> bool
    ensures { result ≡ is_double_star chars.now }
{
    match chars {
        ['*', '*'] => true,
        _ => false,
    }
}

#[tactic(auto, unfolding(crate::specs::Patterns::segment_of))]
fn segment(alloc: Global, chars: &[char]) -> Result<Segment, PatternError>
    ensures { result ≢ Err MemoryError → result ≡ segment_of chars.now }
{
    if is_double(chars) {
        return Ok(Segment::AnyNames);
    }
    Ok(Segment::Name(pieces(alloc, chars)?))
}

/// The segments of the parts between slashes, behind those that are given.
#[tactic(auto, unfolding(crate::specs::Patterns::segments_from))]
fn segments(
    alloc: Global,
    mut segments: Items<Segment>,
    chars: &[char],
) -> Result<Items<Segment>, PatternError>
    ensures { result ≢ Err MemoryError
        → result ≡ segments_from segments (slice_split is_slash chars.now) }
{
    let mut left = chars;
    loop {
        let (part, rest) = cut_at_slash(left);
        segments.push(segment(alloc, part)?)?;
        match rest {
            Some(rest) => left = rest,
            None => return Ok(segments),
        }
    }
}

fn spans(segment: &Segment) -> bool
    ensures { result ≡ spans_names segment.now }
{
    match segment {
        Segment::AnyNames => true,
        Segment::Name(_) => false,
    }
}

fn ends_in_names(segments: &[Segment]) -> bool
    ensures { result ≡ ends_in_any_names segments.now }
{
    match segments.split_last() {
        None => false,
        Some((segment, _)) => spans(segment),
    }
}

/// A last `**` is followed by a segment that fits each name.
#[tactic(auto, unfolding(crate::specs::Patterns::closed))]
fn closed(alloc: Global, mut segments: Items<Segment>) -> Result<Items<Segment>, AllocError>
    ensures { IfOk result (λ s. s ≡ closed_segments segments) }
{
    if !ends_in_names(segments.as_slice()) {
        return Ok(segments);
    }
    let mut any = Items::new(alloc);
    any.push(Piece::AnyRun)?;
    segments.push(Segment::Name(any))?;
    Ok(segments)
}

fn holds_slash(chars: &[char]) -> bool
    ensures { result ≡ list_any is_slash chars.now }
{
    for c in chars {
        if *c == '/' {
            return true;
        }
    }
    false
}

/// The segments in front of a pattern that no slash anchors.
#[tactic(auto, unfolding(crate::specs::Patterns::unanchored))]
fn unanchored(alloc: Global, anchored: bool, chars: &[char]) -> Result<Items<Segment>, AllocError>
    ensures { IfOk result (λ s. s ≡ unanchored_segments anchored chars.now) }
{
    let mut front = Items::new(alloc);
    if !anchored && !holds_slash(chars) {
        front.push(Segment::AnyNames)?;
    }
    Ok(front)
}

#[tactic(auto, unfolding(crate::specs::Patterns::from_rest))]
fn from_rest(
    alloc: Global,
    negated: bool,
    folders_only: bool,
    anchored: bool,
    chars: &[char],
) -> Result<Option<Pattern>, PatternError>
    ensures { result ≢ Err MemoryError
        → result ≡ pattern_from_rest negated folders_only anchored chars.now }
{
    if chars.is_empty() {
        return Ok(None);
    }
    let front = unanchored(alloc, anchored, chars)?;
    let segments = closed(alloc, segments(alloc, front, chars)?)?;
    Ok(Some(Pattern {
        negated,
        folders_only,
        segments,
    }))
}

#[tactic(auto, unfolding(crate::specs::Patterns::from_front))]
fn from_front(
    alloc: Global,
    negated: bool,
    folders_only: bool,
    chars: &[char],
) -> Result<Option<Pattern>, PatternError>
    ensures { result ≢ Err MemoryError
        → result ≡ pattern_from_front negated folders_only chars.now }
{
    match chars {
        ['/', rest @ ..] => from_rest(alloc, negated, folders_only, true, rest),
        _ => from_rest(alloc, negated, folders_only, false, chars),
    }
}

#[tactic(auto, unfolding(crate::specs::Patterns::from_end))]
fn from_end(alloc: Global, negated: bool, chars: &[char]) -> Result<Option<Pattern>, PatternError>
    ensures { result ≢ Err MemoryError → result ≡ pattern_from_end negated chars.now }
{
    match front_before(chars, '/') {
        Some(front) => from_front(alloc, negated, true, front),
        None => from_front(alloc, negated, false, chars),
    }
}

#[tactic(auto, unfolding(crate::specs::Patterns::from_line))]
fn from_line(alloc: Global, chars: &[char]) -> Result<Option<Pattern>, PatternError>
    ensures { result ≢ Err MemoryError → result ≡ pattern_from_line chars.now }
{
    match chars {
        [] | ['#', ..] => Ok(None),
        ['!', rest @ ..] => from_end(alloc, true, rest),
        _ => from_end(alloc, false, chars),
    }
}

fn characters(alloc: Global, text: &str) -> Result<Items<char>, AllocError>
    ensures { IfOk result (λ cs. cs ≡ chars text.now) }
{
    let chars: Vec<char> = text.chars().collect(alloc)?;
    Ok(Items::from_vec(chars))
}

impl Pattern {
    /// Reads a line of an ignore file, without its line end: `None` where it has no pattern, as an
    /// empty line and one that begins with `#`. The rules are those of git's gitignore, but for
    /// named classes, which are bad, and a backslash before a slash, which is bad too.
    pub fn parse(alloc: Global, line: &str) -> Result<Option<Pattern>, PatternError>
        ensures { result ≢ Err MemoryError → result ≡ line_pattern (chars line.now) }
    {
        let chars = trimmed(characters(alloc, line)?)?;
        from_line(alloc, chars.as_slice())
    }

    /// Reads an exclude: a line in which a `#` or a `!` at the front means itself.
    pub fn parse_exclude(alloc: Global, text: &str) -> Result<Option<Pattern>, PatternError>
        ensures { result ≢ Err MemoryError → result ≡ exclude_pattern (chars text.now) }
    {
        let chars = trimmed(characters(alloc, text)?)?;
        from_end(alloc, false, chars.as_slice())
    }

    /// Whether the pattern fits an entry, by its names from the ignore file's folder down to it,
    /// of which there is one at least, and by whether it is a folder. It takes no memory, and its
    /// work is at most the pattern's length times that of the names.
    pub fn matches(&self, names: &[Text], folder: bool) -> bool
        requires { 0 < length names.now }
        ensures { result ≡ fits_entry self.now names.now folder }
    {
        self.fits(names, folder)
    }

    /// The same, also where there is no name.
    #[inline(always)]
    pub fn fits(&self, names: &[Text], folder: bool) -> bool
        ensures { result ≡ fits_entry self.now names.now folder }
    {
        (folder || !self.folders_only) && fits_names(self.segments.as_slice(), names)
    }
}
