//! When names fit the segments of a pattern.
ghost use Rattle.std.specs.Prelude.{◌≡◌, ◌<◌, [], ◌∷◌, length, MatchOption, IfSome};
ghost use Rattle.std.specs.Str.{chars, IsUtf8};
ghost use Rattle.std.specs.List.{list_any};
ghost use Rattle.tokei_ignore.specs.Fits.{at_some_end, last_passes};
ghost use Rattle.tokei_ignore.specs.Segments.{is_in_range, fits_character as piece_fits, fits_characters, fits_name as segment_fits, fits_names as path_fits};
ghost use Rattle.tokei_ignore.specs.declared.pieces.Segment.TheVariants.{AnyNames as AnyNamesSegment, Name as NameSegment};
ghost use Rattle.tokei_ignore.specs.Reach.{name_reach, name_reach_view, path_reach, path_reach_view};

use crate::pieces::{Piece, Range, Segment};
use tokei_folders::Text;

/// How far the pieces before the first star fit a name.
pub enum NameReach<'a> {
    Fails,
    Done,
    AtSpan(&'a [Piece], &'a str),
}

/// How far the segments before the first `**` fit a path.
pub enum PathReach<'a> {
    Fails,
    Done,
    AtSpan(&'a [Segment], &'a [Text]),
}

fn first_char(text: &str) -> Option<(char, &str)>
    ensures { MatchOption result (chars text.entry.now ≡ [])
        (λ p. (chars text.entry.now ≡ p.0 ∷ chars p.1.now)
        × (length p.1.now < length text.entry.now) × IsUtf8 p.1.now) }
{
    let mut chars = text.chars();
    let c = chars.next()?;
    Some((c, chars.as_str()))
}

fn is_member(ranges: &[Range], c: char) -> bool
    ensures { result ≡ list_any (is_in_range c) ranges.now }
{
    for range in ranges {
        if range.low <= c && c <= range.high {
            return true;
        }
    }
    false
}

fn fits_character(piece: &Piece, c: char) -> bool
    ensures { result ≡ piece_fits piece.now c }
{
    match piece {
        Piece::AnyRun => false,
        Piece::AnyOne => true,
        Piece::Exactly(x) => *x == c,
        Piece::Class { turned, ranges } => {
            let found = is_member(ranges.as_slice(), c);
            if *turned { !found } else { found }
        }
    }
}

fn reach_in_name<'a>(pieces: &'a [Piece], name: &'a str) -> NameReach<'a>
    ensures { name_reach_view result ≡ name_reach pieces.entry.now (chars name.entry.now) }
{
    let mut rest = name;
    let mut left = pieces;
    while let Some((piece, others)) = left.split_first() {
        if let Piece::AnyRun = piece {
            return NameReach::AtSpan(others, rest);
        }
        let Some((c, later)) = first_char(rest) else {
            return NameReach::Fails;
        };
        if !fits_character(piece, c) {
            return NameReach::Fails;
        }
        left = others;
        rest = later;
    }
    match first_char(rest) {
        None => NameReach::Done,
        Some(_) => NameReach::Fails,
    }
}

/// Whether the pieces fit what is left of the name behind some of its characters. A span that was
/// reached is never left again, so the work is at most the pieces times the characters.
fn fits_some_end(pieces: &[Piece], name: &str) -> bool
    ensures { result ≡ at_some_end (fits_characters pieces.now) (chars name.now) }
{
    let mut left = pieces;
    let mut start = name;
    loop {
        match reach_in_name(left, start) {
            NameReach::Done => return true,
            NameReach::AtSpan(others, rest) => {
                left = others;
                start = rest;
            }
            NameReach::Fails => match first_char(start) {
                None => return false,
                Some((_, later)) => start = later,
            },
        }
    }
}

/// Whether the pieces take all of a name.
fn fits_whole_name(pieces: &[Piece], name: &str) -> bool
    ensures { result ≡ fits_characters pieces.now (chars name.now) }
{
    match reach_in_name(pieces, name) {
        NameReach::Fails => false,
        NameReach::Done => true,
        NameReach::AtSpan(others, rest) => fits_some_end(others, rest),
    }
}

fn fits_name(segment: &Segment, name: &Text) -> bool
    ensures { result ≡ segment_fits segment.now name.now }
{
    match segment {
        Segment::AnyNames => false,
        Segment::Name(pieces) => fits_whole_name(pieces.as_slice(), name.as_str()),
    }
}

fn reach_in_path<'a>(segments: &'a [Segment], names: &'a [Text]) -> PathReach<'a>
    ensures { path_reach_view result ≡ path_reach segments.entry.now names.entry.now }
{
    let mut rest = names;
    let mut left = segments;
    while let Some((segment, others)) = left.split_first() {
        if let Segment::AnyNames = segment {
            return PathReach::AtSpan(others, rest);
        }
        let Some((name, later)) = rest.split_first() else {
            return PathReach::Fails;
        };
        if !fits_name(segment, name) {
            return PathReach::Fails;
        }
        left = others;
        rest = later;
    }
    if rest.is_empty() {
        PathReach::Done
    } else {
        PathReach::Fails
    }
}

/// Whether the segments fit what is left of the names behind some of them.
fn fits_some_later(segments: &[Segment], names: &[Text]) -> bool
    ensures { result ≡ at_some_end (path_fits segments.now) names.now }
{
    let mut left = segments;
    let mut start = names;
    loop {
        match reach_in_path(left, start) {
            PathReach::Done => return true,
            PathReach::AtSpan(others, rest) => {
                left = others;
                start = rest;
            }
            PathReach::Fails => match start.split_first() {
                None => return false,
                Some((_, later)) => start = later,
            },
        }
    }
}

/// Whether the pieces take all of the last name.
fn fits_last_name(pieces: &[Piece], names: &[Text]) -> bool
    ensures { result ≡ last_passes (λ name. fits_characters pieces.now (chars name)) names.now }
{
    match names.split_last() {
        None => false,
        Some((last, _)) => fits_whole_name(pieces, last.as_str()),
    }
}

/// Whether the segments take all the names. It takes no memory.
fn fits_from_first(segments: &[Segment], names: &[Text]) -> bool
    ensures { result ≡ path_fits segments.now names.now }
{
    match reach_in_path(segments, names) {
        PathReach::Fails => false,
        PathReach::Done => true,
        PathReach::AtSpan(others, rest) => fits_some_later(others, rest),
    }
}

/// The pieces of the name where the segments are any names and then one.
fn name_after_any(segments: &[Segment]) -> Option<&[Piece]>
    ensures { IfSome result (λ ps. segments.entry.now ≡ AnyNamesSegment ∷ NameSegment ps.now ∷ []) }
{
    match segments.split_first() {
        Some((Segment::AnyNames, rest)) => match rest.split_first() {
            Some((Segment::Name(pieces), [])) => Some(pieces.as_slice()),
            _ => None,
        },
        _ => None,
    }
}

/// The same; any names and then one, as of a pattern that no slash anchors, are tried at the last
/// name alone.
#[inline(always)]
pub fn fits_names(segments: &[Segment], names: &[Text]) -> bool
    ensures { result ≡ path_fits segments.now names.now }
{
    match name_after_any(segments) {
        Some(pieces) => fits_last_name(pieces, names),
        None => fits_from_first(segments, names),
    }
}
