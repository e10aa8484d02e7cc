//! How a segment is read, character by character.
ghost use Rattle.std.specs.Prelude.{◌≡◌, ◌≢◌, Err, Ok};
ghost use Rattle.tokei_ignore.specs.Reading.{after_piece, after_class, with_range as ranged, names_class as names_a_class, outside as read_outside, member as read_member, inside as read_inside, opened as read_opened, behind as read_behind, dash as read_dash, taken as read_one, finished as all_pieces, pieces_of};
ghost use Rattle.tokei_ignore.specs.declared.patterns.PatternError.TheVariants.{Memory as MemoryError};

use crate::ends::begins_with;
use crate::patterns::PatternError;
use crate::pieces::{Piece, Range};
use std::alloc::Global;
use tokei_folders::Items;

/// Where the next character of a segment stands.
#[derive(Clone, Copy)]
pub enum Place {
    /// Outside a class.
    Outside,
    /// Behind the `[` of a class, where a mark may turn it round.
    Opened,
    /// At the first member of a class, where a `]` is one.
    First { turned: bool },
    /// In a class, where a member or its end may stand.
    Inside { turned: bool },
    /// Behind a member, which may begin a range.
    Behind { turned: bool, low: char },
    /// Behind a member and a `-`.
    Dash { turned: bool, low: char },
}

/// What is read of a segment so far.
#[derive(Drop)]
pub struct Reading {
    pub pieces: Items<Piece>,
    /// The members of the class that is read.
    pub ranges: Items<Range>,
    pub place: Place,
    /// Whether a backslash stands before the next character.
    pub quoted: bool,
}

/// The character that is read.
#[derive(Clone, Copy)]
struct Sign {
    c: char,
    /// Whether a backslash quotes it.
    quoted: bool,
    /// Whether a colon follows it.
    colon: bool,
}

/// One more piece, outside a class.
fn with_piece(mut reading: Reading, piece: Piece) -> Result<Reading, PatternError>
    ensures { result ≢ Err MemoryError → result ≡ Ok (after_piece reading piece) }
{
    reading.pieces.push(piece)?;
    reading.place = Place::Outside;
    Ok(reading)
}

/// The class ends.
fn closed(mut reading: Reading, turned: bool) -> Result<Reading, PatternError>
    ensures { result ≢ Err MemoryError → result ≡ Ok (after_class reading turned) }
{
    let ranges = reading.ranges.take_all();
    with_piece(reading, Piece::Class { turned, ranges })
}

/// One more range of members.
fn with_range(mut reading: Reading, low: char, high: char) -> Result<Reading, PatternError>
    ensures { result ≢ Err MemoryError → result ≡ Ok (ranged reading low high) }
{
    reading.ranges.push(Range { low, high })?;
    Ok(reading)
}

/// Whether a `[` and a colon begin a named class, which no pattern has.
fn names_class(sign: Sign) -> bool
    ensures { result ≡ names_a_class sign.quoted sign.c sign.colon }
{
    !sign.quoted && sign.c == '[' && sign.colon
}

fn outside(mut reading: Reading, quoted: bool, c: char) -> Result<Reading, PatternError>
    ensures { result ≢ Err MemoryError → result ≡ Ok (read_outside reading quoted c) }
{
    if quoted {
        return with_piece(reading, Piece::Exactly(c));
    }
    match c {
        '*' => with_piece(reading, Piece::AnyRun),
        '?' => with_piece(reading, Piece::AnyOne),
        '[' => {
            reading.place = Place::Opened;
            Ok(reading)
        }
        _ => with_piece(reading, Piece::Exactly(c)),
    }
}

fn member(mut reading: Reading, turned: bool, sign: Sign) -> Result<Reading, PatternError>
    ensures { result ≡ read_member reading turned sign.quoted sign.c sign.colon }
{
    if names_class(sign) {
        return Err(PatternError::Bad);
    }
    reading.place = Place::Behind {
        turned,
        low: sign.c,
    };
    Ok(reading)
}

fn inside(reading: Reading, turned: bool, sign: Sign) -> Result<Reading, PatternError>
    ensures { result ≢ Err MemoryError
        → result ≡ read_inside reading turned sign.quoted sign.c sign.colon }
{
    if !sign.quoted && sign.c == ']' {
        return closed(reading, turned);
    }
    member(reading, turned, sign)
}

fn opened(mut reading: Reading, sign: Sign) -> Result<Reading, PatternError>
    ensures { result ≡ read_opened reading sign.quoted sign.c sign.colon }
{
    if !sign.quoted && (sign.c == '!' || sign.c == '^') {
        reading.place = Place::First { turned: true };
        return Ok(reading);
    }
    member(reading, false, sign)
}

fn behind(
    mut reading: Reading,
    turned: bool,
    low: char,
    sign: Sign,
) -> Result<Reading, PatternError>
    ensures { result ≢ Err MemoryError
        → result ≡ read_behind reading turned low sign.quoted sign.c sign.colon }
{
    if !sign.quoted && sign.c == '-' {
        reading.place = Place::Dash { turned, low };
        return Ok(reading);
    }
    let reading = with_range(reading, low, low)?;
    inside(reading, turned, sign)
}

fn dash(reading: Reading, turned: bool, low: char, sign: Sign) -> Result<Reading, PatternError>
    ensures { result ≢ Err MemoryError
        → result ≡ read_dash reading turned low sign.quoted sign.c sign.colon }
{
    if !sign.quoted && sign.c == ']' {
        let reading = with_range(reading, low, low)?;
        let reading = with_range(reading, '-', '-')?;
        return closed(reading, turned);
    }
    if names_class(sign) || sign.c < low {
        return Err(PatternError::Bad);
    }
    let mut reading = with_range(reading, low, sign.c)?;
    reading.place = Place::Inside { turned };
    Ok(reading)
}

/// Takes one character more; `colon` says whether a colon follows it.
#[tactic(auto, unfolding(crate::specs::Reading::taken))]
fn taken(mut reading: Reading, c: char, colon: bool) -> Result<Reading, PatternError>
    ensures { result ≢ Err MemoryError → result ≡ read_one reading c colon }
{
    if !reading.quoted && c == '\\' {
        reading.quoted = true;
        return Ok(reading);
    }
    let quoted = reading.quoted;
    reading.quoted = false;
    let sign = Sign { c, quoted, colon };
    match reading.place {
        Place::Outside => outside(reading, quoted, c),
        Place::Opened => opened(reading, sign),
        Place::First { turned } => member(reading, turned, sign),
        Place::Inside { turned } => inside(reading, turned, sign),
        Place::Behind { turned, low } => behind(reading, turned, low, sign),
        Place::Dash { turned, low } => dash(reading, turned, low, sign),
    }
}

#[tactic(auto, unfolding(crate::specs::Reading::finished))]
fn finished(reading: Reading) -> Result<Items<Piece>, PatternError>
    ensures { result ≡ all_pieces reading }
{
    match reading.place {
        Place::Outside if !reading.quoted => Ok(reading.pieces),
        _ => Err(PatternError::Bad),
    }
}

/// The pieces of a segment.
#[tactic(auto, unfolding(crate::specs::Reading::pieces_of))]
pub fn pieces(alloc: Global, chars: &[char]) -> Result<Items<Piece>, PatternError>
    ensures { result ≢ Err MemoryError → result ≡ pieces_of chars.now }
{
    let mut reading = Reading {
        pieces: Items::new(alloc),
        ranges: Items::new(alloc),
        place: Place::Outside,
        quoted: false,
    };
    let mut left = chars;
    while let Some((c, rest)) = left.split_first() {
        reading = taken(reading, *c, begins_with(rest, ':'))?;
        left = rest;
    }
    finished(reading)
}
