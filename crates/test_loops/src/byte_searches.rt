//! Searches for one of a few bytes, held against a plain loop.
use crate::verdict::{Wrong, all_right};
use tokei_bytes::{first_not_of_four, first_of_four, first_of_one, first_of_two_or_four};

/// The four bytes that are searched for.
const FOUR: [u8; 4] = *b"abcd";

/// A search for a byte.
#[derive(Clone, Copy)]
enum Search {
    /// Of the four.
    OfFour,
    /// That is none of the four.
    OfOthers,
    /// For `a`, as one of four that are alike.
    OfFourAlike,
    /// For `a` alone.
    OfOne,
    /// Of four, by the search that is quicker for two.
    OfTwoOrFour([u8; 4]),
}

static SEARCHES: [Search; 8] = [
    Search::OfFour,
    Search::OfOthers,
    Search::OfFourAlike,
    Search::OfOne,
    Search::OfTwoOrFour(*b"abab"),
    Search::OfTwoOrFour(*b"dbbb"),
    Search::OfTwoOrFour(*b"adbd"),
    Search::OfTwoOrFour(FOUR),
];

/// What the search answers.
fn found(search: Search, text: &[u8], from: usize, to: usize) -> Option<usize> {
    if to < from || text.len() < to {
        return None;
    }
    Some(match search {
        Search::OfFour => first_of_four(FOUR, text, from, to),
        Search::OfOthers => first_not_of_four(FOUR, text, from, to),
        Search::OfFourAlike => first_of_four(*b"aaaa", text, from, to),
        Search::OfOne => first_of_one(b'a', text, from, to),
        Search::OfTwoOrFour(bytes) => first_of_two_or_four(bytes, text, from, to),
    })
}

/// The same by a plain loop.
fn found_by_loop(search: Search, text: &[u8], from: usize, to: usize) -> Option<usize> {
    for (place, byte) in text.iter().enumerate() {
        let is_hit = match search {
            Search::OfFour => FOUR.contains(byte),
            Search::OfOthers => !FOUR.contains(byte),
            Search::OfFourAlike | Search::OfOne => *byte == b'a',
            Search::OfTwoOrFour(bytes) => bytes.contains(byte),
        };
        if place == to || from <= place && is_hit {
            return Some(place);
        }
    }
    Some(to)
}

/// The first place from which a search to some place and its plain loop differ, if there is one: of
/// all places, and of sevenths and elevenths in a text of more than a hundred bytes.
fn first_unlike(text: &[u8]) -> Option<usize> {
    let is_long = text.len() > 100;
    for search in SEARCHES {
        for from in 0..=text.len() {
            for to in from..=text.len() {
                let is_asked = !is_long || from % 7 == 0 && to % 11 == 0;
                if is_asked
                    && found(search, text, from, to) != found_by_loop(search, text, from, to)
                {
                    return Some(from);
                }
            }
        }
    }
    None
}

/// Texts of 70 bytes.
static TEXTS: [&[u8]; 3] = [
    b".....a..........................b......cd........................d....",
    b"d....................................................................a",
    b"......................................................................",
];

/// Lengths of up to some blocks, and places, of which one stands in no text: near the front, where
/// a near search ends, behind it and near the end, and where a block ends.
static LENGTHS: [(usize, usize); 15] = [
    (100, 99),
    (100, 63),
    (100, 64),
    (100, 9),
    (64, 63),
    (40, 33),
    (40, 50),
    (300, 0),
    (300, 5),
    (300, 127),
    (300, 128),
    (300, 200),
    (300, 275),
    (300, 299),
    (300, 999),
];

/// The first of these texts for which a search and its plain loop differ, and from where, if there
/// is one: behind the texts of 70 bytes come a text of dots with `a` in a place, and its opposite,
/// a text of `c` with a dot there.
fn first_wrong() -> Option<Wrong> {
    for (at, text) in TEXTS.iter().enumerate() {
        if let Some(from) = first_unlike(text) {
            return Some((at, from));
        }
    }
    for (at, (length, place)) in LENGTHS.iter().enumerate() {
        for (byte, other) in [(b'.', b'a'), (b'c', b'.')] {
            let mut text = [byte; 300];
            if let Some(here) = text.get_mut(*place) {
                *here = other;
            }
            if let Some(from) = first_unlike(text.get(..*length).unwrap_or(b"")) {
                return Some((TEXTS.len() + at, from));
            }
        }
    }
    None
}

/// Among the pairs of places are those whose block goes on past `to`.
#[test]
fn each_search_answers_as_a_plain_loop(rt: HostRuntime) {
    all_right(&rt, first_wrong());
}
