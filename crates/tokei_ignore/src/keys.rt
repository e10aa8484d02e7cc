//! The keys by which patterns are found: of literal paths, of literal names and of extensions.
ghost use Rattle.std.specs.Prelude.{◌≡◌, Some, None};
ghost use Rattle.tokei_ignore.specs.Keys.{folded, mixed, onto_byte as byte_onto, onto_bytes as bytes_onto, onto_name as name_onto, onto_piece as piece_onto, onto_pieces as pieces_onto, onto_path as path_onto, onto_names as names_onto, onto_whole as whole_onto, onto_extension as extension_onto, path_key as key_of_segments, whole_key as whole_key_of_segments, extension_key as extension_key_of_segments, pattern_key as key_of_pattern, key_of_path as path_key_of_names, key_of_name as whole_key_of_names, key_of_extension as extension_key_of_names};

use crate::patterns::Pattern;
use crate::pieces::{Piece, Segment};
use tokei_folders::Text;

/// Where the key of an extension, of a whole name and of a path begins.
const EXTENSION: usize = 1;

const WHOLE: usize = 2;

const PATH: usize = 3;

/// A path of more names has no key of its own, so that a deep entry costs no more than another.
const MOST_NAMES: usize = 4;

/// The number of a key with one more byte.
#[tactic(auto, unfolding(crate::specs::Keys::mixed))]
fn mixed(number: usize, byte: u8) -> usize
    ensures { result ≡ mixed number byte }
{
    number.wrapping_mul(1_000_003).wrapping_add(byte as usize)
}

/// One more byte; where dots count, one begins the key.
fn onto_byte(dots: bool, key: Option<usize>, byte: u8) -> Option<usize>
    ensures { result ≡ byte_onto dots key byte }
{
    if dots && byte == b'.' {
        return Some(EXTENSION);
    }
    match key {
        None => None,
        Some(number) => Some(mixed(number, byte)),
    }
}

/// More bytes.
fn onto_bytes(dots: bool, mut key: Option<usize>, bytes: &[u8]) -> Option<usize>
    ensures { result ≡ bytes_onto dots key bytes.now }
{
    for byte in bytes {
        key = onto_byte(dots, key, *byte);
    }
    key
}

/// The characters of a name.
fn onto_name(dots: bool, key: Option<usize>, name: &Text) -> Option<usize>
    ensures { result ≡ name_onto dots key name.now }
{
    onto_bytes(dots, key, name.as_str().as_bytes())
}

/// A piece: only a character that fits itself alone goes on with a key.
fn onto_piece(dots: bool, key: Option<usize>, piece: &Piece) -> Option<usize>
    ensures { result ≡ piece_onto dots key piece.now }
{
    match piece {
        Piece::Exactly(c) => {
            let mut room = [0u8; 4];
            onto_bytes(dots, key, c.encode_utf8(&mut room).as_bytes())
        }
        Piece::AnyRun | Piece::AnyOne | Piece::Class { .. } => None,
    }
}

/// The pieces of a segment.
fn onto_pieces(dots: bool, mut key: Option<usize>, pieces: &[Piece]) -> Option<usize>
    ensures { result ≡ pieces_onto dots key pieces.now }
{
    for piece in pieces {
        key = onto_piece(dots, key, piece);
    }
    key
}

/// One more segment of a path.
fn onto_path(key: Option<usize>, segment: &Segment) -> Option<usize>
    ensures { result ≡ path_onto key segment.now }
{
    match segment {
        Segment::AnyNames => None,
        Segment::Name(pieces) => {
            onto_pieces(false, onto_byte(false, key, b'/'), pieces.as_slice())
        }
    }
}

/// The segments of a path.
fn onto_segments(segments: &[Segment]) -> Option<usize>
    ensures { result ≡ folded path_onto (Some 3) segments.now }
{
    let mut key = Some(PATH);
    for segment in segments {
        key = onto_path(key, segment);
    }
    key
}

/// The key of segments that name each name of a path, where these aren't many.
#[tactic(auto, using(crate::proofs::KeysTell::long_path, crate::proofs::KeysTell::short_path))]
fn path_key(segments: &[Segment]) -> Option<usize>
    ensures { result ≡ key_of_segments segments.now }
{
    if segments.len() > MOST_NAMES {
        None
    } else {
        onto_segments(segments)
    }
}

/// A segment that names the whole of the last name.
fn onto_whole(segment: &Segment) -> Option<usize>
    ensures { result ≡ whole_onto None segment.now }
{
    match segment {
        Segment::AnyNames => None,
        Segment::Name(pieces) => onto_pieces(false, Some(WHOLE), pieces.as_slice()),
    }
}

/// A segment that names the extension of the last name.
fn onto_extension(segment: &Segment) -> Option<usize>
    ensures { result ≡ extension_onto None segment.now }
{
    match segment {
        Segment::AnyNames => None,
        Segment::Name(pieces) => onto_pieces(true, None, pieces.as_slice()),
    }
}

/// The key of segments that name the last name.
fn whole_key(segments: &[Segment]) -> Option<usize>
    ensures { result ≡ whole_key_of_segments segments.now }
{
    match segments.split_last() {
        None => None,
        Some((segment, _)) => onto_whole(segment),
    }
}

/// The key of segments that name the extension of the last name.
fn extension_key(segments: &[Segment]) -> Option<usize>
    ensures { result ≡ extension_key_of_segments segments.now }
{
    match segments.split_last() {
        None => None,
        Some((segment, _)) => onto_extension(segment),
    }
}

/// A pattern's key, of as much as it names: its path, its last name, or an extension.
pub fn pattern_key(pattern: &Pattern) -> Option<usize>
    ensures { result ≡ key_of_pattern pattern.now }
{
    let segments = pattern.segments.as_slice();
    if let Some(key) = path_key(segments) {
        return Some(key);
    }
    if let Some(key) = whole_key(segments) {
        return Some(key);
    }
    extension_key(segments)
}

/// The names of a path.
fn onto_names(names: &[Text]) -> Option<usize>
    ensures { result ≡ folded names_onto (Some 3) names.now }
{
    let mut key = Some(PATH);
    for name in names {
        key = onto_name(false, onto_byte(false, key, b'/'), name);
    }
    key
}

/// The key of an entry's names, where these aren't many.
#[tactic(auto, using(crate::proofs::KeysTell::many_names, crate::proofs::KeysTell::few_names))]
pub fn key_of_path(names: &[Text]) -> Option<usize>
    ensures { result ≡ path_key_of_names names.now }
{
    if names.len() > MOST_NAMES {
        None
    } else {
        onto_names(names)
    }
}

/// The key of an entry's last name.
pub fn key_of_name(names: &[Text]) -> Option<usize>
    ensures { result ≡ whole_key_of_names names.now }
{
    match names.split_last() {
        None => None,
        Some((name, _)) => onto_name(false, Some(WHOLE), name),
    }
}

/// The key of the extension of an entry's last name.
pub fn key_of_extension(names: &[Text]) -> Option<usize>
    ensures { result ≡ extension_key_of_names names.now }
{
    match names.split_last() {
        None => None,
        Some((name, _)) => onto_name(true, None, name),
    }
}
