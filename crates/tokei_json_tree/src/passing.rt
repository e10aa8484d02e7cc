//! Values that nobody asks for, such as a notebook's outputs: they are passed over, token by token.
ghost use Rattle.std.specs.Prelude.{◌≡◌, ◌<◌, true, length};
ghost use Rattle.json.specs.Json.{items, members, value};
ghost use Rattle.tokei_json_tree.specs.Numbers.{items_pass, members_pass, number_test, numbers_pass};
ghost use Rattle.tokei_json_tree.specs.Tokens.{IsPassed};

use crate::counts::count;
use crate::ranges::is_number_in_range;
use json::{Reader, Token};

/// Which numbers a value may hold that is passed over.
#[derive(Clone, Copy)]
pub enum Numbers {
    /// Those that have a value.
    InRange,
    /// Those that are counts: whole ones of 64 bits from 0 on.
    Counts,
}

/// Whether the number that the text writes is one of these.
fn is_one_of(numbers: Numbers, text: &str) -> bool
    ensures { result ≡ number_test numbers text.now }
{
    match numbers {
        Numbers::InRange => is_number_in_range(text),
        Numbers::Counts => count(text).is_some(),
    }
}

/// Passes the next value, whose lists and objects may nest `depth` deep, and tells whether there
/// was one with such numbers. Where there wasn't, nothing is said of the reader's place.
#[cycle(pass)]
pub fn pass_value(reader: &mut Reader<'_>, depth: usize, numbers: Numbers) -> bool
    ensures passed { result ≡ true
        → IsPassed (value depth) (numbers_pass (number_test numbers)) reader.old reader.new }
    ensures shorter { result ≡ true → length reader.new < length reader.old }
{
    match reader.next() {
        Some(Token::String(_)) => true,
        Some(Token::Number(text)) => is_one_of(numbers, text),
        Some(Token::Bool(_)) => true,
        Some(Token::Null) => true,
        Some(Token::BeginArray) => depth > 0 && pass_items(reader, depth - 1, numbers),
        Some(Token::BeginObject) => depth > 0 && pass_members(reader, depth - 1, numbers),
        _ => false,
    }
}

#[cycle(pass)]
fn pass_items(reader: &mut Reader<'_>, depth: usize, numbers: Numbers) -> bool
    ensures passed { result ≡ true → IsPassed (items (value depth) (length reader.old))
        (items_pass (number_test numbers)) reader.old reader.new }
    ensures shorter { result ≡ true → length reader.new < length reader.old }
{
    while !reader.take_end_array() {
        if !pass_value(reader, depth, numbers) {
            return false;
        }
    }
    true
}

#[cycle(pass)]
fn pass_members(reader: &mut Reader<'_>, depth: usize, numbers: Numbers) -> bool
    ensures passed { result ≡ true → IsPassed (members (value depth) (length reader.old))
        (members_pass (number_test numbers)) reader.old reader.new }
    ensures shorter { result ≡ true → length reader.new < length reader.old }
{
    loop {
        match reader.next_key() {
            Ok(Some(_)) => {
                if !pass_value(reader, depth, numbers) {
                    return false;
                }
            }
            Ok(None) => return true,
            Err(_) => return false,
        }
    }
}
