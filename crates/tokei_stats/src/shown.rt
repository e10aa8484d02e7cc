//! How a name is shown: what controls a terminal is escaped.
ghost use Rattle.std.specs.Prelude.{◌≡◌, ◌++◌, IfOk, OnOk, string_bytes};
ghost use Rattle.tokei_stats.specs.Shown.{ShowsPlain, escaped, shown, shown_char};

use std::alloc::{AllocError, Global};

/// Adds a control character by its number.
fn push_escaped(text: &mut String, control: char) -> Result<(), AllocError>
    ensures { OnOk result (string_bytes text.new ≡ string_bytes text.old ++ escaped control) }
{
    let code = control as u32;
    write!(text, "\\u{{{code:x}}}")
}

/// Adds a character as it is shown.
fn push_shown(text: &mut String, character: char) -> Result<(), AllocError>
    ensures { OnOk result (string_bytes text.new ≡ string_bytes text.old ++ shown_char character) }
{
    if character.is_control() {
        push_escaped(text, character)
    } else {
        text.push(character)
    }
}

/// The text as it is shown in a row or a note: a control character by its number, as `\u{1b}`, and
/// any other as it is.
pub fn shown(alloc: Global, text: &str) -> Result<String, AllocError>
    ensures { IfOk result (λ s. string_bytes s ≡ shown text.now) }
{
    let mut all = String::with_capacity(alloc, text.len())?;
    for character in text.chars() {
        push_shown(&mut all, character)?;
    }
    Ok(all)
}

/// A law: a text without control characters is shown as it is.
#[tactic(auto, using(crate::proofs::Plain::shows_plain))]
pub fn a_plain_text_is_shown_as_it_is()
    ensures { ShowsPlain }
{}
