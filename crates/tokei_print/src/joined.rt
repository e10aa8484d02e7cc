//! A text behind another.
ghost use Rattle.std.specs.Prelude.{◌≡◌, ◌++◌, ℕ, List, IfOk, IsErrOf, string_bytes};

use tokei_stats::CountError;

/// The text and behind it the part, where that was made.
pub(crate) fn joined(text: String, part: Result<String, CountError>) -> Result<String, CountError>
    ensures ok { (bytes : List ℕ) → IfOk part (λ p. string_bytes p ≡ bytes)
        → IfOk result (λ s. string_bytes s ≡ string_bytes text ++ bytes) }
    ensures overflow { IsErrOf result CountError.Overflow → IsErrOf part CountError.Overflow }
{
    let mut text = text;
    text.push_str(&part?)?;
    Ok(text)
}
