//! Up to where parts are skipped.
ghost use Rattle.std.specs.Prelude.{◌≡◌, ◌+◌, ◌≤◌, drop, length};
ghost use Rattle.tokei_parts.specs.Glance.{opener_place};
ghost use Rattle.tokei_parts.specs.Glanced.{Knows};

use crate::matchers::LanguageMatchers;

/// The place of the first opener at `start` or behind it, or the text's end. It is `next`, where
/// that is behind `start`: the place that an earlier search came to.
pub fn next_opener(matchers: &LanguageMatchers, text: &[u8], start: usize, next: usize) -> usize
    requires start { start ≤ length text.now }
    requires known { Knows matchers.now.openers text.now start next }
    ensures place { result ≡ start + opener_place matchers.now.openers (drop start text.now) }
    ensures within { result ≤ length text.now }
{
    if start < next {
        return next;
    }
    match matchers.first_in(&text[start..]) {
        Some(at) => start + at,
        None => text.len(),
    }
}
