//! The openings and closings of a part, as captures.
ghost use Rattle.std.specs.Prelude.{◌≡◌, ◌+◌, ◌≤◌, ◌<◌, length, option_map, codes};
ghost use Rattle.tokei_embedding.specs.Captures.{captured, token_span, fence_opening, fence_closing, start_tag};
ghost use Rattle.tokei_table_row.specs.Slices.{between};
ghost use Rattle.tokei_embedding.specs.declared.tags.Tag.TheVariants.{Script, Style, Template};

use crate::captures::{Capture, captured};
use crate::fences::{closing_len, first_fence, info_len};
use crate::opening_search::first_opening;
use crate::searches::first_of;
use crate::spans::Span;
use crate::tags::{Tag, closer_of};

const FENCE: &[u8] = b"```";

fn start_tag<'a>(
    tag: Tag,
    text: &'a [u8],
    from: usize,
    to: usize,
) -> Option<[Option<Capture<'a>>; 2]>
    requires order { from ≤ to }
    requires ends { to ≤ length text.now }
    ensures { result ≡ start_tag tag text.now from to }
{
    let opening = first_opening(tag, &text[from..to])?;
    let value = match opening.value {
        Some(span) => Some(captured(text, from, span)),
        None => None,
    };
    Some([Some(captured(text, from, opening.whole)), value])
}

fn first_token<'a>(text: &'a [u8], from: usize, to: usize, token: &[u8]) -> Option<Capture<'a>>
    requires order { from ≤ to }
    requires ends { to ≤ length text.now }
    requires some { 0 < length token.now }
    ensures { result
        ≡ option_map (captured text.now from) (token_span token.now (between text.now from to)) }
{
    let start = first_of(&text[from..to], token)?;
    Some(captured(
        text,
        from,
        Span {
            start,
            stop: start + token.len(),
        },
    ))
}

/// The opening of a script in the part `text[from..to]`, and the value of its `type`.
pub fn start_script(text: &[u8], from: usize, to: usize) -> Option<[Option<Capture<'_>>; 2]>
    requires order { from ≤ to }
    requires ends { to ≤ length text.now }
    ensures { result ≡ start_tag Script text.now from to }
{
    start_tag(Tag::Script, text, from, to)
}

/// The opening of a style in the part `text[from..to]`, and the value of its `lang`.
pub fn start_style(text: &[u8], from: usize, to: usize) -> Option<[Option<Capture<'_>>; 2]>
    requires order { from ≤ to }
    requires ends { to ≤ length text.now }
    ensures { result ≡ start_tag Style text.now from to }
{
    start_tag(Tag::Style, text, from, to)
}

/// The opening of a template in the part `text[from..to]`, and the value of its `lang`.
pub fn start_template(text: &[u8], from: usize, to: usize) -> Option<[Option<Capture<'_>>; 2]>
    requires order { from ≤ to }
    requires ends { to ≤ length text.now }
    ensures { result ≡ start_tag Template text.now from to }
{
    start_tag(Tag::Template, text, from, to)
}

/// The first `</script>` of the part `text[from..to]`.
pub fn end_script(text: &[u8], from: usize, to: usize) -> Option<Capture<'_>>
    requires order { from ≤ to }
    requires ends { to ≤ length text.now }
    ensures { result
        ≡ option_map (captured text.now from)
        (token_span (codes "</script>") (between text.now from to)) }
{
    first_token(text, from, to, closer_of(Tag::Script))
}

/// The first `</style>` of the part `text[from..to]`.
pub fn end_style(text: &[u8], from: usize, to: usize) -> Option<Capture<'_>>
    requires order { from ≤ to }
    requires ends { to ≤ length text.now }
    ensures { result
        ≡ option_map (captured text.now from)
        (token_span (codes "</style>") (between text.now from to)) }
{
    first_token(text, from, to, closer_of(Tag::Style))
}

/// The first `</template>` of the part `text[from..to]`.
pub fn end_template(text: &[u8], from: usize, to: usize) -> Option<Capture<'_>>
    requires order { from ≤ to }
    requires ends { to ≤ length text.now }
    ensures { result
        ≡ option_map (captured text.now from)
        (token_span (codes "</template>") (between text.now from to)) }
{
    first_token(text, from, to, closer_of(Tag::Template))
}

/// The first fence opening of the part `text[from..to]`: three backticks, bytes that aren't blank,
/// and one blank.
pub fn start_markdown(text: &[u8], from: usize, to: usize) -> Option<Capture<'_>>
    requires order { from ≤ to }
    requires ends { to ≤ length text.now }
    ensures { result
        ≡ option_map (captured text.now from) (fence_opening (between text.now from to)) }
{
    let part = &text[from..to];
    let start = first_fence(text, from, to)?;
    Some(captured(
        text,
        from,
        Span {
            start,
            stop: start + (info_len(&part[start..]) + 4),
        },
    ))
}

/// The first three backticks of the part `text[from..to]`, with one blank behind them where one
/// stands there.
pub fn end_markdown(text: &[u8], from: usize, to: usize) -> Option<Capture<'_>>
    requires order { from ≤ to }
    requires ends { to ≤ length text.now }
    ensures { result
        ≡ option_map (captured text.now from) (fence_closing (between text.now from to)) }
{
    let part = &text[from..to];
    let start = first_of(part, FENCE)?;
    Some(captured(
        text,
        from,
        Span {
            start,
            stop: start + closing_len(&part[start + 3..]),
        },
    ))
}

/// The first `{=` of the part `text[from..to]`.
pub fn start_lf(text: &[u8], from: usize, to: usize) -> Option<Capture<'_>>
    requires order { from ≤ to }
    requires ends { to ≤ length text.now }
    ensures { result
        ≡ option_map (captured text.now from) (token_span (codes "{=") (between text.now from to)) }
{
    first_token(text, from, to, b"{=")
}

/// The first `=}` of the part `text[from..to]`.
pub fn end_lf(text: &[u8], from: usize, to: usize) -> Option<Capture<'_>>
    requires order { from ≤ to }
    requires ends { to ≤ length text.now }
    ensures { result
        ≡ option_map (captured text.now from) (token_span (codes "=}") (between text.now from to)) }
{
    first_token(text, from, to, b"=}")
}
