//! A range of places.
ghost use Rattle.std.specs.Prelude.{◌≡◌, ◌+◌, ◌≤◌, ◌<◌, ◌^◌, length, IfSome, option_map};
ghost use Rattle.tokei_embedding.specs.Spans.{shifted, bytes_of};
ghost use Rattle.tokei_embedding.specs.Seen.{span_seen};

/// The bytes from `start` to before `stop`.
#[derive(Clone, Copy)]
pub struct Span {
    pub start: usize,
    pub stop: usize,
}

/// The span so many bytes further on.
pub(crate) fn shifted(span: Option<Span>, by: usize) -> Option<Span>
    requires { IfSome span (λ s. (by + s.start < 2 ^ 64) × (by + s.stop < 2 ^ 64)) }
    ensures value { option_map span_seen result
        ≡ option_map (shifted by) (option_map span_seen span) }
{
    match span {
        Some(s) => Some(Span {
            start: by + s.start,
            stop: by + s.stop,
        }),
        None => None,
    }
}

/// The bytes of the span.
pub(crate) fn bytes_of(text: &[u8], span: Option<Span>) -> Option<&[u8]>
    requires { IfSome span (λ s. (s.start ≤ s.stop) × (s.stop ≤ length text.now)) }
    ensures { option_map (λ w. w.now) result
        ≡ option_map (bytes_of text.now) (option_map span_seen span) }
{
    match span {
        Some(s) => Some(&text[s.start..s.stop]),
        None => None,
    }
}
