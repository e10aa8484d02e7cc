//! Captures: bytes of a text, and where they stand in it.
ghost use Rattle.std.specs.Prelude.{◌≡◌, ◌+◌, ◌≤◌, ◌<◌, ◌^◌, Option, length, option_map};
ghost use Rattle.tokei_embedding.specs.Captures.{Captured, end_of, captured, lies_in, capture_in};
ghost use Rattle.tokei_embedding.specs.Seen.{span_seen};

use crate::spans::Span;
use std::marker::Model;

/// Bytes of the caller's text, and where they stand in it.
#[derive(Debug, Drop)]
pub struct Capture<'a> {
    start: usize,
    text: &'a [u8],
}

impl<'a> Model for Capture<'a> {
    ghost Value = { Captured };

    ghost view = { λ c. record { start = c.start; bytes = c.text.now } };

    ghost invariant = { λ c. c.start + length c.text.now < 2 ^ 64 };
}

impl<'a> Capture<'a> {
    /// The place in the text of the first byte.
    pub fn start(&self) -> usize
        ensures { result ≡ self.now.start }
    {
        self.start
    }

    /// The place in the text behind the last byte.
    pub fn end(&self) -> usize
        ensures { result ≡ end_of self.now }
    {
        self.start + self.as_bytes().len()
    }

    /// The bytes: the text from `start` to `end`.
    pub fn as_bytes(&self) -> &'a [u8]
        ensures { result.now ≡ self.now.bytes }
    {
        self.text
    }
}

/// What a span of the part that begins at `from` captures of the text.
pub(crate) fn captured(text: &[u8], from: usize, span: Span) -> Capture<'_>
    requires order { span.start ≤ span.stop }
    requires ends { from + span.stop ≤ length text.now }
    ensures { result ≡ captured text.now from (span_seen span) }
{
    Capture {
        start: from + span.start,
        text: &text[from + span.start..from + span.stop],
    }
}

/// Whether the capture begins at `start` and ends by `end`.
pub(crate) fn lies_in(capture: &Capture<'_>, start: usize, end: usize) -> bool
    ensures { result ≡ lies_in start end capture.now }
{
    capture.start() == start && capture.end() <= end
}

/// An opening that is one capture.
#[derive(Debug, Drop)]
pub struct SimpleCapture<'a> {
    capture: Option<Capture<'a>>,
}

impl<'a> Model for SimpleCapture<'a> {
    ghost Value = { Option Captured };

    ghost view = { λ s. s.capture };
}

impl<'a> SimpleCapture<'a> {
    /// Holds the capture.
    pub fn new(capture: Option<Capture<'a>>) -> SimpleCapture<'a>
        ensures { result ≡ capture.entry }
    {
        SimpleCapture { capture }
    }

    /// The capture, where it begins at `start` and ends by `end`.
    pub fn starts_in_range(&self, start: usize, end: usize) -> Option<&Capture<'a>>
        ensures { option_map (λ c. c.now) result ≡ capture_in start end self.now }
    {
        match &self.capture {
            Some(capture) if lies_in(capture, start, end) => Some(capture),
            _ => None,
        }
    }
}
