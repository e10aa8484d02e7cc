//! The openings of the three tags in a part.
ghost use Rattle.std.specs.Prelude.{◌≡◌, ◌≤◌, length, option_map};
ghost use Rattle.tokei_embedding.specs.Captures.{TagOpenings, tag_openings, opens_in, captures_in};

use crate::captures::{Capture, lies_in};
use crate::openings::{start_script, start_style, start_template};
use std::marker::Model;

/// The openings of a script, a style and a template in a part.
#[derive(Debug, Drop)]
pub struct HtmlLike<'a> {
    start_script: Option<[Option<Capture<'a>>; 2]>,
    start_style: Option<[Option<Capture<'a>>; 2]>,
    start_template: Option<[Option<Capture<'a>>; 2]>,
}

impl<'a> Model for HtmlLike<'a> {
    ghost Value = { TagOpenings };

    ghost view = { λ h.
        record { script = h.start_script; style = h.start_style; template = h.start_template } };
}

fn opens_in(captures: &[Option<Capture<'_>>], start: usize, end: usize) -> bool
    ensures { result ≡ opens_in start end captures.now }
{
    match captures {
        [whole, ..] => match whole {
            Some(whole) => lies_in(whole, start, end),
            None => false,
        },
        [] => false,
    }
}

fn captures_in<'b, 'a>(
    found: &'b Option<[Option<Capture<'a>>; 2]>,
    start: usize,
    end: usize,
) -> Option<&'b [Option<Capture<'a>>]>
    ensures { option_map (λ c. c.now) result ≡ captures_in start end found.now }
{
    match found {
        Some(captures) if opens_in(captures, start, end) => Some(captures),
        _ => None,
    }
}

impl<'a> HtmlLike<'a> {
    /// Holds what the part `text[from..to]` opens.
    pub fn new(text: &'a [u8], from: usize, to: usize) -> HtmlLike<'a>
        requires order { from ≤ to }
        requires ends { to ≤ length text.now }
        ensures { result ≡ tag_openings text.now from to }
    {
        HtmlLike {
            start_script: start_script(text, from, to),
            start_style: start_style(text, from, to),
            start_template: start_template(text, from, to),
        }
    }

    /// The opening of the script and its value, where the opening begins at `start` and ends by
    /// `end`.
    pub fn start_script_in_range(&self, start: usize, end: usize) -> Option<&[Option<Capture<'a>>]>
        ensures { option_map (λ c. c.now) result ≡ captures_in start end self.now.script }
    {
        captures_in(&self.start_script, start, end)
    }

    /// The opening of the style and its value, where the opening begins at `start` and ends by
    /// `end`.
    pub fn start_style_in_range(&self, start: usize, end: usize) -> Option<&[Option<Capture<'a>>]>
        ensures { option_map (λ c. c.now) result ≡ captures_in start end self.now.style }
    {
        captures_in(&self.start_style, start, end)
    }

    /// The opening of the template and its value, where the opening begins at `start` and ends by
    /// `end`.
    pub fn start_template_in_range(
        &self,
        start: usize,
        end: usize,
    ) -> Option<&[Option<Capture<'a>>]>
        ensures { option_map (λ c. c.now) result ≡ captures_in start end self.now.template }
    {
        captures_in(&self.start_template, start, end)
    }
}
