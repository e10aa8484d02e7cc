//! The ways to count a text.
ghost use Rattle.std.specs.Prelude.{◌≡◌, ◌/◌, ◌<◌, false, length, take, IfOk, IsErrOf};
ghost use Rattle.memchr.specs.Find.{is_byte, places};
ghost use Rattle.tokei_count.specs.Languages.{languages_of};
ghost use Rattle.tokei_count.specs.PlainReading.{reading, outermost_levels};
ghost use Rattle.tokei_stats.specs.Overflow.{Fits};
ghost use Rattle.tokei_stats.specs.Seen.{stats_of};

use memchr::memchr_iter;
use std::alloc::Global;
use tokei_count::{Counter, count_plain, parse_from_slice};
use tokei_options::CountConfig;
use tokei_stats::{CodeStats, CountError};
use tokei_table::LanguageType;

/// A text, and in which language of the counter's table it is counted.
#[derive(Clone, Copy)]
pub struct Input<'a, 't> {
    pub counter: &'a Counter<'t>,
    pub language: LanguageType,
    pub text: &'a [u8],
}

/// A way to count a text.
#[derive(Clone, Copy)]
pub enum Way {
    /// Its newlines, all at once.
    Newlines,
    /// Its newlines, by a search from each one on to the next.
    NewlinesInTurn,
    /// Its lines, by the plain reading.
    CountPlain,
    /// Its lines, as callers count.
    ParseFromSlice,
    /// The lines of its first half, as callers count.
    FirstHalf,
}

/// What a way of counting answers.
#[derive(PartialEq, Drop)]
pub enum Answer {
    /// So many newlines.
    Newlines(usize),
    /// These lines.
    Lines(CodeStats),
}

impl Way {
    /// The word for the way in what the program prints.
    pub fn name(self) -> &'static str {
        match self {
            Way::Newlines => "newlines",
            Way::NewlinesInTurn => "newlines_in_turn",
            Way::CountPlain => "count_plain",
            Way::ParseFromSlice => "parse_from_slice",
            Way::FirstHalf => "first_half",
        }
    }
}

/// How many newlines the text has.
fn newlines(text: &[u8]) -> usize
    ensures { result ≡ length (places (is_byte 10) text.now) }
{
    memchr_iter(b'\n', text).count()
}

/// The same, by a search from each newline on to the next: `Iterator`'s own `count` goes step by
/// step.
fn newlines_in_turn(text: &[u8]) -> usize
    ensures { result ≡ length (places (is_byte 10) text.now) }
{
    Iterator::count(memchr_iter(b'\n', text))
}

/// Doc strings count as code.
const CONFIG: CountConfig = CountConfig {
    treat_doc_strings_as_comments: None,
};

/// The statistics of the text, by the plain reading.
fn read_plainly(alloc: Global, input: &Input) -> Result<CodeStats, CountError>
    requires { input.now.language < length input.now.counter.now }
    ensures reads { IfOk result (λ s. stats_of s
        ≡ reading (languages_of input.now.counter.now) false outermost_levels
        input.now.language input.now.text.now) }
    ensures overflow { IsErrOf result CountError.Overflow
        → ¬ Fits (reading (languages_of input.now.counter.now) false outermost_levels
        input.now.language input.now.text.now) }
{
    count_plain(alloc, input.counter, input.language, input.text, &CONFIG)
}

/// The statistics of the text, as callers count.
fn parsed(alloc: Global, input: &Input) -> Result<CodeStats, CountError>
    requires { input.now.language < length input.now.counter.now }
    ensures reads { IfOk result (λ s. stats_of s
        ≡ reading (languages_of input.now.counter.now) false outermost_levels
        input.now.language input.now.text.now) }
    ensures overflow { IsErrOf result CountError.Overflow
        → ¬ Fits (reading (languages_of input.now.counter.now) false outermost_levels
        input.now.language input.now.text.now) }
{
    parse_from_slice(alloc, input.counter, input.language, input.text, &CONFIG)
}

impl<'a, 't> Input<'a, 't> {
    /// The first half of the text.
    fn first_half(&self) -> Input<'a, 't>
        ensures text { result.text.now ≡ take (length self.now.text.now / 2) self.now.text.now }
        ensures language { result.language ≡ self.now.language }
        ensures table { result.counter.now ≡ self.now.counter.now }
    {
        Input {
            counter: self.counter,
            language: self.language,
            text: &self.text[..self.text.len() / 2],
        }
    }
}

impl Way {
    /// What counting the input in this way answers.
    pub fn answer(self, alloc: Global, input: &Input) -> Result<Answer, CountError>
        requires { input.now.language < length input.now.counter.now }
    {
        match self {
            Way::Newlines => Ok(Answer::Newlines(newlines(input.text))),
            Way::NewlinesInTurn => Ok(Answer::Newlines(newlines_in_turn(input.text))),
            Way::CountPlain => Ok(Answer::Lines(read_plainly(alloc, input)?)),
            Way::ParseFromSlice => Ok(Answer::Lines(parsed(alloc, input)?)),
            Way::FirstHalf => Ok(Answer::Lines(parsed(alloc, &input.first_half())?)),
        }
    }
}
