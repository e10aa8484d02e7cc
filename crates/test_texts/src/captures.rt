//! Rows of the openings and closings of a part, as captures.
ghost use Rattle.std.specs.Prelude.{◌≤◌, length};

use test_answers::{Answers, Members, Row, RowError, Said};
use tokei_embedding::{
    Capture, HtmlLike, SimpleCapture, end_lf, end_markdown, end_script, end_style, end_template,
    start_lf, start_markdown, start_script, start_style, start_template,
};

/// The members of these rows. `call` is the call's name, `none` for no capture; `from` and `to` are
/// the ends of the part. With `starts` and `ends` a capture has to begin at the one and to end by
/// the other. `capture` is where it starts and ends and how long its text is, and `value` the same
/// of the value in an opening tag.
pub const MEMBERS: Members = Members {
    given: &["call", "text", "from", "to", "starts", "ends"],
    wanted: &["capture", "value"],
    optional: &["captured", "value_text", "debug"],
    by_table: false,
};

/// What a call without value answers.
fn single<'a>(
    call: &str,
    text: &'a [u8],
    from: usize,
    to: usize,
    answers: &mut Answers,
) -> Option<Capture<'a>>
    requires order { from ≤ to }
    requires ends { to ≤ length text.now }
{
    match call {
        "end_script" => end_script(text, from, to),
        "end_style" => end_style(text, from, to),
        "end_template" => end_template(text, from, to),
        "start_markdown" => start_markdown(text, from, to),
        "end_markdown" => end_markdown(text, from, to),
        "start_lf" => start_lf(text, from, to),
        "end_lf" => end_lf(text, from, to),
        "none" => None,
        _ => {
            answers.fail(RowError::Words("there is no such call"));
            None
        }
    }
}

/// Answers by a capture's place and its text.
fn say_capture(
    answers: &mut Answers,
    members: (&'static str, &'static str),
    capture: &Capture<'_>,
) {
    let (place, text) = members;
    let bytes = capture.as_bytes();
    answers.say(
        place,
        Said::Numbers(&[capture.start(), capture.end(), bytes.len()]),
    );
    answers.say(text, Said::Bytes(bytes));
}

/// The answers that a tag and its value are, or that neither is.
fn answers_of(tag: Option<&Capture<'_>>, value: Option<&Capture<'_>>, answers: &mut Answers) {
    match tag {
        Some(tag) => say_capture(answers, ("capture", "captured"), tag),
        None => answers.say("capture", Said::Text("none")),
    }
    if let Some(value) = value {
        say_capture(answers, ("value", "value_text"), value);
    }
}

/// The answers of a call with a value.
fn of_tag(found: Option<&[Option<Capture<'_>>]>, answers: &mut Answers) {
    match found {
        Some([tag, value]) => answers_of(tag.as_ref(), value.as_ref(), answers),
        Some(_) => answers.fail(RowError::Words("a tag has two captures")),
        None => answers_of(None, None, answers),
    }
}

/// The answers of a call with a value, in a range.
fn of_range(call: &str, html: &HtmlLike, range: (usize, usize), answers: &mut Answers) {
    let (starts, ends) = range;
    let found = match call {
        "start_script" => html.start_script_in_range(starts, ends),
        "start_style" => html.start_style_in_range(starts, ends),
        _ => html.start_template_in_range(starts, ends),
    };
    of_tag(found, answers);
}

/// The answers of a call with a value, in a range where a row has one.
fn of_tagged(
    call: &str,
    text: &[u8],
    part: (usize, usize),
    range: Option<(usize, usize)>,
    answers: &mut Answers,
)
    requires order { part.0 ≤ part.1 }
    requires ends { part.1 ≤ length text.now }
{
    let (from, to) = part;
    if let Some(range) = range {
        return of_range(call, &HtmlLike::new(text, from, to), range, answers);
    }
    let found = match call {
        "start_script" => start_script(text, from, to),
        "start_style" => start_style(text, from, to),
        _ => start_template(text, from, to),
    };
    match found {
        Some(found) => of_tag(Some(&found[..]), answers),
        None => of_tag(None, answers),
    }
}

/// The answers of a call without value; in a range where a row has one.
fn of_single(found: Option<Capture<'_>>, range: Option<(usize, usize)>, answers: &mut Answers) {
    answers.say_debug("debug", &found);
    match range {
        Some((starts, ends)) => {
            let one = SimpleCapture::new(found);
            answers_of(one.starts_in_range(starts, ends), None, answers);
        }
        None => answers_of(found.as_ref(), None, answers),
    }
}

/// What the calls answer.
pub fn came(row: &Row, answers: &mut Answers) {
    let from = answers.place(row, "from");
    let to = answers.place(row, "to");
    let range = if row.has("starts") {
        Some((answers.place(row, "starts"), answers.place(row, "ends")))
    } else {
        None
    };
    let call = answers.text(row, "call");
    let text = answers.text(row, "text").as_bytes();
    if to < from || text.len() < to {
        return answers.fail(RowError::Words("the part isn't within the text"));
    }
    match call {
        "start_script" | "start_style" | "start_template" => {
            of_tagged(call, text, (from, to), range, answers);
        }
        _ => of_single(single(call, text, from, to, answers), range, answers),
    }
}
