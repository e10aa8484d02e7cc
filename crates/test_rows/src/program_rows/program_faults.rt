//! Rows of the program of which one write or one read fails.
use crate::program_rows::program::status;
use std::str::from_utf8;
use test_answers::{Answers, Members, Row, RowError, Said};
use tokei::{Counted, FailOnce};

/// The members of these rows: those of a run of the program, and what `fails`.
pub const MEMBERS: Members = Members {
    given: &[
        "words",
        "files",
        "files_hex",
        "unread",
        "beside",
        "without_table",
        "hidden_table",
        "table_json",
        "xdg_config_home",
        "home",
        "input",
        "fails",
    ],
    wanted: &["end"],
    optional: &[],
    by_table: false,
};

/// What fails at each of its calls in turn: a write to `out`, a read, or a call of the folders and
/// all behind it, as where memory runs out.
#[derive(Clone, Copy)]
enum Failing {
    Out,
    Input,
    Folders,
}

/// No run writes to an end, reads, or asks the folders so often.
const NEVER: u64 = 1_000;

/// Of the writes to `out`, of those to `err`, of the reads and of the calls of the folders, the
/// number of the one that fails.
type Calls = (u64, u64, u64, u64);

/// No call fails.
const NONE: Calls = (NEVER, NEVER, NEVER, NEVER);

/// The first write to `err` fails.
const MUTE: Calls = (NEVER, 0, NEVER, NEVER);

/// The call with this number fails.
fn at(failing: Failing, call: u64) -> Calls {
    match failing {
        Failing::Out => (call, NEVER, NEVER, NEVER),
        Failing::Input => (NEVER, NEVER, call, NEVER),
        Failing::Folders => (NEVER, NEVER, NEVER, call),
    }
}

/// What a run of the program wrote, and its status.
#[derive(Drop)]
struct Outcome {
    status: u8,
    out: Vec<u8>,
    err: Vec<u8>,
    /// Whether a call that was to fail has failed.
    failed: bool,
}

/// Runs the program; these calls fail.
fn ended(row: &Row, calls: Calls, answers: &mut Answers) -> Outcome {
    let mut out = FailOnce::new(Counted::new(Vec::new(answers.alloc)), calls.0);
    let mut err = FailOnce::new(Counted::new(Vec::new(answers.alloc)), calls.1);
    let bytes = answers.text_if(row, "input").unwrap_or("").as_bytes();
    let mut input = FailOnce::new(Counted::new(bytes), calls.2);
    let status = status(row, calls.3, &mut input, &mut out, &mut err, answers);
    let failed = out.failed() | err.failed() | input.failed();
    Outcome {
        status,
        out: out.inner.inner,
        err: err.inner.inner,
        failed: failed || (calls.3 != NEVER && status != 0),
    }
}

/// Whether a run of which a call failed ended as it should: with status 1, a beginning of this
/// output and this line.
fn is_failure(ended: &Outcome, right: &[u8], line: &str) -> bool {
    ended.status == 1
        && ended.err.as_slice() == line.as_bytes()
        && right.starts_with(&ended.out)
        && from_utf8(&ended.out).is_ok()
}

/// Whether the run ends as it should behind a fault of each call, of which there is one at least,
/// and as the right one without. Before a read it writes nothing.
fn fails_at_each(row: &Row, failing: Failing, right: &Outcome, answers: &mut Answers) -> bool {
    let whole = right.out.as_slice();
    let (front, line) = match failing {
        Failing::Out => (whole, "Error: the output can't be written\n"),
        Failing::Input => (b"".as_slice(), "Error: earlier results can't be read\n"),
        Failing::Folders => (whole, "Error: out of memory\n"),
    };
    for call in 0..NEVER {
        let ended = ended(row, at(failing, call), answers);
        if !ended.failed {
            return call != 0 && right.status == 0 && ended.out.as_slice() == whole;
        }
        if !is_failure(&ended, front, line) {
            return false;
        }
    }
    false
}

/// Whether a run of which the first write to `err` failed has status 1 and the output of a run
/// without a fault, which says something.
fn is_mute(ended: &Outcome, right: &Outcome) -> bool {
    (ended.failed, right.failed, ended.status) == (true, false, 1)
        && ended.out.as_slice() == right.out.as_slice()
        && ended.err.is_empty()
        && !right.err.is_empty()
}

/// Whether the run ends as it should where the calls fail that the row names, and as the right one
/// without.
fn ends_right(row: &Row, right: &Outcome, answers: &mut Answers) -> bool {
    match answers.text(row, "fails") {
        "each write to out" => fails_at_each(row, Failing::Out, right, answers),
        "the first write to err" => is_mute(&ended(row, MUTE, answers), right),
        "each read" => fails_at_each(row, Failing::Input, right, answers),
        "each call of the folders" => fails_at_each(row, Failing::Folders, right, answers),
        _ => {
            answers.fail(RowError::Kind(
                "fails",
                "each write to out, the first write to err, each read or each call of the folders",
            ));
            false
        }
    }
}

/// What runs of the program answer. One without a fault writes texts.
pub fn came(row: &Row, answers: &mut Answers) {
    let right = ended(row, NONE, answers);
    let is_text = from_utf8(&right.out).is_ok() && from_utf8(&right.err).is_ok();
    let end = if ends_right(row, &right, answers) && is_text {
        "as it should"
    } else {
        "otherwise"
    };
    answers.say("end", Said::Text(end));
}
