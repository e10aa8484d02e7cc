//! What a test of rows tells.
use std::process::Abort;

/// The place of the first wrong row, and the number, length or place that is the first wrong one in
/// it.
pub type Wrong = (usize, usize);

/// Tells the first wrong row, if there is such a row.
pub fn all_right(rt: &impl Abort, wrong: Option<Wrong>) {
    assert_eq!(rt;
        wrong,
        None,
        "the first wrong row, and the first that is wrong in it"
    );
}
