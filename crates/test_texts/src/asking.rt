//! What the modules that ask have in common.
use test_answers::{Answers, RowError, Said};

/// Why a row can't be asked whose table hasn't the language that it names.
pub const NO_LANGUAGE: RowError = RowError::Words("the table hasn't the language");

/// Answers for members, each by what is said of it.
pub fn say_all(all: &[(&'static str, Said<'_>)], answers: &mut Answers) {
    for (member, said) in all {
        answers.say(*member, *said);
    }
}
