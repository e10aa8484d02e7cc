//! The column by which languages and reports are sorted.
ghost use Rattle.std.specs.Prelude.{◌≡◌, bytes_eq};
ghost use Rattle.std.specs.Result.{result_ok};
ghost use Rattle.std.specs.Str.{str_to_ascii_lowercase};
ghost use Rattle.tokei_options.specs.Sorts.{sort_of_word};

use std::str::FromStr;
use thiserror::Error;

/// The column by which languages and reports are sorted, in the order in which they are listed
/// here.
#[derive(Clone, Copy, Debug, PartialEq, Eq, PartialOrd, Ord)]
pub enum Sort {
    Blanks,
    Comments,
    Code,
    Files,
    Lines,
}

/// The word names no column.
#[derive(Clone, Copy, Debug, PartialEq, Eq, Error)]
#[error("not one of blanks, comments, code, files and lines")]
pub struct SortError;

fn is_same_in_any_case(word: &str, name: &str) -> bool
    ensures { result
        ≡ bytes_eq (str_to_ascii_lowercase word.now) (str_to_ascii_lowercase name.now) }
{
    word.eq_ignore_ascii_case(name)
}

/// Reads `blanks`, `comments`, `code`, `files` or `lines`, in any ASCII case and with nothing
/// around it.
impl FromStr for Sort {
    type Err = SortError;

    ghost from_str_gives = { λ word r. result_ok r ≡ sort_of_word word };

    fn from_str(word: &str) -> Result<Sort, SortError> {
        if is_same_in_any_case(word, "blanks") {
            Ok(Sort::Blanks)
        } else if is_same_in_any_case(word, "comments") {
            Ok(Sort::Comments)
        } else if is_same_in_any_case(word, "code") {
            Ok(Sort::Code)
        } else if is_same_in_any_case(word, "files") {
            Ok(Sort::Files)
        } else if is_same_in_any_case(word, "lines") {
            Ok(Sort::Lines)
        } else {
            Err(SortError)
        }
    }
}
