//! The forms of a stream.
ghost use Rattle.std.specs.Prelude.{◌≡◌};
ghost use Rattle.std.specs.declared.cmp.Ordering.TheVariants.{Less};

use std::cmp::Ordering;
use std::str::FromStr;
use thiserror::Error;

/// How each file's row of a stream is written.
#[derive(Clone, Copy, Debug, PartialEq, Eq, PartialOrd, Ord)]
pub enum Streaming {
    /// Columns of text, behind two heading rows.
    Simple,
    /// One compact JSON value a line.
    Json,
}

/// The text names no form of a stream.
#[derive(Clone, Copy, Debug, PartialEq, Eq, Error)]
#[error("no form of a stream")]
pub struct StreamingError;

/// The names are `simple` and `json`, in any ASCII case.
impl FromStr for Streaming {
    type Err = StreamingError;

    ghost use Rattle.tokei_options.specs.Forms.{ParsesForm};

    ghost from_str_gives = { ParsesForm };

    fn from_str(text: &str) -> Result<Streaming, StreamingError> {
        if text.eq_ignore_ascii_case("simple") {
            Ok(Streaming::Simple)
        } else if text.eq_ignore_ascii_case("json") {
            Ok(Streaming::Json)
        } else {
            Err(StreamingError)
        }
    }
}

/// Columns come before lines of JSON.
pub fn columns_come_first() -> Ordering
    ensures { result ≡ Less }
{
    Streaming::Simple.cmp(&Streaming::Json)
}
