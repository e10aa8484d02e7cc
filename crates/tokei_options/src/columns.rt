//! How wide the rows and their columns are, in characters.
ghost use Rattle.std.specs.Prelude.{◌≡◌};

/// The width of a row where none is asked for.
pub const FALLBACK_ROW_LEN: usize = 81;
/// The language of a streamed row.
pub const LANGUAGE_COLUMN_WIDTH: usize = 10;
/// The path of a streamed row.
pub const PATH_COLUMN_WIDTH: usize = 80;
/// How many files a language has.
pub const FILES_COLUMN_WIDTH: usize = 8;

/// How many lines of all classes.
pub const LINES_COLUMN_WIDTH: usize = 12;
/// How many lines of code.
pub const CODE_COLUMN_WIDTH: usize = 12;
/// How many lines of comments.
pub const COMMENTS_COLUMN_WIDTH: usize = 12;
/// How many blank lines.
pub const BLANKS_COLUMN_WIDTH: usize = 12;

/// The widths are those that reports and streams have.
pub fn widths_are_known()
    ensures row { FALLBACK_ROW_LEN ≡ 81 }
    ensures language { LANGUAGE_COLUMN_WIDTH ≡ 10 }
    ensures path { PATH_COLUMN_WIDTH ≡ 80 }
    ensures files { FILES_COLUMN_WIDTH ≡ 8 }
    ensures lines { LINES_COLUMN_WIDTH ≡ 12 }
    ensures code { CODE_COLUMN_WIDTH ≡ 12 }
    ensures comments { COMMENTS_COLUMN_WIDTH ≡ 12 }
    ensures blanks { BLANKS_COLUMN_WIDTH ≡ 12 }
{}
