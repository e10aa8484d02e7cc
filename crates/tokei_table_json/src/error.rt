//! Why a table is refused.

use std::alloc::{AllocError, AllocFailed};
use std::error::Error;
use std::fmt;
use tokei_json_tree::ReadError;

/// Why a table is refused. Of the causes that apply the first in this order is answered, but
/// `Memory` may come before any.
#[derive(Clone, Copy, Debug, PartialEq, Eq)]
pub enum TableError {
    /// The bytes are no JSON text.
    NotJson,
    /// The JSON text hasn't the layout of a table, or a number in it is no whole one of 64 bits.
    Layout,
    /// A backslash in a text begins no known escape.
    Escape,
    /// A text of a comment or string literal is empty, all blank or holds a newline.
    Token,
    /// A text is key or name of two languages.
    NamedTwice,
    /// A key or a name is `Total`.
    NamedTotal,
    /// A language is missing that another needs for its children.
    Fallback,
    /// Memory ran out.
    Memory,
}

impl TableError {
    ghost use Rattle.std.specs.Prelude.{◌≡◌};
    ghost use Rattle.tokei_table_json.specs.Sentences.{words_of_error};

    /// The words that tell the cause.
    pub fn words(self) -> &'static str
        ensures { result.now ≡ words_of_error self }
    {
        match self {
            TableError::NotJson => "the table is no JSON text",
            TableError::Layout => "the table hasn't the layout of a table of languages",
            TableError::Escape => "a text in the table has an unknown escape",
            TableError::Token => "a token in the table is empty, blank or holds a newline",
            TableError::NamedTwice => "a name in the table stands for two languages",
            TableError::NamedTotal => "a language in the table is named Total",
            TableError::Fallback => "a language is missing that another one in the table needs",
            TableError::Memory => "out of memory",
        }
    }
}

impl fmt::Display for TableError {
    ghost use Rattle.std.specs.Prelude.{Some};
    ghost use Rattle.tokei_table_json.specs.Sentences.{words_of_error};

    ghost output = { λ e. Some (words_of_error e) };

    fn fmt<W: fmt::Write>(&self, f: &mut fmt::Formatter<W>) -> fmt::Result {
        f.write_str(self.words())
    }
}

impl Error for TableError {}

impl<T: Drop> From<AllocFailed<T>> for TableError {
    ghost use Rattle.tokei_table_json.specs.declared.error.TableError.TheVariants.{Memory};
    ghost use Rattle.std.specs.Prelude.{◌≡◌};

    ghost from_gives = { λ _ e. e ≡ Memory };

    fn from(_refused: AllocFailed<T>) -> TableError {
        TableError::Memory
    }
}

impl From<AllocError> for TableError {
    ghost use Rattle.tokei_table_json.specs.declared.error.TableError.TheVariants.{Memory};
    ghost use Rattle.std.specs.Prelude.{◌≡◌};

    ghost from_gives = { λ _ e. e ≡ Memory };

    fn from(_refused: AllocError) -> TableError {
        TableError::Memory
    }
}

impl From<ReadError> for TableError {
    ghost use Rattle.tokei_table_json.specs.ReadErrors.{table_error};
    ghost use Rattle.std.specs.Prelude.{◌≡◌};

    ghost from_gives = { λ refused e. e ≡ table_error refused };

    fn from(refused: ReadError) -> TableError {
        match refused {
            ReadError::NotJson => TableError::NotJson,
            ReadError::Memory => TableError::Memory,
        }
    }
}
