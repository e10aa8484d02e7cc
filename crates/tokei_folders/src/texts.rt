//! A text that contracts see as its bytes.
ghost use Rattle.std.specs.Prelude.{◌≡◌, ◌==◌, length, [], ◌++◌, IfOk, OnOk, OnErr, string_bytes};
ghost use Rattle.std.specs.Slice.Iter.{iter_rest};

use std::alloc::{AllocError, Global};
use std::marker::Model;
use std::slice::Iter;

/// An owned text, which contracts see as its bytes.
#[derive(Drop)]
pub struct Text {
    inner: String,
}

impl Model for Text {
    ghost use Rattle.std.specs.Prelude.{ℕ, List, string_bytes};

    ghost Value = { List ℕ };

    ghost view = { λ t. string_bytes t.inner };
}

impl Text {
    /// The text of a string. It takes no memory.
    pub fn from_string(inner: String) -> Text
        ensures { result ≡ string_bytes inner }
    {
        Text { inner }
    }

    /// The string of the text. It takes no memory.
    pub fn into_string(self) -> String
        ensures { string_bytes result ≡ self }
    {
        self.inner
    }

    /// An empty text with room for so many bytes.
    pub fn with_capacity(alloc: Global, bytes: usize) -> Result<Text, AllocError>
        ensures { IfOk result (λ t. t ≡ []) }
    {
        let inner = String::with_capacity(alloc, bytes)?;
        Ok(Text { inner })
    }

    /// A copy of a text.
    pub fn from_str(alloc: Global, text: &str) -> Result<Text, AllocError>
        ensures { IfOk result (λ t. t ≡ text.now) }
    {
        let inner = String::from_str(alloc, text)?;
        Ok(Text { inner })
    }

    /// Adds a text at the end; where memory is refused it stays as it was.
    pub fn push_str(&mut self, text: &str) -> Result<(), AllocError>
        ensures ok { OnOk result (self.new ≡ self.old ++ text.now) }
        ensures err { OnErr result (self.new ≡ self.old) }
    {
        self.inner.push_str(text)
    }

    /// How many bytes there are.
    pub fn len(&self) -> usize
        ensures { result ≡ length self.now }
    {
        self.inner.as_bytes().len()
    }

    /// Whether there is no byte.
    pub fn is_empty(&self) -> bool
        ensures { result ≡ (length self.now == 0) }
    {
        self.inner.as_bytes().is_empty()
    }

    /// The bytes in order.
    pub fn iter(&self) -> Iter<'_, u8>
        ensures { iter_rest result ≡ self.now }
    {
        self.inner.as_bytes().iter()
    }

    /// The text.
    pub fn as_str(&self) -> &str
        ensures { result.now ≡ self.now }
    {
        self.inner.as_str()
    }
}
