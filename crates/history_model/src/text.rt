//! A text that is part of another value, its own or lent to it: contracts see its bytes.
ghost use Rattle.std.specs.Prelude.{◌≡◌, ℕ, List, IfOk};
ghost use Rattle.std.specs.String.{string_bytes};

use std::alloc::{AllocError, Global};
use std::marker::Model;

/// A text of a reply, a setting or a definition. To a contract it is its bytes of UTF-8.
#[derive(Drop)]
pub struct Text {
    inner: String,
}

impl Model for Text {
    ghost Value = { List ℕ };

    ghost view = { λ t. string_bytes t.inner };
}

impl Text {
    /// The text that the string holds. Takes no memory.
    pub fn new(inner: String) -> Text
        ensures { result ≡ string_bytes inner }
    {
        Self { inner }
    }

    /// A copy of this text. `AllocError` if memory for it was refused; the given text is only read.
    pub fn copy_of(alloc: Global, text: &str) -> Result<Text, AllocError>
        ensures { IfOk result (λ copied. copied ≡ text.now) }
    {
        let mut inner = String::new(alloc);
        inner.push_str(text)?;
        Ok(Text { inner })
    }

    /// The text, lent. Takes no memory.
    pub fn as_str(&self) -> &str
        ensures { result.now ≡ self.now }
    {
        self.inner.as_str()
    }

    /// The string that holds the text, moved out of it. Takes no memory.
    pub fn into_string(self) -> String
        ensures { string_bytes result ≡ self }
    {
        let Text { inner } = self;
        inner
    }
}

/// A text that an event borrows: from the line that was read, or from the caller that says what happened. To a contract it is its
/// bytes of UTF-8.
#[derive(Drop)]
pub struct TextRef<'a> {
    inner: &'a str,
}

impl<'a> Model for TextRef<'a> {
    ghost Value = { List ℕ };

    ghost view = { λ t. t.inner.now };
}

impl<'a> TextRef<'a> {
    /// This text, borrowed. Takes no memory.
    pub fn new(inner: &'a str) -> TextRef<'a>
        ensures { result ≡ inner.now }
    {
        Self { inner }
    }

    /// The text, lent. Takes no memory.
    pub fn as_str(&self) -> &'a str
        ensures { result.now ≡ self.now }
    {
        self.inner
    }
}
