//! Texts that contracts see as their bytes.

ghost use Rattle.std.specs.Prelude.{◌≡◌, IfOk, string_bytes, Decides};

use std::alloc::{AllocError, Global};
use std::marker::Model;

/// A text that contracts see as its bytes: a name in a class model, or an object's id.
#[derive(Debug, Drop)]
pub struct Text {
    text: String,
}

impl Model for Text {
    ghost use Rattle.std.specs.Prelude.{List, ℕ, string_bytes};

    ghost Value = { List ℕ };

    ghost view = { λ t. string_bytes t.text };
}

impl Text {
    /// The text that this string is.
    pub fn new(text: String) -> Text
        ensures { result ≡ string_bytes text }
    {
        Text { text }
    }

    /// The text as a string slice.
    pub fn as_str(&self) -> &str
        ensures { result.now ≡ self.now }
    {
        self.text.as_str()
    }

    /// A second copy of the text.
    pub fn copy(&self, alloc: Global) -> Result<Text, AllocError>
        ensures { IfOk result (λ t. t ≡ self.now) }
    {
        let text = String::from_str(alloc, self.as_str())?;
        Ok(Text { text })
    }

    /// Whether two texts are the same.
    pub fn same_as(&self, other: &Text) -> bool
        ensures { Decides result (self.now ≡ other.now) }
    {
        self.as_str() == other.as_str()
    }
}
