//! Single values.

ghost use Rattle.std.specs.Prelude.{◌≡◌, length, string_bytes, IfOk};
ghost use Rattle.std.specs.Str.{chars};

use crate::numbers::ObjectNo;
use imkl_model::{EnumNo, LiteralNo};
use std::alloc::{AllocError, Global};
use std::marker::Model;

/// A text value. Contracts see its characters (Unicode scalar values), which are counted once.
#[derive(Drop)]
pub struct ScalarText {
    text: String,
    characters: usize,
}

impl Model for ScalarText {
    ghost use Rattle.std.specs.Prelude.{◌≡◌, List, ℕ, length, string_bytes};
    ghost use Rattle.std.specs.Str.{chars};

    ghost Value = { List ℕ };

    ghost view = { λ t. chars (string_bytes t.text) };

    ghost invariant = { λ t. t.characters ≡ length (chars (string_bytes t.text)) };
}

impl ScalarText {
    /// The value that is this text.
    pub fn new(text: String) -> ScalarText
        ensures { result ≡ chars (string_bytes text) }
    {
        let characters = text.as_str().chars().count();
        ScalarText { text, characters }
    }

    /// The text.
    pub fn as_str(&self) -> &str
        ensures { chars result.now ≡ self.now }
    {
        self.text.as_str()
    }

    /// How many characters it has.
    pub fn character_count(&self) -> usize
        ensures { result ≡ length self.now }
    {
        self.characters
    }
}

/// A value of an attribute, or a target of an association end.
#[derive(Drop)]
pub enum Scalar {
    /// A truth value.
    Bool(bool),
    /// A whole number.
    Int(i64),
    /// A text.
    Text(ScalarText),
    /// A literal of an enumeration.
    Literal(EnumNo, LiteralNo),
    /// An object.
    Object(ObjectNo),
}

impl Scalar {
    /// The same value once more.
    pub(crate) fn copied(&self, alloc: Global) -> Result<Scalar, AllocError>
        ensures { IfOk result (λ s. s ≡ self.now) }
    {
        match self {
            Scalar::Bool(value) => Ok(Scalar::Bool(*value)),
            Scalar::Int(value) => Ok(Scalar::Int(*value)),
            Scalar::Text(text) => {
                let text = String::from_str(alloc, text.as_str())?;
                Ok(Scalar::Text(ScalarText::new(text)))
            }
            Scalar::Literal(enumeration, literal) => Ok(Scalar::Literal(*enumeration, *literal)),
            Scalar::Object(object) => Ok(Scalar::Object(*object)),
        }
    }
}
