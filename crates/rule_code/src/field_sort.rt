//! The fields behind an opcode.

ghost use Rattle.std.specs.Prelude.{◌≡◌, ◌≤◌, ◌∷◌, List, ℕ, Ok, drop};
ghost use Rattle.rule_code.specs.KindReading.{row_numbered, scalar_sorts};
ghost use Rattle.rule_code.specs.Preamble.{Preamble};
ghost use Rattle.rule_code.specs.FieldSorts.{after_field, symbol_width};

use crate::symbol::SymbolTag;

/// What a field is.
#[derive(Clone, Copy)]
pub enum FieldSort {
    /// An Integer.
    Integer,
    /// A Boolean.
    Boolean,
    /// A number of 16 bits.
    Number,
    /// The number of a text.
    Text,
    /// The number of a symbol with this tag.
    Symbol(SymbolTag),
    /// The kind of a single value.
    Scalar,
    /// The kind of a collection.
    Collection,
    /// A kind.
    Kind,
}

/// How many bytes of a symbol follow the byte of a kind, by the number in the byte's low half.
fn symbol_width(number: u8) -> usize
    ensures width { result ≡ symbol_width (row_numbered scalar_sorts number) }
    ensures small { result ≤ 2 }
{
    match number {
        4 => 2,
        5 => 2,
        _ => 0,
    }
}

impl FieldSort {
    /// How many bytes a field has that begins with this byte.
    pub fn width(self, first: u8) -> usize
        // Where the field is read, so many bytes are taken.
        ensures { (p : Preamble) (rest after : List ℕ) →
            after_field p self (first ∷ rest) ≡ Ok after → after ≡ drop result (first ∷ rest) }
    {
        match self {
            FieldSort::Integer => 8,
            FieldSort::Boolean => 1,
            FieldSort::Number => 2,
            FieldSort::Text => 2,
            FieldSort::Symbol(_) => 2,
            FieldSort::Scalar => 1 + symbol_width(first),
            FieldSort::Collection => 1 + symbol_width(first % 16),
            FieldSort::Kind => 1 + symbol_width(first % 16),
        }
    }
}
