//! Values that are neither null nor hold others, and lists of them.

ghost use Rattle.std.specs.Prelude.{◌≡◌, ◌∷◌, ℕ, List, Some, option_map, option_and_then, IfOk};
ghost use Rattle.json.specs.Token.{Token as SpecToken};
ghost use Rattle.json.specs.Reads.{token_of};
ghost use Rattle.serde_json.specs.Find.{as_bool, as_number, as_i64, as_str};
ghost use Rattle.token_tree.specs.Tokens.{data_at, items_at};
ghost use Rattle.token_tree.specs.Single.{single_view, singles_view};

use crate::numbers::number_of;
use json::{Reader, Token};
use serde_json::Number;
use std::alloc::{AllocError, AllocFailed, Global};

/// Why no single values are read.
#[derive(Clone, Copy)]
pub enum NoSingle {
    /// What comes next is something else, or a number that is no whole one of 64 bits.
    Unfit,
    /// Memory ran out.
    OutOfMemory,
}

impl From<AllocError> for NoSingle {
    fn from(_error: AllocError) -> NoSingle {
        NoSingle::OutOfMemory
    }
}

impl<T: Drop> From<AllocFailed<T>> for NoSingle {
    fn from(_error: AllocFailed<T>) -> NoSingle {
        NoSingle::OutOfMemory
    }
}

/// A value that is neither null nor holds others. A text is the token's own, of which nothing is copied.
#[derive(Clone, Copy, Drop)]
pub enum Single<'a> {
    /// True or false.
    Truth(bool),
    /// A number.
    Number(Number),
    /// A string.
    Text(&'a str),
}

impl<'a> Single<'a> {
    /// The truth value. `None` for any other.
    pub fn truth(self) -> Option<bool>
        ensures { result ≡ as_bool (single_view self.entry) }
    {
        match self {
            Single::Truth(truth) => Some(truth),
            _ => None,
        }
    }

    /// The number, if it is from -2^63 to 2^63-1. `None` for any other value.
    pub fn integer(self) -> Option<i64>
        ensures { result ≡ option_and_then as_i64 (as_number (single_view self.entry)) }
    {
        match self {
            Single::Number(number) => number.as_i64(),
            _ => None,
        }
    }

    /// The text of a string. `None` for any other value.
    pub fn text(self) -> Option<&'a str>
        ensures { option_map (λ s. s.now) result ≡ as_str (single_view self.entry) }
    {
        match self {
            Single::Text(text) => Some(text),
            _ => None,
        }
    }
}

/// The single value that a token is.
pub fn single_of(token: Token<'_>) -> Result<Single<'_>, NoSingle>
    ensures { IfOk result (λ s. (depth : ℕ) (ts : List SpecToken) →
        data_at depth (token_of token.entry ∷ ts) ≡ Some (single_view s, ts)) }
{
    match token {
        Token::Bool(truth) => Ok(Single::Truth(truth)),
        Token::Number(text) => match number_of(text) {
            Some(number) => Ok(Single::Number(number)),
            None => Err(NoSingle::Unfit),
        },
        Token::String(text) => Ok(Single::Text(text)),
        _ => Err(NoSingle::Unfit),
    }
}

/// The single values up to the end of a list that has begun.
pub fn singles_of<'a>(alloc: Global, reader: &mut Reader<'a>) -> Result<Vec<Single<'a>>, NoSingle>
    ensures { IfOk result (λ v. (depth : ℕ) →
        items_at depth reader.old ≡ Some (singles_view v.items, reader.new)) }
{
    let mut found = Vec::new(alloc);
    for _ in 0..u64::MAX {
        if reader.take_end_array() {
            return Ok(found);
        }
        let token = reader.next().ok_or(NoSingle::Unfit)?;
        found.push(single_of(token)?)?;
    }
    Err(NoSingle::Unfit)
}
