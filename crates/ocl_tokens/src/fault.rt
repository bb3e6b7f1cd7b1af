//! Why a rule text is refused.

ghost use Rattle.std.specs.Prelude.{◌≡◌};
ghost use Rattle.ocl_tokens.specs.declared.fault.TextFault.TheVariants.{OutOfMemory};
ghost use Rattle.ocl_tokens.specs.Faults.{text_flaw_number, text_fault_number, text_fault_offset};

use std::alloc::{AllocError, AllocFailed};
use thiserror::Error;

/// What is wrong with a rule text.
#[derive(Clone, Copy, Debug, PartialEq, Eq, Error)]
pub enum TextFlaw {
    /// A character that begins no token, outside strings and comments; its first byte.
    #[error("a character that begins no token")]
    BadCharacter,
    /// A string that never closes; its opening quote.
    #[error("a string that never closes")]
    OpenString,
    /// An escape that is none of the eight, in a string that closes; its backslash.
    #[error("an unknown escape")]
    BadEscape,
    /// A number above 2^63 - 1; its first digit.
    #[error("a number that is too large")]
    NumberTooLarge,
    /// A comment that opens by a slash and a star and never ends; its slash.
    #[error("a comment that never ends")]
    OpenComment,
    /// A token that can't follow those before it, or a text that ends too early; the token, or the length of the text.
    #[error("unexpected here")]
    Syntax,
    /// A token with too many constructs open round it, or one too many in its chain; the token.
    #[error("nested too deeply or chained too long")]
    TooDeep,
    /// A rule whose name an earlier rule has; its `inv`.
    #[error("a second rule of one name")]
    DuplicateRule,
}

impl TextFlaw {
    /// The flaw's number: 1 to 8, in the order of the variants.
    pub fn number(self) -> u8
        ensures { result ≡ text_flaw_number self }
    {
        match self {
            TextFlaw::BadCharacter => 1,
            TextFlaw::OpenString => 2,
            TextFlaw::BadEscape => 3,
            TextFlaw::NumberTooLarge => 4,
            TextFlaw::OpenComment => 5,
            TextFlaw::Syntax => 6,
            TextFlaw::TooDeep => 7,
            TextFlaw::DuplicateRule => 8,
        }
    }
}

/// Why a rule text is refused.
#[derive(Debug, Drop, Error)]
pub enum TextFault {
    /// The text is at fault.
    #[error("{flaw}, at byte {offset}")]
    At {
        /// What is wrong with it.
        flaw: TextFlaw,
        /// Where, in bytes from 0.
        offset: usize,
    },
    /// Memory ran out.
    #[error("out of memory")]
    OutOfMemory,
}

impl TextFault {
    /// The fault's number: that of the flaw, or 9 for out of memory.
    pub fn number(&self) -> u8
        ensures { result ≡ text_fault_number self.now }
    {
        match self {
            TextFault::At { flaw, .. } => flaw.number(),
            TextFault::OutOfMemory => 9,
        }
    }

    /// Where the text is at fault, in bytes from 0; none for out of memory.
    pub fn offset(&self) -> Option<usize>
        ensures { result ≡ text_fault_offset self.now }
    {
        match self {
            TextFault::At { offset, .. } => Some(*offset),
            TextFault::OutOfMemory => None,
        }
    }
}

impl From<AllocError> for TextFault {
    ghost from_gives = { λ _ e. e ≡ OutOfMemory };

    fn from(_error: AllocError) -> Self {
        TextFault::OutOfMemory
    }
}

impl<T: Drop> From<AllocFailed<T>> for TextFault {
    ghost from_gives = { λ _ e. e ≡ OutOfMemory };

    fn from(_error: AllocFailed<T>) -> Self {
        TextFault::OutOfMemory
    }
}
