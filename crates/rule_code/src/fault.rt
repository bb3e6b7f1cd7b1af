//! Why bytes are no code file.

ghost use Rattle.std.specs.Prelude.{◌≡◌};
ghost use Rattle.rule_code.specs.declared.fault.FieldFault.TheVariants as field;
ghost use Rattle.rule_code.specs.declared.fault.CodeFault.TheVariants.{OutOfMemory};

use std::alloc::{AllocError, AllocFailed};
use thiserror::Error;

/// What is wrong with a field of a code file, with its documented number.
#[derive(Clone, Copy, Debug, PartialEq, Eq)]
pub enum CodeFlaw {
    /// The bytes do not begin with `OCLB`.
    Magic = 1,
    /// The version is neither 1 nor 2.
    Version = 2,
    /// The bytes end before the field does.
    Truncated = 3,
    /// The byte is no instruction's opcode.
    BadOpcode = 4,
    /// A text is not UTF-8, or a rule's name is no identifier, is a reserved word or is the name of
    /// an earlier rule.
    BadText = 5,
    /// A number names no text, or no symbol with the required tag, or a byte is no symbol's tag,
    /// no Boolean, or no kind of the required sort.
    BadNumber = 6,
    /// There are more than 4,096 rules, or a text is longer than 4,096 bytes.
    Limit = 7,
    /// Bytes stand after the last rule.
    Trailing = 8,
}

impl CodeFlaw {
    ghost use Rattle.rule_code.specs.FaultNumber.{code_flaw_number};

    /// The documented number of the flaw, 1 to 8.
    pub fn number(self) -> u8
        ensures { result ≡ code_flaw_number self }
    {
        self as u8
    }
}

/// Why a code file was not read or written.
#[derive(Debug, Drop, Error)]
pub enum CodeFault {
    /// The bytes are no code file: the first field that is wrong begins at byte `offset`, from 0.
    #[error("{flaw:?} at byte {offset}")]
    At { flaw: CodeFlaw, offset: usize },
    /// Memory ran out.
    #[error("out of memory")]
    OutOfMemory,
}

impl CodeFault {
    ghost use Rattle.rule_code.specs.FaultNumber.{code_fault_number, code_fault_offset};

    /// The documented number of the fault, 1 to 9.
    pub fn number(&self) -> u8
        ensures { result ≡ code_fault_number self.now }
    {
        match self {
            CodeFault::At { flaw, .. } => flaw.number(),
            CodeFault::OutOfMemory => 9,
        }
    }

    /// The byte at which the wrong field begins, from 0, if the bytes are at fault.
    pub fn offset(&self) -> Option<usize>
        ensures { result ≡ code_fault_offset self.now }
    {
        match self {
            CodeFault::At { offset, .. } => Some(*offset),
            CodeFault::OutOfMemory => None,
        }
    }
}

/// What is wrong with a field, or that memory ran out. Its place is how many bytes are left where it begins.
#[derive(Drop)]
pub(crate) enum FieldFault {
    At { flaw: CodeFlaw, left: usize },
    OutOfMemory,
}

impl From<AllocError> for FieldFault {
    ghost from_gives = { λ _ e. e ≡ field.OutOfMemory };

    fn from(_e: AllocError) -> FieldFault {
        FieldFault::OutOfMemory
    }
}

impl<T: Drop> From<AllocFailed<T>> for FieldFault {
    ghost from_gives = { λ _ e. e ≡ field.OutOfMemory };

    fn from(_e: AllocFailed<T>) -> FieldFault {
        FieldFault::OutOfMemory
    }
}

impl From<AllocError> for CodeFault {
    ghost from_gives = { λ _ e. e ≡ OutOfMemory };

    fn from(_e: AllocError) -> CodeFault {
        CodeFault::OutOfMemory
    }
}

impl<T: Drop> From<AllocFailed<T>> for CodeFault {
    ghost from_gives = { λ _ e. e ≡ OutOfMemory };

    fn from(_e: AllocFailed<T>) -> CodeFault {
        CodeFault::OutOfMemory
    }
}
