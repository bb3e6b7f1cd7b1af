//! Why a rule has no types.

ghost use Rattle.std.specs.Prelude.{◌≡◌};
ghost use Rattle.ocl_types.specs.declared.fault.TypeFault.TheVariants.{OutOfMemory};
ghost use Rattle.ocl_types.specs.Faults.{type_flaw_number, type_fault_number, type_fault_offset};

use std::alloc::{AllocError, AllocFailed};
use thiserror::Error;

/// What is wrong with the types of a rule.
#[derive(Clone, Copy, Debug, PartialEq, Eq, Error)]
pub enum TypeFlaw {
    /// A name that names nothing here; the name, or for a literal its enumeration.
    #[error("an unknown name")]
    UnknownName,
    /// A value of another type is wanted; the operator or operation, or the type that is written.
    #[error("a wrong type")]
    WrongType,
    /// Two branches without a common type; the `if`.
    #[error("branches without a common type")]
    NoCommonType,
    /// A collection of collections; the inner type, or the body.
    #[error("a collection of collections")]
    NestedCollection,
    /// A truth value is wanted; the node that gives none.
    #[error("a truth value is wanted")]
    NotBoolean,
    /// No operation of this name on such a source; the name.
    #[error("an unknown operation")]
    UnknownOperation,
    /// Too few or too many arguments; the operation's name.
    #[error("a wrong number of arguments")]
    WrongArgumentCount,
}

impl TypeFlaw {
    /// The flaw's number: 1 to 7, in the order of the variants.
    pub fn number(self) -> u8
        ensures { result ≡ type_flaw_number self }
    {
        match self {
            TypeFlaw::UnknownName => 1,
            TypeFlaw::WrongType => 2,
            TypeFlaw::NoCommonType => 3,
            TypeFlaw::NestedCollection => 4,
            TypeFlaw::NotBoolean => 5,
            TypeFlaw::UnknownOperation => 6,
            TypeFlaw::WrongArgumentCount => 7,
        }
    }
}

/// Why a rule has no types.
#[derive(Debug, Drop, Error)]
pub enum TypeFault {
    /// The rule is at fault.
    #[error("{flaw}, at byte {offset}")]
    At {
        /// What is wrong with it.
        flaw: TypeFlaw,
        /// Where, in bytes of the text from 0.
        offset: usize,
    },
    /// Memory ran out.
    #[error("out of memory")]
    OutOfMemory,
}

impl TypeFault {
    /// The fault's number: that of the flaw, or 8 for out of memory.
    pub fn number(&self) -> u8
        ensures { result ≡ type_fault_number self.now }
    {
        match self {
            TypeFault::At { flaw, .. } => flaw.number(),
            TypeFault::OutOfMemory => 8,
        }
    }

    /// Where the rule is at fault, in bytes of the text from 0; none for out of memory.
    pub fn offset(&self) -> Option<usize>
        ensures { result ≡ type_fault_offset self.now }
    {
        match self {
            TypeFault::At { offset, .. } => Some(*offset),
            TypeFault::OutOfMemory => None,
        }
    }
}

impl From<AllocError> for TypeFault {
    ghost from_gives = { λ _ e. e ≡ OutOfMemory };

    fn from(_error: AllocError) -> Self {
        TypeFault::OutOfMemory
    }
}

impl<T: Drop> From<AllocFailed<T>> for TypeFault {
    ghost from_gives = { λ _ e. e ≡ OutOfMemory };

    fn from(_error: AllocFailed<T>) -> Self {
        TypeFault::OutOfMemory
    }
}
