//! Why code is not accepted.

ghost use Rattle.std.specs.Prelude.{◌≡◌};
ghost use Rattle.rule_verify.specs.declared.fault.VerifyFault.TheVariants.{OutOfMemory};
ghost use Rattle.rule_verify.specs.FaultNumber.{verify_fault_number, verify_flaw_number};

use std::alloc::{AllocError, AllocFailed};
use thiserror::Error;

/// What is wrong with an instruction, with its documented number.
#[derive(Clone, Copy, Debug, PartialEq, Eq)]
pub enum VerifyFlaw {
    /// It names a class, enumeration, feature or literal that the class model does not have.
    NoSuchName = 1,
    /// An operand that it takes is not there.
    MissingOperand = 2,
    /// An operand that it takes is not of the kind that is asked.
    WrongKind = 3,
    /// It reads a variable that is not there.
    BadVariable = 4,
    /// The bodies of a block are longer than what is left of the sequence that it stands in.
    BadNesting = 5,
    /// A rule or a body does not end with exactly one operand of its kind.
    LeftOver = 6,
    /// There are more than 1,024 operands after it.
    StackLimit = 7,
    /// More than 64 blocks are open.
    NestLimit = 8,
}

impl VerifyFlaw {
    /// The documented number of the flaw, 1 to 8.
    pub fn number(self) -> u8
        ensures { result ≡ verify_flaw_number self }
    {
        self as u8
    }
}

/// Why a unit is not accepted.
#[derive(Debug, Drop, Error)]
pub enum VerifyFault {
    /// The first instruction that is wrong, by its rule and its index in the rule, both from 0; where the rule itself is
    /// wrong, 0 or the number of its instructions (`docs/formats/machine.md`).
    #[error("{flaw:?} at instruction {at} of rule {rule}")]
    At {
        flaw: VerifyFlaw,
        rule: usize,
        at: usize,
    },
    /// Memory ran out.
    #[error("out of memory")]
    OutOfMemory,
}

impl VerifyFault {
    /// The documented number of the fault, 1 to 9.
    pub fn number(&self) -> u8
        ensures { result ≡ verify_fault_number self.now }
    {
        match self {
            VerifyFault::At { flaw, .. } => flaw.number(),
            VerifyFault::OutOfMemory => 9,
        }
    }
}

impl From<AllocError> for VerifyFault {
    ghost from_gives = { λ _ e. e ≡ OutOfMemory };

    fn from(_e: AllocError) -> VerifyFault {
        VerifyFault::OutOfMemory
    }
}

impl<T: Drop> From<AllocFailed<T>> for VerifyFault {
    ghost from_gives = { λ _ e. e ≡ OutOfMemory };

    fn from(_e: AllocFailed<T>) -> VerifyFault {
        VerifyFault::OutOfMemory
    }
}
