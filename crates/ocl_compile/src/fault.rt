//! Why rules do not compile.

ghost use Rattle.std.specs.Prelude.{◌≡◌};
ghost use Rattle.ocl_compile.specs.declared.fault.CompileFault.TheVariants.{OutOfMemory};
ghost use Rattle.ocl_compile.specs.CompileFaults.{limit_number, compile_fault_number};

use std::alloc::{AllocError, AllocFailed};
use thiserror::Error;

/// A limit of a unit.
#[derive(Clone, Copy, Debug, PartialEq, Eq)]
pub enum Limit {
    /// At most 1,024 operands at once.
    Stack,
    /// At most 64 blocks that enclose each other.
    Nesting,
    /// At most 4,096 rules, 65,535 texts, 65,535 symbols, 65,535 instructions of a rule, and 4,096
    /// bytes of a text.
    Size,
}

impl Limit {
    /// The documented number of the limit, from 1.
    pub fn number(self) -> u8
        ensures { result ≡ limit_number self }
    {
        match self {
            Limit::Stack => 1,
            Limit::Nesting => 2,
            Limit::Size => 3,
        }
    }
}

/// Why rules do not compile.
#[derive(Clone, Copy, Debug, PartialEq, Eq, Error)]
pub enum CompileFault {
    /// The first rule, by its index from 0, that passes a limit. Where it passes several, `Size`
    /// comes before `Nesting`, and that before `Stack`.
    #[error("rule {rule} passes a limit of code")]
    At {
        /// The limit.
        limit: Limit,
        /// The index of the rule.
        rule: usize,
    },
    /// Memory ran out.
    #[error("out of memory")]
    OutOfMemory,
}

impl CompileFault {
    /// The documented number of the fault, from 1 to 4.
    pub fn number(&self) -> u8
        ensures { result ≡ compile_fault_number self.now }
    {
        match self {
            CompileFault::At { limit, .. } => limit.number(),
            CompileFault::OutOfMemory => 4,
        }
    }
}

impl From<AllocError> for CompileFault {
    ghost from_gives = { λ _ e. e ≡ OutOfMemory };

    fn from(_e: AllocError) -> CompileFault {
        CompileFault::OutOfMemory
    }
}

impl<T: Drop> From<AllocFailed<T>> for CompileFault {
    ghost from_gives = { λ _ e. e ≡ OutOfMemory };

    fn from(_e: AllocFailed<T>) -> CompileFault {
        CompileFault::OutOfMemory
    }
}
