//! Why the rules of a text have no types.

ghost use Rattle.std.specs.Prelude.{◌≡◌};
ghost use Rattle.ocl_types.specs.declared.rules_fault.RulesFault.TheVariants.{OutOfMemory};
ghost use Rattle.ocl_types.specs.AllRules.{rules_fault_number};

use crate::fault::TypeFlaw;
use std::alloc::{AllocError, AllocFailed};
use thiserror::Error;

/// Why the rules of a text have no types.
#[derive(Clone, Copy, Debug, Error)]
pub enum RulesFault {
    /// The first rule that is at fault.
    #[error("{flaw} at byte {offset}, in rule {rule}")]
    At {
        /// What is wrong with it.
        flaw: TypeFlaw,
        /// Its index among the rules of the text, from 0.
        rule: usize,
        /// Where, in bytes of the text from 0.
        offset: usize,
    },
    /// Memory ran out.
    #[error("out of memory")]
    OutOfMemory,
}

impl RulesFault {
    /// The fault's number: that of the flaw, or 8 for out of memory.
    pub fn number(&self) -> u8
        ensures { result ≡ rules_fault_number self.now }
    {
        match self {
            RulesFault::At { flaw, .. } => flaw.number(),
            RulesFault::OutOfMemory => 8,
        }
    }
}

impl From<AllocError> for RulesFault {
    ghost from_gives = { λ _ e. e ≡ OutOfMemory };

    fn from(_error: AllocError) -> Self {
        RulesFault::OutOfMemory
    }
}

impl<T: Drop> From<AllocFailed<T>> for RulesFault {
    ghost from_gives = { λ _ e. e ≡ OutOfMemory };

    fn from(_error: AllocFailed<T>) -> Self {
        RulesFault::OutOfMemory
    }
}
