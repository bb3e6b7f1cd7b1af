//! Why code is not admitted.

ghost use Rattle.std.specs.Prelude.{◌≡◌};
ghost use Rattle.rule_cost.specs.declared.fault.CostFault.TheVariants.{OutOfMemory};
ghost use Rattle.rule_cost.specs.CostFaults.{cost_fault_number};

use std::alloc::{AllocError, AllocFailed};
use thiserror::Error;

/// Why a unit is not admitted, or a bound is not known.
#[derive(Clone, Copy, Debug, PartialEq, Eq, Error)]
pub enum CostFault {
    /// The first rule, by its index from 0, whose bound is over or above the budget.
    #[error("the bound of rule {rule} is above the budget")]
    TooCostly {
        /// The index of the rule.
        rule: usize,
    },
    /// Memory ran out.
    #[error("out of memory")]
    OutOfMemory,
}

impl CostFault {
    /// The documented number of the fault, 1 or 2.
    pub fn number(&self) -> u8
        ensures { result ≡ cost_fault_number self.now }
    {
        match self {
            CostFault::TooCostly { .. } => 1,
            CostFault::OutOfMemory => 2,
        }
    }
}

impl From<AllocError> for CostFault {
    ghost from_gives = { λ _ e. e ≡ OutOfMemory };

    fn from(_e: AllocError) -> CostFault {
        CostFault::OutOfMemory
    }
}

impl<T: Drop> From<AllocFailed<T>> for CostFault {
    ghost from_gives = { λ _ e. e ≡ OutOfMemory };

    fn from(_e: AllocFailed<T>) -> CostFault {
        CostFault::OutOfMemory
    }
}
