//! Why a desk refuses a call.

ghost use Rattle.std.specs.Prelude.{◌≡◌};
ghost use Rattle.rule_desk.specs.declared.fault.DeskFault.TheVariants.{OutOfMemory};
ghost use Rattle.rule_desk.specs.Faults.{desk_fault_number};

use ocl_base::OutOfMemory;
use thiserror::Error;

/// Why a desk refuses a call.
#[derive(Clone, Copy, Debug, PartialEq, Eq, Error)]
pub enum DeskFault {
    /// No job has had this number yet, or the job was withdrawn.
    #[error("there is no such job")]
    NoSuchJob,
    /// Every pair of the job's report is told.
    #[error("the job is over")]
    JobOver,
    /// Memory ran out.
    #[error("out of memory")]
    OutOfMemory,
}

impl DeskFault {
    /// The fault's number, from 1 to 3.
    pub fn number(self) -> u8
        ensures { result ≡ desk_fault_number self }
    {
        match self {
            DeskFault::NoSuchJob => 1,
            DeskFault::JobOver => 2,
            DeskFault::OutOfMemory => 3,
        }
    }
}

impl From<OutOfMemory> for DeskFault {
    ghost from_gives = { λ _ e. e ≡ OutOfMemory };

    fn from(_error: OutOfMemory) -> DeskFault {
        DeskFault::OutOfMemory
    }
}
