//! Why a call on a population that is being built was refused.

ghost use Rattle.std.specs.Prelude.{◌≡◌};
ghost use Rattle.imkl_population.specs.declared.fault.PopulationFault.TheVariants.{OutOfMemory};
ghost use Rattle.imkl_population.specs.Building.{population_fault_number};

use crate::numbers::ObjectNo;
use imkl_model::FeatureNo;
use std::alloc::{AllocError, AllocFailed};
use thiserror::Error;

/// Why a call was refused, or why what was added is no population.
#[derive(Clone, Copy, Debug, PartialEq, Eq, Error)]
pub enum PopulationFault {
    /// An earlier object has the same id.
    #[error("an earlier object has this id")]
    DuplicateId,
    /// The class is abstract, so no object is directly of it.
    #[error("the class is abstract")]
    AbstractClass,
    /// The feature doesn't belong to the object's class, or is an end where an attribute is asked or the reverse.
    #[error("the feature can't be written on this object")]
    WrongFeature,
    /// A value isn't of the attribute's type.
    #[error("a value is not of the attribute's type")]
    WrongKind,
    /// A feature has fewer values than its lower bound.
    #[error("too few values")]
    TooFew {
        /// The object that has the feature.
        object: ObjectNo,
        /// The feature.
        feature: FeatureNo,
    },
    /// A feature has more values than its upper bound.
    #[error("too many values")]
    TooMany {
        /// The object that has the feature.
        object: ObjectNo,
        /// The feature.
        feature: FeatureNo,
    },
    /// A target isn't there, or its class doesn't conform to the class whose objects the end holds.
    #[error("a target is not of the end's class")]
    WrongClass,
    /// A value or a target stands twice at a unique feature.
    #[error("a value or target stands twice")]
    DuplicateTarget,
    /// An opposite end isn't written: it follows from the source ends.
    #[error("an opposite end can't be written")]
    Derived,
    /// There are 1,000,000 objects already.
    #[error("too many objects")]
    Limit,
    /// The id doesn't have 1 to 128 characters of `A-Z a-z 0-9 . _ : -`.
    #[error("the id is not well formed")]
    BadId,
    /// Memory ran out.
    #[error("out of memory")]
    OutOfMemory,
}

impl PopulationFault {
    /// The documented number of the fault, 1 to 12.
    pub fn number(&self) -> u8
        ensures { result ≡ population_fault_number self.now }
    {
        match self {
            PopulationFault::DuplicateId => 1,
            PopulationFault::AbstractClass => 2,
            PopulationFault::WrongFeature => 3,
            PopulationFault::WrongKind => 4,
            PopulationFault::TooFew { .. } => 5,
            PopulationFault::TooMany { .. } => 6,
            PopulationFault::WrongClass => 7,
            PopulationFault::DuplicateTarget => 8,
            PopulationFault::Derived => 9,
            PopulationFault::Limit => 10,
            PopulationFault::BadId => 11,
            PopulationFault::OutOfMemory => 12,
        }
    }
}

impl From<AllocError> for PopulationFault {
    ghost from_gives = { λ _ e. e ≡ OutOfMemory };

    fn from(_e: AllocError) -> PopulationFault {
        PopulationFault::OutOfMemory
    }
}

impl<T: Drop> From<AllocFailed<T>> for PopulationFault {
    ghost from_gives = { λ _ e. e ≡ OutOfMemory };

    fn from(_e: AllocFailed<T>) -> PopulationFault {
        PopulationFault::OutOfMemory
    }
}
