//! Why a file describes no class model.

ghost use Rattle.std.specs.Prelude.{◌≡◌};
ghost use Rattle.imkl_model.specs.declared.fault.ModelFault.TheVariants.{OutOfMemory};
ghost use Rattle.imkl_model.specs.Faults.{model_fault_number, json_model_fault};

use imkl_json::JsonFault;
use std::alloc::{AllocError, AllocFailed};
use thiserror::Error;

/// The first fault of a class model's file, or that memory ran out.
#[derive(Clone, Copy, PartialEq, Eq, Debug, Error)]
pub enum ModelFault {
    /// The bytes are no JSON text.
    #[error("not JSON")]
    NotJson,
    /// The JSON text isn't that of a class model: a member is missing or there is one too many, a value has the wrong
    /// type, a name is no identifier, is reserved or too long, the class model's own name is empty or too long, or a bound
    /// isn't a whole number from 0 to 1,000,000 (an upper bound may be null).
    #[error("not the shape of a class model")]
    Shape,
    /// A name is repeated where names must differ, or a class or enumeration has the name of a predefined type. A class's
    /// old name counts as the name of one more class.
    #[error("a name stands twice")]
    DuplicateName,
    /// A superclass, an attribute's type or an association's class isn't there, or what has an old name isn't.
    #[error("a name is unknown")]
    UnknownName,
    /// A class reaches itself by one or more superclass steps.
    #[error("a class is above itself")]
    Cycle,
    /// Two features of one name and different owners belong to one class, or a class has two features of one name where
    /// old names count too.
    #[error("two features of one name belong to one class")]
    FeatureClash,
    /// A lower bound is above its upper bound, or an upper bound is 0.
    #[error("a multiplicity that nothing meets")]
    BadMultiplicity,
    /// There are too many classes, enumerations, literals of one enumeration, features or old names.
    #[error("too large a class model")]
    Limit,
    /// Memory ran out.
    #[error("out of memory")]
    OutOfMemory,
}

impl ModelFault {
    /// The documented number of the fault, 1 to 9.
    pub fn number(&self) -> u8
        ensures { result ≡ model_fault_number self.now }
    {
        match self {
            ModelFault::NotJson => 1,
            ModelFault::Shape => 2,
            ModelFault::DuplicateName => 3,
            ModelFault::UnknownName => 4,
            ModelFault::Cycle => 5,
            ModelFault::FeatureClash => 6,
            ModelFault::BadMultiplicity => 7,
            ModelFault::Limit => 8,
            ModelFault::OutOfMemory => 9,
        }
    }
}

impl From<JsonFault> for ModelFault {
    ghost from_gives = { λ fault e. e ≡ json_model_fault fault };

    fn from(fault: JsonFault) -> ModelFault {
        match fault {
            JsonFault::NotJson => ModelFault::NotJson,
            JsonFault::OutOfMemory => ModelFault::OutOfMemory,
        }
    }
}

impl From<AllocError> for ModelFault {
    ghost from_gives = { λ _ e. e ≡ OutOfMemory };

    fn from(_e: AllocError) -> ModelFault {
        ModelFault::OutOfMemory
    }
}

impl<T: Drop> From<AllocFailed<T>> for ModelFault {
    ghost from_gives = { λ _ e. e ≡ OutOfMemory };

    fn from(_e: AllocFailed<T>) -> ModelFault {
        ModelFault::OutOfMemory
    }
}
