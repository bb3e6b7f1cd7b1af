//! How a look at a document ends that finds something wrong with it.

use crate::places::Step;
use std::alloc::{AllocError, AllocFailed, Global};

/// What is wrong with a document.
#[derive(Drop)]
pub(crate) struct Flaw {
    /// In words.
    pub(crate) words: String,
    /// The steps from the document's own value to the one that is wrong.
    pub(crate) steps: Vec<Step>,
}

/// Why a look at a document stops.
#[derive(Drop)]
pub(crate) enum Stop {
    /// Something is wrong with it.
    Flaw(Flaw),
    /// Memory ran out.
    OutOfMemory,
}

impl Stop {
    /// Something is wrong with the value to which these steps lead, in words.
    pub(crate) fn at(alloc: Global, steps: &[Step], words: String) -> Result<Stop, AllocError> {
        let mut kept = Vec::new(alloc);
        for step in steps {
            kept.push(*step)?;
        }
        Ok(Stop::Flaw(Flaw { words, steps: kept }))
    }
}

impl From<AllocError> for Stop {
    fn from(_error: AllocError) -> Stop {
        Stop::OutOfMemory
    }
}

impl<T: Drop> From<AllocFailed<T>> for Stop {
    fn from(_error: AllocFailed<T>) -> Stop {
        Stop::OutOfMemory
    }
}
