//! Why a delivery isn't loaded straight from its tokens.

use crate::fault::DeliveryFault;
use json::Invalid;
use std::alloc::{AllocError, AllocFailed};
use token_tree::NoSingle;

/// Why a delivery isn't loaded straight from its tokens.
#[derive(Clone, Copy)]
pub(crate) enum Detour {
    /// It has a fault, or is written in a way that only the tree of the whole text is read for.
    ByTree,
    /// Memory ran out.
    OutOfMemory,
}

impl From<AllocError> for Detour {
    fn from(_error: AllocError) -> Detour {
        Detour::OutOfMemory
    }
}

impl<T: Drop> From<AllocFailed<T>> for Detour {
    fn from(_error: AllocFailed<T>) -> Detour {
        Detour::OutOfMemory
    }
}

impl From<Invalid> for Detour {
    fn from(_error: Invalid) -> Detour {
        Detour::ByTree
    }
}

/// Where a fault leads.
pub(crate) fn detour_of(written: &Result<(), DeliveryFault>) -> Detour {
    match written {
        Err(DeliveryFault::OutOfMemory) => Detour::OutOfMemory,
        _ => Detour::ByTree,
    }
}

impl From<NoSingle> for Detour {
    fn from(error: NoSingle) -> Detour {
        match error {
            NoSingle::Unfit => Detour::ByTree,
            NoSingle::OutOfMemory => Detour::OutOfMemory,
        }
    }
}
