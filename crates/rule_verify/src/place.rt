//! The place of the verifier's walk.

use crate::depths::Depths;
use ocl_base::Stack;
use ocl_kinds::Kind;

/// An instruction of a sequence, and what encloses it.
#[derive(Clone, Copy)]
pub(crate) struct Place {
    /// The index of the instruction.
    pub(crate) at: usize,
    /// The index past the last of its sequence.
    pub(crate) end: usize,
    /// How many operands lie below the open blocks.
    pub(crate) covered: usize,
    /// How many blocks are open.
    pub(crate) open_blocks: usize,
}

/// What changes as the walk goes on: the variables, the newest on top, and how deep the code went.
#[derive(Drop)]
pub(crate) struct Walk {
    pub(crate) variables: Stack<Kind>,
    pub(crate) depths: Depths,
}
