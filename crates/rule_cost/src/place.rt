//! The place of the walk over code, and what it found.

use crate::cut::Cut;

/// An instruction of a sequence.
#[derive(Clone, Copy)]
pub(crate) struct Place {
    /// The index of the instruction.
    pub(crate) at: usize,
    /// The index past the last of its sequence.
    pub(crate) end: usize,
}

/// What an instruction with its bodies comes to.
#[derive(Clone, Copy)]
pub(crate) struct Advance {
    /// The index past it and its bodies.
    pub(crate) next: usize,
    /// Its charges.
    pub(crate) charges: Cut,
}

/// What a sequence comes to.
#[derive(Clone, Copy)]
pub(crate) struct Total {
    /// Its charges.
    pub(crate) charges: Cut,
    /// The length of the operand that it ends with.
    pub(crate) length: Cut,
}
