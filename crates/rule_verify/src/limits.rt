//! How deep code may go.

/// The most operands at once, those below open blocks too.
pub const MAX_OPERANDS: usize = 1_024;

/// The most blocks that are open at once.
pub const MAX_BLOCKS: usize = 64;
