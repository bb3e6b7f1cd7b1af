//! How deep code goes.

/// The most operands, variables and open blocks that code has at once. Operands below open blocks count, and the object
/// of a rule is a variable.
#[derive(Clone, Copy, Debug, PartialEq, Eq)]
pub struct Depths {
    /// The most operands, those below open blocks too.
    pub operands: usize,
    /// The most variables.
    pub variables: usize,
    /// The most open blocks.
    pub blocks: usize,
}
