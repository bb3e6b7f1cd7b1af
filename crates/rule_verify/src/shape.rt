//! How many bodies instructions have.

/// How many bodies an instruction has, with the number of instructions of each.
#[derive(Clone, Copy)]
pub enum Shape {
    /// None.
    Single,
    /// One, which follows it.
    OneBody(usize),
    /// Two, one after the other, which follow it.
    TwoBodies(usize, usize),
}
