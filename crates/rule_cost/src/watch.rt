//! Who watches while the bound of a rule is computed, as what explains costs does.

/// What an iteration or a `LET` goes over.
#[derive(Clone, Copy)]
pub struct Turns {
    /// The greatest length of the operand that it works on; 0 of a single value, and `STEP_LIMIT` for 2^63 or more.
    pub source: u64,
    /// What a turn is charged at most, cut likewise.
    pub charges: u64,
}

/// What an instruction comes to, with its bodies.
#[derive(Clone, Copy)]
pub struct Passed {
    /// The index of the instruction.
    pub at: usize,
    /// What it is charged at most each time; `STEP_LIMIT` for 2^63 or more.
    pub charges: u64,
    /// Of a block with one body, what it goes over.
    pub turns: Option<Turns>,
}

/// Sees what the instructions of a rule come to, in their order, and changes nothing of it.
pub trait Watch {
    /// A block begins.
    fn open(&mut self, at: usize);

    /// An instruction was passed, with its bodies.
    fn pass(&mut self, passed: Passed);
}

/// Watches nothing.
#[derive(Clone, Copy)]
pub struct Unwatched;

impl Watch for Unwatched {
    fn open(&mut self, _at: usize) {}

    fn pass(&mut self, _passed: Passed) {}
}
