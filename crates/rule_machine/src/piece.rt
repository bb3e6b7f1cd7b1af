//! What is pending after the sequence that runs.

use rule_code::Instr;
use rule_slots::Slot;

/// An iteration before its first turn or in a turn.
#[derive(Clone, Copy)]
pub(crate) struct Turn {
    /// Its instruction.
    pub(crate) instr: Instr,
    /// Where its body begins.
    pub(crate) from: usize,
    /// Where its body ends.
    pub(crate) end: usize,
    /// What it goes over.
    pub(crate) source: Slot,
    /// The index of the next element.
    pub(crate) next: usize,
    /// The pool's length when it was opened.
    pub(crate) opened: usize,
    /// How many elements it keeps from there on.
    pub(crate) kept: usize,
    /// How many bodies were true.
    pub(crate) trues: usize,
    /// How many were false.
    pub(crate) falses: usize,
    /// How many were invalid.
    pub(crate) invalids: usize,
}

/// What an iteration keeps and has counted, after a turn.
#[derive(Clone, Copy)]
pub(crate) struct Counts {
    /// How many elements it keeps.
    pub(crate) kept: usize,
    /// How many bodies were true.
    pub(crate) trues: usize,
    /// How many were false.
    pub(crate) falses: usize,
    /// How many were invalid.
    pub(crate) invalids: usize,
}

/// A piece of what is pending after the sequence that runs: the machine's form of `Piece` in `specs/Machine.antt`.
/// Definitions import it as `Pending`.
#[derive(Clone, Copy)]
pub(crate) enum Piece {
    /// The rest of a sequence: the indices of its first instruction and of the end.
    Rest(usize, usize),
    /// The end of a LET.
    LetEnd,
    /// An iteration before its first turn.
    Opened(Turn),
    /// An iteration in a turn.
    Turning(Turn),
    /// An iteration over invalid.
    Skipped,
}
