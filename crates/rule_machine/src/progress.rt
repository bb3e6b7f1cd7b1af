//! How far a run came.

use rule_values::Verdict;

/// How far a run came.
#[derive(Clone, Copy, Debug, PartialEq, Eq)]
pub enum Progress {
    /// The end isn't reached.
    Paused,
    /// The end is reached, with this verdict.
    Done(Verdict),
}
