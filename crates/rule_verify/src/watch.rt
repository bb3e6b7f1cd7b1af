//! Who watches the verifier's walk, as what explains code does.

use ocl_base::Stack;
use ocl_kinds::Kind;

/// Where the walk over a rule is: before an instruction, or at the end of a body or of the rule.
#[derive(Clone, Copy)]
pub struct Reached<'w> {
    /// The index of the instruction; at an end, the one past the last.
    pub at: usize,
    /// The index past the last instruction of the innermost open body.
    pub end: usize,
    /// The kinds of the operands of that body, the topmost first.
    pub operands: &'w Stack<Kind>,
    /// The kinds of the variables, the newest first.
    pub variables: &'w Stack<Kind>,
}

/// Sees where the verifier's walk comes, and changes nothing of it.
pub trait Watch {
    /// The walk has come to a place.
    fn reach(&mut self, reached: Reached<'_>);
}

/// Watches nothing.
#[derive(Clone, Copy)]
pub struct Unwatched;

impl Watch for Unwatched {
    fn reach(&mut self, _reached: Reached<'_>) {}
}
