//! What a rule says of an object.

/// What a rule says of an object.
#[derive(Clone, Copy, Debug, PartialEq, Eq)]
pub enum Verdict {
    /// The rule is true of it.
    Holds,
    /// The rule is false of it.
    Fails,
    /// The rule is null or invalid there.
    Undecided,
}
