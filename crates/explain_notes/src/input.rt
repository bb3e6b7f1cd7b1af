//! Inputs as notes name them.

/// An input: the path that was given for it, and its bytes.
#[derive(Clone, Copy, Drop)]
pub struct Input<'a> {
    /// The path.
    pub path: &'a str,
    /// The bytes, whatever they are.
    pub bytes: &'a [u8],
}
