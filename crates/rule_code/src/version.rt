//! The versions of the code file.

/// A version of the format. Every file has its number.
#[derive(Clone, Copy)]
pub enum Version {
    /// The first.
    One = 1,
    /// The second.
    Two = 2,
}
