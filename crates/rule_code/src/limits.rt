//! The limits of a code file.

/// The most rules of a unit.
pub const MAX_RULES: u16 = 4_096;

/// The most bytes of a text.
pub const MAX_TEXT_BYTES: u16 = 4_096;
