//! The limits of a population.

/// The greatest number of objects.
pub const MAX_OBJECTS: usize = 1_000_000;

/// The greatest number of characters of an id.
pub const MAX_ID_LENGTH: usize = 128;

/// How many slots an id has, of which it takes the first empty one.
pub(crate) const GROUP: usize = 8;

/// What is greater than each number of an object, and than one above it.
pub(crate) const NUMBERS: u32 = 1 << 20;
