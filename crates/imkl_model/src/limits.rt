//! The limits of a class model.

/// The greatest number of characters of a name.
pub const MAX_NAME_LENGTH: usize = 128;

/// The greatest bound of a feature.
pub const MAX_BOUND: u64 = 1_000_000;

/// The greatest count of classes, of enumerations, and of literals of one enumeration.
pub const MAX_TYPES: usize = 4_096;

/// The greatest count of features, both ends of each association among them.
pub const MAX_FEATURES: usize = 65_535;

/// The greatest count of old names.
pub const MAX_RENAMES: usize = 65_535;
