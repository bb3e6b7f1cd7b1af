//! Kinds as a code file has them: they name classes and enumerations by symbols.

use crate::symbol::SymbolNumber;
use ocl_base::CollectionKind;

/// The kind of a single value.
#[derive(Clone, Copy)]
pub enum WrittenScalar {
    /// Null or invalid alone.
    Void,
    /// A truth value.
    Boolean,
    /// A whole number.
    Integer,
    /// A text.
    String,
    /// A literal of an enumeration.
    Enumeration(SymbolNumber),
    /// An object of a class.
    Class(SymbolNumber),
    /// An object of any class.
    AnyObject,
}

/// The kind of a value.
#[derive(Clone, Copy)]
pub enum WrittenKind {
    /// A single value.
    Scalar(WrittenScalar),
    /// A collection, with the kind of its elements.
    Collection(CollectionKind, WrittenScalar),
}
