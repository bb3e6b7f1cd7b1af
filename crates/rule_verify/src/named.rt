//! What a symbol of a unit names in a class model.

use imkl_model::{ClassNo, EnumNo, FeatureNo, LiteralNo};

/// A part of a class model that a symbol names.
#[derive(Clone, Copy)]
pub enum Named {
    /// A class.
    Class(ClassNo),
    /// An enumeration.
    Enumeration(EnumNo),
    /// A class, and a feature that belongs to it.
    Feature(ClassNo, FeatureNo),
    /// A literal of an enumeration.
    Literal(EnumNo, LiteralNo),
}
