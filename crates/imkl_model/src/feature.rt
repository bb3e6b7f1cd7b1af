//! Features: attributes and association ends.

ghost use Rattle.std.specs.Prelude.{◌≡◌};
ghost use Rattle.imkl_model.specs.Features.{is_attribute, is_opposite, is_single, is_unique};

use crate::numbers::{ClassNo, EnumNo, FeatureNo};
use ocl_base::{CollectionKind, Text};

/// What one element of a feature's value is.
#[derive(Clone, Copy, PartialEq, Eq)]
pub enum ElementType {
    /// A truth value.
    Boolean,
    /// A whole number.
    Integer,
    /// A text.
    String,
    /// A literal of an enumeration.
    Enumeration(EnumNo),
    /// An object of a class.
    Class(ClassNo),
}

/// Whether a feature is an attribute, or which end of an association it is.
#[derive(Clone, Copy, PartialEq, Eq)]
pub enum Role {
    /// An attribute.
    Attribute,
    /// The end that the `from` class owns, and that a delivery writes.
    SourceEnd {
        /// The association's other end.
        opposite: FeatureNo,
    },
    /// The end that the `to` class owns.
    OppositeEnd {
        /// The association's other end.
        source: FeatureNo,
    },
}

impl Role {
    /// Whether it is an attribute's.
    pub fn is_attribute(self) -> bool
        ensures { result ≡ is_attribute self }
    {
        matches!(self, Role::Attribute)
    }

    /// Whether it is an opposite end's.
    pub fn is_opposite(self) -> bool
        ensures { result ≡ is_opposite self }
    {
        matches!(self, Role::OppositeEnd { .. })
    }
}

/// A feature of a class model.
#[derive(Drop)]
pub struct FeatureInfo {
    /// The feature's name.
    pub name: Text,
    /// The class that owns the feature.
    pub owner: ClassNo,
    /// What one element of its value is.
    pub element: ElementType,
    /// The least number of elements, at most 1,000,000.
    pub lower: u32,
    /// The greatest number of elements, at most 1,000,000, if there is one.
    pub upper: Option<u32>,
    /// How the elements are collected. A feature with upper bound 1 gives the value itself, and has `Set` here.
    pub kind: CollectionKind,
    /// Attribute or association end.
    pub role: Role,
}

impl FeatureInfo {
    /// Whether it gives the value itself: its upper bound is 1.
    pub fn is_single(&self) -> bool
        ensures { result ≡ is_single self.now.upper }
    {
        is_single(self.upper)
    }

    /// Whether it is a collection in which nothing may stand twice: an end, or an attribute of a unique kind.
    pub fn is_unique(&self) -> bool
        ensures { result ≡ is_unique self.now }
    {
        !self.role.is_attribute() || (!self.is_single() && self.kind.is_unique())
    }
}

/// Whether an upper bound is 1.
pub(crate) fn is_single(upper: Option<u32>) -> bool
    ensures { result ≡ is_single upper }
{
    upper == Some(1)
}
