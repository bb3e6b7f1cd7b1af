//! Kinds, and the kinds of features.

ghost use Rattle.std.specs.Prelude.{◌≡◌};
ghost use Rattle.imkl_model.specs.ClassModel.{Model};
ghost use Rattle.ocl_kinds.specs.Kinds.{IsScalarKindOf, IsKindOf, element_kind, feature_kind, elements_kind, collected_kind};

use imkl_model::{ClassNo, CollectionKind, ElementType, EnumNo, FeatureInfo};

/// The kind of a single value.
#[derive(Clone, Copy, PartialEq, Eq)]
pub enum ScalarKind {
    /// Null or invalid alone.
    Void,
    /// A truth value.
    Boolean,
    /// A whole number.
    Integer,
    /// A text.
    String,
    /// A literal of an enumeration.
    Enumeration(EnumNo),
    /// An object of a class or of one that conforms to it.
    Class(ClassNo),
    /// An object of any class.
    AnyObject,
}

/// The kind of a value.
#[derive(Clone, Copy, PartialEq, Eq)]
pub enum Kind {
    /// A single value.
    Scalar(ScalarKind),
    /// A collection, with the kind of its elements.
    Collection(CollectionKind, ScalarKind),
}

/// The kind of one element of a feature's value.
pub fn element_kind(element: ElementType) -> ScalarKind
    ensures { result ≡ element_kind element }
{
    match element {
        ElementType::Boolean => ScalarKind::Boolean,
        ElementType::Integer => ScalarKind::Integer,
        ElementType::String => ScalarKind::String,
        ElementType::Enumeration(enumeration) => ScalarKind::Enumeration(enumeration),
        ElementType::Class(class) => ScalarKind::Class(class),
    }
}

/// The kind of a feature: of the value itself if its upper bound is 1, else of a collection.
pub fn feature_kind(feature: &FeatureInfo) -> Kind
    ensures { result ≡ feature_kind feature.now }
{
    let element = element_kind(feature.element);
    if feature.is_single() {
        Kind::Scalar(element)
    } else {
        Kind::Collection(feature.kind, element)
    }
}

/// The kind of a collection's elements, or of a single value.
pub fn elements_kind(kind: &Kind) -> ScalarKind
    ensures value { result ≡ elements_kind kind.now }
    ensures known { (m : Model) → IsKindOf m kind.now → IsScalarKindOf m result }
{
    match kind {
        Kind::Scalar(element) | Kind::Collection(_, element) => *element,
    }
}

/// The kind of what is collected from a collection of a kind.
pub fn collected_kind(source: CollectionKind) -> CollectionKind
    ensures { result ≡ collected_kind source }
{
    match source {
        CollectionKind::Set | CollectionKind::Bag => CollectionKind::Bag,
        CollectionKind::OrderedSet | CollectionKind::Sequence => CollectionKind::Sequence,
    }
}
