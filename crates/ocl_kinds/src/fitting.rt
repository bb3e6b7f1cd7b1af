//! Which kind fits another, and what two kinds have in common.

ghost use Rattle.std.specs.Prelude.{◌≡◌};
ghost use Rattle.ocl_kinds.specs.Kinds.{is_same_collection, scalar_fits, fits, wider_kind, comparable, common_comparable, common_kind, IsScalarKindOf, IsKindOf};

use crate::kind::{Kind, ScalarKind};
use imkl_model::{ClassModel, CollectionKind};

/// Whether two kinds of collections are one.
pub fn is_same_collection(kind: CollectionKind, other: CollectionKind) -> bool
    ensures { result ≡ is_same_collection kind other }
{
    match kind {
        CollectionKind::Set => matches!(other, CollectionKind::Set),
        CollectionKind::OrderedSet => matches!(other, CollectionKind::OrderedSet),
        CollectionKind::Bag => matches!(other, CollectionKind::Bag),
        CollectionKind::Sequence => matches!(other, CollectionKind::Sequence),
    }
}

/// Whether a single value of a kind may stand where another kind is wanted. Both kinds are kinds of the class model.
pub fn scalar_fits(model: &ClassModel, kind: &ScalarKind, wanted: &ScalarKind) -> bool
    requires kind { IsScalarKindOf model.now kind.now }
    requires wanted { IsScalarKindOf model.now wanted.now }
    ensures { result ≡ scalar_fits model.now kind.now wanted.now }
{
    match kind {
        ScalarKind::Void => true,
        ScalarKind::Boolean => matches!(wanted, ScalarKind::Boolean),
        ScalarKind::Integer => matches!(wanted, ScalarKind::Integer),
        ScalarKind::String => matches!(wanted, ScalarKind::String),
        ScalarKind::Enumeration(enumeration) => match wanted {
            ScalarKind::Enumeration(other) => enumeration == other,
            _ => false,
        },
        ScalarKind::Class(class) => match wanted {
            ScalarKind::Class(above) => model.conforms(*class, *above),
            ScalarKind::AnyObject => true,
            _ => false,
        },
        ScalarKind::AnyObject => matches!(wanted, ScalarKind::AnyObject),
    }
}

/// Whether a value of a kind may stand where another kind is wanted. Both kinds are kinds of the class model.
pub fn fits(model: &ClassModel, kind: &Kind, wanted: &Kind) -> bool
    requires kind { IsKindOf model.now kind.now }
    requires wanted { IsKindOf model.now wanted.now }
    ensures { result ≡ fits model.now kind.now wanted.now }
{
    match kind {
        Kind::Scalar(element) => match wanted {
            Kind::Scalar(other) => scalar_fits(model, element, other),
            Kind::Collection(_, _) => false,
        },
        Kind::Collection(collection, element) => match wanted {
            Kind::Scalar(_) => false,
            Kind::Collection(same, other) => {
                is_same_collection(*collection, *same) && scalar_fits(model, element, other)
            }
        },
    }
}

/// The wider of two kinds: the one that the other fits, if there is one. Both kinds are kinds of the class model.
pub fn wider_kind(model: &ClassModel, first: &Kind, second: &Kind) -> Option<Kind>
    requires first { IsKindOf model.now first.now }
    requires second { IsKindOf model.now second.now }
    ensures { result ≡ wider_kind model.now first.now second.now }
{
    if fits(model, first, second) {
        Some(*second)
    } else if fits(model, second, first) {
        Some(*first)
    } else {
        None
    }
}

/// The kind as which values are compared: objects of a class as objects of any.
pub fn comparable(kind: &ScalarKind) -> ScalarKind
    ensures { result ≡ comparable kind.now }
{
    match kind {
        ScalarKind::Class(_) => ScalarKind::AnyObject,
        _ => *kind,
    }
}

/// What two kinds have in common as which values are compared.
fn common_comparable(first: &ScalarKind, second: &ScalarKind) -> Option<ScalarKind>
    ensures { result ≡ common_comparable first.now second.now }
{
    match (first, second) {
        (ScalarKind::Void, _) => Some(*second),
        (_, ScalarKind::Void) => Some(*first),
        (ScalarKind::Boolean, ScalarKind::Boolean) => Some(ScalarKind::Boolean),
        (ScalarKind::Integer, ScalarKind::Integer) => Some(ScalarKind::Integer),
        (ScalarKind::String, ScalarKind::String) => Some(ScalarKind::String),
        (ScalarKind::Enumeration(one), ScalarKind::Enumeration(other)) => {
            if one == other {
                Some(ScalarKind::Enumeration(*one))
            } else {
                None
            }
        }
        (ScalarKind::AnyObject, ScalarKind::AnyObject) => Some(ScalarKind::AnyObject),
        _ => None,
    }
}

/// The kind as which values of two kinds are compared, if there is one: the same one, any object for two classes, and with
/// `Void` the other's.
pub fn common_kind(first: &ScalarKind, second: &ScalarKind) -> Option<ScalarKind>
    ensures { result ≡ common_kind first.now second.now }
{
    common_comparable(&comparable(first), &comparable(second))
}
