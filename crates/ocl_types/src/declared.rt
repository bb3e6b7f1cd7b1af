//! Types as they are written.

ghost use Rattle.std.specs.Prelude.{◌≡◌, IfSome, IfOk};
ghost use Rattle.ocl_base.specs.Steps.{Gives};
ghost use Rattle.ocl_kinds.specs.Kinds.{IsScalarKindOf, IsKindOf};
ghost use Rattle.ocl_text.specs.View.{view_type};
ghost use Rattle.ocl_types.specs.Faults.{type_fault};
ghost use Rattle.ocl_types.specs.Elaboration as spec;

use crate::fault::{TypeFault, TypeFlaw};
use imkl_model::{ClassModel, CollectionKind};
use ocl_kinds::{Kind, ScalarKind};
use ocl_text::DeclaredType;

fn collection_named(name: &str) -> Option<CollectionKind>
    ensures { result ≡ spec.collection_named name.now }
{
    match name {
        "Set" => Some(CollectionKind::Set),
        "OrderedSet" => Some(CollectionKind::OrderedSet),
        "Bag" => Some(CollectionKind::Bag),
        "Sequence" => Some(CollectionKind::Sequence),
        _ => None,
    }
}

fn basic_named(name: &str) -> Option<ScalarKind>
    ensures { result ≡ spec.basic_named name.now }
{
    match name {
        "Boolean" => Some(ScalarKind::Boolean),
        "Integer" => Some(ScalarKind::Integer),
        "String" => Some(ScalarKind::String),
        _ => None,
    }
}

/// The type of this name that is no collection: a basic type, an enumeration or a class.
fn scalar_named(model: &ClassModel, name: &str) -> Option<ScalarKind>
    ensures value { result ≡ spec.scalar_named model.now name.now }
    ensures known { IfSome result (IsScalarKindOf model.now) }
{
    if let Some(kind) = basic_named(name) {
        return Some(kind);
    }
    if let Some(enumeration) = model.enumeration(name) {
        return Some(ScalarKind::Enumeration(enumeration));
    }
    match model.class(name) {
        Some(class) => Some(ScalarKind::Class(class)),
        None => None,
    }
}

fn known_scalar(model: &ClassModel, name: &str, offset: usize) -> Result<ScalarKind, TypeFault>
    ensures gives { Gives type_fault (λ k. k) result (spec.known_scalar model.now name.now offset) }
    ensures known { IfOk result (IsScalarKindOf model.now) }
{
    match scalar_named(model, name) {
        Some(kind) => Ok(kind),
        None => Err(TypeFault::At {
            flaw: TypeFlaw::UnknownName,
            offset,
        }),
    }
}

/// The type of a collection's elements.
#[tactic(auto, using(ocl_text::proofs::ForAbove::type_views))]
fn inner_type(model: &ClassModel, declared: &DeclaredType) -> Result<ScalarKind, TypeFault>
    ensures gives { Gives type_fault (λ k. k) result
        (spec.inner_type model.now (view_type declared.now)) }
    ensures known { IfOk result (IsScalarKindOf model.now) }
{
    match declared {
        DeclaredType::Named { name, offset } => known_scalar(model, name.as_str(), *offset),
        DeclaredType::Collection { name, offset, .. } => {
            let flaw = match collection_named(name.as_str()) {
                Some(_) => TypeFlaw::NestedCollection,
                None => TypeFlaw::UnknownName,
            };
            Err(TypeFault::At {
                flaw,
                offset: *offset,
            })
        }
    }
}

/// The kind of the values of a type.
#[tactic(auto, using(ocl_text::proofs::ForAbove::type_views), unfolding(crate::specs::Elaboration::declared_kind))]
#[inline(never)]
pub(crate) fn declared_kind(model: &ClassModel, declared: &DeclaredType) -> Result<Kind, TypeFault>
    ensures gives { Gives type_fault (λ k. k) result
        (spec.declared_kind model.now (view_type declared.now)) }
    ensures known { IfOk result (IsKindOf model.now) }
{
    match declared {
        DeclaredType::Named { name, offset } => {
            Ok(Kind::Scalar(known_scalar(model, name.as_str(), *offset)?))
        }
        DeclaredType::Collection {
            name,
            element,
            offset,
        } => {
            let Some(collection) = collection_named(name.as_str()) else {
                return Err(TypeFault::At {
                    flaw: TypeFlaw::UnknownName,
                    offset: *offset,
                });
            };
            let element = inner_type(model, element)?;
            Ok(Kind::Collection(collection, element))
        }
    }
}
