//! What is wanted of a value: a truth value, a number, a type that is written, a collection.

ghost use Rattle.std.specs.Prelude.{◌≡◌, IfOk};
ghost use Rattle.imkl_model.specs.ClassModel.{Model};
ghost use Rattle.ocl_base.specs.Steps.{Gives};
ghost use Rattle.ocl_kinds.specs.Kinds.{IsScalarKindOf, IsKindOf, fits};
ghost use Rattle.ocl_core.specs.OperatorKinds.{basic};
ghost use Rattle.ocl_core.specs.CoreView.{core_view};
ghost use Rattle.ocl_types.specs.TypedView.{typed_of};
ghost use Rattle.ocl_types.specs.GatheredView.{gathered_view};
ghost use Rattle.ocl_types.specs.Elaboration as spec;
ghost use Rattle.ocl_types.specs.Faults.{type_fault};

use crate::fault::{TypeFault, TypeFlaw};
use crate::nodes;
use crate::typed::Typed;
use imkl_model::{ClassModel, CollectionKind};
use ocl_core::{BasicType, Core};
use ocl_kinds::{Kind, ScalarKind, fits};
use std::alloc::{AllocError, Global};

/// Whether values of a kind are of a basic type.
pub(crate) fn is_of(model: &ClassModel, kind: &Kind, wanted: BasicType) -> bool
    requires { IsKindOf model.now kind.now }
    ensures { result ≡ fits model.now kind.now (basic wanted) }
{
    fits(model, kind, &Kind::Scalar(wanted.kind()))
}

/// Refuses a node that gives no truth value.
#[inline(never)]
pub(crate) fn asks_truth(model: &ClassModel, kind: &Kind, offset: usize) -> Result<(), TypeFault>
    requires { IsKindOf model.now kind.now }
    ensures { Gives type_fault (λ u. tt) result (spec.asks_truth model.now kind.now offset) }
{
    if is_of(model, kind, BasicType::Boolean) {
        Ok(())
    } else {
        Err(TypeFault::At {
            flaw: TypeFlaw::NotBoolean,
            offset,
        })
    }
}

/// Whether null is given where a collection is wanted: it becomes the empty one.
pub(crate) fn is_empty_for(wanted: &Kind, given: &Kind) -> bool
    ensures { result ≡ spec.is_empty_for wanted.now given.now }
{
    match wanted {
        Kind::Collection(_, _) => matches!(given, Kind::Scalar(ScalarKind::Void)),
        Kind::Scalar(_) => false,
    }
}

/// Whether a value of a kind may stand where another is wanted, if need be as an empty collection.
fn stands_for(model: &ClassModel, wanted: &Kind, given: &Kind) -> bool
    requires wanted { IsKindOf model.now wanted.now }
    requires given { IsKindOf model.now given.now }
    ensures { result ≡ spec.stands_for model.now wanted.now given.now }
{
    is_empty_for(wanted, given) || fits(model, given, wanted)
}

/// A value where one of this kind is wanted.
pub(crate) fn as_wanted(alloc: Global, wanted: &Kind, value: Typed) -> Result<Core, AllocError>
    ensures { IfOk result (λ c. core_view c ≡ spec.as_wanted wanted.now (typed_of value)) }
{
    match wanted {
        Kind::Scalar(_) => Ok(value.core),
        Kind::Collection(collection, element) => match value.kind {
            Kind::Scalar(ScalarKind::Void) => {
                nodes::as_collection(alloc, *collection, *element, value.core)
            }
            _ => Ok(value.core),
        },
    }
}

/// A value where a type is declared, which is written at the offset.
#[tactic(auto, unfolding(crate::specs::Elaboration::bound_value))]
#[inline(never)]
pub(crate) fn bound_value(
    alloc: Global,
    model: &ClassModel,
    wanted: &Kind,
    value: Typed,
    offset: usize,
) -> Result<Core, TypeFault>
    requires wanted { IsKindOf model.now wanted.now }
    requires given { IsKindOf model.now value.kind }
    ensures { Gives type_fault core_view result
        (spec.bound_value model.now wanted.now (typed_of value) offset) }
{
    if !stands_for(model, wanted, &value.kind) {
        return Err(TypeFault::At {
            flaw: TypeFlaw::WrongType,
            offset,
        });
    }
    Ok(as_wanted(alloc, wanted, value)?)
}

/// What an arrow is applied to: a collection, with the kinds of it and of its elements.
#[derive(Drop)]
pub(crate) struct Gathered {
    pub(crate) core: Core,
    pub(crate) collection: CollectionKind,
    pub(crate) element: ScalarKind,
}

/// A value as the source of an arrow: a single one is a set of itself.
#[inline(never)]
pub(crate) fn source_of_arrow(alloc: Global, value: Typed) -> Result<Gathered, AllocError>
    ensures value { IfOk result (λ g. gathered_view g ≡ spec.source_of_arrow (typed_of value)) }
    ensures known { (m : Model) → IsKindOf m value.kind
        → IfOk result (λ g. IsScalarKindOf m g.element) }
{
    let Typed { core, kind } = value;
    match kind {
        Kind::Scalar(element) => Ok(Gathered {
            core: nodes::as_collection(alloc, CollectionKind::Set, element, core)?,
            collection: CollectionKind::Set,
            element,
        }),
        Kind::Collection(collection, element) => Ok(Gathered {
            core,
            collection,
            element,
        }),
    }
}
