//! Features, and the shorthand on collections.

ghost use Rattle.std.specs.Prelude.{◌≡◌, IfOk};
ghost use Rattle.imkl_model.specs.ClassModel.{Model};
ghost use Rattle.ocl_base.specs.Steps.{Gives};
ghost use Rattle.ocl_kinds.specs.Kinds.{IsKindOf};
ghost use Rattle.ocl_core.specs.CoreView.{core_view};
ghost use Rattle.ocl_types.specs.TypedView.{typed_of};
ghost use Rattle.ocl_types.specs.Elaboration as spec;
ghost use Rattle.ocl_types.specs.Faults.{type_fault};

use crate::fault::{TypeFault, TypeFlaw};
use crate::names::feature_value;
use crate::nodes;
use crate::scope::feature_of;
use crate::typed::Typed;
use imkl_model::{ClassModel, CollectionKind};
use ocl_core::{Core, Iteration};
use ocl_kinds::{Kind, collected_kind};
use std::alloc::{AllocError, Global};

/// The values of a body for each element; a body that is a collection is flattened.
pub(crate) fn collect_of(
    alloc: Global,
    source: Core,
    collection: CollectionKind,
    body: Typed,
) -> Result<Typed, AllocError>
    ensures value { IfOk result (λ t. typed_of t
        ≡ spec.collect_of (core_view source) collection (typed_of body)) }
    ensures known { (m : Model) → IsKindOf m body.kind → IfOk result (λ t. IsKindOf m t.kind) }
{
    let Typed { core, kind } = body;
    let collected = collected_kind(collection);
    match kind {
        Kind::Scalar(element) => Ok(Typed {
            core: nodes::iterate(alloc, Iteration::Collect, source, core)?,
            kind: Kind::Collection(collected, element),
        }),
        Kind::Collection(_, element) => Ok(Typed {
            core: nodes::iterate(alloc, Iteration::CollectFlat, source, core)?,
            kind: Kind::Collection(collected, element),
        }),
    }
}

/// A feature of an object, or of each element of a collection, which is the variable of this number.
#[tactic(auto, unfolding(crate::specs::Elaboration::property_of))]
#[inline(never)]
pub(crate) fn property_of(
    alloc: Global,
    model: &ClassModel,
    number: usize,
    source: Typed,
    name: &str,
    offset: usize,
) -> Result<Typed, TypeFault>
    requires { IsKindOf model.now source.kind }
    ensures gives { Gives type_fault typed_of result
        (spec.property_of model.now number (typed_of source) name.now offset) }
    ensures known { IfOk result (λ t. IsKindOf model.now t.kind) }
{
    let Typed { core, kind } = source;
    let unknown = TypeFault::At {
        flaw: TypeFlaw::UnknownName,
        offset,
    };
    match kind {
        Kind::Scalar(element) => match feature_of(model, &Kind::Scalar(element), name) {
            Some(feature) => Ok(feature_value(alloc, model, core, feature)?),
            None => Err(unknown),
        },
        Kind::Collection(collection, element) => {
            match feature_of(model, &Kind::Scalar(element), name) {
                Some(feature) => {
                    let each = nodes::variable(number);
                    let body = feature_value(alloc, model, each, feature)?;
                    Ok(collect_of(alloc, core, collection, body)?)
                }
                None => Err(unknown),
            }
        }
    }
}
