//! Folds: a value that is accumulated over a collection.

ghost use Rattle.std.specs.Prelude.{◌≡◌, IfOk, IfErr, OnOk};
ghost use Rattle.ocl_base.specs.Steps.{Gives};
ghost use Rattle.ocl_kinds.specs.Kinds.{IsScalarKindOf, IsKindOf};
ghost use Rattle.ocl_text.specs.View.{view_type};
ghost use Rattle.ocl_core.specs.CoreView.{core_view};
ghost use Rattle.ocl_types.specs.TypedView.{typed_of};
ghost use Rattle.ocl_types.specs.Elaboration as spec;
ghost use Rattle.ocl_types.specs.Faults.{type_fault};
ghost use Rattle.ocl_types.specs.declared.fault.TypeFault.TheVariants.{OutOfMemory};
ghost use Rattle.ocl_types.specs.GatheredView.{gathered_view};
ghost use Rattle.ocl_types.specs.Scope as names;
ghost use Rattle.ocl_types.specs.ScopeView.{AreKnownVariables, Extends};

use crate::declared::declared_kind;
use crate::fault::{TypeFault, TypeFlaw};
use crate::nodes;
use crate::requirements::Gathered;
use crate::scope::Scope;
use crate::typed::Typed;
use imkl_model::ClassModel;
use ocl_core::Core;
use ocl_kinds::{Kind, ScalarKind, fits};
use ocl_text::{DeclaredType, Name};
use std::alloc::Global;

/// An accumulator's kind and its start value.
#[derive(Drop)]
pub(crate) struct Start {
    pub(crate) kind: ScalarKind,
    pub(crate) core: Core,
}

/// What a fold has before its body: its source, what each of its elements is taken as, and the start value.
#[derive(Drop)]
pub(crate) struct Begun {
    pub(crate) source: Gathered,
    pub(crate) element: Kind,
    pub(crate) start: Box<Start>,
}

/// The kind of an accumulator's values, where they may be accumulated.
fn accumulator_scalar(kind: &Kind) -> Option<ScalarKind>
    ensures { result ≡ spec.accumulator_scalar kind.now }
{
    match kind {
        Kind::Scalar(ScalarKind::Boolean) => Some(ScalarKind::Boolean),
        Kind::Scalar(ScalarKind::Integer) => Some(ScalarKind::Integer),
        Kind::Scalar(ScalarKind::Enumeration(e)) => Some(ScalarKind::Enumeration(*e)),
        Kind::Scalar(ScalarKind::Class(c)) => Some(ScalarKind::Class(*c)),
        _ => None,
    }
}

/// The kind of an accumulator whose type is written so.
#[tactic(auto, unfolding(crate::specs::Elaboration::accumulator_kind), using(crate::proofs::TypedFolds::accumulated_known))]
#[inline(never)]
pub(crate) fn accumulator_kind(
    model: &ClassModel,
    declared: &DeclaredType,
) -> Result<ScalarKind, TypeFault>
    ensures gives { Gives type_fault (λ k. k) result
        (spec.accumulator_kind model.now (view_type declared.now)) }
    ensures known { IfOk result (IsScalarKindOf model.now) }
{
    let kind = declared_kind(model, declared)?;
    match accumulator_scalar(&kind) {
        Some(scalar) => Ok(scalar),
        None => Err(TypeFault::At {
            flaw: TypeFlaw::WrongType,
            offset: declared.offset(),
        }),
    }
}

/// The element and the accumulator, which the body of a fold sees beside the variables of the scope.
#[tactic(auto, using(crate::proofs::Scopes::scopes))]
#[inline(never)]
pub(crate) fn push_both<'t>(
    model: &ClassModel,
    scope: &mut Scope<'t>,
    variable: &'t Name,
    element: Kind,
    accumulator: &'t Name,
    kind: ScalarKind,
) -> Result<(), TypeFault>
    requires scope { AreKnownVariables model.now scope.old }
    requires element { IsKindOf model.now element }
    requires kind { IsScalarKindOf model.now kind }
    ensures pushed { OnOk result (scope.new ≡ spec.fold_scope scope.old
        (names.scope_variable (names.Named variable.now) element) accumulator.now kind) }
    ensures fault { IfErr result (λ e. e ≡ OutOfMemory) }
    ensures known { OnOk result (AreKnownVariables model.now scope.new) }
    ensures extends { OnOk result (Extends scope.old scope.new) }
{
    scope.push_named(variable, element)?;
    scope.push_named(accumulator, Kind::Scalar(kind))?;
    Ok(())
}

/// A fold over a source, with a body that stands at the offset.
#[tactic(auto, unfolding(crate::specs::Elaboration::fold_of))]
#[inline(never)]
pub(crate) fn fold_of(
    alloc: Global,
    model: &ClassModel,
    source: Gathered,
    start: Start,
    body: Typed,
    offset: usize,
) -> Result<Typed, TypeFault>
    requires kind { IsScalarKindOf model.now start.kind }
    requires body { IsKindOf model.now body.kind }
    ensures gives { Gives type_fault typed_of result (spec.fold_of model.now start.kind
        (gathered_view source) (core_view start.core) (typed_of body) offset) }
    ensures known { IfOk result (λ t. IsKindOf model.now t.kind) }
{
    let kind = Kind::Scalar(start.kind);
    if !fits(model, &body.kind, &kind) {
        return Err(TypeFault::At {
            flaw: TypeFlaw::WrongType,
            offset,
        });
    }
    Ok(Typed {
        core: nodes::fold(alloc, start.kind, source.core, start.core, body.core)?,
        kind,
    })
}
