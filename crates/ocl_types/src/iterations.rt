//! Iterations, and the variables that their bodies see.

ghost use Rattle.std.specs.Prelude.{◌≡◌, IfOk, IfErr, OnOk, option_map};
ghost use Rattle.imkl_model.specs.ClassModel.{Model};
ghost use Rattle.ocl_base.specs.Steps.{Gives};
ghost use Rattle.ocl_kinds.specs.Kinds.{IsScalarKindOf, IsKindOf};
ghost use Rattle.ocl_text.specs.View.{view_type, view_variables};
ghost use Rattle.ocl_types.specs.TypedView.{typed_of};
ghost use Rattle.ocl_types.specs.declared.fault.TypeFault.TheVariants.{OutOfMemory};
ghost use Rattle.ocl_types.specs.Elaboration as spec;
ghost use Rattle.ocl_types.specs.Faults.{type_fault};
ghost use Rattle.ocl_types.specs.GatheredView.{gathered_view};
ghost use Rattle.ocl_types.specs.ScopeView.{AreKnownVariables, Extends};

use crate::declared::declared_kind;
use crate::fault::{TypeFault, TypeFlaw};
use crate::features::collect_of;
use crate::nodes;
use crate::requirements::{Gathered, asks_truth};
use crate::scope::Scope;
use crate::table::{Turn, turn_of};
use crate::typed::Typed;
use imkl_model::ClassModel;
use ocl_core::Iteration;
use ocl_kinds::{Kind, ScalarKind, comparable, fits};
use ocl_text::{DeclaredType, IteratorKind, Variable, Variables};
use std::alloc::Global;

/// The kind of a variable that stands for elements: theirs, or the type that is written.
pub(crate) fn declared_element(
    model: &ClassModel,
    element: ScalarKind,
    declared: &Option<DeclaredType>,
) -> Result<Kind, TypeFault>
    requires { IsScalarKindOf model.now element }
    ensures gives { Gives type_fault (λ k. k) result
        (spec.declared_element model.now element (option_map view_type declared.now)) }
    ensures known { IfOk result (IsKindOf model.now) }
{
    match declared {
        None => Ok(Kind::Scalar(element)),
        Some(written) => {
            let kind = declared_kind(model, written)?;
            if !fits(model, &Kind::Scalar(element), &kind) {
                return Err(TypeFault::At {
                    flaw: TypeFlaw::WrongType,
                    offset: written.offset(),
                });
            }
            Ok(kind)
        }
    }
}

/// The variables that a body sees beside those of the scope.
#[tactic(auto, using(crate::proofs::Scopes::scopes), unfolding(crate::specs::Elaboration::inner_scope))]
#[inline(never)]
pub(crate) fn push_variables<'t>(
    model: &ClassModel,
    scope: &mut Scope<'t>,
    source: &Gathered,
    variables: &'t Variables,
) -> Result<(), TypeFault>
    requires scope { AreKnownVariables model.now scope.old }
    requires source { IsScalarKindOf model.now source.now.element }
    ensures gives { Gives type_fault (λ _. scope.new) result (spec.inner_scope model.now
        scope.old (gathered_view source.now) (view_variables variables.now)) }
    ensures known { OnOk result (AreKnownVariables model.now scope.new) }
    ensures extends { OnOk result (Extends scope.old scope.new) }
{
    match variables {
        Variables::Unnamed => scope.push_implicit(Kind::Scalar(source.element))?,
        Variables::Single(variable) => {
            let kind = declared_element(model, source.element, &variable.declared)?;
            scope.push_named(&variable.name, kind)?;
        }
        Variables::Pair(first, second) => {
            let first_kind = declared_element(model, source.element, &first.declared)?;
            let second_kind = declared_element(model, source.element, &second.declared)?;
            scope.push_hidden(Kind::Collection(source.collection, source.element))?;
            scope.push_named(&first.name, first_kind)?;
            scope.push_named(&second.name, second_kind)?;
        }
    }
    Ok(())
}

/// The variable that arguments see beside those of the scope after a dot: on a collection they stand in a body, which has
/// one more.
#[tactic(auto, using(crate::proofs::Scopes::scopes))]
#[inline(never)]
pub(crate) fn push_after_dot(
    model: &ClassModel,
    scope: &mut Scope<'_>,
    kind: &Kind,
) -> Result<(), TypeFault>
    requires scope { AreKnownVariables model.now scope.old }
    requires kind { IsKindOf model.now kind.now }
    ensures seen { OnOk result (scope.new ≡ spec.seen_after_dot scope.old kind.now) }
    ensures fault { IfErr result (λ e. e ≡ OutOfMemory) }
    ensures known { OnOk result (AreKnownVariables model.now scope.new) }
    ensures extends { OnOk result (Extends scope.old scope.new) }
{
    if let Kind::Collection(_, element) = kind {
        scope.push_hidden(Kind::Scalar(*element))?;
    }
    Ok(())
}

fn unique(alloc: Global, source: Gathered, body: Typed, offset: usize) -> Result<Typed, TypeFault>
    ensures gives { Gives type_fault typed_of result (spec.unique_by (gathered_view source)
        (typed_of body).core body.kind offset) }
    ensures known { (m : Model) → IfOk result (λ t. IsKindOf m t.kind) }
{
    let Typed { core, kind } = body;
    match kind {
        Kind::Scalar(element) => {
            let iteration = Iteration::IsUnique(comparable(&element));
            Ok(Typed {
                core: nodes::iterate(alloc, iteration, source.core, core)?,
                kind: Kind::Scalar(ScalarKind::Boolean),
            })
        }
        Kind::Collection(_, _) => Err(TypeFault::At {
            flaw: TypeFlaw::NestedCollection,
            offset,
        }),
    }
}

/// An iteration over a source with a body, which stands at the offset.
fn iterate_by(
    alloc: Global,
    model: &ClassModel,
    turn: Turn,
    source: Gathered,
    body: Typed,
    offset: usize,
) -> Result<Typed, TypeFault>
    requires source { IsScalarKindOf model.now source.element }
    requires body { IsKindOf model.now body.kind }
    ensures gives { Gives type_fault typed_of result (spec.iterate_by model.now turn
        (gathered_view source) (typed_of body) offset) }
    ensures known { IfOk result (λ t. IsKindOf model.now t.kind) }
{
    match turn {
        Turn::Asks(iteration) => {
            asks_truth(model, &body.kind, offset)?;
            Ok(Typed {
                core: nodes::iterate(alloc, iteration, source.core, body.core)?,
                kind: Kind::Scalar(ScalarKind::Boolean),
            })
        }
        Turn::Keeps(iteration) => {
            asks_truth(model, &body.kind, offset)?;
            let kind = Kind::Collection(source.collection, source.element);
            Ok(Typed {
                core: nodes::iterate(alloc, iteration, source.core, body.core)?,
                kind,
            })
        }
        Turn::Gathers => Ok(collect_of(alloc, source.core, source.collection, body)?),
        Turn::Compares => unique(alloc, source, body, offset),
    }
}

/// The source as the variable of this number, and one iteration over it in the other.
fn iterate_twice(
    alloc: Global,
    model: &ClassModel,
    number: usize,
    turn: Turn,
    source: Gathered,
    body: Typed,
    offset: usize,
) -> Result<Typed, TypeFault>
    requires source { IsScalarKindOf model.now source.element }
    requires body { IsKindOf model.now body.kind }
    ensures gives { Gives type_fault typed_of result (spec.iterate_twice model.now number turn
        (gathered_view source) (typed_of body) offset) }
    ensures known { IfOk result (λ t. IsKindOf model.now t.kind) }
{
    let Gathered {
        core,
        collection,
        element,
    } = source;
    let of_inner = Gathered {
        core: nodes::variable(number),
        collection,
        element,
    };
    let inner = iterate_by(alloc, model, turn, of_inner, body, offset)?;
    let of_outer = Gathered {
        core: nodes::variable(number),
        collection,
        element,
    };
    let outer = iterate_by(alloc, model, turn, of_outer, inner, offset)?;
    Ok(Typed {
        core: nodes::let_core(alloc, core, outer.core)?,
        kind: outer.kind,
    })
}

/// An iteration, where the next variable has this number and the body stands at the offset.
#[tactic(auto, unfolding(crate::specs::Elaboration::iterate_of))]
#[inline(never)]
pub(crate) fn iterate_of(
    alloc: Global,
    model: &ClassModel,
    number: usize,
    iterator: IteratorKind,
    source: Gathered,
    variables: &Variables,
    body: Typed,
    offset: usize,
) -> Result<Typed, TypeFault>
    requires source { IsScalarKindOf model.now source.element }
    requires body { IsKindOf model.now body.kind }
    ensures gives { Gives type_fault typed_of result (spec.iterate_of model.now number iterator
        (gathered_view source) (view_variables variables.now) (typed_of body) offset) }
    ensures known { IfOk result (λ t. IsKindOf model.now t.kind) }
{
    let turn = turn_of(iterator);
    match variables {
        Variables::Unnamed | Variables::Single(_) => {
            iterate_by(alloc, model, turn, source, body, offset)
        }
        Variables::Pair(_, _) => iterate_twice(alloc, model, number, turn, source, body, offset),
    }
}
