//! Nodes over values in boxes, for the walk: see there why.

ghost use Rattle.std.specs.Prelude.{IfOk};
ghost use Rattle.ocl_base.specs.Steps.{Gives};
ghost use Rattle.ocl_kinds.specs.Kinds.{IsScalarKindOf, IsKindOf};
ghost use Rattle.ocl_text.specs.View.{view_variables};
ghost use Rattle.ocl_types.specs.CallView.{arguments_view, AreKnownArguments};
ghost use Rattle.ocl_types.specs.TypedView.{typed_in};
ghost use Rattle.ocl_types.specs.Elaboration as spec;
ghost use Rattle.ocl_types.specs.Faults.{type_fault};
ghost use Rattle.ocl_types.specs.FoldView.{start_in};
ghost use Rattle.ocl_types.specs.GatheredView.{gathered_view};

use crate::calls::Arguments;
use crate::fault::TypeFault;
use crate::folds::Start;
use crate::requirements::{Gathered, source_of_arrow};
use crate::typed::Typed;
use crate::{branches, calls, features, folds, iterations, operators};
use imkl_model::ClassModel;
use ocl_text::{BinaryOperator, IteratorKind, PrefixOperator, Variables};
use std::alloc::Global;

/// An operator before an operand, which stands at its own offset.
#[inline(never)]
pub(crate) fn prefix_of(
    alloc: Global,
    model: &ClassModel,
    operator: PrefixOperator,
    operand: Box<Typed>,
    operand_offset: usize,
    offset: usize,
) -> Result<Box<Typed>, TypeFault>
    requires { IsKindOf model.now operand.value.kind }
    ensures gives { Gives type_fault typed_in result
        (spec.prefix_of model.now operator (typed_in operand) operand_offset offset) }
    ensures known { IfOk result (λ b. IsKindOf model.now b.value.kind) }
{
    let operand = Box::into_inner(operand);
    let value = operators::prefix_of(alloc, model, operator, operand, operand_offset, offset)?;
    Ok(Box::new(alloc, value)?)
}

/// An operator between two operands; the right one stands at its own offset.
#[inline(never)]
pub(crate) fn binary_of(
    alloc: Global,
    model: &ClassModel,
    operator: BinaryOperator,
    left: Box<Typed>,
    right: Box<Typed>,
    right_offset: usize,
    offset: usize,
) -> Result<Box<Typed>, TypeFault>
    requires left { IsKindOf model.now left.value.kind }
    requires right { IsKindOf model.now right.value.kind }
    ensures gives { Gives type_fault typed_in result (spec.binary_of model.now operator
        (typed_in left) (typed_in right) right_offset offset) }
    ensures known { IfOk result (λ b. IsKindOf model.now b.value.kind) }
{
    let left = Box::into_inner(left);
    let right = Box::into_inner(right);
    let value = operators::binary_of(alloc, model, operator, left, right, right_offset, offset)?;
    Ok(Box::new(alloc, value)?)
}

/// A feature of an object, or of each element of a collection, which is the variable of this number.
#[inline(never)]
pub(crate) fn property_of(
    alloc: Global,
    model: &ClassModel,
    number: usize,
    source: Box<Typed>,
    name: &str,
    offset: usize,
) -> Result<Box<Typed>, TypeFault>
    requires { IsKindOf model.now source.value.kind }
    ensures gives { Gives type_fault typed_in result
        (spec.property_of model.now number (typed_in source) name.now offset) }
    ensures known { IfOk result (λ b. IsKindOf model.now b.value.kind) }
{
    let source = Box::into_inner(source);
    let value = features::property_of(alloc, model, number, source, name, offset)?;
    Ok(Box::new(alloc, value)?)
}

/// A call by a dot: on a single value, or on each element of a collection, which is the variable of this number.
#[inline(never)]
pub(crate) fn dot_call(
    alloc: Global,
    model: &ClassModel,
    number: usize,
    source: Box<Typed>,
    name: &str,
    arguments: Arguments,
    offset: usize,
) -> Result<Box<Typed>, TypeFault>
    requires source { IsKindOf model.now source.value.kind }
    requires arguments { AreKnownArguments model.now arguments }
    ensures gives { Gives type_fault typed_in result (spec.dot_call model.now number
        (typed_in source).core source.value.kind name.now (arguments_view arguments) offset) }
    ensures known { IfOk result (λ b. IsKindOf model.now b.value.kind) }
{
    let source = Box::into_inner(source);
    let value = calls::dot_call(alloc, model, number, source, name, arguments, offset)?;
    Ok(Box::new(alloc, value)?)
}

/// A call by an arrow on a value.
#[inline(never)]
pub(crate) fn arrow_call(
    alloc: Global,
    model: &ClassModel,
    source: Box<Typed>,
    name: &str,
    arguments: Arguments,
    offset: usize,
) -> Result<Box<Typed>, TypeFault>
    requires source { IsKindOf model.now source.value.kind }
    requires arguments { AreKnownArguments model.now arguments }
    ensures gives { Gives type_fault typed_in result (spec.arrow_call model.now
        (spec.source_of_arrow (typed_in source)) name.now (arguments_view arguments) offset) }
    ensures known { IfOk result (λ b. IsKindOf model.now b.value.kind) }
{
    let source = source_of_arrow(alloc, Box::into_inner(source))?;
    let value = calls::arrow_call(alloc, model, source, name, arguments, offset)?;
    Ok(Box::new(alloc, value)?)
}

/// An iteration, where the next variable has this number and the body stands at the offset.
#[inline(never)]
pub(crate) fn iterate_of(
    alloc: Global,
    model: &ClassModel,
    number: usize,
    iterator: IteratorKind,
    source: Gathered,
    variables: &Variables,
    body: Box<Typed>,
    offset: usize,
) -> Result<Box<Typed>, TypeFault>
    requires source { IsScalarKindOf model.now source.element }
    requires body { IsKindOf model.now body.value.kind }
    ensures gives { Gives type_fault typed_in result (spec.iterate_of model.now number iterator
        (gathered_view source) (view_variables variables.now) (typed_in body) offset) }
    ensures known { IfOk result (λ b. IsKindOf model.now b.value.kind) }
{
    let body = Box::into_inner(body);
    let value = iterations::iterate_of(
        alloc, model, number, iterator, source, variables, body, offset,
    )?;
    Ok(Box::new(alloc, value)?)
}

/// A fold, with a body that stands at the offset.
#[inline(never)]
pub(crate) fn fold_of(
    alloc: Global,
    model: &ClassModel,
    source: Gathered,
    start: Box<Start>,
    body: Box<Typed>,
    offset: usize,
) -> Result<Box<Typed>, TypeFault>
    requires kind { IsScalarKindOf model.now start.value.kind }
    requires body { IsKindOf model.now body.value.kind }
    ensures gives { Gives type_fault typed_in result (spec.fold_of model.now (start_in start).kind
        (gathered_view source) (start_in start).core (typed_in body) offset) }
    ensures known { IfOk result (λ b. IsKindOf model.now b.value.kind) }
{
    let start = Box::into_inner(start);
    let body = Box::into_inner(body);
    let value = folds::fold_of(alloc, model, source, start, body, offset)?;
    Ok(Box::new(alloc, value)?)
}

/// One of two branches, by a condition.
#[inline(never)]
pub(crate) fn if_of(
    alloc: Global,
    model: &ClassModel,
    condition: Box<Typed>,
    then_branch: Box<Typed>,
    else_branch: Box<Typed>,
    offset: usize,
) -> Result<Box<Typed>, TypeFault>
    requires then_branch { IsKindOf model.now then_branch.value.kind }
    requires else_branch { IsKindOf model.now else_branch.value.kind }
    ensures gives { Gives type_fault typed_in result (spec.if_of model.now
        (typed_in condition).core (typed_in then_branch) (typed_in else_branch) offset) }
    ensures known { IfOk result (λ b. IsKindOf model.now b.value.kind) }
{
    let Typed { core, .. } = Box::into_inner(condition);
    let then_branch = Box::into_inner(then_branch);
    let else_branch = Box::into_inner(else_branch);
    let value = branches::if_of(alloc, model, core, then_branch, else_branch, offset)?;
    Ok(Box::new(alloc, value)?)
}
