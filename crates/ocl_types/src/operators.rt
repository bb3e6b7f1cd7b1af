//! Operators before an operand and between two.

ghost use Rattle.std.specs.Prelude.{◌≡◌, IfOk};
ghost use Rattle.ocl_base.specs.Steps.{Gives};
ghost use Rattle.ocl_kinds.specs.Kinds.{IsKindOf};
ghost use Rattle.ocl_types.specs.TypedView.{typed_of};
ghost use Rattle.ocl_types.specs.Elaboration as spec;
ghost use Rattle.ocl_types.specs.Faults.{type_fault};

use crate::fault::{TypeFault, TypeFlaw};
use crate::nodes;
use crate::requirements::{asks_truth, is_of};
use crate::table::{Binary, operands_of};
use crate::typed::Typed;
use imkl_model::ClassModel;
use ocl_core::{BasicType, Operator, PlainOperator};
use ocl_kinds::{Kind, ScalarKind, common_kind, is_same_collection};
use ocl_text::{BinaryOperator, PrefixOperator};
use std::alloc::Global;

const TRUTH: Kind = Kind::Scalar(ScalarKind::Boolean);

const NUMBER: Kind = Kind::Scalar(ScalarKind::Integer);

/// An operator before an operand, which stands at its own offset.
#[tactic(auto, unfolding(crate::specs::Elaboration::prefix_of))]
#[inline(never)]
pub(crate) fn prefix_of(
    alloc: Global,
    model: &ClassModel,
    operator: PrefixOperator,
    operand: Typed,
    operand_offset: usize,
    offset: usize,
) -> Result<Typed, TypeFault>
    requires { IsKindOf model.now operand.kind }
    ensures gives { Gives type_fault typed_of result
        (spec.prefix_of model.now operator (typed_of operand) operand_offset offset) }
    ensures known { IfOk result (λ t. IsKindOf model.now t.kind) }
{
    match operator {
        PrefixOperator::Not => {
            asks_truth(model, &operand.kind, operand_offset)?;
            let not = Operator::Plain(PlainOperator::Not);
            Ok(Typed {
                core: nodes::unary(alloc, not, operand.core)?,
                kind: TRUTH,
            })
        }
        PrefixOperator::Negate => {
            if !is_of(model, &operand.kind, BasicType::Integer) {
                return Err(TypeFault::At {
                    flaw: TypeFlaw::WrongType,
                    offset,
                });
            }
            let negate = Operator::Plain(PlainOperator::Negate);
            Ok(Typed {
                core: nodes::unary(alloc, negate, operand.core)?,
                kind: NUMBER,
            })
        }
    }
}

/// Refuses a left operand, before the right one is looked at, where an operator asks for a truth value.
#[tactic(auto, unfolding(crate::specs::Elaboration::left_of))]
#[inline(never)]
pub(crate) fn left_of(
    model: &ClassModel,
    operator: BinaryOperator,
    kind: &Kind,
    offset: usize,
) -> Result<(), TypeFault>
    requires { IsKindOf model.now kind.now }
    ensures { Gives type_fault (λ u. tt) result (spec.left_of model.now operator kind.now offset) }
{
    match operands_of(operator) {
        Binary::Truths(_) => asks_truth(model, kind, offset),
        Binary::Numbers(_, _) | Binary::Equality { .. } => Ok(()),
    }
}

/// The operator that compares values of two kinds.
fn equality_operator(left: &Kind, right: &Kind) -> Option<Operator>
    ensures { result ≡ spec.equality_operator left.now right.now }
{
    const BOTH_NULL: Operator = Operator::Plain(PlainOperator::BothNull);
    match (left, right) {
        (Kind::Scalar(one), Kind::Scalar(other)) => match common_kind(one, other) {
            Some(common) => Some(Operator::Equal(Kind::Scalar(common))),
            None => Some(BOTH_NULL),
        },
        (Kind::Collection(kind, one), Kind::Collection(same, other)) => {
            if !is_same_collection(*kind, *same) {
                return Some(BOTH_NULL);
            }
            match common_kind(one, other) {
                Some(common) => Some(Operator::Equal(Kind::Collection(*kind, common))),
                None => None,
            }
        }
        (Kind::Scalar(_), Kind::Collection(_, _)) | (Kind::Collection(_, _), Kind::Scalar(_)) => {
            Some(BOTH_NULL)
        }
    }
}

/// An operator between two operands; the right one stands at its own offset.
#[tactic(auto, unfolding(crate::specs::Elaboration::binary_of))]
#[inline(never)]
pub(crate) fn binary_of(
    alloc: Global,
    model: &ClassModel,
    operator: BinaryOperator,
    left: Typed,
    right: Typed,
    right_offset: usize,
    offset: usize,
) -> Result<Typed, TypeFault>
    requires left { IsKindOf model.now left.kind }
    requires right { IsKindOf model.now right.kind }
    ensures gives { Gives type_fault typed_of result (spec.binary_of model.now operator
        (typed_of left) (typed_of right) right_offset offset) }
    ensures known { IfOk result (λ t. IsKindOf model.now t.kind) }
{
    let wrong_type = TypeFault::At {
        flaw: TypeFlaw::WrongType,
        offset,
    };
    match operands_of(operator) {
        Binary::Numbers(operator, result) => {
            if !(is_of(model, &left.kind, BasicType::Integer)
                && is_of(model, &right.kind, BasicType::Integer))
            {
                return Err(wrong_type);
            }
            let plain = Operator::Plain(operator);
            Ok(Typed {
                core: nodes::binary(alloc, plain, left.core, right.core)?,
                kind: Kind::Scalar(result.kind()),
            })
        }
        Binary::Truths(operator) => {
            asks_truth(model, &right.kind, right_offset)?;
            let plain = Operator::Plain(operator);
            Ok(Typed {
                core: nodes::binary(alloc, plain, left.core, right.core)?,
                kind: TRUTH,
            })
        }
        Binary::Equality { is_negated } => {
            let Some(operator) = equality_operator(&left.kind, &right.kind) else {
                return Err(wrong_type);
            };
            let equal = nodes::binary(alloc, operator, left.core, right.core)?;
            Ok(Typed {
                core: nodes::negation_if(alloc, is_negated, equal)?,
                kind: TRUTH,
            })
        }
    }
}
