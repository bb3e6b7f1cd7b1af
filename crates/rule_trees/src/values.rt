//! Whole numbers and texts as core trees.

ghost use Rattle.std.specs.Prelude.{◌≡◌, ◌<◌, ◌≤◌, IfOk, List, ◌∷◌, Some, length};
ghost use Rattle.ocl_core.specs.Core as tree;
ghost use Rattle.ocl_core.specs.Core.{CoreTree};
ghost use Rattle.ocl_core.specs.CoreView.{core_view};
ghost use Rattle.rule_code.specs.Content.{text_at};
ghost use Rattle.rule_trees.specs.InstrTrees as spec;

use crate::code::RuleCode;
use crate::nodes::{binary, constant, unary};
use ocl_core::{ConstantValue, Core, Operator, PlainOperator};
use ocl_text::WholeNumber;
use ocl_tokens::MAX_NUMBER;
use rule_code::TextNumber;
use std::alloc::{AllocError, Global};

/// A whole number.
fn number(value: u64) -> Core
    requires { value ≤ MAX_NUMBER }
    ensures { core_view result ≡ spec.number value }
{
    constant(ConstantValue::Integer(WholeNumber::new(value)))
}

/// The opposite of a whole number.
fn negated(alloc: Global, value: u64) -> Result<Core, AllocError>
    requires { value ≤ MAX_NUMBER }
    ensures { IfOk result (λ c. core_view c ≡ spec.negated value) }
{
    unary(alloc, Operator::Plain(PlainOperator::Negate), number(value))
}

/// An Integer. The least one has no opposite: it is one less than the next.
pub(crate) fn integer(alloc: Global, value: i64) -> Result<Core, AllocError>
    ensures { IfOk result (λ c. (trees : List CoreTree) →
        spec.integer_over value trees ≡ Some (core_view c ∷ trees)) }
{
    let size = value.unsigned_abs();
    if value >= 0 {
        Ok(number(size))
    } else if size <= MAX_NUMBER {
        negated(alloc, size)
    } else {
        let next = negated(alloc, MAX_NUMBER)?;
        binary(
            alloc,
            Operator::Plain(PlainOperator::Subtract),
            next,
            number(1),
        )
    }
}

/// A text of the unit, copied.
pub(crate) fn text(
    alloc: Global,
    code: &RuleCode<'_>,
    number: TextNumber,
) -> Result<Core, AllocError>
    requires { number.0 < length code.now.accepted.now.unit.texts }
    ensures { IfOk result (λ c. core_view c
        ≡ tree.Value (tree.Text (text_at code.now.accepted.now.unit.texts number.0))) }
{
    let text = String::from_str(alloc, code.accepted.unit().text(number))?;
    Ok(constant(ConstantValue::Text(text)))
}
