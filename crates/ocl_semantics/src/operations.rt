//! Operations, by their operators.

ghost use Rattle.std.specs.Prelude.{◌≡◌, ◌<◌, ◌∷◌, [], length, map, IfOk};
ghost use Rattle.ocl_core.specs.declared.operator.PlainOperator.TheVariants as plain;
ghost use Rattle.ocl_semantics.specs.Meaning.{plain_value, class_value, element_operation, equality_value, operation_value};
ghost use Rattle.ocl_semantics.specs.Resolved.{IsOperatorOf};
ghost use Rattle.owned_values.specs.Meant.{meant, IsValueThere};

use imkl_model::ClassNo;
use imkl_population::Population;
use ocl_base::OutOfMemory;
use ocl_core::{ClassOperator, ElementOperator, Operator, PlainOperator};
use owned_values::{
    Value, absolute, addition, as_set, at_most, both_null, cast, collection_size, conjunction,
    disjunction, division, emptiness, equality, exclusion, exclusive_disjunction, greater,
    implication, inclusion, invalid_test, kind_test, less_than, lesser, membership, multiplication,
    negation, negative, occurrence_count, remainder, substring, subtraction, summation,
    text_length, type_test, undefined_test,
};
use std::alloc::Global;

/// What an operator makes of one operand; invalid where it wants more.
fn on_one<'a>(operator: PlainOperator, v: &Value<'a>) -> Value<'a>
    ensures { meant result ≡ plain_value operator (meant v.now) [] }
{
    match operator {
        PlainOperator::Negate => negative(v),
        PlainOperator::Absolute => absolute(v),
        PlainOperator::CharacterCount => text_length(v),
        PlainOperator::Not => negation(v),
        PlainOperator::IsUndefined => undefined_test(v),
        PlainOperator::IsInvalid => invalid_test(v),
        PlainOperator::ElementCount => collection_size(v),
        PlainOperator::IsEmpty => emptiness(v),
        PlainOperator::Sum => summation(v),
        _ => Value::Invalid,
    }
}

/// What an operator makes of a text and its bounds, of which the upper one may not be there.
fn part<'a>(v: &Value<'a>, lower: &Value<'a>, others: &[Value<'a>]) -> Value<'a>
    ensures { meant result ≡ plain_value plain.Substring (meant v.now)
        (meant lower.now ∷ map meant others.now) }
{
    match others {
        [] => Value::Invalid,
        [upper, ..] => substring(v, lower, upper),
    }
}

/// What an operator makes of two operands or more.
fn on_more<'a>(
    operator: PlainOperator,
    v: &Value<'a>,
    w: &Value<'a>,
    others: &[Value<'a>],
) -> Value<'a>
    ensures { meant result ≡ plain_value operator (meant v.now)
        (meant w.now ∷ map meant others.now) }
{
    match operator {
        PlainOperator::Add => addition(v, w),
        PlainOperator::Subtract => subtraction(v, w),
        PlainOperator::Multiply => multiplication(v, w),
        PlainOperator::Divide => division(v, w),
        PlainOperator::Modulo => remainder(v, w),
        PlainOperator::Minimum => lesser(v, w),
        PlainOperator::Maximum => greater(v, w),
        PlainOperator::Less => less_than(v, w),
        PlainOperator::LessEqual => at_most(v, w),
        PlainOperator::Greater => less_than(w, v),
        PlainOperator::GreaterEqual => at_most(w, v),
        PlainOperator::And => conjunction(v, w),
        PlainOperator::Or => disjunction(v, w),
        PlainOperator::Xor => exclusive_disjunction(v, w),
        PlainOperator::Implies => implication(v, w),
        PlainOperator::BothNull => both_null(v, w),
        PlainOperator::Substring => part(v, w, others),
        _ => on_one(operator, v),
    }
}

/// What an operator that its name alone describes makes of its operands.
fn plain_value<'a>(operator: PlainOperator, v: &Value<'a>, others: &[Value<'a>]) -> Value<'a>
    ensures { meant result ≡ plain_value operator (meant v.now) (map meant others.now) }
{
    match others {
        [] => on_one(operator, v),
        [w, more @ ..] => on_more(operator, v, w, more),
    }
}

/// What an operator that asks for a class makes of a value.
fn class_value<'a>(
    population: &Population<'_>,
    operator: ClassOperator,
    class: ClassNo,
    v: &Value<'a>,
) -> Value<'a>
    requires class { class < length population.now.content.model.classes }
    requires there { IsValueThere population.now.content (meant v.now) }
    ensures { meant result ≡ class_value population.now.content operator class (meant v.now) }
{
    match operator {
        ClassOperator::IsKindOf => kind_test(population, class, v),
        ClassOperator::IsTypeOf => type_test(population, class, v),
        ClassOperator::AsType => cast(population, class, v),
    }
}

/// What an operator on elements makes of a collection and what it is compared with.
fn element_operation<'a>(
    alloc: Global,
    operator: ElementOperator,
    v: &Value<'a>,
    others: &[Value<'a>],
) -> Result<Value<'a>, OutOfMemory>
    ensures { IfOk result (λ r. meant r ≡
        element_operation operator (meant v.now) (map meant others.now)) }
{
    match (operator, others) {
        (ElementOperator::AsSet, _) => as_set(alloc, v),
        (ElementOperator::Includes, [w, ..]) => Ok(membership(v, w)),
        (ElementOperator::Occurrences, [w, ..]) => Ok(occurrence_count(v, w)),
        (ElementOperator::IncludesAll, [w, ..]) => Ok(inclusion(v, w)),
        (ElementOperator::ExcludesAll, [w, ..]) => Ok(exclusion(v, w)),
        _ => Ok(Value::Invalid),
    }
}

/// Whether two values are equal.
fn equality_value<'a>(v: &Value<'a>, others: &[Value<'a>]) -> Value<'a>
    ensures { meant result ≡ equality_value (meant v.now) (map meant others.now) }
{
    match others {
        [] => Value::Invalid,
        [w, ..] => equality(v, w),
    }
}

/// What an operation gives, on a first operand and the others in order.
pub(crate) fn operation_value<'a>(
    alloc: Global,
    population: &Population<'_>,
    operator: Operator,
    v: &Value<'a>,
    others: &[Value<'a>],
) -> Result<Value<'a>, OutOfMemory>
    requires operator { IsOperatorOf population.now.content.model operator }
    requires there { IsValueThere population.now.content (meant v.now) }
    ensures { IfOk result (λ r. meant r ≡ operation_value population.now.content operator
        (meant v.now) (map meant others.now)) }
{
    match operator {
        Operator::Plain(plain) => Ok(plain_value(plain, v, others)),
        Operator::OfClass(of_class, class) => Ok(class_value(population, of_class, class, v)),
        Operator::OfElements(of_elements, _) => element_operation(alloc, of_elements, v, others),
        Operator::Equal(_) => Ok(equality_value(v, others)),
    }
}
