//! Why a value is null or invalid, where that begins.

ghost use Rattle.std.specs.Prelude.{◌≡◌, ◌++◌, ◌∷◌, ◌<◌, length, map, OnOk, string_bytes};
ghost use Rattle.std.specs.List.{list_any};
ghost use Rattle.rule_values.specs.Operations.{is_null, is_invalid};
ghost use Rattle.owned_values.specs.Meant.{meant, meant_element, meant_elements, IsValueThere};
ghost use Rattle.ocl_semantics.specs.Resolved.{IsOperatorOf, AreThere};
ghost use Rattle.explain_why.specs.Reasons.{is_null_element, sum_reason, divisor_reason, quotient_reason, plain_reason, other_class_reason, cast_reason, class_reason, own_reason, invalid_reason, operation_reason, absent_reason, feature_reason, choice_reason};

use crate::differences::put_difference;
use crate::pieces::put;
use crate::values::{put_object, put_value_class};
use imkl_model::{ClassNo, FeatureNo};
use imkl_population::{ObjectNo, Population};
use ocl_base::OutOfMemory;
use ocl_core::{ClassOperator, Operator, PlainOperator};
use owned_values::{Element, Value, is_false, is_invalid, is_null};
use std::alloc::Global;

/// Whether an element is null.
fn is_null_element(element: &Element<'_>) -> bool
    ensures { result ≡ is_null_element (meant_element element.now) }
{
    matches!(element, Element::Null)
}

/// Whether one of the elements is null.
fn is_any_null(elements: &[Element<'_>]) -> bool
    ensures { result ≡ list_any is_null_element (meant_elements elements.now) }
{
    for element in elements {
        if is_null_element(element) {
            return true;
        }
    }
    false
}

/// Why a sum is no number.
fn sum_reason(v: &Value<'_>) -> &'static str
    ensures { result.now ≡ sum_reason (meant v.now) }
{
    match v {
        Value::Collection(_, elements) => {
            if is_any_null(elements) {
                ": an element is null"
            } else {
                ": out of range"
            }
        }
        _ => "",
    }
}

/// Why there is no quotient, by its divisor.
fn divisor_reason(divisor: &Value<'_>) -> &'static str
    ensures { result.now ≡ divisor_reason (meant divisor.now) }
{
    match divisor {
        Value::Element(Element::Int(number)) => {
            if *number == 0 {
                ": division by zero"
            } else {
                ": out of range"
            }
        }
        _ => "",
    }
}

/// Why a quotient is no number.
fn quotient_reason(others: &[Value<'_>]) -> &'static str
    ensures { result.now ≡ quotient_reason (map meant others.now) }
{
    match others {
        [divisor, ..] => divisor_reason(divisor),
        [] => "",
    }
}

fn plain_reason(operator: PlainOperator, v: &Value<'_>, others: &[Value<'_>]) -> &'static str
    ensures { result.now ≡ plain_reason operator (meant v.now) (map meant others.now) }
{
    match operator {
        PlainOperator::Divide | PlainOperator::Modulo => quotient_reason(others),
        PlainOperator::Substring => ": there are no such characters",
        PlainOperator::Sum => sum_reason(v),
        _ => ": out of range",
    }
}

/// Puts that an object isn't of the class that it is taken for.
fn put_cast_reason(
    out: &mut String,
    population: &Population<'_>,
    class: ClassNo,
    v: &Value<'_>,
) -> Result<(), OutOfMemory>
    requires class { class < length population.now.content.model.classes }
    requires there { IsValueThere population.now.content (meant v.now) }
    ensures { OnOk result (string_bytes out.new ≡ string_bytes out.old ++
        cast_reason population.now.content class (meant v.now)) }
{
    match v {
        Value::Element(Element::Object(object)) => put_other_class(out, population, class, *object),
        _ => Ok(()),
    }
}

/// Puts that an object isn't of a class.
fn put_other_class(
    out: &mut String,
    population: &Population<'_>,
    class: ClassNo,
    object: ObjectNo,
) -> Result<(), OutOfMemory>
    requires class { class < length population.now.content.model.classes }
    requires object { object < length population.now.content.objects }
    ensures { OnOk result (string_bytes out.new ≡ string_bytes out.old ++
        other_class_reason population.now.content object class) }
{
    put(out, ": ")?;
    put_object(out, population, object)?;
    put(out, " is no ")?;
    put(out, population.model().class_name(class))
}

/// Puts why an operator that asks for a class has no result.
fn put_class_reason(
    out: &mut String,
    population: &Population<'_>,
    operator: ClassOperator,
    class: ClassNo,
    v: &Value<'_>,
) -> Result<(), OutOfMemory>
    requires class { class < length population.now.content.model.classes }
    requires there { IsValueThere population.now.content (meant v.now) }
    ensures { OnOk result (string_bytes out.new ≡ string_bytes out.old ++
        class_reason population.now.content operator class (meant v.now)) }
{
    match operator {
        ClassOperator::AsType => put_cast_reason(out, population, class, v),
        ClassOperator::IsKindOf | ClassOperator::IsTypeOf => Ok(()),
    }
}

/// Puts why an operation on operands of which none is null or invalid has no result.
fn put_own_reason(
    out: &mut String,
    population: &Population<'_>,
    operator: Operator,
    v: &Value<'_>,
    others: &[Value<'_>],
) -> Result<(), OutOfMemory>
    requires operator { IsOperatorOf population.now.content.model operator }
    requires there { IsValueThere population.now.content (meant v.now) }
    ensures { OnOk result (string_bytes out.new ≡ string_bytes out.old ++
        own_reason population.now.content operator (meant v.now) (map meant others.now)) }
{
    match operator {
        Operator::Plain(plain) => put(out, plain_reason(plain, v, others)),
        Operator::OfClass(of_class, class) => put_class_reason(out, population, of_class, class, v),
        Operator::OfElements(_, _) | Operator::Equal(_) => Ok(()),
    }
}

/// Whether one of the operands is invalid.
fn any_invalid(v: &Value<'_>, others: &[Value<'_>]) -> bool
    ensures { result ≡ list_any is_invalid (meant v.now ∷ map meant others.now) }
{
    if is_invalid(v) {
        return true;
    }
    for other in others {
        if is_invalid(other) {
            return true;
        }
    }
    false
}

/// Whether one of the operands is null.
fn any_null(v: &Value<'_>, others: &[Value<'_>]) -> bool
    ensures { result ≡ list_any is_null (meant v.now ∷ map meant others.now) }
{
    if is_null(v) {
        return true;
    }
    for other in others {
        if is_null(other) {
            return true;
        }
    }
    false
}

/// Puts why an operation has no result, by its operands.
fn put_invalid_reason(
    out: &mut String,
    population: &Population<'_>,
    operator: Operator,
    v: &Value<'_>,
    others: &[Value<'_>],
) -> Result<(), OutOfMemory>
    requires operator { IsOperatorOf population.now.content.model operator }
    requires there { IsValueThere population.now.content (meant v.now) }
    ensures { OnOk result (string_bytes out.new ≡ string_bytes out.old ++
        invalid_reason population.now.content operator (meant v.now) (map meant others.now)) }
{
    if any_invalid(v, others) {
        return Ok(());
    }
    if any_null(v, others) {
        return put(out, ": an operand is null");
    }
    put_own_reason(out, population, operator, v, others)
}

/// Puts why an operation has no result or is false, by its operands and what it gave.
#[tactic(auto, unfolding(crate::specs::Reasons::operation_reason))]
pub(crate) fn put_operation_reason(
    alloc: Global,
    out: &mut String,
    population: &Population<'_>,
    operator: Operator,
    v: &Value<'_>,
    others: &[Value<'_>],
    gave: &Value<'_>,
) -> Result<(), OutOfMemory>
    requires operator { IsOperatorOf population.now.content.model operator }
    requires there { IsValueThere population.now.content (meant v.now) }
    requires others { AreThere population.now.content (map meant others.now) }
    ensures { OnOk result (string_bytes out.new ≡ string_bytes out.old ++ operation_reason
        population.now.content operator (meant v.now) (map meant others.now) (meant gave.now)) }
{
    if is_invalid(gave) {
        return put_invalid_reason(out, population, operator, v, others);
    }
    if is_false(gave) {
        return put_difference(alloc, out, population, operator, v, others);
    }
    Ok(())
}

/// Puts that an object has nothing at a feature.
fn put_absent(
    out: &mut String,
    population: &Population<'_>,
    object: ObjectNo,
    feature: FeatureNo,
) -> Result<(), OutOfMemory>
    requires object { object < length population.now.content.objects }
    requires feature { feature < length population.now.content.model.features }
    ensures { OnOk result (string_bytes out.new ≡ string_bytes out.old ++
        absent_reason population.now.content object feature) }
{
    put(out, ": ")?;
    put_object(out, population, object)?;
    put(out, " has no ")?;
    put(out, population.model().feature_info(feature).name.as_str())
}

/// Puts why a feature has no value, or the class of the object that it has, by what it was read of and what it gave.
pub(crate) fn put_feature_reason(
    out: &mut String,
    population: &Population<'_>,
    feature: FeatureNo,
    v: &Value<'_>,
    gave: &Value<'_>,
) -> Result<(), OutOfMemory>
    requires feature { feature < length population.now.content.model.features }
    requires there { IsValueThere population.now.content (meant v.now) }
    requires gave { IsValueThere population.now.content (meant gave.now) }
    ensures { OnOk result (string_bytes out.new ≡ string_bytes out.old ++ feature_reason
        population.now.content feature (meant v.now) (meant gave.now)) }
{
    match v {
        Value::Element(Element::Null) => put(out, ": null has no features"),
        Value::Element(Element::Object(object)) => {
            if is_null(gave) {
                put_absent(out, population, *object, feature)
            } else {
                put_value_class(out, population, gave)
            }
        }
        _ => Ok(()),
    }
}

/// Why an `if` has no value, by its condition.
pub(crate) fn choice_reason(condition: &Value<'_>) -> &'static str
    ensures { result.now ≡ choice_reason (meant condition.now) }
{
    if is_null(condition) {
        ": the condition is null"
    } else {
        ""
    }
}
