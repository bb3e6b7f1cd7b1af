//! The kinds of core trees by those of their parts, and how types are printed.

ghost use Rattle.std.specs.Prelude.{◌≡◌, ◌++◌, [], ◌∷◌, IfOk, OnOk, string_bytes};
ghost use Rattle.ocl_kinds.specs.declared.kind.Kind.TheVariants.{Scalar};
ghost use Rattle.ocl_core.specs.CoreView.{constant_of};
ghost use Rattle.ocl_core.specs.OperatorKinds.{class_result, element_result};
ghost use Rattle.ocl_core.specs.Typing.{constant_kind, plain_result};
ghost use Rattle.code_as_ocl.specs.TypedTexts.{scalar_name, type_text, collection_seen, operator_kind, iteration_kind, variable_kind, with_element, with_accumulator};

use explain_why::{kind_name, put};
use imkl_model::{ClassModel, ClassNo, CollectionKind};
use ocl_base::OutOfMemory;
use ocl_core::{
    BasicType, ClassOperator, ConstantValue, ElementOperator, Iteration, Operator, PlainOperator,
};
use ocl_kinds::{Kind, ScalarKind, collected_kind, elements_kind};
use std::alloc::Global;

/// The name of a type that is no collection. Null has none, nor has any object; a number that the class model doesn't have
/// names nothing.
pub(crate) fn scalar_name<'m>(model: &'m ClassModel, kind: ScalarKind) -> &'m str
    ensures { result.now ≡ scalar_name model.now kind }
{
    match kind {
        ScalarKind::Void | ScalarKind::Boolean => "Boolean",
        ScalarKind::Integer => "Integer",
        ScalarKind::String => "String",
        ScalarKind::Enumeration(enumeration) if enumeration.index() < model.enumeration_count() => {
            model.enum_name(enumeration)
        }
        ScalarKind::Class(class) if class.index() < model.class_count() => model.class_name(class),
        ScalarKind::Enumeration(_) | ScalarKind::Class(_) => "",
        ScalarKind::AnyObject => "OclAny",
    }
}

/// Puts the name of a type.
pub(crate) fn put_type(out: &mut String, model: &ClassModel, kind: Kind) -> Result<(), OutOfMemory>
    ensures { OnOk result (string_bytes out.new ≡
        string_bytes out.old ++ type_text model.now kind) }
{
    match kind {
        Kind::Scalar(scalar) => put(out, scalar_name(model, scalar)),
        Kind::Collection(collection, element) => {
            put(out, kind_name(collection))?;
            put(out, "(")?;
            put(out, scalar_name(model, element))?;
            put(out, ")")
        }
    }
}

/// The kind of a constant.
pub(crate) fn constant_kind(value: &ConstantValue) -> Kind
    ensures { result ≡ constant_kind (constant_of value.now) }
{
    Kind::Scalar(match value {
        ConstantValue::Boolean(_) => ScalarKind::Boolean,
        ConstantValue::Integer(_) => ScalarKind::Integer,
        ConstantValue::Text(_) => ScalarKind::String,
        ConstantValue::Literal(enumeration, _) => ScalarKind::Enumeration(*enumeration),
        ConstantValue::Null | ConstantValue::Invalid => ScalarKind::Void,
    })
}

/// The kind of a variable, by those of all.
pub(crate) fn variable_kind(kinds: &[Kind], number: usize) -> Kind
    ensures { result ≡ variable_kind kinds.now number }
{
    match kinds.get(number) {
        Some(kind) => *kind,
        None => Kind::Scalar(ScalarKind::Void),
    }
}

/// The type that an operator gives which its name alone describes.
fn plain_result(operator: PlainOperator) -> BasicType
    ensures { result ≡ plain_result operator }
{
    match operator {
        PlainOperator::Add | PlainOperator::Subtract | PlainOperator::Multiply =>
            BasicType::Integer,
        PlainOperator::Divide | PlainOperator::Modulo => BasicType::Integer,
        PlainOperator::Minimum | PlainOperator::Maximum => BasicType::Integer,
        PlainOperator::Negate | PlainOperator::Absolute => BasicType::Integer,
        PlainOperator::CharacterCount | PlainOperator::ElementCount => BasicType::Integer,
        PlainOperator::Sum => BasicType::Integer,
        PlainOperator::Substring => BasicType::String,
        _ => BasicType::Boolean,
    }
}

/// What an operator gives that asks for a class.
fn class_result(operator: ClassOperator, class: ClassNo) -> Kind
    ensures { result ≡ class_result operator class }
{
    match operator {
        ClassOperator::IsKindOf | ClassOperator::IsTypeOf => Kind::Scalar(ScalarKind::Boolean),
        ClassOperator::AsType => Kind::Scalar(ScalarKind::Class(class)),
    }
}

/// What an operator on elements of this kind gives.
fn element_result(operator: ElementOperator, element: ScalarKind) -> Kind
    ensures { result ≡ element_result operator element }
{
    match operator {
        ElementOperator::Includes | ElementOperator::IncludesAll | ElementOperator::ExcludesAll =>
            Kind::Scalar(ScalarKind::Boolean),
        ElementOperator::Occurrences => Kind::Scalar(ScalarKind::Integer),
        ElementOperator::AsSet => Kind::Collection(CollectionKind::Set, element),
    }
}

/// What an operator gives, by the kind of its first operand.
pub(crate) fn operator_kind(operator: Operator, first: Kind) -> Kind
    ensures { result ≡ operator_kind operator first }
{
    match operator {
        Operator::Plain(plain) => Kind::Scalar(plain_result(plain).kind()),
        Operator::OfClass(of_class, class) => class_result(of_class, class),
        Operator::OfElements(of_elements, _) => {
            element_result(of_elements, elements_kind(&first))
        }
        Operator::Equal(_) => Kind::Scalar(ScalarKind::Boolean),
    }
}

/// The kind of a collection, or that of the set that an arrow makes of a single value.
fn collection_seen(kind: Kind) -> CollectionKind
    ensures { result ≡ collection_seen kind }
{
    match kind {
        Kind::Scalar(_) => CollectionKind::Set,
        Kind::Collection(collection, _) => collection,
    }
}

/// What an iteration gives, by the kinds of its source and of its body.
pub(crate) fn iteration_kind(iteration: Iteration, source: Kind, body: Kind) -> Kind
    ensures { result ≡ iteration_kind iteration source body }
{
    match iteration {
        Iteration::Select | Iteration::Reject => source,
        Iteration::Collect | Iteration::CollectFlat => {
            Kind::Collection(
                collected_kind(collection_seen(source)),
                elements_kind(&body),
            )
        }
        _ => Kind::Scalar(ScalarKind::Boolean),
    }
}

/// Variables with one more.
pub(crate) fn with_variable(
    alloc: Global,
    kinds: &[Kind],
    kind: Kind,
) -> Result<Vec<Kind>, OutOfMemory>
    ensures { IfOk result (λ v. v.items ≡ kinds.now ++ kind ∷ []) }
{
    let mut all = Vec::from_slice(alloc, kinds)?;
    all.push(kind)?;
    Ok(all)
}

/// The variables of a body over a source.
pub(crate) fn with_element(
    alloc: Global,
    kinds: &[Kind],
    source: Kind,
) -> Result<Vec<Kind>, OutOfMemory>
    ensures { IfOk result (λ v. v.items ≡ with_element kinds.now source) }
{
    with_variable(alloc, kinds, Kind::Scalar(elements_kind(&source)))
}

/// The same, with an accumulator.
pub(crate) fn with_accumulator(
    alloc: Global,
    kinds: &[Kind],
    source: Kind,
    accumulator: ScalarKind,
) -> Result<Vec<Kind>, OutOfMemory>
    ensures { IfOk result (λ v. v.items ≡ with_accumulator kinds.now source accumulator) }
{
    let all = with_element(alloc, kinds, source)?;
    with_variable(alloc, &all, Kind::Scalar(accumulator))
}
