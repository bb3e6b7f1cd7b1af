//! Calls, once their sources and arguments are checked.

ghost use Rattle.std.specs.Prelude.{◌≡◌, ◌<◌, ◌≤◌, length, All, IfOk, IfSome};
ghost use Rattle.imkl_model.specs.ClassModel.{Model};
ghost use Rattle.ocl_base.specs.Steps.{Gives};
ghost use Rattle.ocl_kinds.specs.Kinds.{IsScalarKindOf, IsKindOf};
ghost use Rattle.ocl_core.specs.OperatorKinds.{class_result, element_result};
ghost use Rattle.ocl_types.specs.CallView.{values_view, arguments_view, AreKnownClasses, AreKnownArguments};
ghost use Rattle.ocl_types.specs.TypedView.{typed_in, typed_of};
ghost use Rattle.ocl_types.specs.Elaboration as spec;
ghost use Rattle.ocl_types.specs.Faults.{type_fault};
ghost use Rattle.ocl_types.specs.GatheredView.{gathered_view};
ghost use Rattle.ocl_types.specs.Operators as table;
ghost use Rattle.ocl_types.specs.TableView.{effect_of};

use crate::fault::{TypeFault, TypeFlaw};
use crate::features::collect_of;
use crate::nodes;
use crate::requirements::{Gathered, is_of};
use crate::table::{Effect, row_for};
use crate::typed::Typed;
use imkl_model::{ClassModel, ClassNo, CollectionKind};
use ocl_core::{BasicType, ClassOperator, Core, ElementOperator, Operator};
use ocl_kinds::{Kind, ScalarKind, common_kind, comparable, elements_kind};
use std::alloc::Global;

/// Values as the arguments of a call.
#[derive(Drop)]
pub(crate) struct Values {
    pub(crate) cores: Vec<Core>,
    pub(crate) kinds: Vec<Kind>,
}

/// The arguments of a call.
#[derive(Drop)]
pub(crate) enum Arguments {
    /// Classes that are named, for an operation that asks for one.
    Classes(ClassOperator, Vec<ClassNo>),
    /// Values.
    Values(Values),
}

fn refusal(flaw: TypeFlaw, offset: usize) -> TypeFault
    ensures { result ≡ TypeFault.At flaw offset }
{
    TypeFault::At { flaw, offset }
}

fn is_object(kind: &Kind) -> bool
    ensures { result ≡ spec.is_object kind.now }
{
    matches!(kind, Kind::Scalar(ScalarKind::Class(_)))
}

fn one_class(classes: &[ClassNo]) -> Option<ClassNo>
    ensures one { result ≡ spec.one_class classes.now }
    ensures known { (m : Model) → AreKnownClasses m classes.now
        → IfSome result (λ c. c < length m.classes) }
{
    match classes {
        [class] => Some(*class),
        _ => None,
    }
}

fn class_result(operator: ClassOperator, class: ClassNo) -> Kind
    ensures value { result ≡ class_result operator class }
    ensures known { (m : Model) → class < length m.classes → IsKindOf m result }
{
    match operator {
        ClassOperator::IsKindOf | ClassOperator::IsTypeOf => Kind::Scalar(ScalarKind::Boolean),
        ClassOperator::AsType => Kind::Scalar(ScalarKind::Class(class)),
    }
}

/// An object asked for one class.
#[tactic(auto, unfolding(crate::specs::Elaboration::class_call))]
fn class_call(
    alloc: Global,
    source: Typed,
    operator: ClassOperator,
    classes: &[ClassNo],
    offset: usize,
) -> Result<Typed, TypeFault>
    ensures gives { Gives type_fault typed_of result
        (spec.class_call (typed_of source) operator classes.now offset) }
    ensures known { (m : Model) → AreKnownClasses m classes.now
        → IfOk result (λ t. IsKindOf m t.kind) }
{
    if !is_object(&source.kind) {
        return Err(refusal(TypeFlaw::UnknownOperation, offset));
    }
    let Some(class) = one_class(classes) else {
        return Err(refusal(TypeFlaw::WrongArgumentCount, offset));
    };
    let core = nodes::unary(alloc, Operator::OfClass(operator, class), source.core)?;
    let kind = class_result(operator, class);
    Ok(Typed { core, kind })
}

/// Whether there are as many arguments as types, each of its own.
#[tactic(auto, using(crate::proofs::Accepted::not_as_many))]
fn accepts(model: &ClassModel, parameters: &[BasicType], kinds: &[Kind]) -> bool
    requires { All (IsKindOf model.now) kinds.now }
    ensures { result ≡ table.accepts model.now parameters.now kinds.now }
{
    if parameters.len() != kinds.len() {
        return false;
    }
    'parameters: for i in 0..parameters.len() {
        if !is_of(model, &kinds[i], parameters[i]) {
            return false;
        }
    }
    true
}

fn scalar_argument(kinds: &[Kind]) -> Option<ScalarKind>
    ensures { result ≡ spec.scalar_argument kinds.now }
{
    match kinds {
        [Kind::Scalar(element)] => Some(*element),
        _ => None,
    }
}

fn collection_argument(kinds: &[Kind]) -> Option<ScalarKind>
    ensures { result ≡ spec.collection_argument kinds.now }
{
    match kinds {
        [Kind::Collection(_, element)] => Some(*element),
        _ => None,
    }
}

fn common_with(element: &ScalarKind, argument: Option<ScalarKind>) -> Option<ScalarKind>
    ensures { result ≡ spec.common_with element.now argument }
{
    match argument {
        Some(other) => common_kind(element, &other),
        None => None,
    }
}

/// The kind that elements are compared as, where the arguments fit the operation.
fn comparison_kind(
    operator: ElementOperator,
    element: &ScalarKind,
    kinds: &[Kind],
) -> Option<ScalarKind>
    ensures { result ≡ spec.comparison_kind operator element.now kinds.now }
{
    match operator {
        ElementOperator::Includes | ElementOperator::Occurrences => {
            common_with(element, scalar_argument(kinds))
        }
        ElementOperator::IncludesAll | ElementOperator::ExcludesAll => {
            common_with(element, collection_argument(kinds))
        }
        ElementOperator::AsSet => Some(comparable(element)),
    }
}

fn element_result(operator: ElementOperator, element: ScalarKind) -> Kind
    ensures value { result ≡ element_result operator element }
    ensures known { (m : Model) → IsScalarKindOf m element → IsKindOf m result }
{
    match operator {
        ElementOperator::Includes | ElementOperator::IncludesAll | ElementOperator::ExcludesAll => {
            Kind::Scalar(ScalarKind::Boolean)
        }
        ElementOperator::Occurrences => Kind::Scalar(ScalarKind::Integer),
        ElementOperator::AsSet => Kind::Collection(CollectionKind::Set, element),
    }
}

fn parameter_count(effect: &Effect) -> usize
    ensures { result ≡ spec.parameter_count (effect_of effect.now) }
{
    match effect {
        Effect::Plainly(_, parameters, _) => parameters.len(),
        Effect::OnElements(operator) => match operator {
            ElementOperator::Includes
            | ElementOperator::Occurrences
            | ElementOperator::IncludesAll
            | ElementOperator::ExcludesAll => 1,
            ElementOperator::AsSet => 0,
        },
    }
}

fn effect_on(
    alloc: Global,
    model: &ClassModel,
    effect: &Effect,
    source: Typed,
    values: Values,
    offset: usize,
) -> Result<Typed, TypeFault>
    requires source { IsKindOf model.now source.kind }
    requires values { All (IsKindOf model.now) values.kinds.items }
    ensures gives { Gives type_fault typed_of result (spec.effect_on model.now
        (effect_of effect.now) (typed_of source) (values_view values) offset) }
    ensures known { IfOk result (λ t. IsKindOf model.now t.kind) }
{
    match effect {
        Effect::Plainly(operator, parameters, result) => {
            if !accepts(model, parameters, &values.kinds) {
                return Err(refusal(TypeFlaw::WrongType, offset));
            }
            let plain = Operator::Plain(*operator);
            Ok(Typed {
                core: nodes::operation(alloc, plain, source.core, values.cores)?,
                kind: Kind::Scalar(result.kind()),
            })
        }
        Effect::OnElements(operator) => {
            let element = elements_kind(&source.kind);
            let Some(common) = comparison_kind(*operator, &element, &values.kinds) else {
                return Err(refusal(TypeFlaw::WrongType, offset));
            };
            let of_elements = Operator::OfElements(*operator, common);
            Ok(Typed {
                core: nodes::operation(alloc, of_elements, source.core, values.cores)?,
                kind: element_result(*operator, element),
            })
        }
    }
}

/// An operation on values: the one of its name for such a source.
#[tactic(auto, unfolding(crate::specs::Elaboration::value_call))]
fn value_call(
    alloc: Global,
    model: &ClassModel,
    source: Typed,
    name: &str,
    values: Values,
    offset: usize,
) -> Result<Typed, TypeFault>
    requires source { IsKindOf model.now source.kind }
    requires values { All (IsKindOf model.now) values.kinds.items }
    ensures gives { Gives type_fault typed_of result (spec.value_call model.now
        (typed_of source) name.now (values_view values) offset) }
    ensures known { IfOk result (λ t. IsKindOf model.now t.kind) }
{
    let Some(row) = row_for(model, name, &source.kind) else {
        return Err(refusal(TypeFlaw::UnknownOperation, offset));
    };
    if values.kinds.len() != parameter_count(&row.effect) {
        return Err(refusal(TypeFlaw::WrongArgumentCount, offset));
    }
    let given = effect_on(alloc, model, &row.effect, source, values, offset)?;
    let Typed { core, kind } = given;
    let core = nodes::negation_if(alloc, row.is_negated, core)?;
    Ok(Typed { core, kind })
}

fn call_on(
    alloc: Global,
    model: &ClassModel,
    source: Typed,
    name: &str,
    arguments: Arguments,
    offset: usize,
) -> Result<Typed, TypeFault>
    requires source { IsKindOf model.now source.kind }
    requires arguments { AreKnownArguments model.now arguments }
    ensures gives { Gives type_fault typed_of result (spec.call_on model.now
        (typed_of source) name.now (arguments_view arguments) offset) }
    ensures known { IfOk result (λ t. IsKindOf model.now t.kind) }
{
    match arguments {
        Arguments::Classes(operator, classes) => {
            class_call(alloc, source, operator, &classes, offset)
        }
        Arguments::Values(values) => value_call(alloc, model, source, name, values, offset),
    }
}

/// A call by a dot: on a single value, or on each element of a collection, which is the variable of this number.
#[inline(never)]
pub(crate) fn dot_call(
    alloc: Global,
    model: &ClassModel,
    number: usize,
    source: Typed,
    name: &str,
    arguments: Arguments,
    offset: usize,
) -> Result<Typed, TypeFault>
    requires source { IsKindOf model.now source.kind }
    requires arguments { AreKnownArguments model.now arguments }
    ensures gives { Gives type_fault typed_of result (spec.dot_call model.now number
        (typed_of source).core source.kind name.now (arguments_view arguments) offset) }
    ensures known { IfOk result (λ t. IsKindOf model.now t.kind) }
{
    let Typed { core, kind } = source;
    match kind {
        Kind::Scalar(_) => call_on(alloc, model, Typed { core, kind }, name, arguments, offset),
        Kind::Collection(collection, element) => {
            let each = Typed {
                core: nodes::variable(number),
                kind: Kind::Scalar(element),
            };
            let body = call_on(alloc, model, each, name, arguments, offset)?;
            Ok(collect_of(alloc, core, collection, body)?)
        }
    }
}

/// A call by an arrow.
#[inline(never)]
pub(crate) fn arrow_call(
    alloc: Global,
    model: &ClassModel,
    source: Gathered,
    name: &str,
    arguments: Arguments,
    offset: usize,
) -> Result<Typed, TypeFault>
    requires source { IsScalarKindOf model.now source.element }
    requires arguments { AreKnownArguments model.now arguments }
    ensures gives { Gives type_fault typed_of result (spec.arrow_call model.now
        (gathered_view source) name.now (arguments_view arguments) offset) }
    ensures known { IfOk result (λ t. IsKindOf model.now t.kind) }
{
    let Gathered {
        core,
        collection,
        element,
    } = source;
    let kind = Kind::Collection(collection, element);
    call_on(alloc, model, Typed { core, kind }, name, arguments, offset)
}

/// All objects of a class.
#[inline(never)]
pub(crate) fn instances_call(
    alloc: Global,
    class: ClassNo,
    arguments: &Arguments,
    offset: usize,
) -> Result<Box<Typed>, TypeFault>
    ensures gives { Gives type_fault typed_in result
        (spec.instances_call class (arguments_view arguments.now) offset) }
    ensures known { (m : Model) → class < length m.classes
        → IfOk result (λ b. IsKindOf m b.value.kind) }
{
    let count = match arguments {
        Arguments::Classes(_, classes) => classes.len(),
        Arguments::Values(values) => values.kinds.len(),
    };
    if count != 0 {
        return Err(refusal(TypeFlaw::WrongArgumentCount, offset));
    }
    let core = nodes::all_instances(class);
    let kind = Kind::Collection(CollectionKind::Set, ScalarKind::Class(class));
    Ok(Box::new(alloc, Typed { core, kind })?)
}
