//! Messages for faults of types.

use crate::found::Finding;
use crate::meant::{
    class_with_feature, instead_on, write_call_advice, write_cast_advice, write_feature_advice,
    write_name_meant, write_no_feature,
};
use crate::operands::{no_integer, operands};
use crate::operations::{Argument, operation_at, operation_count, operation_on};
use crate::reading::{Reading, called_on};
use crate::type_names::{a_type, type_name};
use crate::writing::{Words, list, suggest, write_quoted};
use explain_names::{
    class_name, enumeration_name, literal_count, literal_name, offer_classes, offer_enumerations,
    offer_features, offer_literals,
};
use explain_notes::{Nearest, quote};
use explain_text::instead_of_type;
use imkl_model::{ClassModel, ClassNo, EnumNo};
use ocl_core::BasicType;
use ocl_kinds::{Kind, ScalarKind, elements_kind};
use ocl_text::Navigation;
use std::alloc::{AllocError, Global};

/// The most names that are listed.
const MAX_LISTED: usize = 12;

/// Writes what can be asked of a value that isn't Boolean.
fn write_advice(help: &mut String, model: &ClassModel, kind: &Kind) -> Result<(), AllocError> {
    let advice = match kind {
        Kind::Collection(_, _) => {
            "ask something of the collection, as in `..->notEmpty()` or `..->forAll(x | ..)`"
        }
        Kind::Scalar(ScalarKind::Integer) => "compare the value, as in `.. >= 600`",
        Kind::Scalar(ScalarKind::String) => "compare the value, as in `.. = 'water'`",
        Kind::Scalar(ScalarKind::Class(_)) => {
            "compare a feature of the object, or ask whether it is there: `not ...oclIsUndefined()`"
        }
        Kind::Scalar(ScalarKind::Enumeration(enumeration)) => {
            let name = enumeration_name(model, *enumeration);
            let literal = literal_name(model, *enumeration, 0);
            return write!(help, "compare the value, as in `.. = {name}::{literal}`");
        }
        Kind::Scalar(_) => "",
    };
    help.push_str(advice)
}

/// A value that isn't Boolean where one is wanted.
fn not_boolean(
    words: &mut Words,
    model: &ClassModel,
    kind: &Kind,
    is_rule: bool,
) -> Result<(), AllocError> {
    let name = a_type(model, kind);
    words.message.push_str("a Boolean is wanted here")?;
    write!(&mut words.label, "this is {name}")?;
    if is_rule {
        let invariant = "an invariant says of each object whether it holds; ";
        words.help.push_str(invariant)?;
    }
    write_advice(&mut words.help, model, kind)
}

/// A body that is a collection where a single value is wanted.
fn nested_body(words: &mut Words, model: &ClassModel, kind: &Kind) -> Result<(), AllocError> {
    let name = a_type(model, kind);
    words.message.push_str("`isUnique` compares single values")?;
    write!(&mut words.label, "this is {name}")
}

/// A type of collections of collections.
fn nested_type(words: &mut Words) -> Result<(), AllocError> {
    words.message.push_str("elements are never collections")?;
    words.label.push_str("this is the type of the elements")
}

/// A type that no accumulator has.
fn no_accumulator(words: &mut Words, model: &ClassModel, kind: &Kind) -> Result<(), AllocError> {
    let name = a_type(model, kind);
    write!(&mut words.message, "an accumulator can't be {name}")?;
    words.help.push_str(
        "it is a Boolean, an Integer, a literal of an enumeration or an object of a class",
    )
}

/// A value or an element that doesn't conform to the type that is declared.
fn other_type(
    words: &mut Words,
    model: &ClassModel,
    is_element: bool,
    given: &Kind,
    declared: &Kind,
) -> Result<(), AllocError> {
    let what = if is_element {
        "an element"
    } else {
        "the value"
    };
    let (given, wanted) = (a_type(model, given), a_type(model, declared));
    write!(&mut words.message, "{what} is {given}, and not {wanted}")?;
    write!(&mut words.label, "{wanted} is declared")
}

/// Branches of which neither conforms to the other.
fn branches(
    words: &mut Words,
    model: &ClassModel,
    one: &Kind,
    other: &Kind,
) -> Result<(), AllocError> {
    let (one, other) = (a_type(model, one), a_type(model, other));
    words
        .message
        .push_str("the branches have no type in common")?;
    write!(&mut words.label, "`then` gives {one}, `else` gives {other}")
}

/// The number of arguments that an operation on values of a type takes.
fn arguments_wanted(name: &str, on: &Kind) -> usize {
    match operation_on(name, on) {
        Some(operation) => operation.argument_count(),
        None => 0,
    }
}

/// Too few or too many arguments.
fn argument_count(
    words: &mut Words,
    name: &str,
    on: &Kind,
    given: usize,
) -> Result<(), AllocError> {
    let wanted = match arguments_wanted(name, on) {
        0 => "no argument",
        1 => "one argument",
        _ => "two arguments",
    };
    write!(&mut words.message, "`{name}` takes {wanted}")?;
    match given {
        0 => words.label.push_str("none is given"),
        1 => words.label.push_str("one is given"),
        _ => write!(&mut words.label, "{given} are given"),
    }
}

/// Writes what an operation on values of a type takes as an argument.
fn write_argument(
    message: &mut String,
    model: &ClassModel,
    argument: Argument,
    on: &Kind,
) -> Result<(), AllocError> {
    let element = type_name(model, &Kind::Scalar(elements_kind(on)));
    match argument {
        Argument::Of(BasicType::Boolean) => message.push_str("a Boolean"),
        Argument::Of(BasicType::Integer) => message.push_str("an Integer"),
        Argument::Of(BasicType::String) => message.push_str("a String"),
        Argument::Class => message.push_str("the name of a class"),
        Argument::Element => {
            write!(
                message,
                "a single value to find among elements of {element}"
            )
        }
        Argument::Collection => {
            write!(
                message,
                "a collection whose elements may be among those of {element}"
            )
        }
    }
}

/// An argument that isn't what an operation on values of a type takes.
fn argument(
    words: &mut Words,
    model: &ClassModel,
    name: &str,
    on: &Kind,
    index: usize,
    given: &Kind,
) -> Result<(), AllocError> {
    let Some(operation) = operation_on(name, on) else {
        return Ok(());
    };
    let given = a_type(model, given);
    let which = match index {
        0 if operation.argument_count() == 1 => "the argument",
        0 => "the first argument",
        _ => "the second argument",
    };
    write!(&mut words.label, "{which} is {given}")?;
    write!(&mut words.message, "`{name}` takes ")?;
    match operation.argument(index) {
        Some(argument) => write_argument(&mut words.message, model, argument, on),
        None => Ok(()),
    }
}

/// Offers the names of all types but those of collections.
fn offer_types<'t>(
    alloc: Global,
    model: &'t ClassModel,
    nearest: &mut Nearest<'t>,
) -> Result<(), AllocError> {
    nearest.offer(alloc, "Boolean")?;
    nearest.offer(alloc, "Integer")?;
    nearest.offer(alloc, "String")?;
    offer_classes(alloc, model, nearest)?;
    offer_enumerations(alloc, model, nearest)
}

/// How a type is written for what may have been meant by a name.
fn type_advice(name: &str) -> &'static str {
    match name {
        "Set" | "OrderedSet" | "Bag" | "Sequence" => {
            "a collection's type has that of its elements in parentheses, as Set(Integer)"
        }
        _ if !instead_of_type(name).is_empty() => instead_of_type(name),
        _ => "the types are Boolean, Integer, String, the classes and the enumerations",
    }
}

/// A type that isn't there.
fn unknown_type<'t>(
    alloc: Global,
    words: &mut Words,
    model: &'t ClassModel,
    name: &'t str,
) -> Result<(), AllocError> {
    let mut nearest = Nearest::to(name);
    offer_types(alloc, model, &mut nearest)?;
    suggest(&mut words.label, &nearest)?;
    words.help.push_str(type_advice(name))?;
    write_quoted(alloc, &mut words.message, "there is no type ", name, "`")
}

/// A name before a type in parentheses that is no collection's.
fn no_collection(alloc: Global, words: &mut Words, name: &str) -> Result<(), AllocError> {
    words
        .label
        .push_str("these are Set, OrderedSet, Bag and Sequence")?;
    write_quoted(
        alloc,
        &mut words.message,
        "",
        name,
        "` is no kind of collection",
    )
}

/// A bare name that names nothing.
fn unknown_name<'t>(
    alloc: Global,
    words: &mut Words,
    reading: &Reading<'t>,
    name: &'t str,
) -> Result<(), AllocError> {
    let mut nearest = Nearest::to(name);
    reading
        .scope
        .offer_names(alloc, reading.model, &mut nearest)?;
    if nearest.name().is_some() {
        suggest(&mut words.label, &nearest)?;
    } else {
        write_no_feature(&mut words.label, reading.model, &reading.scope)?;
    }
    write_quoted(alloc, &mut words.message, "", name, "` is not known here")?;
    write_name_meant(alloc, words, reading, name)
}

/// A feature that objects of a class don't have.
fn unknown_of_class<'t>(
    alloc: Global,
    words: &mut Words,
    model: &'t ClassModel,
    left: &Kind,
    class: ClassNo,
    name: &'t str,
) -> Result<(), AllocError> {
    let mut nearest = Nearest::to(name);
    offer_features(alloc, model, class, &mut nearest)?;
    suggest(&mut words.label, &nearest)?;
    let written = quote(alloc, name)?;
    let owner = class_name(model, class);
    write!(&mut words.message, "{owner} has no feature `{written}`")?;
    let help = &mut words.help;
    match class_with_feature(model, class, name) {
        Some(below) => write_cast_advice(help, left, below, written.as_str()),
        None => write_feature_advice(help, left, written.as_str()),
    }
}

/// A feature that what is on the left doesn't have.
fn unknown_feature<'t>(
    alloc: Global,
    words: &mut Words,
    model: &'t ClassModel,
    left: &Kind,
    name: &'t str,
) -> Result<(), AllocError> {
    let element = elements_kind(left);
    if let ScalarKind::Class(class) = element {
        return unknown_of_class(alloc, words, model, left, class, name);
    }
    let owner = a_type(model, &Kind::Scalar(element));
    let written = quote(alloc, name)?;
    let message = &mut words.message;
    write!(
        message,
        "{owner} has no features, and none named `{written}`"
    )?;
    write_feature_advice(&mut words.help, left, written.as_str())
}

/// Writes the names of an enumeration's literals, as they are listed.
fn write_literals(
    out: &mut String,
    model: &ClassModel,
    enumeration: EnumNo,
) -> Result<(), AllocError> {
    out.push_str("its literals are ")?;
    for index in 0..literal_count(model, enumeration) {
        if index == MAX_LISTED {
            return list(out, false, "..");
        }
        list(out, index == 0, literal_name(model, enumeration, index))?;
    }
    Ok(())
}

/// A literal that an enumeration doesn't have.
fn unknown_literal<'t>(
    alloc: Global,
    words: &mut Words,
    model: &'t ClassModel,
    enumeration: EnumNo,
    literal: &'t str,
) -> Result<(), AllocError> {
    let mut nearest = Nearest::to(literal);
    offer_literals(alloc, model, enumeration, &mut nearest)?;
    suggest(&mut words.label, &nearest)?;
    write_literals(&mut words.help, model, enumeration)?;
    words
        .message
        .push_str(enumeration_name(model, enumeration))?;
    write_quoted(alloc, &mut words.message, " has no literal ", literal, "`")
}

/// An enumeration that isn't there.
fn unknown_enumeration<'t>(
    alloc: Global,
    words: &mut Words,
    model: &'t ClassModel,
    name: &'t str,
) -> Result<(), AllocError> {
    let mut nearest = Nearest::to(name);
    offer_enumerations(alloc, model, &mut nearest)?;
    suggest(&mut words.label, &nearest)?;
    write_quoted(
        alloc,
        &mut words.message,
        "there is no enumeration ",
        name,
        "`",
    )
}

/// A class that isn't there.
pub(crate) fn unknown_class<'t>(
    alloc: Global,
    words: &mut Words,
    model: &'t ClassModel,
    name: &'t str,
) -> Result<(), AllocError> {
    let mut nearest = Nearest::to(name);
    offer_classes(alloc, model, &mut nearest)?;
    write_quoted(alloc, &mut words.message, "there is no class ", name, "`")?;
    if nearest.name().is_some() {
        return suggest(&mut words.label, &nearest);
    }
    write_quoted(
        alloc,
        &mut words.help,
        "the class model is ",
        model.name(),
        "`",
    )
}

/// What stands where the name of a class is wanted.
fn no_class_name(words: &mut Words) -> Result<(), AllocError> {
    words
        .message
        .push_str("the name of a class is wanted here")?;
    words.label.push_str("this is another expression")
}

/// An operation that what it is called on doesn't have.
fn unknown_operation<'t>(
    alloc: Global,
    words: &mut Words,
    model: &ClassModel,
    navigation: Navigation,
    name: &'t str,
    left: &Kind,
) -> Result<(), AllocError> {
    let on = called_on(navigation, left);
    let mut nearest = Nearest::to(name);
    for index in 0..operation_count() {
        match operation_at(index) {
            Some(operation) if operation.is_on(&on) => nearest.offer(alloc, operation.name())?,
            _ => {}
        }
    }
    if instead_on(&on, name).is_empty() {
        suggest(&mut words.label, &nearest)?;
    }
    let owner = a_type(model, &on);
    let written = quote(alloc, name)?;
    write!(&mut words.message, "{owner} has no operation `{written}`")?;
    write_call_advice(&mut words.help, model, navigation, written.as_str(), left)
}

/// Writes what is said of a name that names nothing.
fn write_unknown(
    alloc: Global,
    words: &mut Words,
    reading: &Reading<'_>,
    finding: Finding,
) -> Result<(), AllocError> {
    let (model, name) = (reading.model, reading.name);
    match finding {
        Finding::Name => unknown_name(alloc, words, reading, name),
        Finding::Type => unknown_type(alloc, words, model, name),
        Finding::Collection => no_collection(alloc, words, name),
        Finding::Class => unknown_class(alloc, words, model, name),
        Finding::NoClass => no_class_name(words),
        Finding::Enumeration => unknown_enumeration(alloc, words, model, name),
        Finding::Literal(number) => unknown_literal(alloc, words, model, number, name),
        Finding::Feature(left) => unknown_feature(alloc, words, model, &left, name),
        Finding::Operation { left, navigation } => {
            unknown_operation(alloc, words, model, navigation, name, &left)
        }
        _ => Ok(()),
    }
}

/// Writes what is said of what a reading found.
pub(crate) fn write_finding(
    alloc: Global,
    words: &mut Words,
    reading: &Reading<'_>,
    finding: Finding,
) -> Result<(), AllocError> {
    let (model, name) = (reading.model, reading.name);
    match finding {
        Finding::NotBoolean(kind) => {
            not_boolean(words, model, &kind, reading.offset == reading.rule_offset)
        }
        Finding::NestedBody(kind) => nested_body(words, model, &kind),
        Finding::NestedType => nested_type(words),
        Finding::NoAccumulator(kind) => no_accumulator(words, model, &kind),
        Finding::NoInteger(kind) => no_integer(words, model, &kind),
        Finding::OtherType {
            is_element,
            given,
            declared,
        } => other_type(words, model, is_element, &given, &declared),
        Finding::Operands {
            operator,
            left,
            right,
        } => operands(words, model, operator, &left, &right),
        Finding::Branches { one, other } => branches(words, model, &one, &other),
        Finding::Argument { on, index, given } => {
            argument(words, model, name, &on, index, &given)
        }
        Finding::ArgumentCount { on, given } => argument_count(words, name, &on, given),
        Finding::NoArguments => words.message.push_str("`allInstances` takes no argument"),
        _ => write_unknown(alloc, words, reading, finding),
    }
}
