//! What may have been meant by a name that isn't there. It may be a feature of a class below, a
//! feature for an operation, an operation for a feature, or a name of other OCL.

use crate::operations::{operation_at, operation_count, operation_on};
use crate::reading::{Reading, called_on};
use crate::scope::Scope;
use crate::type_names::type_name;
use crate::writing::{Words, list, write_quoted};
use explain_names::{class_name, feature_named, is_class_below};
use explain_text::{instead_of_name, instead_on_collection, instead_on_value, is_iteration};
use imkl_model::{ClassModel, ClassNo};
use ocl_kinds::{Kind, ScalarKind, elements_kind};
use ocl_text::Navigation;
use std::alloc::{AllocError, Global};

/// Writes how a name is meant that stands by itself, and is that of a class or an enumeration.
fn write_name_advice(
    alloc: Global,
    help: &mut String,
    model: &ClassModel,
    name: &str,
) -> Result<(), AllocError> {
    if model.class(name).is_some() {
        let before = "all objects of the class are ";
        return write_quoted(alloc, help, before, name, ".allInstances()`");
    }
    if model.enumeration(name).is_some() {
        let before = "a literal of the enumeration is ";
        return write_quoted(alloc, help, before, name, "::..`");
    }
    Ok(())
}

/// Writes what a name isn't: a variable, or a feature of what is looked into.
pub(crate) fn write_no_feature(
    label: &mut String,
    model: &ClassModel,
    scope: &Scope<'_>,
) -> Result<(), AllocError> {
    let context = type_name(model, &scope.context_kind());
    label.push_str("this is no variable, and no feature of ")?;
    if let Some(class) = scope.element_class()
        && Kind::Scalar(ScalarKind::Class(class)) != scope.context_kind()
    {
        let element = class_name(model, class);
        return write!(label, "{element} or {context}");
    }
    write!(label, "{context}")
}

/// A class below that of the nearest element without a name that has a feature of this name.
fn class_below_element<'t>(
    model: &'t ClassModel,
    scope: &Scope<'_>,
    name: &str,
) -> Option<&'t str> {
    class_with_feature(model, scope.element_class()?, name)
}

/// Writes how a name is meant that is a feature of a class below that of the context object.
fn write_lower_of_context(
    help: &mut String,
    model: &ClassModel,
    scope: &Scope<'_>,
    name: &str,
) -> Result<(), AllocError> {
    match class_with_feature(model, scope.context_class(), name) {
        Some(below) => write!(
            help,
            "{below} has it: `self.oclAsType({below}).{name}`, where the object is of that class"
        ),
        None => Ok(()),
    }
}

/// Writes how a name is meant that is a feature of a class below that of the nearest element, or of the context object.
fn write_lower_feature(
    help: &mut String,
    model: &ClassModel,
    scope: &Scope<'_>,
    name: &str,
) -> Result<(), AllocError> {
    match class_below_element(model, scope, name) {
        Some(below) => write!(
            help,
            "{below} has it: `x | x.oclAsType({below}).{name}`, where the element is of that class"
        ),
        None => write_lower_of_context(help, model, scope, name),
    }
}

/// Writes what a name that names nothing may have been meant to be.
pub(crate) fn write_name_meant(
    alloc: Global,
    words: &mut Words,
    reading: &Reading<'_>,
    name: &str,
) -> Result<(), AllocError> {
    let help = &mut words.help;
    let instead = instead_on_collection(reading.operation);
    if !instead.is_empty() {
        return help.push_str(instead);
    }
    help.push_str(instead_of_name(name))?;
    write_name_advice(alloc, help, reading.model, name)?;
    if help.is_empty() {
        return write_lower_feature(help, reading.model, &reading.scope, name);
    }
    Ok(())
}

/// A class below another that has a feature of this name.
pub(crate) fn class_with_feature<'t>(
    model: &'t ClassModel,
    above: ClassNo,
    name: &str,
) -> Option<&'t str> {
    for index in 0..model.class_count() {
        let class = ClassNo::new(index);
        if is_class_below(model, class, above) && feature_named(model, class, name).is_some() {
            return Some(model.class_name(class));
        }
    }
    None
}

/// Writes how what was meant by a feature's name is written, where it may be an operation.
fn write_operation_advice(help: &mut String, left: &Kind, name: &str) -> Result<(), AllocError> {
    if operation_on(name, left).is_none() {
        return Ok(());
    }
    match left {
        Kind::Scalar(_) => write!(help, "it is an operation: `.{name}(..)`"),
        Kind::Collection(_, _) => {
            write!(help, "it is an operation of the collection: `->{name}(..)`")
        }
    }
}

/// Writes how a feature is read of those objects of a class below that have it.
pub(crate) fn write_cast_advice(
    help: &mut String,
    left: &Kind,
    below: &str,
    name: &str,
) -> Result<(), AllocError> {
    match left {
        Kind::Scalar(_) => write!(
            help,
            "{below} has it: `.oclAsType({below}).{name}`, where the object is of that class"
        ),
        Kind::Collection(_, _) => write!(
            help,
            "{below} has it: `->select(x | x.oclIsKindOf({below})).oclAsType({below}).{name}`"
        ),
    }
}

/// Writes how what was meant by a name behind a dot is written, where no class has it as a feature.
pub(crate) fn write_feature_advice(
    help: &mut String,
    left: &Kind,
    name: &str,
) -> Result<(), AllocError> {
    write_operation_advice(help, left, name)?;
    if help.is_empty() {
        return help.push_str(instead_on(left, name));
    }
    Ok(())
}

/// Writes the operations on values of a type, by their names.
fn write_operations(help: &mut String, on: &Kind) -> Result<(), AllocError> {
    help.push_str("its operations are ")?;
    let mut is_first = true;
    for index in 0..operation_count() {
        match operation_at(index) {
            Some(operation) if operation.is_on(on) => {
                list(help, is_first, operation.name())?;
                is_first = false;
            }
            _ => {}
        }
    }
    match on {
        Kind::Scalar(_) => Ok(()),
        Kind::Collection(_, _) => help.push_str(
            ", forAll, exists, select, reject, collect, one, isUnique, iterate",
        ),
    }
}

/// What to write in place of an operation of other OCL on a value of a type; nothing where it has none of this name.
pub(crate) fn instead_on(kind: &Kind, name: &str) -> &'static str {
    match kind {
        Kind::Scalar(_) => instead_on_value(name),
        Kind::Collection(_, _) => instead_on_collection(name),
    }
}

/// Whether what is on the left has a feature of this name.
fn is_feature_of(model: &ClassModel, left: &Kind, name: &str) -> bool {
    match elements_kind(left) {
        ScalarKind::Class(class) => feature_named(model, class, name).is_some(),
        _ => false,
    }
}

/// Writes how what was meant by an operation that isn't there is written, by its name or else by those that are there.
fn write_instead(
    help: &mut String,
    model: &ClassModel,
    navigation: Navigation,
    name: &str,
    left: &Kind,
) -> Result<(), AllocError> {
    if is_feature_of(model, left, name) {
        return write!(help, "it is a feature, which a dot reads: `.{name}`");
    }
    if is_iteration(name) {
        return write!(help, "an iteration stands after an arrow: `->{name}(..)`");
    }
    let on = called_on(navigation, left);
    let instead = instead_on(&on, name);
    if instead.is_empty() {
        return write_operations(help, &on);
    }
    help.push_str(instead)
}

/// Writes how a call is written for what may have been meant.
pub(crate) fn write_call_advice(
    help: &mut String,
    model: &ClassModel,
    navigation: Navigation,
    name: &str,
    left: &Kind,
) -> Result<(), AllocError> {
    if operation_on(name, left).is_none() {
        return write_instead(help, model, navigation, name, left);
    }
    match navigation {
        Navigation::Dot => {
            write!(
                help,
                "a dot asks each element; `->{name}(..)` asks the collection"
            )
        }
        Navigation::Arrow => {
            write!(
                help,
                "an arrow asks a collection; `.{name}(..)` asks the value"
            )
        }
    }
}
