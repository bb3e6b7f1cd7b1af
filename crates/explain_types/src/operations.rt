//! The operations of the language, by the table that types are checked by: the arguments and the result of each.

use imkl_model::CollectionKind;
use ocl_core::{BasicType, ElementOperator};
use ocl_kinds::{Kind, ScalarKind, elements_kind};
use ocl_types::{Effect, Source, class_operator};

/// What an operation takes as an argument.
#[derive(Clone, Copy)]
pub(crate) enum Argument {
    /// A value of a type.
    Of(BasicType),
    /// The name of a class.
    Class,
    /// A value that may be among the elements.
    Element,
    /// A collection whose elements may be among them.
    Collection,
}

/// An operation.
#[derive(Clone, Copy)]
pub(crate) enum Operation {
    /// One of the table.
    Listed(&'static ocl_types::Operation),
    /// One that takes the name of a class, by its own name.
    OnClass(&'static str),
}

static CLASS_OPERATIONS: [&str; 3] = ["oclIsKindOf", "oclIsTypeOf", "oclAsType"];

/// Whether an operation on such a source can be called on a value of a type.
fn is_source(source: Source, kind: &Kind) -> bool {
    match (source, kind) {
        (Source::OfType(wanted), Kind::Scalar(_)) => *kind == Kind::Scalar(wanted.kind()),
        (Source::Single, Kind::Scalar(_)) => true,
        (Source::AnyCollection, Kind::Collection(_, _)) => true,
        (Source::CollectionOf(wanted), Kind::Collection(_, element)) => {
            *element == ScalarKind::Void || *element == wanted.kind()
        }
        _ => false,
    }
}

/// What an operation on the elements of a collection takes.
fn element_argument(operator: ElementOperator) -> Option<Argument> {
    match operator {
        ElementOperator::Includes | ElementOperator::Occurrences => Some(Argument::Element),
        ElementOperator::IncludesAll | ElementOperator::ExcludesAll => Some(Argument::Collection),
        ElementOperator::AsSet => None,
    }
}

/// The type of what an operation on the elements of a collection gives.
fn element_result(operator: ElementOperator, source: &Kind) -> Kind {
    match operator {
        ElementOperator::Occurrences => Kind::Scalar(ScalarKind::Integer),
        ElementOperator::AsSet => Kind::Collection(CollectionKind::Set, elements_kind(source)),
        _ => Kind::Scalar(ScalarKind::Boolean),
    }
}

impl Operation {
    /// Its name.
    pub(crate) fn name(self) -> &'static str {
        match self {
            Operation::Listed(operation) => operation.name,
            Operation::OnClass(name) => name,
        }
    }

    /// Whether it can be called on a value of a type.
    pub(crate) fn is_on(self, kind: &Kind) -> bool {
        match self {
            Operation::Listed(operation) => is_source(operation.source, kind),
            Operation::OnClass(_) => matches!(kind, Kind::Scalar(ScalarKind::Class(_))),
        }
    }

    /// What it takes as the argument of this number, from 0; none behind the last.
    pub(crate) fn argument(self, index: usize) -> Option<Argument> {
        let effect = match self {
            Operation::Listed(operation) => &operation.effect,
            Operation::OnClass(_) if index == 0 => return Some(Argument::Class),
            Operation::OnClass(_) => return None,
        };
        match effect {
            Effect::Plainly(_, wanted, _) => Some(Argument::Of(*wanted.get(index)?)),
            Effect::OnElements(operator) if index == 0 => element_argument(*operator),
            Effect::OnElements(_) => None,
        }
    }

    /// How many arguments it takes.
    pub(crate) fn argument_count(self) -> usize {
        let Operation::Listed(operation) = self else {
            return 1;
        };
        match &operation.effect {
            Effect::Plainly(_, wanted, _) => wanted.len(),
            Effect::OnElements(operator) if element_argument(*operator).is_some() => 1,
            Effect::OnElements(_) => 0,
        }
    }

    /// The type of its result on a source of a type, but for an operation that gives an object of a class.
    pub(crate) fn result(self, source: &Kind) -> Option<Kind> {
        match self {
            Operation::Listed(operation) => match &operation.effect {
                Effect::Plainly(_, _, given) => Some(Kind::Scalar(given.kind())),
                Effect::OnElements(operator) => Some(element_result(*operator, source)),
            },
            Operation::OnClass(name) if name == "oclAsType" => None,
            Operation::OnClass(_) => Some(Kind::Scalar(ScalarKind::Boolean)),
        }
    }
}

/// The operation of a number, from 0: first those that take the name of a class.
pub(crate) fn operation_at(index: usize) -> Option<Operation> {
    if let Some(name) = CLASS_OPERATIONS.get(index) {
        return Some(Operation::OnClass(name));
    }
    let listed = ocl_types::operations().get(index.saturating_sub(CLASS_OPERATIONS.len()))?;
    Some(Operation::Listed(listed))
}

/// How many operations there are.
pub(crate) fn operation_count() -> usize {
    CLASS_OPERATIONS
        .len()
        .saturating_add(ocl_types::operations().len())
}

/// The operation of a name on values of a type.
pub(crate) fn operation_on(name: &str, kind: &Kind) -> Option<Operation> {
    for index in 0..operation_count() {
        let operation = operation_at(index)?;
        if operation.name() == name && operation.is_on(kind) {
            return Some(operation);
        }
    }
    None
}

/// Whether an operation of this name takes the name of a class.
pub(crate) fn takes_class(name: &str) -> bool {
    class_operator(name).is_some()
}
