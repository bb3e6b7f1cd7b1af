//! What a reading finds at a fault, and how it ends.

use imkl_model::EnumNo;
use ocl_kinds::Kind;
use ocl_text::{BinaryOperator, Navigation};
use std::alloc::AllocError;

/// What is wrong at a fault, with the types that are at odds.
#[derive(Clone, Copy, Drop)]
pub(crate) enum Finding {
    /// A value of this type where a Boolean is wanted.
    NotBoolean(Kind),
    /// A body of this type where a single value is wanted.
    NestedBody(Kind),
    /// A declared type of collections of collections.
    NestedType,
    /// A type that is declared of an accumulator, and that none has.
    NoAccumulator(Kind),
    /// What the sign stands before.
    NoInteger(Kind),
    /// A value, or an element, that doesn't conform to the type that is declared.
    OtherType {
        is_element: bool,
        given: Kind,
        declared: Kind,
    },
    /// Operands that an operator doesn't take.
    Operands {
        operator: BinaryOperator,
        left: Kind,
        right: Kind,
    },
    /// Branches of which neither conforms to the other.
    Branches {
        one: Kind,
        other: Kind,
    },
    /// An argument, by its index, that the named operation on values of a type doesn't take.
    Argument {
        on: Kind,
        index: usize,
        given: Kind,
    },
    /// So many arguments of the named operation, which are too few or too many.
    ArgumentCount {
        on: Kind,
        given: usize,
    },
    /// Arguments where none may be.
    NoArguments,
    /// A bare name that names nothing.
    Name,
    /// A type that isn't there.
    Type,
    /// A name before a type in parentheses that is no collection's.
    Collection,
    /// A class that isn't there.
    Class,
    /// Something else than the name of a class.
    NoClass,
    /// An enumeration that isn't there.
    Enumeration,
    /// A literal that an enumeration doesn't have.
    Literal(EnumNo),
    /// A feature that what is on the left doesn't have.
    Feature(Kind),
    /// An operation that what is on the left doesn't have.
    Operation {
        left: Kind,
        navigation: Navigation,
    },
}

/// Why a reading stops before the end of its rule.
#[derive(Clone, Copy, Drop)]
pub(crate) enum Stop {
    /// It came to the fault, or met what has no type and isn't the fault.
    Fault,
    /// Memory ran out.
    OutOfMemory,
}

impl From<AllocError> for Stop {
    fn from(_error: AllocError) -> Stop {
        Stop::OutOfMemory
    }
}
