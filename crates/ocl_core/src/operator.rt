//! The operators of core trees, and the types that every class model has.

ghost use Rattle.std.specs.Prelude.{◌≡◌};
ghost use Rattle.imkl_model.specs.ClassModel.{Model};
ghost use Rattle.ocl_kinds.specs.Kinds.{IsScalarKindOf};
ghost use Rattle.ocl_core.specs.OperatorKinds.{basic_kind};

use imkl_model::ClassNo;
use ocl_kinds::{Kind, ScalarKind};

/// An operator whose name alone says what it does.
#[derive(Clone, Copy)]
pub enum PlainOperator {
    /// The sum of two whole numbers.
    Add,
    /// Their difference.
    Subtract,
    /// Their product.
    Multiply,
    /// Their quotient, cut towards zero.
    Divide,
    /// What is left by that quotient.
    Modulo,
    /// The lesser of two whole numbers.
    Minimum,
    /// The greater.
    Maximum,
    /// A whole number with the other sign.
    Negate,
    /// A whole number without its sign.
    Absolute,
    /// `<`
    Less,
    /// `<=`
    LessEqual,
    /// `>`
    Greater,
    /// `>=`
    GreaterEqual,
    /// How many characters a text has.
    CharacterCount,
    /// The characters of a text from one place to another, counted from 1.
    Substring,
    /// Negation of a truth value.
    Not,
    /// `and`
    And,
    /// `or`
    Or,
    /// `xor`
    Xor,
    /// `implies`
    Implies,
    /// Whether a single value is null or invalid.
    IsUndefined,
    /// Whether a single value is invalid.
    IsInvalid,
    /// Equality of values whose kinds have nothing in common: whether both are null.
    BothNull,
    /// How many elements a collection has.
    ElementCount,
    /// Whether a collection has none.
    IsEmpty,
    /// The sum of a collection's whole numbers.
    Sum,
}

/// An operator that asks for the class of an object.
#[derive(Clone, Copy)]
pub enum ClassOperator {
    /// Whether it is an object of the class or of one that conforms to it.
    IsKindOf,
    /// Whether it is an object of the class itself.
    IsTypeOf,
    /// The object, seen as one of the class.
    AsType,
}

/// An operator that compares the elements of collections.
#[derive(Clone, Copy)]
pub enum ElementOperator {
    /// Whether a value is an element.
    Includes,
    /// How often a value is an element.
    Occurrences,
    /// Whether each element of a second collection is one of the first.
    IncludesAll,
    /// Whether no element of a second collection is one of the first.
    ExcludesAll,
    /// The elements as a set.
    AsSet,
}

/// The operator of an operation.
#[derive(Clone, Copy)]
pub enum Operator {
    /// One that its name alone describes.
    Plain(PlainOperator),
    /// One that asks for this class.
    OfClass(ClassOperator, ClassNo),
    /// One that compares elements, as values of this kind.
    OfElements(ElementOperator, ScalarKind),
    /// Equality of two values of this kind.
    Equal(Kind),
}

/// A type that every class model has.
#[derive(Clone, Copy)]
pub enum BasicType {
    /// Truth values.
    Boolean,
    /// Whole numbers.
    Integer,
    /// Texts.
    String,
}

impl BasicType {
    /// The kind of its values.
    pub fn kind(self) -> ScalarKind
        ensures value { result ≡ basic_kind self }
        ensures known { (m : Model) → IsScalarKindOf m result }
    {
        match self {
            BasicType::Boolean => ScalarKind::Boolean,
            BasicType::Integer => ScalarKind::Integer,
            BasicType::String => ScalarKind::String,
        }
    }
}
