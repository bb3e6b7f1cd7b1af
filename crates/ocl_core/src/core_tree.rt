//! Core trees: what a rule's expression means, with names resolved and everything written out.

use crate::operator::Operator;
use imkl_model::{ClassNo, CollectionKind, EnumNo, FeatureNo, LiteralNo};
use ocl_kinds::{Kind, ScalarKind};
use ocl_text::{Name, WholeNumber};

/// A value that stands in the text.
#[derive(Drop)]
pub enum ConstantValue {
    /// A truth value.
    Boolean(bool),
    /// A whole number.
    Integer(WholeNumber),
    /// A text.
    Text(String),
    /// A literal of an enumeration.
    Literal(EnumNo, LiteralNo),
    /// `null`
    Null,
    /// `invalid`
    Invalid,
}

/// An iteration over the elements of a collection.
#[derive(Clone, Copy)]
pub enum Iteration {
    /// Whether the body is true of each element.
    ForAll,
    /// Whether it is true of some element.
    Exists,
    /// Whether it is true of exactly one.
    One,
    /// The elements of which it is true.
    Select,
    /// The elements of which it is false.
    Reject,
    /// The values of the body.
    Collect,
    /// The elements of the collections that the body gives.
    CollectFlat,
    /// Whether the body's values, compared as values of this kind, all differ.
    IsUnique(ScalarKind),
}

/// What goes on after a first operand.
#[cycle(core)]
#[derive(Drop)]
pub enum CoreLink {
    /// A feature of the object on the left.
    Feature {
        /// The feature, which belongs to the object's class.
        feature: FeatureNo,
    },
    /// An operation on what stands on the left.
    Operation {
        /// What it does.
        operator: Operator,
        /// Its operands after the first.
        others: Vec<Core>,
    },
    /// The single value on the left as the only element of a collection; `null` as an empty one.
    AsCollection {
        /// The kind of the collection.
        collection: CollectionKind,
        /// The kind of its elements.
        element: ScalarKind,
    },
    /// An iteration over the collection on the left.
    Iterate {
        /// What it asks.
        iteration: Iteration,
        /// What is evaluated for each element, which is one more variable.
        body: Core,
    },
    /// A value accumulated over the collection on the left, element after element.
    Fold {
        /// The kind of the accumulator.
        kind: ScalarKind,
        /// What it begins with.
        start: Box<Core>,
        /// What it becomes at each element. Element and accumulator are two more variables, in this order.
        body: Core,
    },
}

/// A core tree. Variables are numbered by nesting: the object of the context class is variable 0, and each `let` and each
/// iteration binds the next one in its body. A fold binds the next two: the element, then the accumulator.
///
/// What is applied to a first operand stands in one list after it, the one applied last at its end: so a tree's depth in
/// memory is bounded as that of the text's tree is.
#[cycle(core)]
#[derive(Drop)]
pub enum Core {
    /// A value.
    Constant {
        /// Which.
        value: ConstantValue,
    },
    /// A variable.
    Variable {
        /// Its number.
        number: usize,
    },
    /// All objects of a class and of those that conform to it, as a set.
    AllInstances {
        /// The class.
        class: ClassNo,
    },
    /// A first operand with what is applied to it, in order.
    Spine {
        /// The first operand.
        first: Box<Core>,
        /// What is applied.
        links: Vec<CoreLink>,
    },
    /// Values as variables of a body, each seen by those after it.
    Let {
        /// The values, outermost first.
        values: Vec<Core>,
        /// What sees them all.
        body: Box<Core>,
    },
    /// One of two branches.
    If {
        /// The kind of both.
        kind: Kind,
        /// The condition.
        condition: Box<Core>,
        /// The value where the condition is true.
        then_branch: Box<Core>,
        /// The value where the condition is false.
        else_branch: Box<Core>,
    },
}

/// A rule whose types are checked.
#[derive(Drop)]
pub struct CoreRule {
    /// Its name.
    pub name: Name,
    /// Its context class.
    pub context: ClassNo,
    /// Its expression.
    pub tree: Core,
}
