//! What a rule text spells, before names are looked up.

ghost use Rattle.std.specs.Prelude.{◌≡◌};
ghost use Rattle.ocl_text.specs.Tree as tree;
ghost use Rattle.ocl_text.specs.View as spec;

use crate::name::{Name, OperationName, WholeNumber};

/// An operator between two operands.
#[derive(Clone, Copy)]
pub enum BinaryOperator {
    /// `*`
    Multiply,
    /// `div`
    Divide,
    /// `mod`
    Modulo,
    /// `+`
    Add,
    /// `-`
    Subtract,
    /// `<`
    Less,
    /// `<=`
    LessEqual,
    /// `>`
    Greater,
    /// `>=`
    GreaterEqual,
    /// `=`
    Equal,
    /// `<>`
    NotEqual,
    /// `and`
    And,
    /// `or`
    Or,
    /// `xor`
    Xor,
    /// `implies`
    Implies,
}

/// An operator before its operand.
#[derive(Clone, Copy)]
pub enum PrefixOperator {
    /// `-`
    Negate,
    /// `not`
    Not,
}

/// An iteration, by the name after its arrow.
#[derive(Clone, Copy)]
pub enum IteratorKind {
    /// `forAll`, which may have two variables.
    ForAll,
    /// `exists`, which may have two variables.
    Exists,
    /// `select`
    Select,
    /// `reject`
    Reject,
    /// `collect`
    Collect,
    /// `one`
    One,
    /// `isUnique`
    IsUnique,
}

/// A reserved word that stands for a value.
#[derive(Clone, Copy)]
pub enum Keyword {
    /// `true`
    True,
    /// `false`
    False,
    /// `null`
    Null,
    /// `invalid`
    Invalid,
    /// `self`, the object of the context class.
    SelfObject,
}

/// How a call is joined to its source.
#[derive(Clone, Copy)]
pub enum Navigation {
    /// `.`
    Dot,
    /// `->`
    Arrow,
}

/// A type as it is written.
#[derive(Drop)]
pub enum DeclaredType {
    /// A name alone, as `Integer`.
    Named {
        /// The name.
        name: Name,
        /// The name, in bytes from 0.
        offset: usize,
    },
    /// A name with a type in parentheses, as `Set(Integer)`.
    Collection {
        /// The name before the parenthesis.
        name: Name,
        /// The type inside.
        element: Box<DeclaredType>,
        /// The name before the parenthesis, in bytes from 0.
        offset: usize,
    },
}

impl DeclaredType {
    /// Where the type stands: its name, in bytes from 0.
    #[tactic(auto, using(crate::proofs::Views::type_views))]
    pub fn offset(&self) -> usize
        ensures { result ≡ tree.type_offset (spec.view_type self.now) }
    {
        match self {
            DeclaredType::Named { offset, .. } | DeclaredType::Collection { offset, .. } => *offset,
        }
    }
}

/// A variable of an iteration.
#[derive(Drop)]
pub struct Variable {
    /// Its name.
    pub name: Name,
    /// Its type, where one is written.
    pub declared: Option<DeclaredType>,
}

/// The variables of an iteration.
#[derive(Drop)]
pub enum Variables {
    /// None is named.
    Unnamed,
    /// One.
    Single(Variable),
    /// Two, after `forAll` and `exists` alone.
    Pair(Variable, Variable),
}

/// A variable of a `let`, or the accumulator of an `iterate`, with its value.
#[cycle(tree)]
#[derive(Drop)]
pub struct Binding {
    /// Its name.
    pub name: Name,
    /// Its type.
    pub declared: DeclaredType,
    /// Its value; of a `let`, it sees the bindings before it.
    pub value: Expression,
    /// The name, in bytes from 0.
    pub offset: usize,
}

/// What goes on after an operand: an operator with its right operand, or a step by a dot or an arrow.
#[cycle(tree)]
#[derive(Drop)]
pub enum Link {
    /// An operator between what stands left of it and its right operand.
    Binary {
        /// The operator.
        operator: BinaryOperator,
        /// The right operand.
        right: Expression,
        /// The operator, in bytes from 0.
        offset: usize,
    },
    /// `.name`, without parentheses after the name.
    Property {
        /// The name after the dot.
        name: Name,
        /// The name, in bytes from 0.
        offset: usize,
    },
    /// `.name(..)` or `->name(..)`, where the name is no iteration's and not `iterate`.
    Call {
        /// Which of the two.
        navigation: Navigation,
        /// The name after it; after a dot also `div` and `mod`.
        name: OperationName,
        /// The arguments in order.
        arguments: Vec<Expression>,
        /// The name, in bytes from 0.
        offset: usize,
    },
    /// `->name(variables | body)` or `->name(body)`, where the name is an iteration's.
    Iterate {
        /// The iteration that the name after the arrow names.
        iterator: IteratorKind,
        /// Its variables.
        variables: Variables,
        /// What is evaluated for each element.
        body: Expression,
        /// The name, in bytes from 0.
        offset: usize,
    },
    /// `->iterate(variable; accumulator | body)`
    Fold {
        /// The element's variable.
        variable: Variable,
        /// The accumulator, with its start value.
        accumulator: Box<Binding>,
        /// What the accumulator becomes at each element.
        body: Expression,
        /// The word `iterate`, in bytes from 0.
        offset: usize,
    },
}

impl Link {
    /// Where the link stands: an operator's token, or the name after a dot or an arrow, in bytes from 0.
    pub fn offset(&self) -> usize
        ensures { (left : tree.SurfaceTree) → result ≡ tree.offset_of (spec.link_of self.now left) }
    {
        match self {
            Link::Binary { offset, .. }
            | Link::Property { offset, .. }
            | Link::Call { offset, .. }
            | Link::Iterate { offset, .. }
            | Link::Fold { offset, .. } => *offset,
        }
    }
}

/// An expression; parentheses leave no node.
///
/// Operators and steps stand in one list after their first operand, the one applied last at its end, since there may be
/// hundreds of thousands of them one inside the other: so nothing that goes over a tree needs a deep stack.
#[cycle(tree)]
#[derive(Drop)]
pub enum Expression {
    /// A whole number.
    Number {
        /// Its value.
        value: WholeNumber,
        /// Its first digit, in bytes from 0.
        offset: usize,
    },
    /// A string.
    String {
        /// Its characters, with each escape replaced by the one that it names.
        value: String,
        /// Its opening quote, in bytes from 0.
        offset: usize,
    },
    /// `true`, `false`, `null`, `invalid` or `self`.
    Keyword {
        /// Which of them.
        keyword: Keyword,
        /// The word, in bytes from 0.
        offset: usize,
    },
    /// A bare name: a variable, a feature or a class.
    Name {
        /// The name.
        name: Name,
        /// The name, in bytes from 0.
        offset: usize,
    },
    /// `E::l`, a literal of an enumeration.
    EnumerationLiteral {
        /// The enumeration's name.
        enumeration: Name,
        /// The literal's name.
        literal: Name,
        /// The enumeration's name, in bytes from 0.
        offset: usize,
    },
    /// An operator before its operand.
    Prefix {
        /// The operator.
        operator: PrefixOperator,
        /// What it applies to.
        operand: Box<Expression>,
        /// The operator, in bytes from 0.
        offset: usize,
    },
    /// An operand with the operators and steps after it: each applies to all that stands left of it.
    Spine {
        /// The first operand.
        first: Box<Expression>,
        /// The operators and steps in order.
        links: Vec<Link>,
    },
    /// `let .. in body`, with one binding or more. It stands for as many lets of one binding, one inside the other: the
    /// first at the word `let`, each other at its name.
    Let {
        /// The first binding.
        first: Box<Binding>,
        /// The other bindings in order.
        others: Vec<Binding>,
        /// The expression after `in`, which sees them all.
        body: Box<Expression>,
        /// The word `let`, in bytes from 0.
        offset: usize,
    },
    /// `if condition then .. else .. endif`
    If {
        /// The condition.
        condition: Box<Expression>,
        /// The value where the condition is true.
        then_branch: Box<Expression>,
        /// The value where the condition is false.
        else_branch: Box<Expression>,
        /// The word `if`, in bytes from 0.
        offset: usize,
    },
}

impl Expression {
    /// Where the expression stands, in bytes from 0: an operator at its token, a step by a dot or an arrow at the name
    /// after it, everything else at its first token.
    pub fn offset(&self) -> usize
        ensures { result ≡ tree.offset_of (spec.view self.now) }
    {
        match self {
            Expression::Number { offset, .. }
            | Expression::String { offset, .. }
            | Expression::Keyword { offset, .. }
            | Expression::Name { offset, .. }
            | Expression::EnumerationLiteral { offset, .. }
            | Expression::Prefix { offset, .. }
            | Expression::Let { offset, .. }
            | Expression::If { offset, .. } => *offset,
            Expression::Spine { first, links } => match links.last() {
                Some(link) => link.offset(),
                None => first.offset(),
            },
        }
    }
}

/// A rule: an invariant of a rule text. Offsets are bytes from 0.
#[derive(Drop)]
pub struct SurfaceRule {
    /// The name that stands after `inv`; where none does, `inv` and the number of the invariant among all of the text,
    /// from 1.
    pub name: Name,
    /// The name of the context class.
    pub context: Name,
    /// The word `inv`.
    pub offset: usize,
    /// The name of the context class.
    pub context_offset: usize,
    /// The expression after the colon.
    pub expression: Expression,
}
