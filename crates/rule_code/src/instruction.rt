//! The instructions of the machine.

use crate::kind::{WrittenKind, WrittenScalar};
use crate::symbol::{SymbolNumber, TextNumber};
use ocl_base::CollectionKind;

/// One instruction. `docs/formats/code-file.md` has the opcode and the fields of each, `docs/formats/machine.md`
/// the operands that it takes and the value that it gives.
///
/// A block has the number of instructions of its body, which follows it.
#[derive(Clone, Copy)]
pub enum Instr {
    /// The object that the rule is judged on.
    SelfObject,
    /// The variable of a number.
    Get(u16),
    /// An Integer.
    Int(i64),
    /// A Boolean.
    Bool(bool),
    /// A text.
    Text(TextNumber),
    /// A literal of an enumeration.
    Enum(SymbolNumber),
    /// Null.
    Null,
    /// Invalid.
    Invalid,
    /// The value of a feature of the operand.
    Attr(SymbolNumber),
    /// All objects of a class.
    All(SymbolNumber),
    /// A collection of the operand, empty for null.
    AsColl(CollectionKind, WrittenScalar),
    /// Whether the operand's class conforms to a class.
    KindOf(SymbolNumber),
    /// Whether the operand's class is a class.
    TypeOf(SymbolNumber),
    /// The operand where its class conforms to a class.
    AsType(SymbolNumber),
    /// The sum of both operands.
    Add,
    /// The difference of both operands.
    Sub,
    /// The product of both operands.
    Mul,
    /// The quotient of both operands, truncated towards zero.
    Div,
    /// The remainder of that division.
    Mod,
    /// The operand's opposite.
    Neg,
    /// The operand without its sign.
    Abs,
    /// The lesser operand.
    Min,
    /// The greater operand.
    Max,
    /// Whether the first operand is below the second.
    Lt,
    /// Whether the first operand is at most the second.
    Le,
    /// Whether the first operand is above the second.
    Gt,
    /// Whether the first operand is at least the second.
    Ge,
    /// The negation of the operand.
    Not,
    /// The conjunction of both operands.
    And,
    /// The disjunction of both operands.
    Or,
    /// Whether just one operand is true.
    Xor,
    /// Whether the first operand implies the second.
    Implies,
    /// Whether both operands, of one kind, are equal.
    Eq(WrittenKind),
    /// Whether both operands, of kinds that have no value in common, are null.
    Eqx,
    /// Whether the operand is null or invalid.
    Undef,
    /// Whether the operand is invalid.
    IsInv,
    /// The number of characters of a text.
    TLen,
    /// Part of a text.
    SubStr,
    /// The number of elements.
    Size,
    /// Whether there is no element.
    IsEmpty,
    /// Whether the first operand has the second as an element.
    Includes(WrittenScalar),
    /// How many elements of the first operand are the second.
    Count(WrittenScalar),
    /// Whether the first operand has each element of the second.
    IncAll(WrittenScalar),
    /// Whether the first operand has no element of the second.
    ExcAll(WrittenScalar),
    /// The sum of the elements.
    Sum,
    /// The Set of the elements.
    AsSet(WrittenScalar),
    /// Binds the operand to a variable in its body.
    Let(u16),
    /// Goes on with the first or the second body, both of one kind.
    If(WrittenKind, u16, u16),
    /// Whether the body is true of each element.
    ForAll(u16),
    /// Whether the body is true of some element.
    Exists(u16),
    /// Whether the body is true of just one element.
    One(u16),
    /// The elements of which the body is true.
    Select(u16),
    /// The elements of which the body is false.
    Reject(u16),
    /// The values of the body.
    Collect(u16),
    /// The elements of the values of the body.
    CollectFlat(u16),
    /// Whether no two values of the body, of one kind, are equal.
    IsUnique(WrittenScalar, u16),
    /// The value of a kind that the body made last, each of the value made before it. Only version 2 has it.
    Fold(WrittenScalar, u16),
}
