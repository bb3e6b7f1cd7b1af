//! The instructions that are operations on all their operands, with their operators.

ghost use Rattle.std.specs.Prelude.{◌≡◌, List};
ghost use Rattle.ocl_core.specs.Core.{CoreTree};
ghost use Rattle.rule_verify.specs.InstrKinds.{scalar_meant};
ghost use Rattle.rule_trees.specs.InstrTrees as spec;
ghost use Rattle.rule_trees.specs.TreeWalk.{operated, surroundings_in};

use crate::code::RuleCode;
use crate::meant::{kind_meant, scalar_meant};
use ocl_core::{ElementOperator, Operator, PlainOperator};
use rule_code::{Instr, WrittenScalar};

/// An operator, by how many operands it takes.
#[derive(Clone, Copy)]
pub(crate) enum Operation {
    /// On the topmost tree.
    One(Operator),
    /// On the two topmost trees.
    Two(Operator),
    /// On the three topmost trees.
    Three(Operator),
}

/// One on a single operand.
fn one(operator: PlainOperator) -> Option<Operation>
    ensures { (trees : List CoreTree) → spec.on_one (Operator.Plain operator) trees
        ≡ operated result trees }
{
    Some(Operation::One(Operator::Plain(operator)))
}

/// One on two operands.
fn two(operator: PlainOperator) -> Option<Operation>
    ensures { (trees : List CoreTree) → spec.on_two (Operator.Plain operator) trees
        ≡ operated result trees }
{
    Some(Operation::Two(Operator::Plain(operator)))
}

/// One that compares the elements of a collection with another operand.
fn comparing(
    code: &RuleCode<'_>,
    operator: ElementOperator,
    kind: WrittenScalar,
) -> Option<Operation>
    ensures { (trees : List CoreTree) → spec.on_two (Operator.OfElements operator
        (scalar_meant (surroundings_in code.now) kind)) trees ≡ operated result trees }
{
    let kind = scalar_meant(code, kind);
    Some(Operation::Two(Operator::OfElements(operator, kind)))
}

/// The operation of an instruction that asks for the elements of collections.
fn element_operation(code: &RuleCode<'_>, instr: Instr) -> Option<Operation>
    ensures { (trees : List CoreTree) → spec.element_trees (surroundings_in code.now) instr trees
        ≡ operated result trees }
{
    match instr {
        Instr::Size => one(PlainOperator::ElementCount),
        Instr::IsEmpty => one(PlainOperator::IsEmpty),
        Instr::Sum => one(PlainOperator::Sum),
        Instr::Includes(kind) => comparing(code, ElementOperator::Includes, kind),
        Instr::Count(kind) => comparing(code, ElementOperator::Occurrences, kind),
        Instr::IncAll(kind) => comparing(code, ElementOperator::IncludesAll, kind),
        Instr::ExcAll(kind) => comparing(code, ElementOperator::ExcludesAll, kind),
        Instr::AsSet(kind) => {
            let kind = scalar_meant(code, kind);
            let operator = Operator::OfElements(ElementOperator::AsSet, kind);
            Some(Operation::One(operator))
        }
        _ => None,
    }
}

/// The operation of one that gives a truth value by other operands, and those above.
fn truth_operation(code: &RuleCode<'_>, instr: Instr) -> Option<Operation>
    ensures { (trees : List CoreTree) → spec.truth_trees (surroundings_in code.now) instr trees
        ≡ operated result trees }
{
    match instr {
        Instr::Lt => two(PlainOperator::Less),
        Instr::Le => two(PlainOperator::LessEqual),
        Instr::Gt => two(PlainOperator::Greater),
        Instr::Ge => two(PlainOperator::GreaterEqual),
        Instr::Not => one(PlainOperator::Not),
        Instr::And => two(PlainOperator::And),
        Instr::Or => two(PlainOperator::Or),
        Instr::Xor => two(PlainOperator::Xor),
        Instr::Implies => two(PlainOperator::Implies),
        Instr::Eq(kind) => {
            let kind = kind_meant(code, kind);
            Some(Operation::Two(Operator::Equal(kind)))
        }
        Instr::Eqx => two(PlainOperator::BothNull),
        Instr::Undef => one(PlainOperator::IsUndefined),
        Instr::IsInv => one(PlainOperator::IsInvalid),
        _ => element_operation(code, instr),
    }
}

/// The operation of one that works on numbers and texts, and those above.
pub(crate) fn operation_of(code: &RuleCode<'_>, instr: Instr) -> Option<Operation>
    ensures { (trees : List CoreTree) → spec.number_trees (surroundings_in code.now) instr trees
        ≡ operated result trees }
{
    match instr {
        Instr::Add => two(PlainOperator::Add),
        Instr::Sub => two(PlainOperator::Subtract),
        Instr::Mul => two(PlainOperator::Multiply),
        Instr::Div => two(PlainOperator::Divide),
        Instr::Mod => two(PlainOperator::Modulo),
        Instr::Neg => one(PlainOperator::Negate),
        Instr::Abs => one(PlainOperator::Absolute),
        Instr::Min => two(PlainOperator::Minimum),
        Instr::Max => two(PlainOperator::Maximum),
        Instr::TLen => one(PlainOperator::CharacterCount),
        Instr::SubStr => Some(Operation::Three(Operator::Plain(PlainOperator::Substring))),
        _ => truth_operation(code, instr),
    }
}
