//! The operands that instructions take.

ghost use Rattle.std.specs.Prelude.{◌≡◌, length};
ghost use Rattle.rule_verify.specs.CodeTree.{block_of};
ghost use Rattle.rule_verify.specs.InstrKinds as spec;
ghost use Rattle.rule_verify.specs.InstrKinds.{Surroundings};
ghost use Rattle.rule_verify.specs.Walk.{surroundings_of, operand_list};

use crate::block_instr::BlockInstr;
use crate::blocks::block_of;
use crate::code::RuleCode;
use crate::meant::{kind_meant, owner_kind, scalar_meant};
use crate::pattern::{Operands, Pattern};
use ocl_kinds::{Kind, ScalarKind};
use rule_code::Instr;

/// A single value of a kind that fits this one.
fn single(element: ScalarKind) -> Pattern
    ensures { result ≡ Pattern.Fitting (Kind.Scalar element) }
{
    Pattern::Fitting(Kind::Scalar(element))
}

/// What the operands of an instruction without a body may be, where they depend on none of its fields.
fn fixed_operands(instr: Instr) -> Operands
    ensures { operand_list result ≡ spec.fixed_operands instr }
{
    let boolean = single(ScalarKind::Boolean);
    let integer = single(ScalarKind::Integer);
    let string = single(ScalarKind::String);
    match instr {
        Instr::KindOf(_) | Instr::TypeOf(_) | Instr::AsType(_) => {
            Operands::One(single(ScalarKind::AnyObject))
        }
        Instr::Neg | Instr::Abs => Operands::One(integer),
        Instr::Add | Instr::Sub | Instr::Mul | Instr::Div | Instr::Mod | Instr::Min | Instr::Max =>
            { Operands::Two(integer, single(ScalarKind::Integer)) }
        Instr::Lt | Instr::Le | Instr::Gt | Instr::Ge => {
            Operands::Two(integer, single(ScalarKind::Integer))
        }
        Instr::Not => Operands::One(boolean),
        Instr::And | Instr::Or | Instr::Xor | Instr::Implies => {
            Operands::Two(boolean, single(ScalarKind::Boolean))
        }
        Instr::Eqx => Operands::Two(Pattern::Anything, Pattern::Anything),
        Instr::Undef | Instr::IsInv => Operands::One(Pattern::Anything),
        Instr::TLen => Operands::One(string),
        Instr::SubStr => Operands::Three(integer, single(ScalarKind::Integer), string),
        Instr::Size | Instr::IsEmpty => Operands::One(Pattern::AnyCollection),
        Instr::Sum => Operands::One(Pattern::CollectionOf(ScalarKind::Integer)),
        Instr::SelfObject | Instr::Get(_) | Instr::Int(_) | Instr::Bool(_) => Operands::Nothing,
        Instr::Text(_) | Instr::Enum(_) | Instr::Null | Instr::Invalid => Operands::Nothing,
        Instr::Attr(_) | Instr::All(_) | Instr::AsColl(_, _) | Instr::Eq(_) => Operands::Nothing,
        Instr::Includes(_) | Instr::Count(_) | Instr::IncAll(_) => Operands::Nothing,
        Instr::ExcAll(_) | Instr::AsSet(_) | Instr::Let(_) | Instr::If(_, _, _) =>
            Operands::Nothing,
        Instr::ForAll(_) | Instr::Exists(_) | Instr::One(_) | Instr::Select(_) | Instr::Reject(_) =>
            Operands::Nothing,
        Instr::Collect(_) | Instr::CollectFlat(_) | Instr::IsUnique(_, _) | Instr::Fold(_, _) =>
            Operands::Nothing,
    }
}

/// What the operands of a block may be; where the instruction is none, they depend on none of its fields.
fn block_operands(rule: &RuleCode<'_, '_>, instr: Instr) -> Operands
    ensures { operand_list result ≡ spec.block_takes (surroundings_of rule.now) (block_of instr)
        (spec.fixed_operands instr) }
{
    let collection = Operands::One(Pattern::AnyCollection);
    match block_of(instr) {
        None => fixed_operands(instr),
        Some(BlockInstr::Let(_)) => Operands::One(Pattern::Anything),
        Some(BlockInstr::If(_, _, _)) => Operands::One(single(ScalarKind::Boolean)),
        Some(BlockInstr::ForAll(_) | BlockInstr::Exists(_) | BlockInstr::One(_)) => collection,
        Some(BlockInstr::Select(_) | BlockInstr::Reject(_)) => collection,
        Some(BlockInstr::Collect(_) | BlockInstr::CollectFlat(_)) => collection,
        Some(BlockInstr::IsUnique(_, _)) => collection,
        Some(BlockInstr::Fold(kind, _)) => {
            Operands::Two(single(scalar_meant(rule, kind)), Pattern::AnyCollection)
        }
    }
}

/// What the operands of an instruction may be, the topmost first.
pub(crate) fn operands_of(rule: &RuleCode<'_, '_>, instr: Instr) -> Operands
    ensures { operand_list result ≡ spec.operands_of (surroundings_of rule.now) instr }
{
    match instr {
        Instr::Attr(symbol) => Operands::One(single(owner_kind(rule, symbol))),
        Instr::AsColl(_, kind) => Operands::One(single(scalar_meant(rule, kind))),
        Instr::Eq(kind) => {
            let wanted = kind_meant(rule, kind);
            let same = wanted;
            Operands::Two(Pattern::Fitting(wanted), Pattern::Fitting(same))
        }
        Instr::Includes(kind) | Instr::Count(kind) => {
            let element = scalar_meant(rule, kind);
            let same = element;
            Operands::Two(single(element), Pattern::CollectionOf(same))
        }
        Instr::IncAll(kind) | Instr::ExcAll(kind) => {
            let element = scalar_meant(rule, kind);
            let same = element;
            Operands::Two(Pattern::CollectionOf(element), Pattern::CollectionOf(same))
        }
        Instr::AsSet(kind) => Operands::One(Pattern::CollectionOf(scalar_meant(rule, kind))),
        _ => block_operands(rule, instr),
    }
}

/// How many operands an instruction takes, whatever they may be. (It is compiled into a machine's step.)
#[inline(always)]
pub fn operand_count(instr: Instr) -> usize
    ensures { (s : Surroundings) → result ≡ length (spec.operands_of s instr) }
{
    match instr {
        Instr::SelfObject | Instr::Get(_) | Instr::Int(_) | Instr::Bool(_) | Instr::Text(_) => 0,
        Instr::Enum(_) | Instr::Null | Instr::Invalid | Instr::All(_) => 0,
        Instr::Attr(_) | Instr::AsColl(_, _) => 1,
        Instr::KindOf(_) | Instr::TypeOf(_) | Instr::AsType(_) => 1,
        Instr::Add | Instr::Sub | Instr::Mul | Instr::Div | Instr::Mod => 2,
        Instr::Neg | Instr::Abs => 1,
        Instr::Min | Instr::Max | Instr::Lt | Instr::Le | Instr::Gt | Instr::Ge => 2,
        Instr::Not => 1,
        Instr::And | Instr::Or | Instr::Xor | Instr::Implies | Instr::Eq(_) | Instr::Eqx => 2,
        Instr::Undef | Instr::IsInv | Instr::TLen => 1,
        Instr::SubStr => 3,
        Instr::Size | Instr::IsEmpty => 1,
        Instr::Includes(_) | Instr::Count(_) | Instr::IncAll(_) | Instr::ExcAll(_) => 2,
        Instr::Sum | Instr::AsSet(_) => 1,
        Instr::Let(_) | Instr::If(_, _, _) => 1,
        Instr::ForAll(_) | Instr::Exists(_) | Instr::One(_) | Instr::Select(_) => 1,
        Instr::Reject(_) | Instr::Collect(_) | Instr::CollectFlat(_) | Instr::IsUnique(_, _) => 1,
        Instr::Fold(_, _) => 2,
    }
}
