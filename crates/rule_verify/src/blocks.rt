//! Blocks: which instructions have bodies, what these may use and end with, and the block's result.

ghost use Rattle.std.specs.Prelude.{◌≡◌, ◌++◌, drop, OnOk};
ghost use Rattle.rule_verify.specs.CodeTree.{block_of, shape_of};
ghost use Rattle.rule_verify.specs.InstrKinds as spec;
ghost use Rattle.rule_verify.specs.Walk.{surroundings_of};

use crate::block_instr::BlockInstr;
use crate::code::RuleCode;
use crate::meant::{kind_meant, scalar_meant};
use crate::pattern::Pattern;
use crate::shape::Shape;
use crate::taking::put;
use imkl_model::CollectionKind;
use ocl_base::Stack;
use ocl_kinds::{Kind, ScalarKind, collected_kind, elements_kind};
use rule_code::Instr;
use std::alloc::AllocError;

/// The block that an instruction is; none where it has no body. Every instruction is named here: what holds of blocks
/// goes by this, and each of its tables names each block.
#[inline(always)]
pub fn block_of(instr: Instr) -> Option<BlockInstr>
    ensures { result ≡ block_of instr }
{
    match instr {
        Instr::SelfObject | Instr::Get(_) | Instr::Int(_) | Instr::Bool(_) | Instr::Text(_) => None,
        Instr::Enum(_) | Instr::Null | Instr::Invalid | Instr::Attr(_) | Instr::All(_) => None,
        Instr::AsColl(_, _) | Instr::KindOf(_) | Instr::TypeOf(_) | Instr::AsType(_) => None,
        Instr::Add | Instr::Sub | Instr::Mul | Instr::Div | Instr::Mod | Instr::Neg => None,
        Instr::Abs | Instr::Min | Instr::Max | Instr::Lt | Instr::Le | Instr::Gt => None,
        Instr::Ge | Instr::Not | Instr::And | Instr::Or | Instr::Xor | Instr::Implies => None,
        Instr::Eq(_) | Instr::Eqx | Instr::Undef | Instr::IsInv | Instr::TLen => None,
        Instr::SubStr | Instr::Size | Instr::IsEmpty | Instr::Includes(_) => None,
        Instr::Count(_) | Instr::IncAll(_) | Instr::ExcAll(_) | Instr::Sum | Instr::AsSet(_) =>
            None,
        Instr::Let(body) => Some(BlockInstr::Let(body)),
        Instr::If(kind, first, second) => Some(BlockInstr::If(kind, first, second)),
        Instr::ForAll(body) => Some(BlockInstr::ForAll(body)),
        Instr::Exists(body) => Some(BlockInstr::Exists(body)),
        Instr::One(body) => Some(BlockInstr::One(body)),
        Instr::Select(body) => Some(BlockInstr::Select(body)),
        Instr::Reject(body) => Some(BlockInstr::Reject(body)),
        Instr::Collect(body) => Some(BlockInstr::Collect(body)),
        Instr::CollectFlat(body) => Some(BlockInstr::CollectFlat(body)),
        Instr::IsUnique(kind, body) => Some(BlockInstr::IsUnique(kind, body)),
        Instr::Fold(kind, body) => Some(BlockInstr::Fold(kind, body)),
    }
}

/// How many bodies an instruction has, with the number of instructions of each.
#[inline(always)]
pub fn shape_of(instr: Instr) -> Shape
    ensures { result ≡ shape_of instr }
{
    match block_of(instr) {
        None => Shape::Single,
        Some(
            BlockInstr::Let(body)
            | BlockInstr::ForAll(body)
            | BlockInstr::Exists(body)
            | BlockInstr::One(body)
            | BlockInstr::Select(body)
            | BlockInstr::Reject(body)
            | BlockInstr::Collect(body)
            | BlockInstr::CollectFlat(body)
            | BlockInstr::IsUnique(_, body)
            | BlockInstr::Fold(_, body),
        ) => Shape::OneBody(usize::from(body)),
        Some(BlockInstr::If(_, first, second)) => {
            Shape::TwoBodies(usize::from(first), usize::from(second))
        }
    }
}

/// The kind of what is collected from the operand of a block.
fn collection_of(kind: &Kind) -> CollectionKind
    ensures { result ≡ spec.collection_of kind.now }
{
    match kind {
        Kind::Scalar(_) => CollectionKind::Bag,
        Kind::Collection(source, _) => collected_kind(*source),
    }
}

/// How many of the operands that a block takes lie above the one that it works on.
#[inline(always)]
pub fn operands_above(instr: Instr) -> usize
    ensures { result ≡ spec.operands_above instr }
{
    match block_of(instr) {
        Some(BlockInstr::Let(_) | BlockInstr::If(_, _, _)) | None => 0,
        Some(BlockInstr::ForAll(_) | BlockInstr::Exists(_) | BlockInstr::One(_)) => 0,
        Some(BlockInstr::Select(_) | BlockInstr::Reject(_)) => 0,
        Some(BlockInstr::Collect(_) | BlockInstr::CollectFlat(_)) => 0,
        Some(BlockInstr::IsUnique(_, _)) => 0,
        Some(BlockInstr::Fold(_, _)) => 1,
    }
}

/// The operand that a block works on.
pub(crate) fn block_operand(instr: Instr, operands: &Stack<Kind>) -> Kind
    ensures { result ≡ spec.block_operand instr operands.now }
{
    match operands.from_top(operands_above(instr)) {
        Some(kind) => kind,
        None => Kind::Scalar(ScalarKind::Void),
    }
}

/// Binds the variables of a block with one body, by the operand that it works on.
pub(crate) fn bind(
    rule: &RuleCode<'_, '_>,
    variables: &mut Stack<Kind>,
    instr: Instr,
    operand: &Kind,
) -> Result<(), AllocError>
    ensures { OnOk result (variables.new ≡
        spec.binds (surroundings_of rule.now) instr operand.now ++ variables.old) }
{
    let element = Kind::Scalar(elements_kind(operand));
    match block_of(instr) {
        Some(BlockInstr::Let(_)) => put(variables, *operand),
        Some(BlockInstr::ForAll(_) | BlockInstr::Exists(_) | BlockInstr::One(_)) => {
            put(variables, element)
        }
        Some(BlockInstr::Select(_) | BlockInstr::Reject(_)) => put(variables, element),
        Some(BlockInstr::Collect(_) | BlockInstr::CollectFlat(_)) => put(variables, element),
        Some(BlockInstr::IsUnique(_, _)) => put(variables, element),
        Some(BlockInstr::Fold(kind, _)) => {
            put(variables, element)?;
            put(variables, Kind::Scalar(scalar_meant(rule, kind)))
        }
        Some(BlockInstr::If(_, _, _)) | None => put(variables, element),
    }
}

/// How many variables a block with one body binds.
#[inline(always)]
pub fn bound_count(instr: Instr) -> usize
    ensures { result ≡ spec.bound_count instr }
{
    match block_of(instr) {
        Some(BlockInstr::Let(_) | BlockInstr::If(_, _, _)) | None => 1,
        Some(BlockInstr::ForAll(_) | BlockInstr::Exists(_) | BlockInstr::One(_)) => 1,
        Some(BlockInstr::Select(_) | BlockInstr::Reject(_)) => 1,
        Some(BlockInstr::Collect(_) | BlockInstr::CollectFlat(_)) => 1,
        Some(BlockInstr::IsUnique(_, _)) => 1,
        Some(BlockInstr::Fold(_, _)) => 2,
    }
}

/// Drops the variables that a block bound.
pub(crate) fn unbind(variables: &mut Stack<Kind>, instr: Instr)
    ensures { variables.new ≡ drop (spec.bound_count instr) variables.old }
{
    for _ in 0..bound_count(instr) {
        let _newest = variables.pop();
    }
}

/// What the bodies of a block end with.
pub(crate) fn ends_with(rule: &RuleCode<'_, '_>, instr: Instr) -> Pattern
    ensures { result ≡ spec.ends_with (surroundings_of rule.now) instr }
{
    let boolean = Pattern::Fitting(Kind::Scalar(ScalarKind::Boolean));
    match block_of(instr) {
        Some(BlockInstr::Let(_)) => Pattern::Anything,
        Some(BlockInstr::If(kind, _, _)) => Pattern::Fitting(kind_meant(rule, kind)),
        Some(BlockInstr::ForAll(_) | BlockInstr::Exists(_) | BlockInstr::One(_)) => boolean,
        Some(BlockInstr::Select(_) | BlockInstr::Reject(_)) | None => boolean,
        Some(BlockInstr::Collect(_)) => Pattern::AnySingle,
        Some(BlockInstr::CollectFlat(_)) => Pattern::AnyCollection,
        Some(BlockInstr::IsUnique(kind, _) | BlockInstr::Fold(kind, _)) => {
            Pattern::Fitting(Kind::Scalar(scalar_meant(rule, kind)))
        }
    }
}

/// What a block gives, by the operand that it takes and by what its body ended with.
pub(crate) fn yields(rule: &RuleCode<'_, '_>, instr: Instr, operand: &Kind, ended: &Kind) -> Kind
    ensures { result ≡ spec.yields (surroundings_of rule.now) instr operand.now ended.now }
{
    let boolean = Kind::Scalar(ScalarKind::Boolean);
    match block_of(instr) {
        Some(BlockInstr::Let(_)) => *ended,
        Some(BlockInstr::If(kind, _, _)) => kind_meant(rule, kind),
        Some(BlockInstr::ForAll(_) | BlockInstr::Exists(_) | BlockInstr::One(_)) => boolean,
        Some(BlockInstr::Select(_) | BlockInstr::Reject(_)) => *operand,
        Some(BlockInstr::Collect(_) | BlockInstr::CollectFlat(_)) => {
            Kind::Collection(collection_of(operand), elements_kind(ended))
        }
        Some(BlockInstr::IsUnique(_, _)) | None => boolean,
        Some(BlockInstr::Fold(kind, _)) => Kind::Scalar(scalar_meant(rule, kind)),
    }
}
