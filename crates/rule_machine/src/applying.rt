//! What instructions make of operands alone.

ghost use Rattle.std.specs.Prelude.{◌≡◌, Decides};
ghost use Rattle.rule_machine.specs.Applied.{TakesOne, TakesTwo, CanTakeOne, CanTakeTwo, GivesOfOne, GivesOfTwo};
ghost use Rattle.rule_machine.specs.Shown.{setting_in, task_lists};

use crate::task::Task;
use rule_code::Instr;
use rule_slots::{
    Slot, absolute, addition, at_most, both_null, collection_size, conjunction, disjunction,
    division, emptiness, equality, exclusion, exclusive_disjunction, greater, implication,
    inclusion, invalid_test, less_than, lesser, membership, multiplication, negation, negative,
    occurrence_count, remainder, subtraction, summation, text_length, undefined_test,
};

/// What an instruction makes of two operands, the second of which is the topmost. (Both are read where they stand: a copy
/// would be made at each step, whichever words the instruction needs.) The pool stays as it was: what compares long
/// collections may put copies behind its end, and takes them off again.
#[inline(always)]
pub(crate) fn apply_two(
    task: Task<'_>,
    pool: &mut Vec<Slot>,
    instr: Instr,
    v: &Slot,
    w: &Slot,
) -> Slot
    requires takes { TakesTwo instr }
    requires can { CanTakeTwo (setting_in task) (task_lists task) pool.old.items instr v.now w.now }
    ensures gives { GivesOfTwo (setting_in task.entry) (task_lists task.entry) pool.old.items instr
        v.now w.now result }
    ensures pool { pool.new.items ≡ pool.old.items }
{
    match instr {
        Instr::Add => addition(*v, *w),
        Instr::Sub => subtraction(*v, *w),
        Instr::Mul => multiplication(*v, *w),
        Instr::Div => division(*v, *w),
        Instr::Mod => remainder(*v, *w),
        Instr::Min => lesser(*v, *w),
        Instr::Max => greater(*v, *w),
        Instr::Lt => less_than(*v, *w),
        Instr::Le => at_most(*v, *w),
        Instr::Gt => less_than(*w, *v),
        Instr::Ge => at_most(*w, *v),
        Instr::And => conjunction(*v, *w),
        Instr::Or => disjunction(*v, *w),
        Instr::Xor => exclusive_disjunction(*v, *w),
        Instr::Implies => implication(*v, *w),
        Instr::Eqx => both_null(*v, *w),
        Instr::Eq(kind) => equality(task.lists(), pool, kind, *v, *w),
        Instr::Includes(kind) => membership(task.lists(), pool, kind, *v, *w),
        Instr::Count(kind) => occurrence_count(task.lists(), pool, kind, *v, *w),
        Instr::IncAll(kind) => inclusion(task.lists(), pool, kind, *v, *w),
        Instr::ExcAll(kind) => exclusion(task.lists(), pool, kind, *v, *w),
        _ => unreachable!(),
    }
}

/// What an instruction makes of one operand.
#[inline(always)]
pub(crate) fn apply_one(task: Task<'_>, pool: &[Slot], instr: Instr, v: &Slot) -> Slot
    requires takes { TakesOne instr }
    requires can { CanTakeOne (setting_in task) (task_lists task) pool.now instr v.now }
    ensures { GivesOfOne (setting_in task.entry) (task_lists task.entry) pool.now instr v.now result }
{
    match instr {
        Instr::Neg => negative(*v),
        Instr::Abs => absolute(*v),
        Instr::Not => negation(*v),
        Instr::Undef => undefined_test(*v),
        Instr::IsInv => invalid_test(*v),
        Instr::TLen => text_length(task.lists(), *v),
        Instr::Size => collection_size(*v),
        Instr::IsEmpty => emptiness(*v),
        Instr::Sum => summation(task.lists(), pool, *v),
        _ => unreachable!(),
    }
}

/// Whether an instruction makes its result of its topmost operand alone, and takes no memory.
pub(crate) fn takes_one(instr: Instr) -> bool
    ensures { Decides result (TakesOne instr) }
{
    match instr {
        Instr::Neg | Instr::Abs | Instr::Not | Instr::Undef | Instr::IsInv => true,
        Instr::TLen | Instr::Size | Instr::IsEmpty | Instr::Sum => true,
        _ => false,
    }
}
