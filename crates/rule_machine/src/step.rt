//! The steps of a machine.

ghost use Rattle.std.specs.Prelude.{◌≡◌, ◌≢◌, ◌<◌, ◌∷◌, length, slice_get, false, Some, OnOk, OnErr, IsOk, if◌then◌else◌};
ghost use Rattle.rule_code.specs.WellFormed.{InstrFits};
ghost use Rattle.rule_verify.specs.CodeTree.{shape_of};
ghost use Rattle.rule_verify.specs.InstrKinds.{operands_above};
ghost use Rattle.rule_verify.specs.UnitRules.{unit_rule, takes_memory};
ghost use Rattle.rule_verify.specs.declared.shape.Shape.TheVariants.{Single, OneBody, TwoBodies};
ghost use Rattle.rule_slots.specs.Slots.{plain_mark};
ghost use Rattle.rule_machine.specs.Live.{is_iteration};
ghost use Rattle.rule_machine.specs.StandFor.{choice_slot, opening_mark};
ghost use Rattle.rule_machine.specs.Shown.{code_in, IsTask, LiesIn, HasStep, Room, Same, Stepped, IsAtFront};

use crate::instr::perform;
use crate::piece::{Piece, Turn};
use crate::stack::ReservedStack;
use crate::state::State;
use crate::task::Task;
use ocl_base::OutOfMemory;
use rule_code::Instr;
use rule_slots::{Slot, invalid_slot};
use rule_verify::{BlockInstr, Shape, block_of, operands_above, shape_of};

impl State {
    /// One step. Where memory runs out, the machine stands before it; a rule that gathers nothing isn't refused.
    #[inline(always)]
    pub(crate) fn step(&mut self, task: &Task<'_>) -> Result<(), OutOfMemory>
        requires task { IsTask task.now }
        requires place { LiesIn task.now self.old }
        requires front { IsAtFront self.old }
        requires goes { HasStep task.now self.old }
        requires room { Room self.old }
        ensures made { OnOk result (Stepped task.now self.old self.new) }
        ensures refused { OnErr result (Same task.now self.old self.new) }
        ensures spare { takes_memory (unit_rule task.now.accepted.now.unit task.now.rule) ≡ false
            → IsOk result }
    {
        if self.at < self.end {
            self.instruct(*task)
        } else {
            self.pass(task)
        }
    }

    /// The step of an instruction.
    #[inline(always)]
    fn instruct(&mut self, task: Task<'_>) -> Result<(), OutOfMemory>
        requires task { IsTask task }
        requires place { LiesIn task self.old }
        requires before_end { self.old.at < self.old.end }
        requires goes { HasStep task self.old }
        requires room { Room self.old }
        ensures made { OnOk result (Stepped task.entry self.old self.new) }
        ensures refused { OnErr result (Same task.entry self.old self.new) }
        ensures spare { takes_memory (unit_rule task.entry.accepted.now.unit task.entry.rule) ≡ false
            → IsOk result }
    {
        let instr = &task.code()[self.at];
        match shape_of(*instr) {
            Shape::Single => self.carry_out(task, *instr),
            Shape::OneBody(_) | Shape::TwoBodies(_, _) => {
                self.open(task, instr);
                Ok(())
            }
        }
    }

    /// The step of an instruction with a body or with two. (It is kept out of the loop over steps, and the instruction is
    /// lent, so that no step copies it.)
    #[inline(never)]
    fn open(&mut self, task: Task<'_>, instr: &Instr)
        requires place { LiesIn task self.old }
        requires before_end { self.old.at < self.old.end }
        requires here { slice_get (code_in task) self.old.at ≡ Some instr.now }
        requires bodies { shape_of instr.now ≢ Single }
        requires goes { HasStep task self.old }
        requires room { Room self.old }
        ensures { Stepped task.entry self.old self.new }
    {
        match shape_of(*instr) {
            Shape::Single => unreachable!(),
            Shape::OneBody(body) => {
                if operands_above(*instr) == 0 {
                    self.open_block(task, *instr, body);
                } else {
                    self.open_fold(task, *instr, body);
                }
            }
            Shape::TwoBodies(first, second) => self.branch(task, *instr, first, second),
        }
    }

    /// The step of FOLD: it goes over the operand below its start value, which is left there until its first turn.
    fn open_fold(&mut self, task: Task<'_>, instr: Instr, body: usize)
        requires place { LiesIn task self.old }
        requires before_end { self.old.at < self.old.end }
        requires here { slice_get (code_in task) self.old.at ≡ Some instr }
        requires shape { shape_of instr ≡ OneBody body }
        requires above { operands_above instr ≢ 0 }
        requires goes { HasStep task self.old }
        requires room { Room self.old }
        ensures { Stepped task.entry self.old self.new }
    {
        if body > self.end - self.at - 1 {
            unreachable!()
        }
        let from = self.at + 1;
        let after = from + body;
        let Some(start) = self.operands.pop() else {
            unreachable!()
        };
        let Some(source) = self.operands.pop() else {
            unreachable!()
        };
        self.pieces.push(Piece::Rest(after, self.end));
        self.pieces.push(iteration_piece(instr, from, after, source, self.pool.len()));
        leave_start(&mut self.operands, source, start);
        self.at = after;
        self.end = after;
    }

    /// The step of a block with one body that works on its topmost operand: a LET binds it, an iteration goes over it.
    fn open_block(&mut self, task: Task<'_>, instr: Instr, body: usize)
        requires place { LiesIn task self.old }
        requires before_end { self.old.at < self.old.end }
        requires here { slice_get (code_in task) self.old.at ≡ Some instr }
        requires shape { shape_of instr ≡ OneBody body }
        requires topmost { operands_above instr ≡ 0 }
        requires goes { HasStep task self.old }
        requires room { Room self.old }
        ensures { Stepped task.entry self.old self.new }
    {
        if body > self.end - self.at - 1 {
            unreachable!()
        }
        let from = self.at + 1;
        let after = from + body;
        let Some(value) = self.operands.pop() else {
            unreachable!()
        };
        self.pieces.push(Piece::Rest(after, self.end));
        if is_iteration(instr) {
            let mark = iteration_piece(instr, from, after, value, self.pool.len());
            self.pieces.push(mark);
            self.at = after;
            self.end = after;
        } else {
            self.variables.push(value);
            self.pieces.push(Piece::LetEnd);
            self.at = from;
            self.end = after;
        }
    }

    /// The step of an IF: the branch that its condition chooses; with null or invalid it is invalid.
    fn branch(&mut self, task: Task<'_>, instr: Instr, first: usize, second: usize)
        requires place { LiesIn task self.old }
        requires before_end { self.old.at < self.old.end }
        requires here { slice_get (code_in task) self.old.at ≡ Some instr }
        requires shape { shape_of instr ≡ TwoBodies first second }
        requires goes { HasStep task self.old }
        requires room { Room self.old }
        ensures { Stepped task.entry self.old self.new }
    {
        let left = self.end - self.at - 1;
        if first > left {
            unreachable!()
        }
        if second > left - first {
            unreachable!()
        }
        let middle = self.at + 1 + first;
        let after = middle + second;
        let Some(value) = self.operands.pop() else {
            unreachable!()
        };
        let Some(condition) = choice(value) else {
            self.operands.push(invalid_slot());
            self.at = after;
            return;
        };
        self.pieces.push(Piece::Rest(after, self.end));
        if condition {
            self.at += 1;
            self.end = middle;
        } else {
            self.at = middle;
            self.end = after;
        }
    }

    /// The step of an instruction without a body.
    #[inline(always)]
    fn carry_out(&mut self, task: Task<'_>, instr: Instr) -> Result<(), OutOfMemory>
        requires task { IsTask task }
        requires place { LiesIn task self.old }
        requires before_end { self.old.at < self.old.end }
        requires here { slice_get (code_in task) self.old.at ≡ Some instr }
        requires fits { InstrFits (length task.accepted.now.unit.texts)
            task.accepted.now.unit.symbols instr }
        requires shape { shape_of instr ≡ Single }
        requires goes { HasStep task self.old }
        requires room { Room self.old }
        ensures made { OnOk result (Stepped task.entry self.old self.new) }
        ensures refused { OnErr result (Same task.entry self.old self.new) }
        ensures spare { takes_memory (unit_rule task.entry.accepted.now.unit task.entry.rule) ≡ false
            → IsOk result }
    {
        perform(
            task,
            &self.variables,
            &mut self.operands,
            &mut self.pool,
            instr,
        )?;
        self.at += 1;
        Ok(())
    }
}

/// Leaves the start value of FOLD on the operands; over invalid it is dropped.
#[inline(always)]
fn leave_start(operands: &mut ReservedStack<Slot>, source: Slot, start: Slot)
    requires { length operands.old.0 < operands.old.1 }
    ensures items { operands.new.0 ≡
        (if plain_mark source.mark then start ∷ operands.old.0 else operands.old.0) }
    ensures room { operands.new.1 ≡ operands.old.1 }
{
    if source.is_plain() {
        operands.push(start);
    }
}

/// Whether a block with one body is an iteration; else it is a LET.
fn is_iteration(instr: Instr) -> bool
    ensures { result ≡ is_iteration instr }
{
    match block_of(instr) {
        Some(BlockInstr::ForAll(_) | BlockInstr::Exists(_) | BlockInstr::One(_)) => true,
        Some(BlockInstr::Select(_) | BlockInstr::Reject(_)) => true,
        Some(BlockInstr::Collect(_) | BlockInstr::CollectFlat(_)) => true,
        Some(BlockInstr::IsUnique(_, _) | BlockInstr::Fold(_, _)) => true,
        Some(BlockInstr::Let(_) | BlockInstr::If(_, _, _)) | None => false,
    }
}

/// The truth value that a condition is, if it is one.
fn choice(value: Slot) -> Option<bool>
    ensures { result ≡ choice_slot value }
{
    if value.is_plain() {
        Some(value.number == 1)
    } else {
        None
    }
}

/// An iteration over a collection, before its first turn; one over invalid is skipped.
fn iteration_piece(instr: Instr, from: usize, end: usize, source: Slot, opened: usize) -> Piece
    ensures { result ≡ opening_mark instr from end source opened }
{
    if source.is_plain() {
        Piece::Opened(Turn {
            instr,
            from,
            end,
            source,
            next: 0,
            opened,
            kept: 0,
            trues: 0,
            falses: 0,
            invalids: 0,
        })
    } else {
        Piece::Skipped
    }
}
