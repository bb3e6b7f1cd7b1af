//! The steps at the end of a body, and those of iterations.

ghost use Rattle.std.specs.Prelude.{◌≡◌, ◌+◌, ◌<◌, ◌≤◌, ◌∷◌, ◌++◌, List, length, false, OnOk, OnErr, IsOk};
ghost use Rattle.rule_verify.specs.UnitRules.{unit_rule, takes_memory};
ghost use Rattle.rule_machine.specs.Machine.{Configuration};
ghost use Rattle.rule_machine.specs.declared.piece.Piece.TheVariants.{LetEnd, Opened, Turning, Skipped};
ghost use Rattle.rule_machine.specs.declared.piece.Turn.{Turn as ATurn};
ghost use Rattle.rule_machine.specs.declared.piece.Piece.{Piece as Pending};
ghost use Rattle.rule_slots.specs.declared.slot.Slot.{Slot as Held};
ghost use Rattle.rule_machine.specs.StandFor.{TellsDistinct, bound_slots, gives_part, given_pool};
ghost use Rattle.rule_machine.specs.Shown.{code_in, task_lists, IsTurnIn, LiesIn, BetweenIn, WentOn, TurnEnded, IsTurning, IsOnTop, TurnOver, GoneOn, HasStep, IsFirstMark, Same, Stepped, Room};

use crate::iteration_results::{counts_after, iteration_result, kept_part};
use crate::keeping::keep;
use crate::piece::{Piece, Turn};
use crate::stack::ReservedStack;
use crate::state::State;
use crate::task::Task;
use crate::turns::{set_counts, set_next, top_turn};
use ocl_base::OutOfMemory;
use rule_code::Instr;
use rule_slots::{Slot, are_distinct, element, invalid_slot};
use rule_verify::{BlockInstr, block_of, bound_count, operands_above};

impl State {
    /// The step of the piece that comes after a sequence that is through, and is no sequence. Where memory runs out, the
    /// machine stands before it; a rule that gathers nothing isn't refused. (The task is lent, so that no step clears room
    /// for a copy of it.)
    #[inline(never)]
    pub(crate) fn pass(&mut self, task: &Task<'_>) -> Result<(), OutOfMemory>
        requires place { LiesIn task.now self.old }
        requires at_end { self.old.at ≡ self.old.end }
        requires mark { IsFirstMark self.old.pieces.0 }
        requires goes { HasStep task.now self.old }
        requires room { Room self.old }
        ensures made { OnOk result (Stepped task.now self.old self.new) }
        ensures refused { OnErr result (Same task.now self.old self.new) }
        ensures spare { takes_memory (unit_rule task.now.accepted.now.unit task.now.rule) ≡ false
            → IsOk result }
    {
        let Some(mark) = self.pieces.top() else {
            unreachable!()
        };
        match *mark {
            Piece::LetEnd => {
                self.end_let(*task);
                Ok(())
            }
            Piece::Skipped => {
                self.skip(*task);
                Ok(())
            }
            Piece::Opened(turn) => {
                self.first_turn(*task, turn);
                Ok(())
            }
            Piece::Turning(_) => self.next_turn(*task),
            Piece::Rest(_, _) => unreachable!(),
        }
    }

    /// The end of a LET drops its variable.
    fn end_let(&mut self, task: Task<'_>)
        requires place { LiesIn task self.old }
        requires at_end { self.old.at ≡ self.old.end }
        requires top { (cs : List Pending) × (self.old.pieces.0 ≡ LetEnd ∷ cs) }
        requires goes { HasStep task self.old }
        ensures { Stepped task.entry self.old self.new }
    {
        let Some(_) = self.pieces.pop() else {
            unreachable!()
        };
        let Some(_) = self.variables.pop() else {
            unreachable!()
        };
    }

    /// The step of an iteration over invalid gives invalid.
    fn skip(&mut self, task: Task<'_>)
        requires place { LiesIn task self.old }
        requires at_end { self.old.at ≡ self.old.end }
        requires top { (cs : List Pending) × (self.old.pieces.0 ≡ Skipped ∷ cs) }
        requires room { Room self.old }
        ensures { Stepped task.entry self.old self.new }
    {
        let Some(_) = self.pieces.pop() else {
            unreachable!()
        };
        self.operands.push(invalid_slot());
    }

    /// The first turn of an iteration, or its end.
    fn first_turn(&mut self, task: Task<'_>, turn: Turn)
        requires place { LiesIn task self.old }
        requires at_end { self.old.at ≡ self.old.end }
        requires top { (cs : List Pending) × (self.old.pieces.0 ≡ Opened turn ∷ cs) }
        requires goes { HasStep task self.old }
        requires room { Room self.old }
        ensures { Stepped task.entry self.old self.new }
    {
        let start = self.leave_opening(task, turn);
        self.go_on(task, turn, start);
    }

    /// The next turn of an iteration, or its end: what its body gave is kept. The iteration is changed where it stands.
    #[inline(always)]
    fn next_turn(&mut self, task: Task<'_>) -> Result<(), OutOfMemory>
        requires place { LiesIn task self.old }
        requires at_end { self.old.at ≡ self.old.end }
        requires turning { IsTurning self.old.pieces.0 }
        requires goes { HasStep task self.old }
        requires room { Room self.old }
        ensures made { OnOk result (Stepped task.entry self.old self.new) }
        ensures refused { OnErr result (Same task.entry self.old self.new) }
        ensures spare { takes_memory (unit_rule task.entry.accepted.now.unit task.entry.rule) ≡ false
            → IsOk result }
    {
        let Some(last) = self.operands.top() else {
            unreachable!()
        };
        let last = *last;
        self.end_turn(task, last)?;
        let turn = top_turn(&self.pieces);
        if turn.next < turn.source.count {
            self.repeat(task, last);
        } else {
            self.finish(task, last);
        }
        Ok(())
    }

    /// An iteration that was opened stands before its first turn, or its end. Gives the start value of FOLD, which was
    /// left on the operands; of any other iteration invalid, which nothing looks at.
    fn leave_opening(&mut self, task: Task<'_>, turn: Turn) -> Slot
        requires place { LiesIn task self.old }
        requires at_end { self.old.at ≡ self.old.end }
        requires top { (cs : List Pending) × (self.old.pieces.0 ≡ Opened turn ∷ cs) }
        requires goes { HasStep task self.old }
        requires room { Room self.old }
        ensures over { TurnEnded task.entry turn result self.old self.new }
        ensures at_end { self.new.at ≡ self.new.end }
        ensures room { Room self.new }
    {
        let Some(_) = self.pieces.pop() else {
            unreachable!()
        };
        if operands_above(turn.instr) == 0 {
            return invalid_slot();
        }
        let Some(start) = self.operands.pop() else {
            unreachable!()
        };
        start
    }

    /// Ends a turn: what its body gave last, which is the topmost operand, is kept, and the pool is cut back to that. Where
    /// memory runs out, the machine stands as before.
    #[inline(always)]
    fn end_turn(&mut self, task: Task<'_>, last: Slot) -> Result<(), OutOfMemory>
        requires place { LiesIn task self.old }
        requires at_end { self.old.at ≡ self.old.end }
        requires turning { IsTurning self.old.pieces.0 }
        requires last { (rest : List Held) × (self.old.operands.0 ≡ last ∷ rest) }
        requires goes { HasStep task self.old }
        requires room { Room self.old }
        ensures over { OnOk result (TurnOver task.entry last self.old self.new) }
        ensures at_end { OnOk result (self.new.at ≡ self.new.end) }
        ensures room { OnOk result (Room self.new) }
        ensures refused { OnErr result (Same task.entry self.old self.new) }
        ensures spare { takes_memory (unit_rule task.entry.accepted.now.unit task.entry.rule) ≡ false
            → IsOk result }
    {
        let turn = top_turn(&self.pieces);
        // no count is larger than this word, so none wraps
        let _next = turn.next;
        let lists = task.lists();
        let more = keep(lists, &mut self.pool, turn, last)?;
        self.operands.drop_top(1);
        self.variables.drop_top(bound_count(turn.instr));
        let counts = counts_after(turn, more, last);
        set_counts(&mut self.pieces, counts);
        Ok(())
    }

    /// Begins the turn of the next element, with the iteration on top.
    #[inline(always)]
    fn repeat(&mut self, task: Task<'_>, last: Slot)
        requires on_top { IsOnTop task last self.old }
        requires left { (t : ATurn) (below : List Pending) → self.old.pieces.0 ≡ Turning t ∷ below →
            t.next < t.source.count }
        requires room { Room self.old }
        ensures { GoneOn task.entry last self.old self.new }
    {
        let turn = *top_turn(&self.pieces);
        let taken = element(task.lists(), &self.pool, turn.source, turn.next);
        bind_turn(&mut self.variables, turn.instr, taken, last);
        self.at = turn.from;
        self.end = turn.end;
        let following = turn.next + 1;
        set_next(&mut self.pieces, following);
    }

    /// Ends the iteration on top, with no element left.
    #[inline(never)]
    fn finish(&mut self, task: Task<'_>, last: Slot)
        requires at_end { self.old.at ≡ self.old.end }
        requires on_top { IsOnTop task last self.old }
        requires all { (t : ATurn) (below : List Pending) → self.old.pieces.0 ≡ Turning t ∷ below →
            t.next ≡ t.source.count }
        requires room { Room self.old }
        ensures { GoneOn task.entry last self.old self.new }
    {
        let turn = *top_turn(&self.pieces);
        let Some(_) = self.pieces.pop() else {
            unreachable!()
        };
        self.end_turns(task, turn, last);
    }

    /// From between two turns to the next turn, or to the end of the iteration.
    #[inline(always)]
    fn go_on(&mut self, task: Task<'_>, turn: Turn, last: Slot)
        requires place { LiesIn task self.old }
        requires at_end { self.old.at ≡ self.old.end }
        requires turn { IsTurnIn (code_in task) turn }
        requires between { (d : Configuration) × BetweenIn task turn last self.old d }
        requires room { Room self.old }
        ensures { WentOn task.entry turn last self.old self.new }
    {
        if turn.next < turn.source.count {
            self.begin_turn(task, turn, last);
        } else {
            self.end_turns(task, turn, last);
        }
    }

    /// Begins the turn of the next element.
    fn begin_turn(&mut self, task: Task<'_>, turn: Turn, last: Slot)
        requires place { LiesIn task self.old }
        requires turn { IsTurnIn (code_in task) turn }
        requires left { turn.next < turn.source.count }
        requires between { (d : Configuration) × BetweenIn task turn last self.old d }
        requires room { Room self.old }
        ensures { WentOn task.entry turn last self.old self.new }
    {
        let next = element(task.lists(), &self.pool, turn.source, turn.next);
        bind_turn(&mut self.variables, turn.instr, next, last);
        self.at = turn.from;
        self.end = turn.end;
        let following = Turn {
            next: turn.next + 1,
            ..turn
        };
        self.pieces.push(Piece::Turning(following));
    }

    /// Ends an iteration with no element left: what it gives is an operand.
    fn end_turns(&mut self, task: Task<'_>, turn: Turn, last: Slot)
        requires place { LiesIn task self.old }
        requires at_end { self.old.at ≡ self.old.end }
        requires all { turn.next ≡ turn.source.count }
        requires between { (d : Configuration) × BetweenIn task turn last self.old d }
        requires room { Room self.old }
        ensures { WentOn task.entry turn last self.old self.new }
    {
        let distinct = keeps_distinct(task, &mut self.pool, turn);
        let gives = iteration_result(turn, distinct, last);
        cut_to_given(&mut self.pool, turn, gives);
        self.operands.push(gives);
    }
}

/// Binds the variables of a turn: its element, and then what the body of FOLD gave last.
#[inline(always)]
fn bind_turn(variables: &mut ReservedStack<Slot>, instr: Instr, element: Slot, last: Slot)
    requires { length variables.old.0 + 2 ≤ variables.old.1 }
    ensures items { variables.new.0 ≡ bound_slots instr element last ++ variables.old.0 }
    ensures room { variables.new.1 ≡ variables.old.1 }
{
    variables.push(element);
    match block_of(instr) {
        Some(BlockInstr::Fold(_, _)) => variables.push(last),
        Some(BlockInstr::ForAll(_) | BlockInstr::Exists(_) | BlockInstr::One(_)) => (),
        Some(BlockInstr::Select(_) | BlockInstr::Reject(_)) => (),
        Some(BlockInstr::Collect(_) | BlockInstr::CollectFlat(_)) => (),
        Some(BlockInstr::IsUnique(_, _)) => (),
        Some(BlockInstr::Let(_) | BlockInstr::If(_, _, _)) | None => (),
    }
}

/// Whether ISUNIQUE keeps no element twice; no other iteration asks for it. What it keeps may be sorted to tell; the pool
/// that the iteration leaves stays the same.
#[inline(always)]
fn keeps_distinct(task: Task<'_>, pool: &mut Vec<Slot>, turn: Turn) -> bool
    requires { turn.opened + turn.kept ≤ length pool.old.items }
    ensures told { TellsDistinct (task_lists task.entry) pool.old.items turn result }
    ensures given { (gives : Held) →
        given_pool turn gives pool.new.items ≡ given_pool turn gives pool.old.items }
{
    match block_of(turn.instr) {
        Some(BlockInstr::IsUnique(kind, _)) => {
            are_distinct(task.lists(), pool, kind, kept_part(turn))
        }
        Some(BlockInstr::ForAll(_) | BlockInstr::Exists(_) | BlockInstr::One(_)) => false,
        Some(BlockInstr::Select(_) | BlockInstr::Reject(_)) => false,
        Some(BlockInstr::Collect(_) | BlockInstr::CollectFlat(_)) => false,
        Some(BlockInstr::Fold(_, _)) => false,
        Some(BlockInstr::Let(_) | BlockInstr::If(_, _, _)) | None => false,
    }
}

/// Cuts the pool back to where an iteration was opened, unless what it gives is what it keeps.
fn cut_to_given(pool: &mut Vec<Slot>, turn: Turn, gives: Slot)
    ensures { pool.new.items ≡ given_pool turn gives pool.old.items }
{
    if !gives_part(turn.instr, gives) {
        pool.truncate(turn.opened);
    }
}

/// Whether what an iteration gives is what it keeps.
fn gives_part(instr: Instr, gives: Slot) -> bool
    ensures { result ≡ gives_part instr gives }
{
    match block_of(instr) {
        Some(BlockInstr::IsUnique(_, _) | BlockInstr::Fold(_, _)) => false,
        Some(BlockInstr::ForAll(_) | BlockInstr::Exists(_) | BlockInstr::One(_)) => {
            gives.is_plain()
        }
        Some(BlockInstr::Select(_) | BlockInstr::Reject(_)) => gives.is_plain(),
        Some(BlockInstr::Collect(_) | BlockInstr::CollectFlat(_)) => gives.is_plain(),
        Some(BlockInstr::Let(_) | BlockInstr::If(_, _, _)) | None => gives.is_plain(),
    }
}
