//! The state of a machine.

ghost use Rattle.std.specs.Prelude.{◌≡◌, ◌≤◌, ◌+◌, max, None, length, vec_capacity, IfOk, OnOk, MatchOption};
ghost use Rattle.rule_machine.specs.Machine.{Configuration};
ghost use Rattle.rule_machine.specs.Outcome.{outcome};
ghost use Rattle.rule_machine.specs.Laws.{IsAcceptedRun};
ghost use Rattle.rule_machine.specs.Shown.{depths_in, IsTask, LiesIn, CanGoOn, Same, IsStartOf, IsAtFront, HasRoomFor, HasNoItems, HasNoRoom, HasRoomOfBoth, SameRoom};

use crate::piece::Piece;
use crate::stack::ReservedStack;
use crate::task::Task;
use crate::verdict::verdict_of;
use imkl_population::ObjectNo;
use ocl_base::OutOfMemory;
use rule_slots::{Slot, index_slot};
use rule_values::Verdict;
use rule_verify::Depths;
use std::alloc::Global;

/// What a run was started for.
#[derive(Clone, Copy)]
pub(crate) struct Started {
    pub(crate) rule: usize,
    pub(crate) object: ObjectNo,
}

/// Where a machine stands: before the instruction at an index of a sequence with an end, with what is pending after it,
/// the variables, the operands and the pool of elements; what it was started for, and the charges since then, at most
/// 2^64-1.
#[derive(Drop)]
pub(crate) struct State {
    pub(crate) pieces: ReservedStack<Piece>,
    pub(crate) variables: ReservedStack<Slot>,
    pub(crate) operands: ReservedStack<Slot>,
    pub(crate) pool: Vec<Slot>,
    pub(crate) at: usize,
    pub(crate) end: usize,
    pub(crate) started: Option<Started>,
    pub(crate) count: u64,
}

impl State {
    /// No run is started.
    pub(crate) fn new(alloc: Global) -> State
        ensures started { result.started ≡ None }
        ensures count { result.count ≡ 0 }
        ensures empty { HasNoRoom result }
    {
        State {
            pieces: ReservedStack::new(alloc),
            variables: ReservedStack::new(alloc),
            operands: ReservedStack::new(alloc),
            pool: Vec::new(alloc),
            at: 0,
            end: 0,
            started: None,
            count: 0,
        }
    }

    /// Makes room for code that goes so deep, and for one step more: a block has two pending pieces at most, a turn binds
    /// two variables at most, and a start value may be left on the operands.
    pub(crate) fn reserve(&mut self, depths: Depths) -> Result<(), OutOfMemory>
        requires empty { HasNoItems self.old }
        ensures room { OnOk result (HasRoomFor depths self.new) }
        ensures exact { OnOk result (HasRoomOfBoth depths self.old self.new) }
        ensures empty { HasNoItems self.new }
        ensures pool { self.new.pool ≡ self.old.pool }
        ensures operands { self.old.operands.1 ≤ self.new.operands.1 }
        ensures variables { self.old.variables.1 ≤ self.new.variables.1 }
        ensures pieces { self.old.pieces.1 ≤ self.new.pieces.1 }
        ensures started { self.new.started ≡ self.old.started }
        ensures count { self.new.count ≡ self.old.count }
    {
        let operands = sum(depths.operands, 2)?;
        let variables = sum(depths.variables, 2)?;
        let pieces = sum(sum(depths.blocks, depths.blocks)?, 3)?;
        self.operands.reserve(operands)?;
        self.variables.reserve(variables)?;
        self.pieces.reserve(pieces)
    }

    /// Makes room for so many slots more in the pool, and for no more than that.
    pub(crate) fn reserve_spare(&mut self, count: usize) -> Result<(), OutOfMemory>
        ensures room { SameRoom self.old self.new }
        ensures started { self.new.started ≡ self.old.started }
        ensures count { self.new.count ≡ self.old.count }
        ensures pool { OnOk result (vec_capacity self.new.pool
            ≡ max (vec_capacity self.old.pool) (length self.old.pool.items + count)) }
    {
        self.pool.reserve_exact(count)?;
        Ok(())
    }

    /// Stands before the first step of a rule for an object.
    pub(crate) fn start(&mut self, task: Task<'_>, object: ObjectNo)
        requires task { IsTask task }
        requires accepted { IsAcceptedRun task.accepted.now.unit task.population.now.content
            task.rule object }
        requires room { HasRoomFor (depths_in task) self.old }
        ensures started { IsStartOf task.entry object self.new }
        ensures room { SameRoom self.old self.new }
    {
        self.pieces.clear();
        self.variables.clear();
        self.operands.clear();
        self.pool.clear();
        self.variables.push(index_slot(object.index()));
        self.at = 0;
        self.end = task.code().len();
        self.started = Some(Started {
            rule: task.rule,
            object,
        });
        self.count = 0;
    }

    /// The verdict, if the end is reached. Sequences that are through drop out.
    pub(crate) fn verdict_at_end(&mut self, task: Task<'_>) -> Option<Verdict>
        requires place { LiesIn task self.old }
        requires goes { (c : Configuration) × CanGoOn task self.old c }
        ensures same { Same task.entry self.old self.new }
        ensures outcome { (c : Configuration) → CanGoOn task.entry self.old c →
            outcome c ≡ result }
        ensures front { MatchOption result (IsAtFront self.new) (λ v. Unit {0}) }
    {
        while self.at == self.end {
            match self.pieces.top() {
                None => {
                    let Some(value) = self.operands.top() else {
                        unreachable!()
                    };
                    return Some(verdict_of(*value));
                }
                Some(mark) => match *mark {
                    Piece::Rest(from, end) => {
                        self.at = from;
                        self.end = end;
                        let _ = self.pieces.pop();
                    }
                    _ => return None,
                },
            }
        }
        None
    }
}

/// The sum of two numbers of items. There is no memory for more than a machine word counts.
fn sum(count: usize, more: usize) -> Result<usize, OutOfMemory>
    ensures { IfOk result (λ n. n ≡ count + more) }
{
    match count.checked_add(more) {
        Some(sum) => Ok(sum),
        None => Err(OutOfMemory),
    }
}
