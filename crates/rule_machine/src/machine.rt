//! The machine.

ghost use Rattle.std.specs.Prelude.{◌≡◌, ◌<◌, ℕ, false, length, IfOk, OnOk, OnErr, IsOk, Some};
ghost use Rattle.imkl_population.specs.Population.{IsInstance};
ghost use Rattle.rule_verify.specs.UnitRules.{unit_rule, takes_memory};
ghost use Rattle.rule_machine.specs.Machine.{setting_of, Configuration};
ghost use Rattle.rule_machine.specs.Laws.{IsAcceptedRun, verdict_at};
ghost use Rattle.rule_machine.specs.Shown.{IsTask, task_lists, depths_in, HasRoomFor};
ghost use Rattle.rule_machine.specs.Seen.{IsIdle, Represents};
ghost use Rattle.rule_machine.specs.Contract.{HasLimitedRoom, SameTask, IsStarted, IsBegun, KeepsNothing, Ran, Judged, IsCount};

use crate::progress::Progress;
use crate::spare::{any_compares, spare_for};
use crate::state::State;
use crate::task::Task;
use imkl_population::{ObjectNo, Population};
use ocl_base::OutOfMemory;
use rule_values::Verdict;
use rule_verify::Accepted;
use std::alloc::Global;
use std::marker::Model;

/// A machine for accepted code over a population of its class model. It runs one rule for one object at a time, and a
/// run can be stopped after any step. Rules are numbered by their indices, from 0.
#[derive(Drop)]
pub struct Machine<'a> {
    accepted: &'a Accepted<'a>,
    population: &'a Population<'a>,
    state: State,
}

impl<'a> Model for Machine<'a> {
    ghost use Rattle.std.specs.Prelude.{◌≡◌, None, length};
    ghost use Rattle.rule_machine.specs.Seen.{Seen, seen};
    ghost use Rattle.rule_machine.specs.Shown.{lists_of, HasRoomForRules};

    ghost Value = { Seen };

    ghost view = { λ m. seen m.accepted.now.unit m.population.now.content
        (lists_of m.accepted.now.unit m.population.now) m.state };

    ghost invariant = { λ m. (m.population.now.content.model ≡ m.accepted.now.model) ×
        (m.state.started ≡ None → m.state.count ≡ 0) × HasRoomForRules m.accepted.now.model
        m.accepted.now.unit (length m.accepted.now.unit.rules) m.state };
}

impl<'a> Machine<'a> {
    /// A machine for accepted code, over a population of the same class model, with nothing started. Its stacks have
    /// room for each rule, and its pool for short copies of what rules compare, but for no more; where there is no memory
    /// for them, it returns `OutOfMemory`.
    pub fn new(
        alloc: Global,
        accepted: &'a Accepted<'a>,
        population: &'a Population<'a>,
    ) -> Result<Machine<'a>, OutOfMemory>
        requires one_model { population.now.content.model ≡ accepted.now.model }
        ensures unit { IfOk result (λ m. m.unit ≡ accepted.entry.now.unit) }
        ensures population { IfOk result (λ m. m.population ≡ population.entry.now.content) }
        ensures idle { IfOk result IsIdle }
        ensures reserved { IfOk result HasLimitedRoom }
    {
        let mut state = State::new(alloc);
        let mut compares = false;
        for rule in 0..accepted.rules() {
            state.reserve(accepted.depths(rule))?;
            compares = compares || any_compares(accepted.unit().rule(rule).code.as_slice());
        }
        if compares {
            state.reserve_spare(spare_for(population))?;
        }
        Ok(Machine {
            accepted,
            population,
            state,
        })
    }

    /// Stands before the first step of a rule for an object of its context class, whatever ran before. It is never refused.
    pub fn start(&mut self, rule: usize, object: ObjectNo) -> Result<(), OutOfMemory>
        requires rule { rule < length self.old.unit.rules }
        requires object { IsInstance self.old.population
            (setting_of self.old.unit self.old.population rule).context object }
        ensures task { SameTask self.old self.new }
        ensures begun { OnOk result (IsBegun self.old rule object self.new) }
        ensures empty { OnOk result (KeepsNothing self.new) }
        ensures refused { OnErr result (self.new ≡ self.old) }
        ensures ok { IsOk result }
    {
        let task = self.task(rule);
        self.state.start(task, object);
        Ok(())
    }

    /// Makes steps while the whole charge of the next one is left of `grant`: `Done` as soon as the last step is made,
    /// and again without a step; else `Paused`, and what is left isn't kept for a later call. Where memory runs out, the
    /// machine is before the step that it didn't suffice for, which the next call tries again; a grant of 0 is never
    /// refused, nor is a rule that gathers nothing. Only after `start` or `judge`.
    pub fn run(&mut self, grant: u64) -> Result<Progress, OutOfMemory>
        requires { IsStarted self.old }
        ensures task { SameTask self.old self.new }
        ensures ran { Ran self.old grant result self.new }
        ensures spare { OnErr result (0 < grant) }
        ensures succeeds { (r o : ℕ) (c : Configuration) (k : ℕ) → Represents self.old r o c k →
            takes_memory (unit_rule self.old.unit r) ≡ false → IsOk result }
        ensures started { IsStarted self.new }
    {
        let Some(started) = self.state.started else {
            unreachable!()
        };
        let task = self.task(started.rule);
        self.state.run(task, grant)
    }

    /// Runs a rule for an object of its context class from the start to the end, and gives its verdict. Where memory
    /// runs out, the machine is before the step that it didn't suffice for, and `run` tries that step again; a rule that
    /// gathers nothing is never refused.
    pub fn judge(&mut self, rule: usize, object: ObjectNo) -> Result<Verdict, OutOfMemory>
        requires rule { rule < length self.old.unit.rules }
        requires object { IsInstance self.old.population
            (setting_of self.old.unit self.old.population rule).context object }
        ensures task { SameTask self.old self.new }
        ensures judged { Judged self.old rule object result self.new }
        ensures verdict { IfOk result (λ v. verdict_at self.old.unit self.old.population rule object
            ≡ Some v) }
        ensures started { IsStarted self.new }
        ensures succeeds { takes_memory (unit_rule self.old.unit rule) ≡ false → IsOk result }
    {
        let task = self.task(rule);
        self.state.judge(task, object)
    }

    /// What the steps since the start were charged, at most 2^64-1; 0 before the first start.
    pub fn steps(&self) -> u64
        ensures count { IsCount self.now result }
        ensures idle { IsIdle self.now → result ≡ 0 }
    {
        self.state.count
    }

    /// A rule of the code, over the population.
    fn task(&self, rule: usize) -> Task<'a>
        requires { rule < length self.now.unit.rules }
        ensures task { IsTask result }
        ensures unit { result.accepted.now.unit ≡ self.now.unit }
        ensures population { result.population.now.content ≡ self.now.population }
        ensures rule { result.rule ≡ rule }
        ensures lists { task_lists result ≡ self.now.lists }
        ensures room { HasRoomFor (depths_in result) self.now.state }
        ensures runs { (o : ℕ) → IsInstance self.now.population (setting_of self.now.unit
            self.now.population rule).context o →
            IsAcceptedRun result.accepted.now.unit result.population.now.content rule o }
    {
        self.accepted.accepted();
        self.accepted.unit().well_formed();
        self.population.consistent();
        self.population.model().well_formed();
        Task {
            accepted: self.accepted,
            population: self.population,
            rule,
            code: self.accepted.unit().rule(rule).code.as_slice(),
        }
    }
}
