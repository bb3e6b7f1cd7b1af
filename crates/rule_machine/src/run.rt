//! Runs of a machine.

ghost use Rattle.std.specs.Prelude.{◌≡◌, ◌<◌, false, IfOk, OnErr, IsOk, Some};
ghost use Rattle.rule_verify.specs.UnitRules.{unit_rule, takes_memory};
ghost use Rattle.rule_machine.specs.Laws.{IsAcceptedRun, verdict_at};
ghost use Rattle.rule_machine.specs.Shown.{IsTask, IsTaskOf, HasRoomFor, SameRoom, depths_in};
ghost use Rattle.rule_machine.specs.Seen.{seen_in};
ghost use Rattle.rule_machine.specs.Contract.{IsStarted, Ran, Judged};

use crate::charging::with_charge;
use crate::progress::Progress;
use crate::state::State;
use crate::task::Task;
use imkl_population::ObjectNo;
use ocl_base::OutOfMemory;
use rule_values::Verdict;
use std::marker::Brand;
use std::sync::ledger::{Blank, Ledger};

impl State {
    /// Makes steps whose charges add up to at most `grant`: as many as it pays for.
    pub(crate) fn run(&mut self, task: Task<'_>, grant: u64) -> Result<Progress, OutOfMemory>
        requires task { IsTask task }
        requires rule { IsTaskOf task self.old }
        requires stands { IsStarted (seen_in task self.old) }
        requires room { HasRoomFor (depths_in task) self.old }
        ensures ran { Ran (seen_in task.entry self.old) grant result (seen_in task.entry self.new) }
        ensures spare { OnErr result (0 < grant) }
        ensures succeeds { takes_memory (unit_rule task.entry.accepted.now.unit task.entry.rule) ≡ false
            → IsOk result }
        ensures rule { IsTaskOf task.entry self.new }
        ensures stands { IsStarted (seen_in task.entry self.new) }
        ensures room { SameRoom self.old self.new }
    {
        let mut left = u128::from(grant);
        'steps: loop {
            if let Some(verdict) = self.verdict_at_end(task) {
                return Ok(Progress::Done(verdict));
            }
            let charge = self.charge(task);
            if charge > left {
                return Ok(Progress::Paused);
            }
            self.step(&task)?;
            self.count = with_charge(self.count, charge);
            left -= charge;
        }
    }

    /// A whole run for an object.
    pub(crate) fn judge(&mut self, task: Task<'_>, object: ObjectNo) -> Result<Verdict, OutOfMemory>
        requires task { IsTask task }
        requires accepted { IsAcceptedRun task.accepted.now.unit task.population.now.content
            task.rule object }
        requires room { HasRoomFor (depths_in task) self.old }
        ensures judged { Judged (seen_in task.entry self.old) task.entry.rule object result
            (seen_in task.entry self.new) }
        ensures verdict { IfOk result (λ v. verdict_at task.entry.accepted.now.unit
            task.entry.population.now.content task.entry.rule object ≡ Some v) }
        ensures succeeds { takes_memory (unit_rule task.entry.accepted.now.unit task.entry.rule) ≡ false
            → IsOk result }
        ensures stands { IsStarted (seen_in task.entry self.new) }
        ensures room { SameRoom self.old self.new }
    {
        self.judge_counted::<Brand>(task, object, Blank::new(1))
    }

    /// A whole run for an object. The book counts its steps, for the proof that it ends; it takes no bytes.
    fn judge_counted<L: Ledger>(
        &mut self,
        task: Task<'_>,
        object: ObjectNo,
        blank: Blank,
    ) -> Result<Verdict, OutOfMemory>
        requires task { IsTask task }
        requires accepted { IsAcceptedRun task.accepted.now.unit task.population.now.content
            task.rule object }
        requires room { HasRoomFor (depths_in task) self.old }
        requires name { blank.name ≡ L.name }
        requires parts { blank.parts ≡ L.parts }
        requires whole { 0 < L.parts }
        ensures judged { Judged (seen_in task.entry self.old) task.entry.rule object result
            (seen_in task.entry self.new) }
        ensures verdict { IfOk result (λ v. verdict_at task.entry.accepted.now.unit
            task.entry.population.now.content task.entry.rule object ≡ Some v) }
        ensures succeeds { takes_memory (unit_rule task.entry.accepted.now.unit task.entry.rule) ≡ false
            → IsOk result }
        ensures room { SameRoom self.old self.new }
    {
        self.start(task, object);
        let (mut book, mut share) = blank.open::<L>();
        'steps: loop {
            if let Some(verdict) = self.verdict_at_end(task) {
                return Ok(verdict);
            }
            let count = self.next_count(task);
            self.step(&task)?;
            self.count = count;
            book.add(&mut share, 1);
        }
    }
}
