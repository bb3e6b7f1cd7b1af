//! One job: a report that is made step by step.

ghost use Rattle.std.specs.Prelude.{◌≡◌, ◌+◌, ◌*◌, ◌^◌, ◌<◌, ◌≤◌, ◌↔◌, ℕ, true, false, IsTrue, IsSome, IsOk, length, vec_capacity, IfOk, OnOk, OnErr, Some};
ghost use Rattle.imkl_population.specs.declared.limits.TheConstants.{MAX_OBJECTS};
ghost use Rattle.rule_cost.specs.Admission.{Fits};
ghost use Rattle.rule_machine.specs.Contract.{SameTask};
ghost use Rattle.rule_machine.specs.Laws.{rule_bound};
ghost use Rattle.rule_report.specs.Report.{Verdicts, context_objects, longest_report};
ghost use Rattle.rule_report.specs.Cursor.{due, told_pairs, report_until, IsToldBy};
ghost use Rattle.rule_desk.specs.Seen.{job_seen};
ghost use Rattle.rule_desk.specs.Job.{IsWhole, total_cost, lines_now, job_bound};
ghost use Rattle.rule_desk.specs.Calls.{SameJob, Granted};
ghost use Rattle.rule_desk.specs.Rooms.{longest_lines, NeedsNoMemory};
ghost use Rattle.rule_desk.specs.Stands.{IsReady, IsAtPair, Advanced};

use imkl_population::Population;
use ocl_base::OutOfMemory;
use rule_cost::Admitted;
use rule_machine::{Machine, Progress};
use rule_report::ReportCursor;
use std::alloc::Global;
use std::marker::Model;

/// How far a grant came.
#[derive(Clone, Copy, Debug, PartialEq, Eq)]
pub enum JobReply {
    /// What is left of it doesn't pay for the next step, and the end isn't reached.
    Paused,
    /// The report is whole.
    Over,
}

/// A report under way: the machine, which runs the pair that is due once that is begun; the report told so far, its lines;
/// and what is spent, which is what the steps made were charged.
#[derive(Drop)]
pub(crate) struct Job<'a> {
    admitted: &'a Admitted<'a>,
    population: &'a Population<'a>,
    machine: Machine<'a>,
    cursor: ReportCursor<'a>,
    begun: bool,
    lines: Vec<u8>,
    spent: u128,
}

impl<'a> Model for Job<'a> {
    ghost use Rattle.std.specs.Prelude.{vec_capacity};
    ghost use Rattle.rule_desk.specs.Seen.{job_seen};
    ghost use Rattle.rule_desk.specs.Held.{JobHeld, job_held};
    ghost use Rattle.rule_desk.specs.Stands.{Stands};

    ghost Value = { JobHeld };

    ghost view = { λ j. job_held (job_seen j.admitted.now j.population.now.content j.spent)
        (vec_capacity j.lines) };

    ghost invariant = { λ j. Stands j.admitted.now j.population.now.content j.cursor j.machine
        j.begun j.lines.items (vec_capacity j.lines) j.spent };
}

/// Begins the pair that is due, unless it is begun: has the room for its line, and lets the machine stand before its first
/// step.
fn begin(
    begun: bool,
    machine: &mut Machine<'_>,
    cursor: &ReportCursor<'_>,
    lines: &mut Vec<u8>,
) -> Result<(), OutOfMemory>
    requires due { IsSome (due cursor.now) }
    requires unit { machine.old.unit ≡ cursor.now.unit }
    requires population { machine.old.population ≡ cursor.now.population }
    ensures task { SameTask machine.old machine.new }
    ensures lines { lines.new.items ≡ lines.old.items }
    ensures ready { OnOk result ((work : ℕ) →
        IsAtPair begun machine.old cursor.now work (length lines.old.items) (vec_capacity lines.old)
        → IsReady machine.new cursor.now work (length lines.new.items) (vec_capacity lines.new)) }
    ensures refused { OnErr result (begun ≡ false) }
    ensures room { vec_capacity lines.old ≤ vec_capacity lines.new }
    ensures succeeds { (v : Verdicts) → IsToldBy cursor.now v → lines.old.items
        ≡ report_until cursor.now.unit cursor.now.population v (told_pairs cursor.now)
        → longest_report cursor.now.unit cursor.now.population ≤ vec_capacity lines.old
        → IsOk result }
{
    if begun {
        return Ok(());
    }
    lines.reserve(cursor.room())?;
    if let Some((rule, object)) = cursor.next() {
        machine.start(rule, object)?;
    }
    Ok(())
}

impl<'a> Job<'a> {
    /// The report on a population that fits the admitted code, of which no step is made.
    pub(crate) fn new(
        alloc: Global,
        admitted: &'a Admitted<'a>,
        population: &'a Population<'a>,
    ) -> Result<Job<'a>, OutOfMemory>
        requires { Fits admitted.now population.now.content }
        ensures { IfOk result (λ j. j.job ≡
            job_seen admitted.entry.now population.entry.now.content 0) }
    {
        let accepted = admitted.accepted();
        admitted.admitted();
        accepted.accepted();
        accepted.unit().well_formed();
        population.consistent();
        population.model().well_formed();
        let mut lines = Vec::new(alloc);
        let cursor = ReportCursor::new(admitted, population, &mut lines)?;
        let machine = Machine::new(alloc, accepted, population)?;
        Ok(Job {
            admitted,
            population,
            machine,
            cursor,
            begun: false,
            lines,
            spent: 0,
        })
    }

    /// Whether every pair is told.
    pub(crate) fn is_over(&self) -> bool
        ensures over { IsTrue result ↔ (total_cost self.now.job ≤ self.now.job.spent) }
        ensures within { self.now.job.spent ≤ total_cost self.now.job }
        ensures whole { IsWhole self.now.job }
    {
        self.cursor.next().is_none()
    }

    /// What the steps made were charged.
    pub(crate) fn spent(&self) -> u128
        ensures { result ≡ self.now.job.spent }
    {
        self.spent
    }

    /// The lines told so far.
    pub(crate) fn lines(&self) -> &[u8]
        ensures { result.now ≡ lines_now self.now.job }
    {
        &self.lines
    }

    /// The most that it can cost: the bounds of its rules, each taken for all objects of its context class.
    pub(crate) fn bound(&self) -> u128
        ensures bound { result ≡ job_bound self.now.job }
        ensures within { self.now.job.spent ≤ result }
    {
        let accepted = self.admitted.accepted();
        accepted.unit().well_formed();
        let mut bound = 0;
        for rule in 0..accepted.rules() {
            bound += self.rule_bound(rule);
        }
        bound
    }

    /// The bound of a rule, taken for all objects of its context class.
    fn rule_bound(&self, rule: usize) -> u128
        requires { rule < length self.now.job.admission.resolved.unit.rules }
        ensures bound { result
            ≡ rule_bound self.now.job.admission.resolved.unit self.now.job.population rule * length
            (context_objects self.now.job.admission.resolved.unit self.now.job.population rule) }
        ensures small { result ≤ 2 ^ 63 * MAX_OBJECTS }
    {
        let admitted = self.admitted;
        admitted.admitted();
        self.population.consistent();
        let context = admitted.accepted().context(rule);
        let objects = self.population.instances(context).len();
        u128::from(admitted.bound(rule)) * objects as u128
    }

    /// Has the room for its report, however long it gets.
    pub(crate) fn reserve_lines(&mut self) -> Result<(), OutOfMemory>
        ensures same { self.new.job ≡ self.old.job }
        ensures room { self.old.room ≤ self.new.room }
        ensures reserved { OnOk result (longest_lines self.new.job ≤ self.new.room) }
    {
        let longest = self.cursor.longest();
        self.lines
            .reserve(longest.saturating_sub(self.lines.len()))?;
        Ok(())
    }

    /// Makes steps of the pair that is due while the grant pays for them, and tells its verdict at its end. Answers what is
    /// left then; None where what is left before doesn't pay for the next step.
    fn advance(&mut self, grant: u64) -> Result<Option<u64>, OutOfMemory>
        requires some { 0 < grant }
        requires left { self.old.job.spent < total_cost self.old.job }
        ensures same { SameJob self.old.job self.new.job }
        ensures moved { Advanced self.old.job grant result self.new.job }
        ensures room { self.old.room ≤ self.new.room }
        ensures succeeds { NeedsNoMemory self.old.job self.old.room → IsOk result }
    {
        begin(self.begun, &mut self.machine, &self.cursor, &mut self.lines)?;
        self.begun = true;
        let before = self.machine.steps();
        let ran = self.machine.run(grant);
        let used = self.machine.steps() - before;
        self.spent += u128::from(used);
        match ran? {
            Progress::Paused => Ok(None),
            Progress::Done(verdict) => {
                if self.cursor.tell(verdict, &mut self.lines).is_err() {
                    unreachable!()
                }
                self.begun = false;
                Ok(Some(grant - used))
            }
        }
    }

    /// Makes steps while what is left of the grant pays for the next one.
    pub(crate) fn grant(&mut self, grant: u64) -> Result<JobReply, OutOfMemory>
        requires left { self.old.job.spent < total_cost self.old.job }
        requires whole { IsWhole self.old.job }
        ensures same { SameJob self.old.job self.new.job }
        ensures granted { Granted self.old.job grant result self.new.job }
        ensures room { self.old.room ≤ self.new.room }
        ensures succeeds { NeedsNoMemory self.old.job self.old.room → IsOk result }
    {
        let mut left = grant;
        while left > 0 {
            let Some(rest) = self.advance(left)? else {
                return Ok(JobReply::Paused);
            };
            if self.is_over() {
                return Ok(JobReply::Over);
            }
            left = rest;
        }
        Ok(JobReply::Paused)
    }
}
