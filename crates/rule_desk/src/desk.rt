//! The desk.

ghost use Rattle.std.specs.Prelude.{◌≡◌, ◌≢◌, ◌≤◌, [], Err, IfOk, MatchResult};
ghost use Rattle.std.specs.Option.{option_map};
ghost use Rattle.rule_cost.specs.Admission.{Fits};
ghost use Rattle.rule_desk.specs.Job.{lines_now, job_bound};
ghost use Rattle.rule_desk.specs.World.{job_at};
ghost use Rattle.rule_desk.specs.Held.{job_in, room_in};
ghost use Rattle.rule_desk.specs.Rooms.{room_at, KeepsRooms, KeepsOtherRooms, NeedsNoneAt, IsReserved};
ghost use Rattle.rule_desk.specs.Calls.{IsEntered, IsGranted, IsGrantedAt, IsWithdrawn, IsRead, IsSpentWithin, IsNoJob, HasLines};

use crate::fault::DeskFault;
use crate::job::{Job, JobReply};
use imkl_population::Population;
use rule_cost::Admitted;
use std::alloc::Global;
use std::marker::Model;

/// The number of a job, from 0 in the order in which jobs entered.
#[derive(Clone, Copy, PartialEq, Eq, PartialOrd, Ord)]
pub struct JobNo {
    index: usize,
}

impl Model for JobNo {
    ghost use Rattle.std.specs.Prelude.{ℕ};

    ghost Value = { ℕ };

    ghost view = { λ n. n.index };

    ghost inverse = { λ n. record { index = n } };
}

impl JobNo {
    /// The job of this number.
    pub fn new(index: usize) -> JobNo
        ensures { result ≡ index }
    {
        JobNo { index }
    }

    /// The job's number.
    pub fn index(self) -> usize
        ensures { result ≡ self }
    {
        self.index
    }
}

/// A desk, where many reports are made step by step, each as if alone. Contracts see its jobs by their numbers: the code,
/// the population and what is spent of each, or none where it was withdrawn; the length of that list is the next number.
/// They also see how many bytes of lines each job has room for.
#[derive(Drop)]
pub struct Desk<'a> {
    alloc: Global,
    jobs: Vec<Option<Job<'a>>>,
}

impl<'a> Model for Desk<'a> {
    ghost use Rattle.rule_desk.specs.Seen.{DeskSeen};
    ghost use Rattle.rule_desk.specs.Held.{desk_seen};

    ghost Value = { DeskSeen };

    ghost view = { λ d. desk_seen d.jobs.items };
}

/// A grant to the job at one place.
fn grant_at(place: &mut Option<Job<'_>>, grant: u64) -> Result<JobReply, DeskFault>
    ensures granted { IsGrantedAt (option_map job_in place.old) grant result
        (option_map job_in place.new) }
    ensures room { room_in place.old ≤ room_in place.new }
    ensures memory { NeedsNoneAt (option_map job_in place.old) (room_in place.old)
        → result ≢ Err DeskFault.OutOfMemory }
{
    match place {
        None => Err(DeskFault::NoSuchJob),
        Some(job) => {
            if job.is_over() {
                return Err(DeskFault::JobOver);
            }
            Ok(job.grant(grant)?)
        }
    }
}

/// Has room for the lines of the job at one place.
fn reserve_at(place: &mut Option<Job<'_>>) -> Result<(), DeskFault>
    ensures job { option_map job_in place.new ≡ option_map job_in place.old }
    ensures room { room_in place.old ≤ room_in place.new }
    ensures reserved { IsReserved (option_map job_in place.old) (room_in place.new) result }
{
    match place {
        None => Err(DeskFault::NoSuchJob),
        Some(job) => Ok(job.reserve_lines()?),
    }
}

impl<'a> Desk<'a> {
    /// A desk without jobs.
    pub fn new(alloc: Global) -> Desk<'a>
        ensures { result.jobs ≡ [] }
    {
        Desk {
            alloc,
            jobs: Vec::new(alloc),
        }
    }

    /// A new job: the report on a population that fits the admitted code. Its number is the next one.
    pub fn enter(
        &mut self,
        admitted: &'a Admitted<'a>,
        population: &'a Population<'a>,
    ) -> Result<JobNo, DeskFault>
        requires { Fits admitted.now population.now.content }
        ensures entered { IsEntered self.old.jobs admitted.entry.now population.entry.now.content
            result self.new.jobs }
        ensures rooms { KeepsRooms self.old self.new }
    {
        let number = self.jobs.len();
        let job = Job::new(self.alloc, admitted, population)?;
        match self.jobs.push(Some(job)) {
            Ok(()) => Ok(JobNo { index: number }),
            Err(_) => Err(DeskFault::OutOfMemory),
        }
    }

    /// Has room for a job's lines, however long its report gets, so that no grant has to ask for it. Where memory runs out,
    /// the job is as it was.
    pub fn reserve_lines(&mut self, job: JobNo) -> Result<(), DeskFault>
        ensures jobs { self.new.jobs ≡ self.old.jobs }
        ensures rooms { KeepsRooms self.old self.new }
        ensures reserved { IsReserved (job_at self.old.jobs job) (room_at self.new job) result }
    {
        let index = job.index;
        if index >= self.jobs.len() {
            return Err(DeskFault::NoSuchJob);
        }
        reserve_at(&mut self.jobs[index])
    }

    /// Makes steps of a job while the whole charge of the next one is left of `grant`: `Over` once its report is whole, else
    /// `Paused`; what is left isn't kept for a later call. Refused for memory, the job stands after the steps made so far.
    /// It isn't refused for memory where the job has room for its lines, however long its report gets (`reserve_lines`), and
    /// each rule of its code gathers nothing; nor is a grant of 0.
    pub fn grant(&mut self, job: JobNo, grant: u64) -> Result<JobReply, DeskFault>
        ensures granted { IsGranted self.old.jobs job grant result self.new.jobs }
        ensures rooms { KeepsRooms self.old self.new }
        ensures memory { NeedsNoneAt (job_at self.old.jobs job) (room_at self.old job)
            → result ≢ Err DeskFault.OutOfMemory }
    {
        let index = job.index;
        if index >= self.jobs.len() {
            return Err(DeskFault::NoSuchJob);
        }
        grant_at(&mut self.jobs[index], grant)
    }

    /// Gives a job up. Its number isn't used again.
    pub fn withdraw(&mut self, job: JobNo) -> Result<(), DeskFault>
        ensures withdrawn { IsWithdrawn self.old.jobs job result self.new.jobs }
        ensures rooms { KeepsOtherRooms self.old job self.new }
    {
        let index = job.index;
        if index >= self.jobs.len() {
            return Err(DeskFault::NoSuchJob);
        }
        match self.jobs[index].take() {
            None => Err(DeskFault::NoSuchJob),
            Some(_) => Ok(()),
        }
    }

    /// The lines of a job's report so far.
    pub fn lines(&self, job: JobNo) -> Result<&[u8], DeskFault>
        ensures { MatchResult result (λ x. HasLines (job_at self.now.jobs job) x.now)
            (IsNoJob (job_at self.now.jobs job)) }
    {
        let index = job.index;
        if index >= self.jobs.len() {
            return Err(DeskFault::NoSuchJob);
        }
        match &self.jobs[index] {
            None => Err(DeskFault::NoSuchJob),
            Some(job) => Ok(job.lines()),
        }
    }

    /// What the steps made of a job were charged.
    pub fn spent(&self, job: JobNo) -> Result<u128, DeskFault>
        ensures { IsRead (λ j. j.spent) (job_at self.now.jobs job) result }
    {
        let index = job.index;
        if index >= self.jobs.len() {
            return Err(DeskFault::NoSuchJob);
        }
        match &self.jobs[index] {
            None => Err(DeskFault::NoSuchJob),
            Some(job) => Ok(job.spent()),
        }
    }

    /// The most that a job can cost: the bounds of its rules, each taken for all objects of its context class. What is spent
    /// of it never passes that.
    pub fn bound_of(&self, job: JobNo) -> Result<u128, DeskFault>
        ensures bound { IsRead job_bound (job_at self.now.jobs job) result }
        ensures within { IfOk result (IsSpentWithin (job_at self.now.jobs job)) }
    {
        let index = job.index;
        if index >= self.jobs.len() {
            return Err(DeskFault::NoSuchJob);
        }
        match &self.jobs[index] {
            None => Err(DeskFault::NoSuchJob),
            Some(job) => Ok(job.bound()),
        }
    }
}
