//! What a desk replies to one call.

ghost use Rattle.std.specs.Prelude.{◌≡◌, ◌≢◌, ◌++◌, ℕ, Err, Option, IfOk, OnOk, string_bytes};
ghost use Rattle.rule_cost.specs.Admission.{Fits};
ghost use Rattle.rule_desk.specs.Seen.{JobSeen};
ghost use Rattle.rule_desk.specs.World.{job_at};
ghost use Rattle.rule_desk.specs.Events.{fault_answer, grant_answer, withdraw_answer, spent_of};
ghost use Rattle.desk_replies.specs.Replies.{answer_line};
ghost use Rattle.desk_replies.specs.Told.{IsReplied, IsRepliedAnyway};

use desk_script::Call;
use imkl_population::Population;
use ocl_base::OutOfMemory;
use rule_cost::Admitted;
use rule_desk::laws::{grants_are_events, withdrawals_are_events};
use rule_desk::{Desk, DeskFault, JobNo, JobReply};
use std::alloc::Global;

fn put(text: &mut Vec<u8>, line: &str) -> Result<(), OutOfMemory>
    ensures { OnOk result (text.new.items ≡ text.old.items ++ line.now) }
{
    text.extend_from_slice(line.as_bytes())?;
    Ok(())
}

/// The line of a refused call. Running out of memory has none.
fn refusal_line(alloc: Global, fault: DeskFault) -> Result<String, OutOfMemory>
    ensures said { (k : ℕ) → IfOk result (λ s. string_bytes s ≡ answer_line k (fault_answer fault)) }
    ensures memory { OnOk result (fault ≢ DeskFault.OutOfMemory) }
{
    if fault == DeskFault::OutOfMemory {
        return Err(OutOfMemory);
    }
    let number = fault.number();
    Ok(format!(in alloc; "refused desk {number}\n")?)
}

/// A new job enters.
fn enter<'a>(
    alloc: Global,
    desk: &mut Desk<'a>,
    admitted: &'a Admitted<'a>,
    population: &'a Population<'a>,
    text: &mut Vec<u8>,
) -> Result<(), OutOfMemory>
    requires { Fits admitted.now population.now.content }
    ensures { OnOk result (IsReplied admitted.entry.now population.entry.now.content Call.Enter
        desk.old.jobs desk.new.jobs text.old.items text.new.items) }
{
    let Ok(job) = desk.enter(admitted, population) else {
        return Err(OutOfMemory);
    };
    let number = job.index();
    let line = format!(in alloc; "job {number}\n")?;
    put(text, &line)
}

/// What is spent of a job, 0 where there is none.
fn spent(desk: &Desk<'_>, job: usize) -> u128
    ensures { result ≡ spent_of (job_at desk.now.jobs job) }
{
    match desk.spent(JobNo::new(job)) {
        Ok(spent) => spent,
        Err(_no_job) => 0,
    }
}

/// The line of a grant, after which so much is spent of the job.
fn grant_line(
    alloc: Global,
    granted: Result<JobReply, DeskFault>,
    job: usize,
    spent: u128,
) -> Result<String, OutOfMemory>
    ensures said { (q : Option JobSeen) → spent_of q ≡ spent →
        IfOk result (λ s. string_bytes s ≡ answer_line job (grant_answer granted q)) }
    ensures memory { OnOk result (granted ≢ Err DeskFault.OutOfMemory) }
{
    match granted {
        Ok(JobReply::Paused) => Ok(format!(in alloc; "paused {job} {spent}\n")?),
        Ok(JobReply::Over) => Ok(format!(in alloc; "over {job} {spent}\n")?),
        Err(fault) => refusal_line(alloc, fault),
    }
}

/// A job is granted charges.
fn grant(
    alloc: Global,
    desk: &mut Desk<'_>,
    job: usize,
    charges: u64,
    text: &mut Vec<u8>,
) -> Result<(), OutOfMemory>
    ensures { OnOk result (IsRepliedAnyway (Call.Grant job charges)
        desk.old.jobs desk.new.jobs text.old.items text.new.items) }
{
    grants_are_events();
    let granted = desk.grant(JobNo::new(job), charges);
    let spent = spent(desk, job);
    let line = grant_line(alloc, granted, job, spent)?;
    put(text, &line)
}

/// The line of a withdrawal.
fn withdraw_line(
    alloc: Global,
    withdrawn: Result<(), DeskFault>,
    job: usize,
) -> Result<String, OutOfMemory>
    ensures { IfOk result (λ s. string_bytes s ≡ answer_line job (withdraw_answer withdrawn)) }
{
    match withdrawn {
        Ok(()) => Ok(format!(in alloc; "withdrawn {job}\n")?),
        Err(fault) => refusal_line(alloc, fault),
    }
}

/// A job is given up.
fn withdraw(
    alloc: Global,
    desk: &mut Desk<'_>,
    job: usize,
    text: &mut Vec<u8>,
) -> Result<(), OutOfMemory>
    ensures { OnOk result (IsRepliedAnyway (Call.Withdraw job)
        desk.old.jobs desk.new.jobs text.old.items text.new.items) }
{
    withdrawals_are_events();
    let withdrawn = desk.withdraw(JobNo::new(job));
    let line = withdraw_line(alloc, withdrawn, job)?;
    put(text, &line)
}

/// The lines of a job's report so far.
fn lines(alloc: Global, desk: &Desk<'_>, job: usize, text: &mut Vec<u8>) -> Result<(), OutOfMemory>
    ensures { OnOk result (IsRepliedAnyway (Call.Lines job)
        desk.now.jobs desk.now.jobs text.old.items text.new.items) }
{
    match desk.lines(JobNo::new(job)) {
        Ok(lines) => text.extend_from_slice(lines)?,
        Err(fault) => {
            let line = refusal_line(alloc, fault)?;
            put(text, &line)?;
        }
    }
    Ok(())
}

/// Makes a call, whose job would be the report on this population, and appends the reply. Where memory runs out, for the
/// desk or for the reply, nothing is said of either.
pub(crate) fn reply<'a>(
    alloc: Global,
    desk: &mut Desk<'a>,
    admitted: &'a Admitted<'a>,
    population: &'a Population<'a>,
    call: Call,
    text: &mut Vec<u8>,
) -> Result<(), OutOfMemory>
    requires { Fits admitted.now population.now.content }
    ensures { OnOk result (IsReplied admitted.entry.now population.entry.now.content call
        desk.old.jobs desk.new.jobs text.old.items text.new.items) }
{
    match call {
        Call::Enter => enter(alloc, desk, admitted, population, text),
        Call::Grant { job, charges } => grant(alloc, desk, job, charges, text),
        Call::Withdraw { job } => withdraw(alloc, desk, job, text),
        Call::Lines { job } => lines(alloc, desk, job, text),
    }
}
