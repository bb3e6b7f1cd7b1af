//! Calls to a desk that scripts don't have: room for lines, and bounds.

ghost use Rattle.std.specs.Prelude.{◌≡◌, ◌<◌, ℕ, false, length};
ghost use Rattle.rule_verify.specs.UnitRules.{unit_rule, takes_memory};
ghost use Rattle.rule_cost.specs.Admission.{Fits};

use crate::asked::{Asked, Inputs, is_answered};
use imkl_population::Population;
use rule_cost::Admitted;
use rule_desk::{Desk, DeskFault, JobNo, JobReply};
use rule_verify::Accepted;
use std::alloc::{AllocError, Global};
use std::test::*;
use test_support::{CATALOGUE, DUCT, DUCT_DEPTH};

/// A call for a job.
#[derive(Clone, Copy)]
enum Call {
    Reserve(usize),
    Bound(usize),
    Grant(usize, u64),
    Lines(usize),
    Withdraw(usize),
}

/// Calls for one job, and for one that isn't there.
const CALLS: [Call; 12] = [
    Call::Reserve(0),
    Call::Reserve(1),
    Call::Bound(0),
    Call::Bound(1),
    Call::Grant(0, 3),
    Call::Reserve(0),
    Call::Grant(0, 100),
    Call::Reserve(0),
    Call::Lines(0),
    Call::Withdraw(0),
    Call::Reserve(0),
    Call::Bound(0),
];

/// Their replies.
const REPLIES: &str = "\
reserved
refused 1
bound 19
refused 1
paused 3
reserved
over 14
reserved
undecided d M1
rule d checked 1 holds 0 fails 0 undecided 1
total fails 0 undecided 1
withdrawn
refused 1
refused 1
";

fn put_refusal(out: &mut String, fault: DeskFault) -> Result<(), AllocError> {
    writeln!(out, "refused {}", fault.number())
}

fn put_spent(out: &mut String, word: &str, desk: &Desk<'_>, job: JobNo) -> Result<(), AllocError> {
    match desk.spent(job) {
        Ok(spent) => writeln!(out, "{word} {spent}"),
        Err(fault) => put_refusal(out, fault),
    }
}

/// Makes a call, and writes the reply.
fn put_reply(desk: &mut Desk<'_>, call: Call, out: &mut String) -> Result<(), AllocError> {
    match call {
        Call::Reserve(job) => match desk.reserve_lines(JobNo::new(job)) {
            Ok(()) => writeln!(out, "reserved"),
            Err(fault) => put_refusal(out, fault),
        },
        Call::Bound(job) => match desk.bound_of(JobNo::new(job)) {
            Ok(bound) => writeln!(out, "bound {bound}"),
            Err(fault) => put_refusal(out, fault),
        },
        Call::Grant(job, charges) => match desk.grant(JobNo::new(job), charges) {
            Ok(JobReply::Paused) => put_spent(out, "paused", desk, JobNo::new(job)),
            Ok(JobReply::Over) => put_spent(out, "over", desk, JobNo::new(job)),
            Err(fault) => put_refusal(out, fault),
        },
        Call::Lines(job) => match desk.lines(JobNo::new(job)) {
            Ok(lines) => out.push_str(str::from_utf8(lines).unwrap_or("no text")),
            Err(fault) => put_refusal(out, fault),
        },
        Call::Withdraw(job) => match desk.withdraw(JobNo::new(job)) {
            Ok(()) => writeln!(out, "withdrawn"),
            Err(fault) => put_refusal(out, fault),
        },
    }
}

fn put_replies(desk: &mut Desk<'_>, out: &mut String) -> Result<(), AllocError> {
    for call in CALLS {
        put_reply(desk, call, out)?;
    }
    Ok(())
}

/// The replies of a desk with one job.
pub(crate) fn desk_replies<'a>(
    alloc: Global,
    admitted: &'a Admitted<'a>,
    population: &'a Population<'a>,
) -> Option<String>
    requires { Fits admitted.now population.now.content }
{
    let mut desk = Desk::new(alloc);
    desk.enter(admitted, population).ok()?;
    let mut out = String::new(alloc);
    put_replies(&mut desk, &mut out).ok()?;
    Some(out)
}

/// Whether some rule takes memory.
fn may_gather(accepted: &Accepted<'_>) -> bool
    ensures { result ≡ false → (r : ℕ) → r < length accepted.now.unit.rules →
        takes_memory (unit_rule accepted.now.unit r) ≡ false }
{
    for rule in 0..accepted.rules() {
        if accepted.takes_memory(rule) {
            return true;
        }
    }
    false
}

/// A grant to a new job that has room for its lines, which can't be refused for memory.
fn grant_anew<'a>(
    desk: &mut Desk<'a>,
    admitted: &'a Admitted<'a>,
    population: &'a Population<'a>,
) -> Result<JobReply, DeskFault>
    requires fits { Fits admitted.now population.now.content }
    requires gathers { (r : ℕ) → r < length admitted.now.resolved.unit.rules →
        takes_memory (unit_rule admitted.now.resolved.unit r) ≡ false }
{
    let job = desk.enter(admitted, population)?;
    desk.reserve_lines(job)?;
    match desk.grant(job, 100) {
        Err(DeskFault::OutOfMemory) => unreachable!(),
        reply => reply,
    }
}

/// How a grant to a new job that has room for its lines is answered, by rules that gather nothing.
pub(crate) fn grant_with_room<'a>(
    alloc: Global,
    admitted: &'a Admitted<'a>,
    population: &'a Population<'a>,
) -> Option<String>
    requires { Fits admitted.now population.now.content }
{
    if may_gather(admitted.accepted()) {
        return None;
    }
    let mut desk = Desk::new(alloc);
    match grant_anew(&mut desk, admitted, population) {
        Ok(reply) => format!(in alloc; "{reply:?}").ok(),
        Err(_refused) => None,
    }
}

const INPUTS: Inputs<'static> = Inputs {
    model: CATALOGUE,
    delivery: DUCT,
    code: DUCT_DEPTH,
    budget: 1_000,
};

#[test]
fn room_for_lines_changes_no_reply(rt: HostRuntime) {
    assert!(rt; is_answered(rt.alloc(), INPUTS, Asked::DeskReplies, REPLIES));
}

#[test]
fn a_grant_with_room_needs_no_memory(rt: HostRuntime) {
    assert!(rt; is_answered(rt.alloc(), INPUTS, Asked::GrantWithRoom, "Over"));
}
