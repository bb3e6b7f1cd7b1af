//! Calls to a desk that are made again.

ghost use Rattle.rule_cost.specs.Admission.{Fits};

use crate::met::{Met, met_nothing};
use crate::runs::{NETS_OF_PIPES, Tried, try_rules};
use imkl_population::Population;
use rule_cost::Admitted;
use rule_desk::{Desk, DeskFault, JobNo, JobReply};
use std::alloc::Global;
use std::test::*;
use test_support::{DUCT, NETS};

/// Grants to two jobs that are alike, and all that a job tells and costs. No line is due before a job is over.
#[derive(Clone, Copy)]
pub(crate) struct Script<'t> {
    grants: &'t [Grant],
    cost: u128,
    report: &'t str,
}

/// A grant to a job, and what is spent of the job afterwards.
#[derive(Clone, Copy)]
struct Grant {
    job: usize,
    charges: u64,
    spent: u128,
}

/// Undecided of a duct that holds a cable 600 deep and one without a depth, for 14 charges.
const HOLDS_DEEP_ENOUGH: &str = "\
Mantelbuis d: self; attr Mantelbuis.omvat; forall 4; get 1; attr KabelOfLeiding.diepte; int 600; \
ge";

const ON_DUCT: Script<'static> = Script {
    grants: &[
        Grant {
            job: 0,
            charges: 0,
            spent: 0,
        },
        Grant {
            job: 0,
            charges: 3,
            spent: 3,
        },
        Grant {
            job: 1,
            charges: 100,
            spent: 14,
        },
        Grant {
            job: 0,
            charges: 3,
            spent: 6,
        },
        Grant {
            job: 0,
            charges: 100,
            spent: 14,
        },
    ],
    cost: 14,
    report: "undecided d M1
rule d checked 1 holds 0 fails 0 undecided 1
total fails 0 undecided 1
",
};

/// Each of the two nets is charged 26.
const ON_NETS: Script<'static> = Script {
    grants: &[
        Grant {
            job: 0,
            charges: 1_000,
            spent: 52,
        },
        Grant {
            job: 1,
            charges: 1_000,
            spent: 52,
        },
    ],
    cost: 52,
    report: "rule t checked 2 holds 2 fails 0 undecided 0
total fails 0 undecided 0
",
};

/// Enters a job, and again where that is refused: it gets this number both times.
fn enter_again<'a>(
    desk: &mut Desk<'a>,
    admitted: &'a Admitted<'a>,
    population: &'a Population<'a>,
    number: usize,
) -> Met
    requires { Fits admitted.now population.now.content }
{
    match desk.enter(admitted, population) {
        Ok(job) => Met::fault_unless(job.index() == number),
        Err(DeskFault::OutOfMemory) => match desk.enter(admitted, population) {
            Ok(job) => Met::fault_unless(job.index() == number).after_refusal(),
            Err(_) => Met::Fault,
        },
        Err(_) => Met::Fault,
    }
}

/// Whether the lines of a job are those for what is spent.
fn has_lines(desk: &Desk<'_>, job: JobNo, script: Script<'_>) -> bool {
    match (desk.spent(job), desk.lines(job)) {
        (Ok(spent), Ok(lines)) if spent < script.cost => lines.is_empty(),
        (Ok(spent), Ok(lines)) => spent == script.cost && lines == script.report.as_bytes(),
        _ => false,
    }
}

/// Whether a job stands where a refused grant left it that was made when so much was spent.
fn stands(desk: &Desk<'_>, job: JobNo, grant: Grant, before: u128, script: Script<'_>) -> bool {
    match desk.spent(job) {
        Ok(spent) => {
            before <= spent
                && spent < before.saturating_add(u128::from(grant.charges))
                && spent < script.cost
                && has_lines(desk, job, script)
        }
        Err(_) => false,
    }
}

/// Whether a grant is answered so, and so much is spent of the job then.
fn is_granted(desk: &mut Desk<'_>, grant: Grant, script: Script<'_>) -> Result<bool, DeskFault> {
    let job = JobNo::new(grant.job);
    let reply = desk.grant(job, grant.charges)?;
    let wanted = if grant.spent == script.cost {
        JobReply::Over
    } else {
        JobReply::Paused
    };
    Ok(reply == wanted && desk.spent(job) == Ok(grant.spent) && has_lines(desk, job, script))
}

/// Makes a grant, and again where it is refused. The other job stands as it stood.
fn grant_again(desk: &mut Desk<'_>, grant: Grant, script: Script<'_>) -> Met {
    let job = JobNo::new(grant.job);
    let other = JobNo::new(1usize.saturating_sub(grant.job));
    let elsewhere = desk.spent(other);
    let Ok(before) = desk.spent(job) else {
        return Met::Fault;
    };
    let met = match is_granted(desk, grant, script) {
        Ok(holds) => Met::fault_unless(holds),
        Err(DeskFault::OutOfMemory) if stands(desk, job, grant, before, script) => {
            let again = is_granted(desk, grant, script);
            Met::fault_unless(again == Ok(true)).after_refusal()
        }
        Err(_) => Met::Fault,
    };
    let kept = desk.spent(other) == elsewhere && has_lines(desk, other, script);
    Met::fault_unless(kept).after(met)
}

/// Whether both jobs are over, and say so to a grant.
fn are_over(desk: &mut Desk<'_>) -> bool {
    desk.grant(JobNo::new(0), 1) == Err(DeskFault::JobOver)
        && desk.grant(JobNo::new(1), 1) == Err(DeskFault::JobOver)
}

/// Enters two jobs, and makes all grants; each call is made again where it is refused.
pub(crate) fn answer_again<'a>(
    alloc: Global,
    admitted: &'a Admitted<'a>,
    population: &'a Population<'a>,
    script: Script<'_>,
) -> Met
    requires { Fits admitted.now population.now.content }
{
    let mut desk = Desk::new(alloc);
    let mut met = Met::Nothing;
    for number in 0..2 {
        met = enter_again(&mut desk, admitted, population, number).after(met);
    }
    for grant in script.grants {
        met = grant_again(&mut desk, *grant, script).after(met);
    }
    Met::fault_unless(are_over(&mut desk)).after(met)
}

#[test]
fn grants_to_jobs_on_a_duct_are_made_again(rt: HostRuntime) -> Result<(), Fail> {
    let tried = Tried::Desk(ON_DUCT);
    let met = try_rules(rt.alloc(), DUCT, HOLDS_DEEP_ENOUGH, tried);
    assert!(rt; met_nothing(&rt, met)?);
    Ok(())
}

#[test]
fn grants_to_jobs_on_nets_are_made_again(rt: HostRuntime) -> Result<(), Fail> {
    let tried = Tried::Desk(ON_NETS);
    let met = try_rules(rt.alloc(), NETS, NETS_OF_PIPES, tried);
    assert!(rt; met_nothing(&rt, met)?);
    Ok(())
}
