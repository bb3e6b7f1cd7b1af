//! Runs of a machine that are made again.

ghost use Rattle.std.specs.Prelude.{◌≡◌, ◌<◌, length};
ghost use Rattle.imkl_population.specs.Population.{IsInstance};
ghost use Rattle.rule_machine.specs.Machine.{setting_of};
ghost use Rattle.rule_machine.specs.Contract.{IsStarted};

use crate::met::{Met, met_nothing};
use crate::runs::{NETS_OF_PIPES, Tried, try_rules};
use imkl_population::{ObjectNo, Population};
use ocl_base::OutOfMemory;
use rule_machine::{Machine, Progress, Verdict};
use rule_verify::Accepted;
use std::alloc::Global;
use std::test::*;
use test_support::NETS;

/// Each step is charged 4 at most.
const SMALL_GRANT: u64 = 4;

/// How a rule that holds of each object is run.
#[derive(Clone, Copy)]
pub(crate) enum Runs {
    /// By one grant that is large enough.
    InOneGrant { charges: u64 },
    /// By small grants.
    InSmallGrants { charges: u64 },
    /// It is judged, and judged again where that is refused.
    Judged { charges: u64 },
    /// It is judged, and run on from there where that is refused.
    JudgedAndRun { charges: u64 },
}

/// What a grant met, and how far the run is; where the grant was refused, it was made again. Then some of its steps were
/// made, but not all of what it pays for.
fn grant_again(machine: &mut Machine<'_>, grant: u64) -> (Met, Option<Progress>)
    requires { IsStarted machine.old }
    ensures { IsStarted machine.new }
{
    let before = machine.steps();
    match machine.run(grant) {
        Ok(progress) => (Met::Nothing, Some(progress)),
        Err(OutOfMemory) => {
            let now = machine.steps();
            let stands = before <= now && now < before.saturating_add(grant);
            match machine.run(grant) {
                Ok(progress) if stands => (Met::Refusal, Some(progress)),
                _ => (Met::Fault, None),
            }
        }
    }
}

/// Runs to the end by grants of so much, and holds for so many charges.
fn run_by_grants(machine: &mut Machine<'_>, grant: u64, charges: u64) -> Met
    requires { IsStarted machine.old }
{
    let mut met = Met::Nothing;
    'grants: for _turn in 0..charges {
        let (here, progress) = grant_again(machine, grant);
        met = here.after(met);
        match progress {
            Some(Progress::Paused) => {}
            Some(Progress::Done(verdict)) => {
                let holds = verdict == Verdict::Holds && machine.steps() == charges;
                return Met::fault_unless(holds).after(met);
            }
            None => return Met::Fault,
        }
    }
    Met::Fault
}

fn judge_again(machine: &mut Machine<'_>, object: ObjectNo, charges: u64) -> Met
    requires rules { 0 < length machine.old.unit.rules }
    requires object { IsInstance machine.old.population
        (setting_of machine.old.unit machine.old.population 0).context object }
{
    match machine.judge(0, object) {
        Ok(verdict) => {
            Met::fault_unless(verdict == Verdict::Holds && machine.steps() == charges)
        }
        Err(OutOfMemory) => match machine.judge(0, object) {
            Ok(verdict) => {
                let holds = verdict == Verdict::Holds && machine.steps() == charges;
                Met::fault_unless(holds).after_refusal()
            }
            Err(OutOfMemory) => Met::Fault,
        },
    }
}

/// Judges, and where that is refused runs on from the step before which the machine is: to the end, where it holds for so
/// many charges since the start.
fn judge_and_run_on(machine: &mut Machine<'_>, object: ObjectNo, charges: u64) -> Met
    requires rules { 0 < length machine.old.unit.rules }
    requires object { IsInstance machine.old.population
        (setting_of machine.old.unit machine.old.population 0).context object }
{
    if let Ok(verdict) = machine.judge(0, object) {
        return Met::fault_unless(verdict == Verdict::Holds && machine.steps() == charges);
    }
    let made = machine.steps();
    match machine.run(charges) {
        Ok(Progress::Done(verdict)) => {
            let holds = verdict == Verdict::Holds && machine.steps() == charges;
            Met::fault_unless(holds && made < charges).after_refusal()
        }
        _ => Met::Fault,
    }
}

/// Runs the first rule for an object.
fn run_again(machine: &mut Machine<'_>, object: ObjectNo, runs: Runs) -> Met
    requires rules { 0 < length machine.old.unit.rules }
    requires object { IsInstance machine.old.population
        (setting_of machine.old.unit machine.old.population 0).context object }
{
    if let Runs::Judged { charges } = runs {
        return judge_again(machine, object, charges);
    }
    if let Runs::JudgedAndRun { charges } = runs {
        return judge_and_run_on(machine, object, charges);
    }
    if machine.start(0, object).is_err() {
        return Met::Fault;
    }
    match runs {
        Runs::InOneGrant { charges } => run_by_grants(machine, charges, charges),
        Runs::InSmallGrants { charges } => run_by_grants(machine, SMALL_GRANT, charges),
        Runs::Judged { .. } | Runs::JudgedAndRun { .. } => Met::Fault,
    }
}

/// A new machine runs the first rule for an object.
fn run_anew(
    alloc: Global,
    accepted: &Accepted<'_>,
    population: &Population<'_>,
    object: ObjectNo,
    runs: Runs,
) -> Met
    requires one_model { population.now.content.model ≡ accepted.now.model }
    requires rules { 0 < length accepted.now.unit.rules }
    requires object { IsInstance population.now.content
        (setting_of accepted.now.unit population.now.content 0).context object }
{
    match Machine::new(alloc, accepted, population) {
        Ok(mut machine) => run_again(&mut machine, object, runs),
        Err(OutOfMemory) => match Machine::new(alloc, accepted, population) {
            Ok(mut machine) => run_again(&mut machine, object, runs).after_refusal(),
            Err(OutOfMemory) => Met::Fault,
        },
    }
}

/// New machines run the first rule for each object of its context class.
pub(crate) fn run_all_again(
    alloc: Global,
    accepted: &Accepted<'_>,
    population: &Population<'_>,
    runs: Runs,
) -> Met
    requires one_model { population.now.content.model ≡ accepted.now.model }
{
    if accepted.rules() == 0 {
        return Met::Fault;
    }
    let mut met = Met::Nothing;
    for object in population.instances(accepted.context(0)) {
        met = run_anew(alloc, accepted, population, *object, runs).after(met);
    }
    met
}

#[test]
fn a_run_by_one_grant_is_made_again(rt: HostRuntime) -> Result<(), Fail> {
    let tried = Tried::Machine(Runs::InOneGrant { charges: 26 });
    let met = try_rules(rt.alloc(), NETS, NETS_OF_PIPES, tried);
    assert!(rt; met_nothing(&rt, met)?);
    Ok(())
}

#[test]
fn a_run_by_small_grants_is_made_again(rt: HostRuntime) -> Result<(), Fail> {
    let tried = Tried::Machine(Runs::InSmallGrants { charges: 26 });
    let met = try_rules(rt.alloc(), NETS, NETS_OF_PIPES, tried);
    assert!(rt; met_nothing(&rt, met)?);
    Ok(())
}

#[test]
fn a_refused_judgement_is_run_on(rt: HostRuntime) -> Result<(), Fail> {
    let tried = Tried::Machine(Runs::JudgedAndRun { charges: 26 });
    let met = try_rules(rt.alloc(), NETS, NETS_OF_PIPES, tried);
    assert!(rt; met_nothing(&rt, met)?);
    Ok(())
}

#[test]
fn a_rule_is_judged_again(rt: HostRuntime) -> Result<(), Fail> {
    let tried = Tried::Machine(Runs::Judged { charges: 26 });
    let met = try_rules(rt.alloc(), NETS, NETS_OF_PIPES, tried);
    assert!(rt; met_nothing(&rt, met)?);
    Ok(())
}
