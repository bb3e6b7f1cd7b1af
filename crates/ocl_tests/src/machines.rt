//! Runs of one machine that stop, and others that begin then.

ghost use Rattle.std.specs.Prelude.{◌≡◌, ◌<◌, length};
ghost use Rattle.imkl_population.specs.Population.{IsInstance};
ghost use Rattle.rule_machine.specs.Machine.{setting_of};
ghost use Rattle.rule_machine.specs.Contract.{IsStarted, SameTask};

use crate::asked::{Asked, Inputs, is_answered};
use imkl_population::{ObjectNo, Population};
use ocl_base::OutOfMemory;
use rule_machine::Machine;
use rule_verify::Accepted;
use std::alloc::Global;
use std::test::*;
use test_support::{CATALOGUE, DUCT, file_of_rules};

/// Of the duct the first is undecided for 14 charges; the second holds for 13, of which its sum is charged 3 after 8.
const RULES: &str = "\
Mantelbuis d: self; attr Mantelbuis.omvat; forall 4; get 1; attr KabelOfLeiding.diepte; int 600; ge
Mantelbuis s: self; attr Mantelbuis.omvat; collect 1; int 1; sum; int 2; eq Integer";

/// Runs on, and writes how far: `Paused 5, `.
fn put_run(machine: &mut Machine<'_>, grant: u64, out: &mut String) -> Result<(), OutOfMemory>
    requires started { IsStarted machine.old }
    ensures started { IsStarted machine.new }
    ensures task { SameTask machine.old machine.new }
{
    let progress = machine.run(grant);
    let steps = machine.steps();
    match progress {
        Ok(progress) => write!(out, "{progress:?} {steps}, ")?,
        Err(OutOfMemory) => return Err(OutOfMemory),
    }
    Ok(())
}

/// Begins a rule for an object, and writes what it was charged before its first step.
fn put_start(
    machine: &mut Machine<'_>,
    rule: usize,
    object: ObjectNo,
    out: &mut String,
) -> Result<(), OutOfMemory>
    requires rule { rule < length machine.old.unit.rules }
    requires object { IsInstance machine.old.population
        (setting_of machine.old.unit machine.old.population rule).context object }
    ensures started { IsStarted machine.new }
    ensures task { SameTask machine.old machine.new }
{
    machine.start(rule, object)?;
    let steps = machine.steps();
    write!(out, "{steps}: ")?;
    Ok(())
}

/// The first rule to its end, by four grants, of which the last is too late; the same once more, after five charges; then the
/// second, after seven charges of the first; and the first, judged.
fn put_runs(
    machine: &mut Machine<'_>,
    object: ObjectNo,
    out: &mut String,
) -> Result<(), OutOfMemory>
    requires rules { 1 < length machine.old.unit.rules }
    requires first { IsInstance machine.old.population
        (setting_of machine.old.unit machine.old.population 0).context object }
    requires second { IsInstance machine.old.population
        (setting_of machine.old.unit machine.old.population 1).context object }
{
    put_start(machine, 0, object, out)?;
    put_run(machine, 0, out)?;
    put_run(machine, 13, out)?;
    put_run(machine, 1, out)?;
    put_run(machine, 5, out)?;
    put_start(machine, 0, object, out)?;
    put_run(machine, 5, out)?;
    put_start(machine, 0, object, out)?;
    put_run(machine, 13, out)?;
    put_run(machine, 1, out)?;
    put_start(machine, 0, object, out)?;
    put_run(machine, 7, out)?;
    put_start(machine, 1, object, out)?;
    put_run(machine, 13, out)?;
    let verdict = machine.judge(0, object)?;
    let steps = machine.steps();
    write!(out, "{verdict:?} {steps}")?;
    Ok(())
}

/// Runs of a new machine.
fn new_runs(
    alloc: Global,
    accepted: &Accepted<'_>,
    population: &Population<'_>,
    object: ObjectNo,
) -> Result<String, OutOfMemory>
    requires one_model { population.now.content.model ≡ accepted.now.model }
    requires rules { 1 < length accepted.now.unit.rules }
    requires first { IsInstance population.now.content
        (setting_of accepted.now.unit population.now.content 0).context object }
    requires second { IsInstance population.now.content
        (setting_of accepted.now.unit population.now.content 1).context object }
{
    let mut machine = Machine::new(alloc, accepted, population)?;
    let mut out = String::new(alloc);
    let steps = machine.steps();
    write!(&mut out, "{steps}; ")?;
    put_runs(&mut machine, object, &mut out)?;
    Ok(out)
}

/// Runs of two rules of one context class, for its first object.
pub(crate) fn runs(
    alloc: Global,
    accepted: &Accepted<'_>,
    population: &Population<'_>,
) -> Option<String>
    requires { population.now.content.model ≡ accepted.now.model }
{
    if accepted.rules() != 2 || accepted.context(0) != accepted.context(1) {
        return None;
    }
    match population.instances(accepted.context(0)).first() {
        Some(object) => new_runs(alloc, accepted, population, *object).ok(),
        None => None,
    }
}

#[test]
fn a_machine_begins_anew(rt: HostRuntime) -> Result<(), Fail> {
    let code = file_of_rules(rt.alloc(), RULES)?;
    let inputs = Inputs {
        model: CATALOGUE,
        delivery: DUCT,
        code: &code,
        budget: 0,
    };
    let words = "\
0; 0: Paused 0, Paused 13, Done(Undecided) 14, Done(Undecided) 14, 0: Paused 5, \
0: Paused 13, Done(Undecided) 14, 0: Paused 7, 0: Done(Holds) 13, Undecided 14";
    assert!(rt; is_answered(rt.alloc(), inputs, Asked::Runs, words));
    Ok(())
}
