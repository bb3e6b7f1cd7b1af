//! From bytes to the objects that break a rule.

ghost use Rattle.std.specs.Prelude.{◌≡◌, ◌<◌, [], length, All, IfOk, OnOk, Some};
ghost use Rattle.imkl_population.specs.Population as population;
ghost use Rattle.imkl_population.specs.Population.{IsInstance};
ghost use Rattle.rule_code.specs.Content.{Content};
ghost use Rattle.rule_cost.specs.Admission.{Fits};
ghost use Rattle.rule_machine.specs.Laws.{verdict_at};
ghost use Rattle.rule_machine.specs.Contract.{SameTask};
ghost use Rattle.rule_machine.specs.Machine.{setting_of};
ghost use Rattle.ocl_pipeline.specs.Asked.{code_with};
ghost use Rattle.ocl_pipeline.specs.Steps.{inputs_in};
ghost use Rattle.embedding.specs.Breaks.{Breaks, AreBroken, AreBrokenWithin};

use imkl_population::{ObjectNo, Population};
use ocl_base::OutOfMemory;
use ocl_pipeline::{AdmittedAsker, CodeAsker, OfCode, Place, Stopped, ask_admitted, ask_inputs};
use rule_cost::Admitted;
use rule_machine::{Machine, Verdict};
use rule_verify::Accepted;
use std::alloc::Global;

/// An object that breaks a rule.
#[derive(Clone, Copy)]
pub struct Broken {
    /// The rule's index in the code file, from 0.
    pub rule: usize,
    /// The object, numbered from 0 in the delivery.
    pub object: ObjectNo,
}

/// Notes an object where a rule fails for it.
fn note(
    verdict: Verdict,
    rule: usize,
    object: ObjectNo,
    broken: &mut Vec<Broken>,
) -> Result<(), OutOfMemory>
    ensures { (u : Content) (p : population.Population) → verdict_at u p rule object ≡ Some verdict
        → All (Breaks u p) broken.old.items → OnOk result (All (Breaks u p) broken.new.items) }
{
    match verdict {
        Verdict::Fails => {
            broken.push(Broken { rule, object })?;
            Ok(())
        }
        _ => Ok(()),
    }
}

/// Notes the objects of a rule's context class that break it.
fn judge_rule(
    machine: &mut Machine<'_>,
    rule: usize,
    objects: &[ObjectNo],
    broken: &mut Vec<Broken>,
) -> Result<(), OutOfMemory>
    requires rule { rule < length machine.old.unit.rules }
    requires objects { All (IsInstance machine.old.population
        (setting_of machine.old.unit machine.old.population rule).context) objects.now }
    requires broken { All (Breaks machine.old.unit machine.old.population) broken.old.items }
    ensures task { SameTask machine.old machine.new }
    ensures broken { OnOk result
        (All (Breaks machine.old.unit machine.old.population) broken.new.items) }
{
    for object in objects {
        let verdict = machine.judge(rule, *object)?;
        note(verdict, rule, *object, broken)?;
    }
    Ok(())
}

/// Notes the objects that break a rule of accepted code, over a population of its class model.
fn judge_all(
    alloc: Global,
    accepted: &Accepted<'_>,
    population: &Population<'_>,
    broken: &mut Vec<Broken>,
) -> Result<(), OutOfMemory>
    requires one_model { population.now.content.model ≡ accepted.now.model }
    requires none { broken.old.items ≡ [] }
    ensures { OnOk result (All (Breaks accepted.now.unit population.now.content) broken.new.items) }
{
    let mut machine = Machine::new(alloc, accepted, population)?;
    for rule in 0..accepted.rules() {
        let objects = population.instances(accepted.context(rule));
        judge_rule(&mut machine, rule, objects, broken)?;
    }
    Ok(())
}

/// Asks for the objects that break a rule, where each rule is within a budget.
#[derive(Clone, Copy)]
struct BrokenRules {
    /// The greatest bound that a rule may have, in charges for an object.
    budget: u64,
}

impl AdmittedAsker<Vec<Broken>> for BrokenRules {
    type Output = Result<(), Stopped>;

    ghost can_ask = { λ v. v.items ≡ [] };

    ghost answers = { λ _ p given old o new. OnOk o (AreBroken p given new.items) };

    fn ask(
        &self,
        alloc: Global,
        population: &Population<'_>,
        admitted: &Admitted<'_>,
        broken: &mut Vec<Broken>,
    ) -> Result<(), Stopped> {
        match judge_all(alloc, admitted.accepted(), population, broken) {
            Ok(()) => Ok(()),
            Err(_refused) => Err(Stopped::OutOfMemory),
        }
    }

    fn stop(
        &self,
        _alloc: Global,
        _place: Place<'_>,
        why: Stopped,
        _broken: &mut Vec<Broken>,
    ) -> Result<(), Stopped> {
        Err(why)
    }
}

impl CodeAsker<Vec<Broken>> for BrokenRules {
    type Output = Result<(), Stopped>;

    ghost can_ask = { λ v. v.items ≡ [] };

    ghost answers = { λ r given old o new. OnOk o (AreBrokenWithin r.budget given new.items) };

    fn ask(
        &self,
        alloc: Global,
        population: &Population<'_>,
        accepted: &Accepted<'_>,
        broken: &mut Vec<Broken>,
    ) -> Result<(), Stopped> {
        ask_admitted(alloc, self, self.budget, population, accepted, broken)
    }

    fn stop(
        &self,
        _alloc: Global,
        _place: Place<'_>,
        why: Stopped,
        _broken: &mut Vec<Broken>,
    ) -> Result<(), Stopped> {
        Err(why)
    }
}

/// The objects of a delivery that break a rule of a code file, rule by rule in the file's order and object by object in
/// the delivery's; or the first input that is refused. A rule may be charged at most `budget` for an object.
pub fn broken_rules(
    alloc: Global,
    model: &[u8],
    delivery: &[u8],
    code: &[u8],
    budget: u64,
) -> Result<Vec<Broken>, Stopped>
    ensures { IfOk result (λ v. AreBrokenWithin budget
        (code_with code.now (inputs_in model.now delivery.now)) v.items) }
{
    let asker = OfCode {
        asker: &BrokenRules { budget },
        code,
    };
    let mut broken = Vec::new(alloc);
    ask_inputs(alloc, &asker, model, delivery, &mut broken)?;
    Ok(broken)
}
