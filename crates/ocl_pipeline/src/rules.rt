//! Rules, from their bytes to accepted code.

ghost use Rattle.std.specs.Prelude.{◌≡◌, map, Ok, Err, IfOk, IfErr};
ghost use Rattle.std.specs.List.{AllByRecursion};
ghost use Rattle.ocl_base.specs.Steps.{Fails};
ghost use Rattle.ocl_text.specs.RuleText.{NamesDiffer};
ghost use Rattle.ocl_text.specs.View.{rule_of};
ghost use Rattle.ocl_core.specs.Core.{HaveOwnNames};
ghost use Rattle.ocl_core.specs.CoreView.{checked_rule_of};
ghost use Rattle.ocl_core.specs.Typing.{IsTypedRule};
ghost use Rattle.rule_code.specs.View.{content};
ghost use Rattle.ocl_compile.specs.Compiling.{compile_of};
ghost use Rattle.rule_code.specs.WellFormed.{IsUnit};
ghost use Rattle.ocl_pipeline.specs.Steps.{accepted_in, unit_in, text_in};
ghost use Rattle.ocl_pipeline.specs.Stops.{stopped};
ghost use Rattle.ocl_pipeline.specs.TextReading.{TextReading, ReadsAs};
ghost use Rattle.ocl_pipeline.specs.CompiledRules.{IsUnitOf};
ghost use Rattle.ocl_pipeline.specs.TypedRules.{AreRulesOf, AreRefusedFor};

use crate::laws::each_text_is_read;
use crate::place::Place;
use crate::stopped::Stopped;
use crate::text_reading::read_text;
use imkl_model::ClassModel;
use ocl_compile::compile;
use ocl_core::CoreRule;
use ocl_text::SurfaceRule;
use ocl_types::check_rules;
use rule_code::{Unit, read_unit};
use rule_verify::{Accepted, verify};
use std::alloc::Global;

/// Why there is no accepted code, with the unit if there is one.
#[derive(Drop)]
pub struct Rejected {
    /// Why.
    pub why: Stopped,
    /// The unit that was verified.
    pub unit: Option<Unit>,
}

impl Rejected {
    /// Rules of which there is no unit.
    fn without_unit(why: Stopped) -> Rejected
        ensures { result.why ≡ why }
    {
        Rejected { why, unit: None }
    }

    /// Why.
    fn into_why(self) -> Stopped
        ensures { result ≡ self.why }
    {
        self.why
    }

    /// Where the pipeline stopped, and why.
    pub fn into_parts(self, model: &ClassModel) -> (Place<'_>, Stopped)
        ensures { result.1 ≡ self.why }
    {
        let Rejected { why, unit } = self;
        match unit {
            Some(unit) => (Place::Unit(model, unit), why),
            None => (Place::Rules(model), why),
        }
    }
}

/// The typed rules of rules that were read.
fn type_rules(
    alloc: Global,
    model: &ClassModel,
    rules: &[SurfaceRule],
) -> Result<Vec<CoreRule>, Stopped>
    requires { NamesDiffer (map rule_of rules.now) }
    ensures rules { IfOk result (λ v. AreRulesOf model.now (Ok (map rule_of rules.now))
        (map checked_rule_of v.items)) }
    ensures typed { IfOk result (λ v.
        AllByRecursion (IsTypedRule model.now) (map checked_rule_of v.items)) }
    ensures names { IfOk result (λ v. HaveOwnNames (map checked_rule_of v.items)) }
    ensures fault { IfErr result (λ e. Fails stopped e
        (text_in model.now (Ok (map rule_of rules.now)))) }
{
    let typed = check_rules(alloc, model, rules)?;
    Ok(typed)
}

/// The typed rules of a text.
pub fn type_text(alloc: Global, model: &ClassModel, bytes: &[u8]) -> Result<Vec<CoreRule>, Stopped>
    ensures read { (t : TextReading) × ReadsAs bytes.now t ×
        IfOk result (λ v. AreRulesOf model.now t (map checked_rule_of v.items)) ×
        IfErr result (λ e. Fails stopped e (text_in model.now t)) }
    ensures typed { IfOk result (λ v.
        AllByRecursion (IsTypedRule model.now) (map checked_rule_of v.items)) }
    ensures names { IfOk result (λ v. HaveOwnNames (map checked_rule_of v.items)) }
{
    each_text_is_read();
    match read_text(alloc, bytes) {
        Ok(rules) => type_rules(alloc, model, &rules),
        Err(fault) => Err(Stopped::from(fault)),
    }
}

/// The unit of the typed rules of a text.
fn compile_rules(alloc: Global, model: &ClassModel, rules: &[CoreRule]) -> Result<Unit, Stopped>
    requires typed { AllByRecursion (IsTypedRule model.now) (map checked_rule_of rules.now) }
    requires names { HaveOwnNames (map checked_rule_of rules.now) }
    ensures unit { IfOk result (λ u.
        compile_of model.now (map checked_rule_of rules.now) ≡ Ok (content u)) }
    ensures fault { IfErr result (λ e.
        AreRefusedFor model.now (map checked_rule_of rules.now) e) }
{
    let unit = compile(alloc, model, rules)?;
    Ok(unit)
}

/// The unit of the rules of a text.
pub fn compile_text(alloc: Global, model: &ClassModel, bytes: &[u8]) -> Result<Unit, Stopped>
    ensures { (t : TextReading) × ReadsAs bytes.now t ×
        IfOk result (λ u. IsUnitOf model.now t (content u)) ×
        IfErr result (λ e. Fails stopped e (text_in model.now t)) }
{
    match type_text(alloc, model, bytes) {
        Ok(rules) => compile_rules(alloc, model, &rules),
        Err(why) => Err(why),
    }
}

/// Accepts a unit for a class model.
pub fn accept<'m>(
    alloc: Global,
    model: &'m ClassModel,
    unit: Unit,
) -> Result<Accepted<'m>, Rejected>
    ensures model { IfOk result (λ a. a.model ≡ model.entry.now) }
    ensures unit { IfOk result (λ a. a.unit ≡ content unit) }
    ensures accepted { IfOk result (λ a. accepted_in model.entry.now (content unit) ≡ Ok a.unit) }
    ensures refused { IfErr result (λ r. Fails stopped r.why
        (accepted_in model.entry.now (content unit))) }
{
    match verify(alloc, model, unit) {
        Ok(accepted) => Ok(accepted),
        Err((fault, unit)) => Err(Rejected {
            why: Stopped::from(fault),
            unit: Some(unit),
        }),
    }
}

/// Accepts the unit of a code file for a class model.
pub fn accept_code<'m>(
    alloc: Global,
    model: &'m ClassModel,
    code: &[u8],
) -> Result<Accepted<'m>, Rejected>
    ensures model { IfOk result (λ a. a.model ≡ model.entry.now) }
    ensures unit { IfOk result (λ a. unit_in model.entry.now code.now ≡ Ok a.unit) }
    ensures refused { IfErr result (λ r. Fails stopped r.why
        (unit_in model.entry.now code.now)) }
{
    match read_unit(alloc, code) {
        Ok(unit) => accept(alloc, model, unit),
        Err(fault) => Err(Rejected::without_unit(Stopped::from(fault))),
    }
}

/// Accepts the unit of the typed rules of a text. It isn't refused: compiled rules are accepted.
pub(crate) fn accept_rules<'m>(
    alloc: Global,
    model: &'m ClassModel,
    rules: &[CoreRule],
) -> Result<Accepted<'m>, Stopped>
    requires typed { AllByRecursion (IsTypedRule model.now) (map checked_rule_of rules.now) }
    requires names { HaveOwnNames (map checked_rule_of rules.now) }
    ensures model { IfOk result (λ a. a.model ≡ model.entry.now) }
    ensures unit { IfOk result (λ a. IsUnit a.unit) }
    ensures compiled { IfOk result (λ a.
        compile_of model.entry.now (map checked_rule_of rules.now) ≡ Ok a.unit) }
    ensures fault { IfErr result (λ e.
        AreRefusedFor model.entry.now (map checked_rule_of rules.now) e) }
{
    model.well_formed();
    let unit = compile_rules(alloc, model, rules)?;
    unit.well_formed();
    match accept(alloc, model, unit) {
        Ok(accepted) => Ok(accepted),
        Err(rejected) => Err(rejected.into_why()),
    }
}
