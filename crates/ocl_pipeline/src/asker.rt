//! What is asked at the end of the pipeline, and what becomes of a refused input.

ghost use Rattle.std.specs.Prelude.{◌≡◌, Result, Ok, map};
ghost use Rattle.std.specs.List.{AllByRecursion};
ghost use Rattle.ocl_base.specs.Steps.{Fails};
ghost use Rattle.ocl_core.specs.CoreView.{checked_rule_of};
ghost use Rattle.ocl_core.specs.Typing.{IsTypedRule};
ghost use Rattle.imkl_population.specs.Population as population;
ghost use Rattle.rule_cost.specs.Admission.{Admission, Fits};
ghost use Rattle.ocl_pipeline.specs.declared.refusal.Refusal as refusal;
ghost use Rattle.ocl_pipeline.specs.Stops.{stopped};
ghost use Rattle.ocl_pipeline.specs.TextReading.{TextReading};
ghost use Rattle.ocl_pipeline.specs.CompiledRules.{CompiledRules};
ghost use Rattle.ocl_pipeline.specs.Asked.{AreCompiledFor, PopulationAndRules, PopulationAndUnit};

use crate::place::Place;
use crate::stopped::Stopped;
use imkl_population::Population;
use ocl_core::CoreRule;
use rule_cost::Admitted;
use rule_verify::Accepted;
use std::alloc::Global;

/// What is asked about a population. What it writes goes into a `W`.
pub trait PopulationAsker<W> {
    ghost use Rattle.std.specs.Prelude.{Result};
    ghost use Rattle.imkl_population.specs.Population as population;
    ghost use Rattle.ocl_pipeline.specs.declared.refusal.Refusal as refusal;

    /// What is returned.
    type Output;

    /// It may be written to.
    ghost can_ask: { W → Type 0 };

    /// What is returned and written for a population, or for a refusal.
    ghost answers: { Self → Result population.Population refusal.Refusal → W → Self.Output → W → Type 0 };

    /// Answers what is asked.
    fn ask(&self, alloc: Global, population: &Population<'_>, into: &mut W) -> Self::Output
        requires { can_ask into.old }
        ensures { answers self.now (Ok population.now.content) into.old result into.new };

    /// Ends where there is no population to ask about. Where memory ran out, any answer could have been due.
    fn stop(&self, alloc: Global, place: Place<'_>, why: Stopped, into: &mut W) -> Self::Output
        requires { can_ask into.old }
        ensures { (given : Result population.Population refusal.Refusal) → Fails stopped why given
            → answers self.now given into.old result into.new };
}

/// What is asked about a population and accepted code.
pub trait CodeAsker<W> {
    ghost use Rattle.std.specs.Prelude.{Result};
    ghost use Rattle.ocl_pipeline.specs.Asked.{PopulationAndUnit};
    ghost use Rattle.ocl_pipeline.specs.declared.refusal.Refusal as refusal;

    /// What is returned.
    type Output;

    /// It may be written to.
    ghost can_ask: { W → Type 0 };

    /// What is returned and written for a population and a unit, or for a refusal.
    ghost answers: { Self → Result PopulationAndUnit refusal.Refusal → W → Self.Output → W → Type 0 };

    /// Answers what is asked.
    fn ask(
        &self,
        alloc: Global,
        population: &Population<'_>,
        accepted: &Accepted<'_>,
        into: &mut W,
    ) -> Self::Output
        requires one_model { population.now.content.model ≡ accepted.now.model }
        requires can { can_ask into.old }
        ensures { answers self.now (Ok (population.now.content, accepted.now.unit)) into.old result
            into.new };

    /// Ends where there is no accepted code to ask about.
    fn stop(&self, alloc: Global, place: Place<'_>, why: Stopped, into: &mut W) -> Self::Output
        requires { can_ask into.old }
        ensures { (given : Result PopulationAndUnit refusal.Refusal) → Fails stopped why given
            → answers self.now given into.old result into.new };
}

/// What is asked about a population and the rules of a text.
pub trait TextAsker<W> {
    ghost use Rattle.std.specs.Prelude.{Result};
    ghost use Rattle.ocl_pipeline.specs.Asked.{PopulationAndRules};
    ghost use Rattle.ocl_pipeline.specs.declared.refusal.Refusal as refusal;

    /// What is returned.
    type Output;

    /// It may be written to.
    ghost can_ask: { W → Type 0 };

    /// What is returned and written for a population and compiled rules, or for a refusal.
    ghost answers: { Self → Result PopulationAndRules refusal.Refusal → W → Self.Output → W → Type 0 };

    /// Answers what is asked, by the typed rules and their accepted unit.
    fn ask(
        &self,
        alloc: Global,
        population: &Population<'_>,
        rules: &[CoreRule],
        accepted: &Accepted<'_>,
        into: &mut W,
    ) -> Self::Output
        requires one_model { population.now.content.model ≡ accepted.now.model }
        requires typed { AllByRecursion (IsTypedRule population.now.content.model)
            (map checked_rule_of rules.now) }
        requires can { can_ask into.old }
        ensures { (t : TextReading) (c : CompiledRules) → AreCompiledFor population.now.content t c
            → c.rules ≡ map checked_rule_of rules.now → c.unit ≡ accepted.now.unit
            → answers self.now (Ok (population.now.content, c)) into.old result into.new };

    /// Ends where there are no accepted rules to ask about.
    fn stop(&self, alloc: Global, place: Place<'_>, why: Stopped, into: &mut W) -> Self::Output
        requires { can_ask into.old }
        ensures { (given : Result PopulationAndRules refusal.Refusal) → Fails stopped why given
            → answers self.now given into.old result into.new };
}

/// What is asked about a population and admitted code.
pub trait AdmittedAsker<W> {
    ghost use Rattle.std.specs.Prelude.{Result};
    ghost use Rattle.imkl_population.specs.Population as population;
    ghost use Rattle.rule_cost.specs.Admission.{Admission};
    ghost use Rattle.ocl_pipeline.specs.declared.refusal.Refusal as refusal;

    /// What is returned.
    type Output;

    /// It may be written to.
    ghost can_ask: { W → Type 0 };

    /// What is returned and written for a population and an admission, or for a refusal.
    ghost answers: { Self → population.Population → Result Admission refusal.Refusal → W → Self.Output → W → Type 0 };

    /// Answers what is asked.
    fn ask(
        &self,
        alloc: Global,
        population: &Population<'_>,
        admitted: &Admitted<'_>,
        into: &mut W,
    ) -> Self::Output
        requires fits { Fits admitted.now population.now.content }
        requires can { can_ask into.old }
        ensures { answers self.now population.now.content (Ok admitted.now) into.old result into.new };

    /// Ends where no code is admitted.
    fn stop(&self, alloc: Global, place: Place<'_>, why: Stopped, into: &mut W) -> Self::Output
        requires { can_ask into.old }
        ensures { (p : population.Population) (given : Result Admission refusal.Refusal)
            → Fails stopped why given → answers self.now p given into.old result into.new };
}
