//! Askers of populations that bring the rules: from a code file, or from a text.

ghost use Rattle.std.specs.Prelude.{◌≡◌, Ok, map};
ghost use Rattle.std.specs.List.{AllByRecursion};
ghost use Rattle.ocl_core.specs.Core.{HaveOwnNames};
ghost use Rattle.ocl_core.specs.CoreView.{checked_rule_of};
ghost use Rattle.ocl_core.specs.Typing.{IsTypedRule};
ghost use Rattle.ocl_pipeline.specs.TextReading.{TextReading, ReadsAs};
ghost use Rattle.ocl_pipeline.specs.TypedRules.{AreRulesOf};
ghost use Rattle.ocl_pipeline.specs.Asked.{code_with, text_with};

use crate::asker::{CodeAsker, PopulationAsker, TextAsker};
use crate::laws::each_text_is_read;
use crate::place::Place;
use crate::rules::{accept_code, accept_rules, type_text};
use crate::stopped::Stopped;
use imkl_population::Population;
use ocl_core::CoreRule;
use std::alloc::Global;

/// Asks about the rules of a code file.
#[derive(Clone, Copy)]
pub struct OfCode<'a, A> {
    /// What is asked.
    pub asker: &'a A,
    /// The code file.
    pub code: &'a [u8],
}

/// Asks about the rules of a text.
#[derive(Clone, Copy)]
pub struct OfText<'a, A> {
    /// What is asked.
    pub asker: &'a A,
    /// The text.
    pub text: &'a [u8],
}

impl<W, A: CodeAsker<W>> PopulationAsker<W> for OfCode<'_, A> {
    type Output = A::Output;

    ghost can_ask = { A.can_ask };

    ghost answers = { λ a given old o new.
        A.answers a.asker.now (code_with a.code.now given) old o new };

    fn ask(&self, alloc: Global, population: &Population<'_>, into: &mut W) -> A::Output {
        let model = population.model();
        match accept_code(alloc, model, self.code) {
            Ok(accepted) => self.asker.ask(alloc, population, &accepted, into),
            Err(rejected) => {
                let (place, why) = rejected.into_parts(model);
                self.asker.stop(alloc, place, why, into)
            }
        }
    }

    fn stop(&self, alloc: Global, place: Place<'_>, why: Stopped, into: &mut W) -> A::Output {
        self.asker.stop(alloc, place, why, into)
    }
}

/// Asks about the typed rules of a text.
fn ask_rules<W, A: TextAsker<W>>(
    alloc: Global,
    asker: &A,
    population: &Population<'_>,
    rules: &[CoreRule],
    into: &mut W,
) -> A::Output
    requires typed { AllByRecursion (IsTypedRule population.now.content.model)
        (map checked_rule_of rules.now) }
    requires names { HaveOwnNames (map checked_rule_of rules.now) }
    requires can { A.can_ask into.old }
    ensures { (t : TextReading)
        → AreRulesOf population.now.content.model t (map checked_rule_of rules.now)
        → A.answers asker.now (text_with t (Ok population.now.content)) into.old result into.new }
{
    let model = population.model();
    model.well_formed();
    population.consistent();
    match accept_rules(alloc, model, rules) {
        Ok(accepted) => asker.ask(alloc, population, rules, &accepted, into),
        Err(why) => asker.stop(alloc, Place::Rules(model), why, into),
    }
}

impl<W, A: TextAsker<W>> PopulationAsker<W> for OfText<'_, A> {
    type Output = A::Output;

    ghost can_ask = { A.can_ask };

    ghost answers = { λ a given old o new. (t : TextReading) × ReadsAs a.text.now t
        × A.answers a.asker.now (text_with t given) old o new };

    fn ask(&self, alloc: Global, population: &Population<'_>, into: &mut W) -> A::Output {
        let model = population.model();
        match type_text(alloc, model, self.text) {
            Ok(rules) => ask_rules(alloc, self.asker, population, &rules, into),
            Err(why) => self.asker.stop(alloc, Place::Rules(model), why, into),
        }
    }

    fn stop(&self, alloc: Global, place: Place<'_>, why: Stopped, into: &mut W) -> A::Output {
        each_text_is_read();
        self.asker.stop(alloc, place, why, into)
    }
}
