//! The report of `judge` in memory, with explanations if these are wanted.

ghost use Rattle.std.specs.Prelude.{◌≡◌, [], Some, None, map};
ghost use Rattle.std.specs.List.{AllByRecursion};
ghost use Rattle.ocl_core.specs.CoreView.{checked_rule_of};
ghost use Rattle.ocl_core.specs.Typing.{IsTypedRule};
ghost use Rattle.ocl_pipeline.specs.Asked.{AreCompiledFor};
ghost use Rattle.ocl_pipeline.specs.CompiledRules.{CompiledRules};
ghost use Rattle.ocl_pipeline.specs.TextReading.{TextReading, ReadsAs};
ghost use Rattle.ocl_check.specs.Answers.{IsAnswered};
ghost use Rattle.ocl_check.specs.Given.{pair_answer, meant_within};
ghost use Rattle.ocl_check.specs.Judge.{budget_answer};
ghost use Rattle.ocl_explain.specs.Explained.{explained_within, code_explained_within};
ghost use Rattle.ocl_explain.specs.FormedReport.{detailed_within, code_detailed_within};

use crate::findings::ExplainedReport;
use crate::weaving::{Detail, Shown};
use explain_refusals::{Explaining, Listener};
use imkl_population::Population;
use ocl_check::{Outcome, Report, Telling};
use ocl_core::CoreRule;
use ocl_pipeline::laws::each_text_is_read;
use ocl_pipeline::{CodeAsker, TextAsker};
use rule_verify::Accepted;
use std::alloc::Global;

/// Asks for a report within a budget.
#[derive(Clone, Copy)]
pub(crate) struct DetailedReport<'a, L> {
    pub(crate) budget: u64,
    pub(crate) detail: Detail,
    /// The bytes of the rules.
    pub(crate) rules: &'a [u8],
    pub(crate) watch: &'a Explaining<'a, L>,
}

/// What was answered into memory.
#[derive(Drop)]
pub(crate) struct Answered {
    pub(crate) text: Vec<u8>,
    pub(crate) outcome: Outcome,
}

impl<L: Listener> DetailedReport<'_, L> {
    /// The report that the rules of a text mean.
    fn report(
        &self,
        alloc: Global,
        population: &Population<'_>,
        rules: &[CoreRule],
        accepted: &Accepted<'_>,
    ) -> Answered
        requires one_model { population.now.content.model ≡ accepted.now.model }
        requires typed { AllByRecursion (IsTypedRule population.now.content.model)
            (map checked_rule_of rules.now) }
        ensures { (t : TextReading) (c : CompiledRules) → AreCompiledFor population.now.content t c
            → c.rules ≡ map checked_rule_of rules.now → c.unit ≡ accepted.now.unit →
            IsAnswered (meant_within self.now.budget (population.now.content, c)) (Some [])
            (Some result.text.items) result.outcome }
    {
        let report = Report {
            budget: self.budget,
            watch: self.watch,
        };
        let mut memory = Telling::new(Vec::new(alloc));
        let outcome = TextAsker::ask(&report, alloc, population, rules, accepted, &mut memory);
        let text = memory.into_inner();
        Answered { text, outcome }
    }

    /// The report that the rules of a text mean, with explanations.
    fn explained(
        &self,
        alloc: Global,
        shown: Shown,
        population: &Population<'_>,
        rules: &[CoreRule],
        accepted: &Accepted<'_>,
    ) -> Answered
        requires one_model { population.now.content.model ≡ accepted.now.model }
        requires typed { AllByRecursion (IsTypedRule population.now.content.model)
            (map checked_rule_of rules.now) }
        ensures { (t : TextReading) (c : CompiledRules) → AreCompiledFor population.now.content t c
            → c.rules ≡ map checked_rule_of rules.now → c.unit ≡ accepted.now.unit →
            (w : TextReading) × ReadsAs self.now.rules.now w ×
            IsAnswered (explained_within w self.now.budget shown None (
              population.now.content,
              c,
            )) (Some []) (Some result.text.items) result.outcome }
    {
        let report = ExplainedReport {
            budget: self.budget,
            shown,
            rule: None,
            rules: self.rules,
            watch: self.watch,
        };
        let mut memory = Telling::new(Vec::new(alloc));
        let outcome = TextAsker::ask(&report, alloc, population, rules, accepted, &mut memory);
        let text = memory.into_inner();
        Answered { text, outcome }
    }

    /// The report that the rules of a text mean, with explanations if these are wanted.
    pub(crate) fn of_rules(
        &self,
        alloc: Global,
        population: &Population<'_>,
        rules: &[CoreRule],
        accepted: &Accepted<'_>,
    ) -> Answered
        requires one_model { population.now.content.model ≡ accepted.now.model }
        requires typed { AllByRecursion (IsTypedRule population.now.content.model)
            (map checked_rule_of rules.now) }
        ensures { (t : TextReading) (c : CompiledRules) → AreCompiledFor population.now.content t c
            → c.rules ≡ map checked_rule_of rules.now → c.unit ≡ accepted.now.unit →
            (w : TextReading) × ReadsAs self.now.rules.now w ×
            IsAnswered (detailed_within w self.now.budget
            self.now.detail (population.now.content, c)) (Some []) (Some result.text.items)
            result.outcome }
    {
        each_text_is_read();
        match self.detail {
            Detail::Verdict => self.report(alloc, population, rules, accepted),
            Detail::Why(shown) => self.explained(alloc, shown, population, rules, accepted),
        }
    }

    /// The report by accepted code.
    fn code_report(
        &self,
        alloc: Global,
        population: &Population<'_>,
        accepted: &Accepted<'_>,
    ) -> Answered
        requires one_model { population.now.content.model ≡ accepted.now.model }
        ensures { IsAnswered (pair_answer (budget_answer self.now.budget) (
          population.now.content,
          accepted.now.unit,
        )) (Some []) (Some result.text.items) result.outcome }
    {
        let report = Report {
            budget: self.budget,
            watch: self.watch,
        };
        let mut memory = Telling::new(Vec::new(alloc));
        let outcome = CodeAsker::ask(&report, alloc, population, accepted, &mut memory);
        let text = memory.into_inner();
        Answered { text, outcome }
    }

    /// The report by accepted code, with explanations.
    fn code_explained(
        &self,
        alloc: Global,
        shown: Shown,
        population: &Population<'_>,
        accepted: &Accepted<'_>,
    ) -> Answered
        requires one_model { population.now.content.model ≡ accepted.now.model }
        ensures { IsAnswered (code_explained_within self.now.budget shown None (
          population.now.content,
          accepted.now.unit,
        )) (Some []) (Some result.text.items) result.outcome }
    {
        let report = ExplainedReport {
            budget: self.budget,
            shown,
            rule: None,
            rules: self.rules,
            watch: self.watch,
        };
        let mut memory = Telling::new(Vec::new(alloc));
        let outcome = CodeAsker::ask(&report, alloc, population, accepted, &mut memory);
        let text = memory.into_inner();
        Answered { text, outcome }
    }

    /// The report by accepted code, with explanations if these are wanted.
    pub(crate) fn of_code(
        &self,
        alloc: Global,
        population: &Population<'_>,
        accepted: &Accepted<'_>,
    ) -> Answered
        requires one_model { population.now.content.model ≡ accepted.now.model }
        ensures { IsAnswered (code_detailed_within self.now.budget self.now.detail (
          population.now.content,
          accepted.now.unit,
        )) (Some []) (Some result.text.items) result.outcome }
    {
        match self.detail {
            Detail::Verdict => self.code_report(alloc, population, accepted),
            Detail::Why(shown) => self.code_explained(alloc, shown, population, accepted),
        }
    }
}
