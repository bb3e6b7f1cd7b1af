//! What explains the findings of a report: the typed rules of a text, or the rules of a code file.

ghost use Rattle.std.specs.Prelude.{◌≡◌, map, option_map, IfOk, string_bytes};
ghost use Rattle.std.specs.List.{AllByRecursion};
ghost use Rattle.imkl_population.specs.Population as population;
ghost use Rattle.ocl_core.specs.CoreView.{checked_rule_of};
ghost use Rattle.ocl_core.specs.Typing.{IsTypedRule};
ghost use Rattle.ocl_explain.specs.ExplainedReport.{rules_explainer, code_explainer};
ghost use Rattle.ocl_explain.specs.RuleNames.{rule_names};
ghost use Rattle.ocl_explain.specs.FindingView.{finding_text};

use crate::code_whys::{CodeFound, find_code_verdict, rule_named, unknown_code_rule};
use crate::given_names::RuleNames;
use crate::unknown::unknown_rule;
use crate::verdicts::{Found, find_verdict, is_rule};
use explain_refusals::Words;
use imkl_population::{ObjectNo, Population};
use ocl_base::OutOfMemory;
use ocl_core::CoreRule;
use rule_verify::Accepted;
use std::alloc::Global;

/// An explanation that was found, and the object that it is of.
#[derive(Drop)]
pub(crate) struct Finding {
    pub(crate) text: String,
    pub(crate) object: ObjectNo,
}

/// Rules that explain the findings of a report.
pub(crate) trait Explainer {
    ghost use Rattle.imkl_population.specs.Population as population;
    ghost use Rattle.ocl_explain.specs.ExplainedReport as report;

    /// They explain findings in a population.
    ghost can_explain: { Self → population.Population → Type 0 };

    /// What they explain there.
    ghost explains: { Self → population.Population → report.Explainer };

    /// Whether a rule has a name.
    fn has_rule(&self, name: &[u8]) -> bool
        ensures { (p : population.Population)
            → result ≡ (explains self.now p).has_rule name.now };

    /// The explanation of the verdict of the rule of a name for the object of an id, which is looked for from one on; none,
    /// where there is none.
    fn explain(
        &self,
        alloc: Global,
        population: &Population<'_>,
        name: &[u8],
        first: usize,
        id: &[u8],
    ) -> Result<Option<Finding>, OutOfMemory>
        requires { can_explain self.now population.now.content }
        ensures { IfOk result (λ f. option_map finding_text f ≡
            (explains self.now population.now.content).why name.now id.now) };

    /// That no rule has a name, with the nearest that one has.
    fn unknown(&self, alloc: Global, path: &str, name: &str) -> Words;
}

/// The typed rules of a text.
#[derive(Drop)]
pub(crate) struct TextRules<'r> {
    pub(crate) rules: &'r [CoreRule],
    /// The names that the text gives to their variables.
    pub(crate) names: &'r [RuleNames],
}

impl Explainer for TextRules<'_> {
    ghost can_explain = { λ r p. AllByRecursion (IsTypedRule p.model)
        (map checked_rule_of r.rules.now) };

    ghost explains = { λ r p. rules_explainer p (map rule_names r.names.now)
        (map checked_rule_of r.rules.now) };

    fn has_rule(&self, name: &[u8]) -> bool {
        is_rule(self.rules, name)
    }

    fn explain(
        &self,
        alloc: Global,
        population: &Population<'_>,
        name: &[u8],
        first: usize,
        id: &[u8],
    ) -> Result<Option<Finding>, OutOfMemory> {
        match find_verdict(alloc, population, self.names, self.rules, name, first, id)? {
            Found::Explained { text, object } => Ok(Some(Finding { text, object })),
            Found::NoRule | Found::NoObject | Found::NotJudged { .. } => Ok(None),
        }
    }

    fn unknown(&self, alloc: Global, path: &str, name: &str) -> Words {
        unknown_rule(alloc, path, name, self.rules)
    }
}

/// The rules of accepted code.
#[derive(Drop)]
pub(crate) struct CodeRules<'r> {
    pub(crate) accepted: &'r Accepted<'r>,
}

impl Explainer for CodeRules<'_> {
    ghost can_explain = { λ r p. p.model ≡ r.accepted.now.model };

    ghost explains = { λ r p. code_explainer p r.accepted.now.unit };

    fn has_rule(&self, name: &[u8]) -> bool {
        rule_named(self.accepted, name).is_some()
    }

    fn explain(
        &self,
        alloc: Global,
        population: &Population<'_>,
        name: &[u8],
        first: usize,
        id: &[u8],
    ) -> Result<Option<Finding>, OutOfMemory> {
        match find_code_verdict(alloc, population, self.accepted, name, first, id)? {
            CodeFound::Explained { text, object } => Ok(Some(Finding { text, object })),
            CodeFound::NoRule
            | CodeFound::NoObject
            | CodeFound::NotJudged { .. }
            | CodeFound::TooLong => Ok(None),
        }
    }

    fn unknown(&self, alloc: Global, path: &str, name: &str) -> Words {
        unknown_code_rule(alloc, path, name, self.accepted)
    }
}
