//! Accepted units.

ghost use Rattle.std.specs.Prelude.{◌≡◌, ◌<◌, length, Some, IfSome, Decides};
ghost use Rattle.rule_verify.specs.Known.{IsKnownName};
ghost use Rattle.rule_code.specs.Content.{text_at};
ghost use Rattle.rule_code.specs.View.{content};
ghost use Rattle.rule_verify.specs.Symbols.{named_at};
ghost use Rattle.rule_verify.specs.UnitRules as spec;

use crate::depths::Depths;
use crate::memory::takes_memory;
use crate::named::Named;
use crate::resolved::Resolved;
use imkl_model::{ClassModel, ClassNo};
use imkl_population::Population;
use rule_code::{SymbolNumber, Unit};
use std::marker::Model;

/// A unit whose code is accepted in a class model. No read takes memory. Rules are numbered by
/// their indices, from 0.
#[derive(Drop)]
pub struct Accepted<'m> {
    resolved: Resolved<'m>,
    depths: Vec<Depths>,
}

impl<'m> Model for Accepted<'m> {
    ghost use Rattle.std.specs.Prelude.{◌≡◌};
    ghost use Rattle.rule_verify.specs.Resolved.{ResolvedUnit};
    ghost use Rattle.rule_verify.specs.UnitRules.{IsAcceptedUnit, depths_of_rules};

    ghost Value = { ResolvedUnit };

    ghost view = { λ a. a.resolved };

    ghost invariant = { λ a. IsAcceptedUnit a.resolved.model a.resolved.unit ×
        (a.depths.items ≡ depths_of_rules a.resolved.model a.resolved.unit 0 a.resolved.unit.rules) };
}

impl<'m> Accepted<'m> {
    /// The accepted unit, with how deep each rule goes.
    pub(crate) fn new(resolved: Resolved<'m>, depths: Vec<Depths>) -> Accepted<'m>
        requires accepted { spec.IsAcceptedUnit resolved.model resolved.unit }
        requires depths { depths.items ≡ spec.depths_of_rules resolved.model resolved.unit 0
            resolved.unit.rules }
        ensures { result ≡ resolved.entry }
    {
        Accepted { resolved, depths }
    }

    /// Every accepted unit satisfies the rules of kinds.
    pub fn accepted(&self)
        ensures { spec.IsAcceptedUnit self.now.model self.now.unit }
    {
        let _resolved = &self.resolved;
    }

    /// The unit with what each of its symbols names.
    pub fn resolved(&self) -> &Resolved<'m>
        ensures { result.now ≡ self.now }
    {
        &self.resolved
    }

    /// The class model.
    pub fn model(&self) -> &'m ClassModel
        ensures { result.now ≡ self.now.model }
    {
        self.resolved.model()
    }

    /// The unit.
    pub fn unit(&self) -> &Unit
        ensures { content result.now ≡ self.now.unit }
    {
        self.resolved.unit()
    }

    /// How many rules there are.
    pub fn rules(&self) -> usize
        ensures { result ≡ length self.now.unit.rules }
    {
        self.resolved.unit().rules.len()
    }

    /// The name of a rule.
    pub fn rule_name(&self, rule: usize) -> &str
        requires { rule < length self.now.unit.rules }
        ensures { result.now
            ≡ text_at self.now.unit.texts (spec.unit_rule self.now.unit rule).name }
    {
        let unit = self.resolved.unit();
        unit.text(unit.rule(rule).name)
    }

    /// The context class of a rule.
    pub fn context(&self, rule: usize) -> ClassNo
        requires { rule < length self.now.unit.rules }
        ensures class { spec.context_class self.now.model self.now.unit
            (spec.unit_rule self.now.unit rule) ≡ Some result }
        ensures in_range { result < length self.now.model.classes }
    {
        let rule = self.resolved.unit().rule(rule);
        match self.resolved.class(rule.context) {
            Some(class) => class,
            None => unreachable!(),
        }
    }

    /// What a symbol names; none where the class model doesn't have it. It has what each used symbol names.
    pub fn named(&self, symbol: SymbolNumber) -> Option<Named>
        ensures name { result ≡ named_at self.now.model self.now.unit symbol.0 }
        ensures known { IfSome result (IsKnownName self.now.model) }
    {
        self.resolved.named(symbol)
    }

    /// The most operands, variables and open blocks that a rule has at once.
    pub fn depths(&self, rule: usize) -> Depths
        requires { rule < length self.now.unit.rules }
        ensures { result ≡ spec.depths_of self.now.model self.now.unit rule
            (spec.unit_rule self.now.unit rule) }
    {
        self.depths[rule]
    }

    /// Whether some instruction of a rule gathers a collection of its own when it is run. A run of a rule without one
    /// is never refused memory.
    pub fn takes_memory(&self, rule: usize) -> bool
        requires { rule < length self.now.unit.rules }
        ensures { result ≡ spec.takes_memory (spec.unit_rule self.now.unit rule) }
    {
        takes_memory(&self.resolved.unit().rule(rule).code)
    }

    /// Whether a population is of a class model of equal content.
    pub fn same_model(&self, population: &Population<'_>) -> bool
        ensures { Decides result (self.now.model ≡ population.now.content.model) }
    {
        self.resolved.model().same_as(population.model())
    }
}
