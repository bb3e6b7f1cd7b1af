//! Admitted units.

ghost use Rattle.std.specs.Prelude.{◌≡◌, ◌<◌, length, Decides};
ghost use Rattle.rule_cost.specs.Admission.{rule_step_bound, IsAdmission, Fits};

use imkl_population::{Population, Sizes};
use rule_verify::Accepted;
use std::marker::Model;

/// A unit that is accepted in a class model, of which each rule's charges keep within a budget for
/// an object, in every population of some sizes. No read takes memory. Rules are numbered by their
/// indices, from 0.
#[derive(Drop)]
pub struct Admitted<'a> {
    pub(crate) accepted: &'a Accepted<'a>,
    pub(crate) sizes: &'a Sizes<'a>,
    pub(crate) budget: u64,
    pub(crate) bounds: Vec<u64>,
}

impl<'a> Model for Admitted<'a> {
    ghost use Rattle.std.specs.Prelude.{◌≡◌};
    ghost use Rattle.rule_cost.specs.Admission.{Admission, IsAdmission};
    ghost use Rattle.rule_cost.specs.CostWalk.{admission_of, AreRuleBounds};

    ghost Value = { Admission };

    ghost view = { λ a. admission_of a.accepted.now a.sizes.now a.budget };

    ghost invariant = { λ a. IsAdmission (admission_of a.accepted.now a.sizes.now a.budget) ×
        AreRuleBounds a.accepted.now.unit a.sizes.now a.bounds.items };
}

impl<'a> Admitted<'a> {
    /// Every admitted unit is accepted, and its rules are within its budget.
    pub fn admitted(&self)
        ensures { IsAdmission self.now }
    {
        let _bounds = &self.bounds;
    }

    /// The accepted unit.
    pub fn accepted(&self) -> &'a Accepted<'a>
        ensures { result.now ≡ self.now.resolved }
    {
        self.accepted
    }

    /// The sizes of the populations for which the unit is admitted.
    pub fn sizes(&self) -> &'a Sizes<'a>
        ensures { result.now ≡ self.now.sizes }
    {
        self.sizes
    }

    /// The budget: the most that a rule's run may be charged for an object.
    pub fn budget(&self) -> u64
        ensures { result ≡ self.now.budget }
    {
        self.budget
    }

    /// The bound of a rule: an upper limit on what its run is charged for an object. It is at most the budget.
    pub fn bound(&self, rule: usize) -> u64
        requires { rule < length self.now.resolved.unit.rules }
        ensures { result ≡ rule_step_bound self.now.resolved.unit self.now.sizes rule }
    {
        self.bounds[rule]
    }

    /// Whether a population is of a class model of equal content and of equal sizes.
    pub fn fits(&self, population: &Population<'_>) -> bool
        ensures { Decides result (Fits self.now population.now.content) }
    {
        self.sizes.are_of(population)
    }
}
