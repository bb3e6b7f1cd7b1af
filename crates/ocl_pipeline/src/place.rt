//! Where the pipeline stopped, and what had been read by then.

ghost use Rattle.std.specs.Prelude.{◌≡◌};

use imkl_model::ClassModel;
use imkl_population::Sizes;
use rule_code::Unit;
use rule_verify::Accepted;
use std::marker::Model;

/// The step at which the pipeline stopped, with what it had by then: whoever explains a refusal need read nothing again.
#[derive(Drop)]
pub enum Place<'p> {
    /// The class model.
    Model,
    /// The delivery.
    Delivery(&'p ClassModel),
    /// The rules: a text, or the bytes of a code file.
    Rules(&'p ClassModel),
    /// The unit of a code file.
    Unit(&'p ClassModel, Unit),
    /// The cost of accepted code.
    Cost(SizedCode<'p>),
    /// A step after the rules, which were accepted: taking the sizes of the population, or reading a script.
    AfterRules,
}

/// Accepted code, with the sizes of a population of its class model.
#[derive(Drop)]
pub struct SizedCode<'p> {
    accepted: &'p Accepted<'p>,
    sizes: &'p Sizes<'p>,
}

impl<'p> Model for SizedCode<'p> {
    ghost use Rattle.std.specs.Prelude.{◌≡◌};
    ghost use Rattle.imkl_population.specs.Sizes.{Sizes};
    ghost use Rattle.rule_verify.specs.Resolved.{ResolvedUnit};

    ghost Value = { ResolvedUnit × Sizes };

    ghost view = { λ s. (s.accepted.now, s.sizes.now) };

    ghost invariant = { λ s. s.sizes.now.model ≡ s.accepted.now.model };
}

impl<'p> SizedCode<'p> {
    /// Accepted code with these sizes.
    pub fn new(accepted: &'p Accepted<'p>, sizes: &'p Sizes<'p>) -> SizedCode<'p>
        requires { sizes.now.model ≡ accepted.now.model }
        ensures { result ≡ (accepted.entry.now, sizes.entry.now) }
    {
        SizedCode { accepted, sizes }
    }

    /// The sizes are of populations of the code's class model.
    pub fn one_model(&self)
        ensures { self.now.1.model ≡ self.now.0.model }
    {
        let _sizes = self.sizes;
    }

    /// The code.
    pub fn accepted(&self) -> &'p Accepted<'p>
        ensures { result.now ≡ self.now.0 }
    {
        self.accepted
    }

    /// The sizes.
    pub fn sizes(&self) -> &'p Sizes<'p>
        ensures { result.now ≡ self.now.1 }
    {
        self.sizes
    }
}
