//! The code of a rule, with what bounds it.

ghost use Rattle.std.specs.Prelude.{◌≡◌, ◌<◌, length};
ghost use Rattle.rule_verify.specs.UnitRules.{unit_rule};
ghost use Rattle.rule_cost.specs.CostWalk.{IsSizedCode};

use imkl_population::Sizes;
use rule_code::Instr;
use rule_verify::Accepted;

/// The code of a rule, and the sizes of the populations that it is bounded for.
#[derive(Clone, Copy)]
pub(crate) struct SizedCode<'a> {
    pub(crate) accepted: &'a Accepted<'a>,
    pub(crate) sizes: &'a Sizes<'a>,
    pub(crate) rule: usize,
    pub(crate) code: &'a [Instr],
}

impl<'a> SizedCode<'a> {
    /// The code of the rule of an index.
    pub(crate) fn new(
        accepted: &'a Accepted<'a>,
        rule: usize,
        sizes: &'a Sizes<'a>,
    ) -> SizedCode<'a>
        requires rule { rule < length accepted.now.unit.rules }
        requires one_model { sizes.now.model ≡ accepted.now.model }
        ensures accepted { result.accepted.now ≡ accepted.entry.now }
        ensures sizes { result.sizes.now ≡ sizes.entry.now }
        ensures rule { result.rule ≡ rule }
        ensures code { result.code.now ≡ (unit_rule accepted.entry.now.unit rule).code }
        ensures sized { IsSizedCode result }
    {
        SizedCode {
            accepted,
            sizes,
            rule,
            code: accepted.unit().rule(rule).code.as_slice(),
        }
    }
}
