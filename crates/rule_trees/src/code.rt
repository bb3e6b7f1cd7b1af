//! The code of a rule, and places in it.

ghost use Rattle.std.specs.Prelude.{◌≡◌, ◌<◌, length};
ghost use Rattle.rule_verify.specs.UnitRules.{unit_rule};
ghost use Rattle.rule_trees.specs.TreeWalk.{CodeFits};

use rule_code::Instr;
use rule_verify::Accepted;

/// The code of a rule, with the unit that it is of.
#[derive(Clone, Copy)]
pub(crate) struct RuleCode<'a> {
    pub(crate) accepted: &'a Accepted<'a>,
    pub(crate) rule: usize,
    pub(crate) code: &'a [Instr],
}

impl<'a> RuleCode<'a> {
    /// The code of the rule of an index.
    pub(crate) fn new(accepted: &'a Accepted<'a>, rule: usize) -> RuleCode<'a>
        requires { rule < length accepted.now.unit.rules }
        ensures accepted { result.accepted.now ≡ accepted.entry.now }
        ensures rule { result.rule ≡ rule }
        ensures code { result.code.now ≡ (unit_rule accepted.entry.now.unit rule).code }
        ensures fits { CodeFits result }
    {
        RuleCode {
            accepted,
            rule,
            code: accepted.unit().rule(rule).code.as_slice(),
        }
    }
}

/// An instruction of a sequence.
#[derive(Clone, Copy)]
pub(crate) struct Place {
    /// The index of the instruction.
    pub(crate) at: usize,
    /// The index past the last of its sequence.
    pub(crate) end: usize,
}
