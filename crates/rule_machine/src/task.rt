//! What a run works on: a rule of accepted code, and a population.

ghost use Rattle.std.specs.Prelude.{◌≡◌, length, All};
ghost use Rattle.rule_code.specs.WellFormed.{InstrFits};
ghost use Rattle.rule_slots.specs.Slots.{lists_in};
ghost use Rattle.rule_machine.specs.Shown.{code_in, task_lists, IsTask};

use imkl_population::Population;
use rule_code::Instr;
use rule_slots::Lists;
use rule_verify::Accepted;

/// Accepted code, a population of its class model, and a rule: its index and its code.
#[derive(Clone, Copy)]
pub(crate) struct Task<'a> {
    pub(crate) accepted: &'a Accepted<'a>,
    pub(crate) population: &'a Population<'a>,
    pub(crate) rule: usize,
    pub(crate) code: &'a [Instr],
}

impl<'a> Task<'a> {
    /// The code of the rule.
    pub(crate) fn code(self) -> &'a [Instr]
        requires { IsTask self }
        ensures code { result.now ≡ code_in self.entry }
        ensures fits { All (InstrFits (length self.entry.accepted.now.unit.texts)
            self.entry.accepted.now.unit.symbols) result.now }
    {
        self.code
    }

    /// What slots index.
    pub(crate) fn lists(self) -> Lists<'a>
        ensures { lists_in result ≡ task_lists self.entry }
    {
        Lists {
            unit: self.accepted.unit(),
            population: self.population,
        }
    }
}
