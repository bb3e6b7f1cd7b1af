//! The code of a rule, with what it is checked against.

ghost use Rattle.std.specs.Prelude.{◌≡◌};

use crate::fault::{VerifyFault, VerifyFlaw};
use crate::resolved::Resolved;
use imkl_model::ClassNo;
use rule_code::Instr;

/// The code of a rule: what the unit's symbols name, the rule's index, its context class and its instructions.
#[derive(Clone, Copy)]
pub(crate) struct RuleCode<'a, 'm> {
    pub(crate) resolved: &'a Resolved<'m>,
    pub(crate) index: usize,
    pub(crate) context: ClassNo,
    pub(crate) code: &'a [Instr],
}

impl RuleCode<'_, '_> {
    /// A fault of the rule at the instruction of an index.
    pub(crate) fn fault(&self, flaw: VerifyFlaw, at: usize) -> VerifyFault
        ensures { result ≡ VerifyFault.At flaw self.now.index at }
    {
        VerifyFault::At {
            flaw,
            rule: self.index,
            at,
        }
    }
}
