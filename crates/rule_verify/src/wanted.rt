//! What an instruction of a rule may take, and its bodies may end with, for those who explain code.

ghost use Rattle.std.specs.Prelude.{◌≡◌, ℕ, IfSome};
ghost use Rattle.rule_verify.specs.InstrKinds as spec;
ghost use Rattle.rule_verify.specs.Walk.{operand_list};

use crate::blocks::ends_with;
use crate::code::RuleCode;
use crate::operands::operands_of;
use crate::pattern::{Operands, Pattern};
use crate::resolved::Resolved;
use imkl_model::ClassNo;
use rule_code::Instr;

/// The context class of a rule, if both are there.
fn context_of(resolved: &Resolved<'_>, rule: usize) -> Option<ClassNo> {
    let found = resolved.unit().rules.get(rule)?;
    resolved.class(found.context)
}

/// What the operands of an instruction of a rule may be, the topmost first; none where the rule isn't there with its context
/// class.
pub fn operands_wanted(resolved: &Resolved<'_>, rule: usize, instr: Instr) -> Option<Operands>
    ensures { (context : ℕ) → IfSome result (λ o. operand_list o ≡ spec.operands_of
        (spec.surroundings resolved.now.model resolved.now.unit rule context) instr) }
{
    let context = context_of(resolved, rule)?;
    let code = RuleCode {
        resolved,
        index: rule,
        context,
        code: &[],
    };
    Some(operands_of(&code, instr))
}

/// What the bodies of a block of a rule may end with; none where the rule isn't there with its context class.
pub fn ending_wanted(resolved: &Resolved<'_>, rule: usize, block: Instr) -> Option<Pattern>
    ensures { (context : ℕ) → IfSome result (λ p. p ≡ spec.ends_with
        (spec.surroundings resolved.now.model resolved.now.unit rule context) block) }
{
    let context = context_of(resolved, rule)?;
    let code = RuleCode {
        resolved,
        index: rule,
        context,
        code: &[],
    };
    Some(ends_with(&code, block))
}
