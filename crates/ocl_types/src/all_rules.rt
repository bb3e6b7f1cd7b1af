//! The check of the rules of a text, in their order.

ghost use Rattle.std.specs.Prelude.{◌≡◌, List, ◌∷◌, map, None, Err, IfOk};
ghost use Rattle.std.specs.List.{AllByRecursion};
ghost use Rattle.imkl_model.specs.ClassModel.{class_number};
ghost use Rattle.ocl_base.specs.Steps.{Gives};
ghost use Rattle.ocl_text.specs.RuleText.{NamesDiffer};
ghost use Rattle.ocl_text.specs.Tree.{Rule};
ghost use Rattle.ocl_text.specs.View.{rule_of};
ghost use Rattle.ocl_core.specs.CoreView.{checked_rule_of};
ghost use Rattle.ocl_types.specs.declared.fault.TypeFlaw.TheVariants.{UnknownName};
ghost use Rattle.ocl_types.specs.declared.rules_fault.RulesFault.TheVariants.{At};
ghost use Rattle.ocl_types.specs.Elaboration.{elaborate_rule};
ghost use Rattle.ocl_core.specs.Core.{HaveOwnNames};
ghost use Rattle.ocl_types.specs.AllRules.{elaborate_rules, in_rule, rules_fault};
ghost use Rattle.ocl_core.specs.Typing.{IsTypedRule};

use crate::fault::TypeFault;
use crate::rules::check;
use crate::rules_fault::RulesFault;
use imkl_model::ClassModel;
use ocl_core::CoreRule;
use ocl_text::SurfaceRule;
use std::alloc::Global;

/// Checks the rule of an index.
fn check_at(
    alloc: Global,
    model: &ClassModel,
    index: usize,
    rule: &SurfaceRule,
) -> Result<CoreRule, RulesFault>
    ensures gives { Gives rules_fault checked_rule_of result
        (in_rule index (elaborate_rule model.now (rule_of rule.now))) }
    ensures unknown_context { class_number model.now rule.now.context ≡ None
        → result ≡ Err (At UnknownName index rule.now.context_offset) }
{
    match check(alloc, model, rule) {
        Ok(rule) => Ok(rule),
        Err(TypeFault::At { flaw, offset }) => Err(RulesFault::At {
            flaw,
            rule: index,
            offset,
        }),
        Err(TypeFault::OutOfMemory) => Err(RulesFault::OutOfMemory),
    }
}

/// Checks the types of all rules of a text: see `check`. The first rule that is at fault is reported, with its first
/// fault. `RulesFault::OutOfMemory` may come in place of any answer but that the context class of the first rule is
/// unknown. Rules keep their names.
pub fn check_rules(
    alloc: Global,
    model: &ClassModel,
    rules: &[SurfaceRule],
) -> Result<Vec<CoreRule>, RulesFault>
    ensures gives { Gives rules_fault (λ v. map checked_rule_of v.items) result
        (elaborate_rules model.now 0 (map rule_of rules.now)) }
    ensures typed { IfOk result (λ v.
        AllByRecursion (IsTypedRule model.now) (map checked_rule_of v.items)) }
    ensures names { NamesDiffer (map rule_of rules.now)
        → IfOk result (λ v. HaveOwnNames (map checked_rule_of v.items)) }
    ensures unknown_context { (first : Rule) (others : List Rule)
        → map rule_of rules.now ≡ first ∷ others → class_number model.now first.context ≡ None
        → result ≡ Err (At UnknownName 0 first.context_offset) }
{
    model.well_formed();
    let mut checked = Vec::new(alloc);
    for i in 0..rules.len() {
        match check_at(alloc, model, i, &rules[i]) {
            Ok(rule) => checked.push(rule)?,
            Err(fault) => return Err(fault),
        }
    }
    Ok(checked)
}
