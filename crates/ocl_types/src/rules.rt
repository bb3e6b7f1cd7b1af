//! The check of a rule's types.

ghost use Rattle.std.specs.Prelude.{◌≡◌, None, Err, IfOk};
ghost use Rattle.imkl_model.specs.ClassModel.{class_number};
ghost use Rattle.ocl_base.specs.Steps.{Gives};
ghost use Rattle.ocl_text.specs.View.{rule_of};
ghost use Rattle.ocl_core.specs.CoreView.{checked_rule_of};
ghost use Rattle.ocl_types.specs.declared.fault.TypeFault.TheVariants.{At};
ghost use Rattle.ocl_types.specs.declared.fault.TypeFlaw.TheVariants.{UnknownName};
ghost use Rattle.ocl_types.specs.Elaboration.{elaborate_rule};
ghost use Rattle.ocl_types.specs.Faults.{type_fault};
ghost use Rattle.ocl_core.specs.Typing.{IsTypedRule};

use crate::arguments::known_class;
use crate::environment::Environment;
use crate::fault::TypeFault;
use crate::requirements::asks_truth;
use crate::scope::Scope;
use crate::walk::elaborate;
use imkl_model::ClassModel;
use ocl_core::CoreRule;
use ocl_text::SurfaceRule;
use std::alloc::Global;

/// The rule with its types, each step equal to the definition's.
#[tactic(auto, unfolding(crate::specs::Elaboration::elaborate_rule))]
fn core_rule(alloc: Global, model: &ClassModel, rule: &SurfaceRule) -> Result<CoreRule, TypeFault>
    ensures gives { Gives type_fault checked_rule_of result
        (elaborate_rule model.now (rule_of rule.now)) }
    ensures unknown_context { class_number model.now rule.now.context ≡ None
        → result ≡ Err (At UnknownName rule.now.context_offset) }
{
    let context = known_class(model, rule.context.as_str(), rule.context_offset)?;
    let mut scope = Scope::outermost(alloc, context)?;
    let environment = Environment { model, context };
    let value = elaborate(alloc, &environment, &mut scope, &rule.expression)?;
    asks_truth(model, &value.kind, rule.expression.offset())?;
    Ok(CoreRule {
        name: rule.name.copy()?,
        context,
        tree: Box::into_inner(value).core,
    })
}

/// Checks the types of a rule in a class model, and writes out what its text leaves out: see `docs/use/language.md`.
///
/// The first fault is reported: the context class comes before the expression; in it children come before their node, a
/// source before the arguments, left before right. `TypeFault::OutOfMemory` may come in place of any answer but that the
/// context class is unknown.
pub fn check(alloc: Global, model: &ClassModel, rule: &SurfaceRule) -> Result<CoreRule, TypeFault>
    ensures gives { Gives type_fault checked_rule_of result
        (elaborate_rule model.now (rule_of rule.now)) }
    ensures typed { IfOk result (λ r. IsTypedRule model.now (checked_rule_of r)) }
    ensures unknown_context { class_number model.now rule.now.context ≡ None
        → result ≡ Err (At UnknownName rule.now.context_offset) }
{
    model.well_formed();
    core_rule(alloc, model, rule)
}
