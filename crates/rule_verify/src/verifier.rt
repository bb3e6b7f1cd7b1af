//! The verifier: which code may run.

ghost use Rattle.std.specs.Prelude.{◌≡◌, false, IfOk, IfErr};
ghost use Rattle.ocl_base.specs.Steps.{Fails};
ghost use Rattle.rule_code.specs.View.{content};
ghost use Rattle.rule_verify.specs.Faults.{verify_fault};
ghost use Rattle.rule_verify.specs.UnitRules as spec;
ghost use Rattle.rule_verify.specs.declared.fault.VerifyFault.TheVariants.{OutOfMemory};

use crate::accepted::Accepted;
use crate::fault::{VerifyFault, VerifyFlaw};
use crate::named::Named;
use crate::resolved::{look_up, resolve};
use crate::rules::check_rules;
use imkl_model::ClassModel;
use rule_code::Unit;
use std::alloc::Global;

/// Whether the class model doesn't have the context class of the first rule. Nothing is allocated.
fn has_no_first_context(model: &ClassModel, unit: &Unit) -> bool
    ensures { result ≡ spec.has_no_first_context model.now (content unit.now) }
{
    if unit.rules.len() == 0 {
        return false;
    }
    let context = unit.rule(0).context;
    !matches!(
        look_up(model, unit, unit.symbol(context)),
        Some(Named::Class(_))
    )
}

/// Accepts exactly the units whose used names are in the class model, whose blocks nest and whose
/// code has kinds, within the limits.
///
/// Else the answer is the first fault, rules in order and each walked in the order of its
/// instructions (`docs/formats/machine.md` says which these are), and the unit again.
/// `VerifyFault::OutOfMemory` may come in place of any answer but that the first rule's context
/// class is unknown.
pub fn verify<'m>(
    alloc: Global,
    model: &'m ClassModel,
    unit: Unit,
) -> Result<Accepted<'m>, (VerifyFault, Unit)>
    ensures accepted { IfOk result (λ a. spec.IsAcceptedUnit model.entry.now (content unit)) }
    ensures model { IfOk result (λ a. a.model ≡ model.entry.now) }
    ensures unit { IfOk result (λ a. a.unit ≡ content unit) }
    ensures refused { IfErr result (λ r. Fails verify_fault r.0
        (spec.check_unit model.entry.now (content unit))) }
    ensures decided { IfErr result (λ r. r.0 ≡ OutOfMemory
        → spec.has_no_first_context model.entry.now (content unit) ≡ false) }
    ensures returned { IfErr result (λ r. content r.1 ≡ content unit) }
{
    if has_no_first_context(model, &unit) {
        let flaw = VerifyFlaw::NoSuchName;
        let fault = VerifyFault::At {
            flaw,
            rule: 0,
            at: 0,
        };
        return Err((fault, unit));
    }
    match resolve(alloc, model, unit) {
        Err((refused, unit)) => Err((VerifyFault::from(refused), unit)),
        Ok(resolved) => match check_rules(alloc, &resolved) {
            Ok(depths) => Ok(Accepted::new(resolved, depths)),
            Err(fault) => Err((fault, resolved.into_unit())),
        },
    }
}
