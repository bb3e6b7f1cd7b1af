//! The rules of a unit are checked.

ghost use Rattle.std.specs.Prelude.{◌≡◌, ◌<◌, length, IfOk};
ghost use Rattle.ocl_base.specs.Steps.{Gives};
ghost use Rattle.rule_verify.specs.Faults.{verify_fault};
ghost use Rattle.rule_verify.specs.UnitRules as spec;

use crate::code::RuleCode;
use crate::depths::Depths;
use crate::fault::{VerifyFault, VerifyFlaw};
use crate::pattern::Pattern;
use crate::place::{Place, Walk};
use crate::resolved::Resolved;
use crate::taking::put;
use crate::walk::{ended_with, sequence};
use crate::watch::{Unwatched, Watch};
use ocl_base::Stack;
use ocl_kinds::{Kind, ScalarKind};
use std::alloc::Global;

/// Checks a rule: how deep it goes, or its first fault. The walk is watched, and ends at the fault.
pub fn check_rule<W: Watch>(
    alloc: Global,
    resolved: &Resolved<'_>,
    index: usize,
    watch: &mut W,
) -> Result<Depths, VerifyFault>
    requires { index < length resolved.now.unit.rules }
    ensures checked { Gives verify_fault (λ _. tt) result (spec.check_rule resolved.now.model
        resolved.now.unit index (spec.unit_rule resolved.now.unit index)) }
    ensures depths { IfOk result (λ d. d ≡ spec.depths_of resolved.now.model resolved.now.unit index
        (spec.unit_rule resolved.now.unit index)) }
{
    resolved.model().well_formed();
    let rule = resolved.unit().rule(index);
    let Some(context) = resolved.class(rule.context) else {
        return Err(VerifyFault::At {
            flaw: VerifyFlaw::NoSuchName,
            rule: index,
            at: 0,
        });
    };
    let code = RuleCode {
        resolved,
        index,
        context,
        code: rule.code.as_slice(),
    };
    let mut walk = Walk {
        variables: Stack::new(alloc),
        depths: Depths {
            operands: 0,
            variables: 0,
            blocks: 0,
        },
    };
    put(
        &mut walk.variables,
        Kind::Scalar(ScalarKind::Class(context)),
    )?;
    let place = Place {
        at: 0,
        end: code.code.len(),
        covered: 0,
        open_blocks: 0,
    };
    let operands = sequence(alloc, &code, &mut walk, watch, place)?;
    let truth = Pattern::Fitting(Kind::Scalar(ScalarKind::Boolean));
    ended_with(&code, &truth, place.end, &operands)?;
    Ok(walk.depths)
}

/// Checks the rules of a unit: how deep each goes, or the first fault.
pub(crate) fn check_rules(
    alloc: Global,
    resolved: &Resolved<'_>,
) -> Result<Vec<Depths>, VerifyFault>
    ensures checked { Gives verify_fault (λ _. tt) result
        (spec.check_unit resolved.now.model resolved.now.unit) }
    ensures depths { IfOk result (λ v. v.items ≡ spec.depths_of_rules resolved.now.model
        resolved.now.unit 0 resolved.now.unit.rules) }
{
    let mut depths = Vec::new(alloc);
    for index in 0..resolved.unit().rules.len() {
        let reached = check_rule(alloc, resolved, index, &mut Unwatched)?;
        depths.push(reached)?;
    }
    Ok(depths)
}
