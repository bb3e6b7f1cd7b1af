//! Units are admitted.

ghost use Rattle.std.specs.Prelude.{◌≡◌, IfOk};
ghost use Rattle.ocl_base.specs.Steps.{Gives};
ghost use Rattle.rule_cost.specs.CostFaults.{cost_fault};
ghost use Rattle.rule_cost.specs.Admission.{admission};

use crate::admitted::Admitted;
use crate::bounding::bound;
use crate::cut::Bound;
use crate::fault::CostFault;
use imkl_population::Sizes;
use rule_verify::Accepted;
use std::alloc::Global;

/// Admits exactly the units of which each rule's bound is below 2^63 and at most the budget, in
/// populations of these sizes.
///
/// Else the answer is the first other rule, whether or not its context class has objects.
/// `CostFault::OutOfMemory` may come in place of any answer.
pub fn admit<'a>(
    alloc: Global,
    accepted: &'a Accepted<'a>,
    sizes: &'a Sizes<'a>,
    budget: u64,
) -> Result<Admitted<'a>, CostFault>
    requires one_model { sizes.now.model ≡ accepted.now.model }
    ensures admitted { Gives cost_fault (λ _. tt) result
        (admission accepted.entry.now.unit sizes.entry.now budget) }
    ensures unit { IfOk result (λ a. a.resolved ≡ accepted.entry.now) }
    ensures sizes { IfOk result (λ a. a.sizes ≡ sizes.entry.now) }
    ensures budget { IfOk result (λ a. a.budget ≡ budget) }
{
    let mut bounds = Vec::new(alloc);
    for rule in 0..accepted.rules() {
        match bound(alloc, accepted, rule, sizes)? {
            Bound::Steps(charges) if charges <= budget => bounds.push(charges)?,
            _ => return Err(CostFault::TooCostly { rule }),
        }
    }
    accepted.accepted();
    Ok(Admitted {
        accepted,
        sizes,
        budget,
        bounds,
    })
}
