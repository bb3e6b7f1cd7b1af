//! Bounds of rules.

ghost use Rattle.std.specs.Prelude.{◌≡◌, ◌<◌, length, IfOk, IfErr};
ghost use Rattle.rule_cost.specs.declared.fault.CostFault.TheVariants.{OutOfMemory};
ghost use Rattle.rule_cost.specs.Limits.{limited_bound};
ghost use Rattle.rule_cost.specs.Admission.{rule_step_bound};

use crate::cut::{Bound, Cut};
use crate::fault::CostFault;
use crate::place::Place;
use crate::sized::SizedCode;
use crate::walk::sequence;
use crate::watch::{Unwatched, Watch};
use imkl_population::Sizes;
use ocl_base::Stack;
use rule_verify::Accepted;
use std::alloc::Global;

/// The bound of a rule: an upper limit on what its run is charged for an object of its context class, in populations of
/// these sizes. A run may be charged less. Refused only where memory runs out.
pub fn bound(
    alloc: Global,
    accepted: &Accepted<'_>,
    rule: usize,
    sizes: &Sizes<'_>,
) -> Result<Bound, CostFault>
    requires rule { rule < length accepted.now.unit.rules }
    requires one_model { sizes.now.model ≡ accepted.now.model }
    ensures bound { IfOk result (λ b. b ≡
        limited_bound (rule_step_bound accepted.now.unit sizes.now rule)) }
    ensures refused { IfErr result (λ e. e ≡ OutOfMemory) }
{
    watch_bound(alloc, accepted, rule, sizes, &mut Unwatched)
}

/// The same, watched.
pub fn watch_bound<W: Watch>(
    alloc: Global,
    accepted: &Accepted<'_>,
    rule: usize,
    sizes: &Sizes<'_>,
    watch: &mut W,
) -> Result<Bound, CostFault>
    requires rule { rule < length accepted.now.unit.rules }
    requires one_model { sizes.now.model ≡ accepted.now.model }
    ensures bound { IfOk result (λ b. b ≡
        limited_bound (rule_step_bound accepted.now.unit sizes.now rule)) }
    ensures refused { IfErr result (λ e. e ≡ OutOfMemory) }
{
    let code = SizedCode::new(accepted, rule, sizes);
    let mut variables = Stack::new(alloc);
    variables.push(Cut::new(0))?;
    let whole = Place {
        at: 0,
        end: code.code.len(),
    };
    let total = sequence(alloc, &code, &mut variables, whole, watch)?;
    Ok(total.charges.bound())
}
