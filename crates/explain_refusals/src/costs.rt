//! Why a rule isn't admitted.

use explain_costs::explain_charges;
use explain_faults::{Fault, Faults};
use explain_notes::Input;
use ocl_pipeline::SizedCode;
use rule_cost::{Bound, STEP_LIMIT, bound};
use std::alloc::{AllocError, Global};

/// What a rule may be charged, and the budget that this is above.
fn charged(alloc: Global, name: &str, charges: u64, budget: u64) -> Result<String, AllocError> {
    if charges < STEP_LIMIT {
        return format!(in alloc;
            "rule `{name}` may be charged {charges} for an object, and the budget is {budget} (cost 1)"
        );
    }
    format!(in alloc;
        "rule `{name}` may be charged 2^63 or more for an object, which no budget allows (cost 1)"
    )
}

/// Writes what a rule may be charged, the budget that this is above, and the iterations that make it.
pub(crate) fn explain_cost(
    alloc: Global,
    out: &mut Faults,
    input: Input<'_>,
    code: &SizedCode<'_>,
    budget: u64,
    rule: usize,
) -> Result<(), AllocError> {
    code.one_model();
    let (path, accepted, sizes) = (input.path, code.accepted(), code.sizes());
    if rule >= accepted.rules() {
        return Ok(());
    }
    let name = accepted.rule_name(rule);
    let charges = match bound(alloc, accepted, rule, sizes) {
        Ok(Bound::Steps(charges)) => charges,
        Ok(Bound::Over) => STEP_LIMIT,
        Err(_) => return Err(AllocError),
    };
    let text = charged(alloc, name, charges, budget)?;
    out.add(Fault::of_whole(alloc, path, text)?)?;
    explain_charges(alloc, &mut out.words, accepted, sizes, rule)?;
    writeln!(
        &mut out.words,
        "  each iteration costs its body as often as there may be elements, and one inside another multiplies"
    )
}
