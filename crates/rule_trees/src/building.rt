//! The core tree of a rule of an accepted unit.

ghost use Rattle.std.specs.Prelude.{◌<◌, length, IfOk};
ghost use Rattle.ocl_core.specs.CoreView.{core_view};
ghost use Rattle.rule_trees.specs.Laws.{IsCoreOf};

use crate::code::{Place, RuleCode};
use crate::laws::accepted_rules_have_trees;
use crate::walk::sequence;
use ocl_base::OutOfMemory;
use ocl_core::Core;
use rule_verify::Accepted;
use std::alloc::Global;

/// Builds the core tree of a rule of an accepted unit. Each such rule has one, so this fails only where memory runs out.
///
/// A chain of operations and iterations is one spine. A chain of conditions of IFs, or of values of LETs, is as deep in
/// memory as it is long.
pub fn core_of_rule(
    alloc: Global,
    accepted: &Accepted<'_>,
    index: usize,
) -> Result<Core, OutOfMemory>
    requires { index < length accepted.now.unit.rules }
    ensures { IfOk result (λ core. IsCoreOf accepted.now.model accepted.now.unit index
        (core_view core)) }
{
    accepted.accepted();
    accepted.unit().well_formed();
    accepted_rules_have_trees();
    let code = RuleCode::new(accepted, index);
    let whole = Place {
        at: 0,
        end: code.code.len(),
    };
    let core = sequence(alloc, &code, whole)?;
    Ok(core)
}
