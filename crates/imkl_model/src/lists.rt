//! Lists of what a JSON tree spells.

ghost use Rattle.std.specs.Prelude.{map, All, IfOk};
ghost use Rattle.serde_json.specs.View.{view};
ghost use Rattle.ocl_base.specs.Steps.{each, Gives};
ghost use Rattle.imkl_model.specs.Faults.{model_fault};

use crate::fault::ModelFault;
use serde_json::Value;
use std::alloc::Global;

/// What a JSON tree may spell.
pub(crate) trait Spelled: Drop {
    ghost use Rattle.std.specs.Prelude.{Result, IfOk};
    ghost use Rattle.serde_json.specs.Data.{Data};
    ghost use Rattle.imkl_model.specs.declared.fault.ModelFault.{ModelFault};
    ghost use Rattle.serde_json.specs.View.{view};
    ghost use Rattle.ocl_base.specs.Steps.{Gives};
    ghost use Rattle.imkl_model.specs.Faults.{model_fault};

    /// What a tree spells.
    ghost spelled: { Data → Result Self ModelFault };

    /// What is known of it besides.
    ghost fits: { Self → Type 0 };

    /// What the tree spells, or its first fault.
    fn of(alloc: Global, value: &Value) -> Result<Self, ModelFault>
    where
        Self: Sized,
        ensures tree { Gives model_fault (λ x. x) result (spelled (view value.now)) }
        ensures fits { IfOk result fits };
}

/// What each tree of a list spells.
pub(crate) fn each_of<T: Spelled>(alloc: Global, values: &[Value]) -> Result<Vec<T>, ModelFault>
    ensures trees { Gives model_fault (λ v. v.items) result (each T.spelled (map view values.now)) }
    ensures fits { IfOk result (λ v. All T.fits v.items) }
{
    let mut found = Vec::new(alloc);
    for value in values {
        found.push(T::of(alloc, value)?)?;
    }
    Ok(found)
}
