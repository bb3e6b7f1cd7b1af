//! `if`.

ghost use Rattle.std.specs.Prelude.{◌≡◌, IfOk, IfSome};
ghost use Rattle.ocl_base.specs.Steps.{Gives};
ghost use Rattle.ocl_kinds.specs.Kinds.{IsKindOf};
ghost use Rattle.ocl_core.specs.CoreView.{core_view};
ghost use Rattle.ocl_types.specs.TypedView.{typed_of};
ghost use Rattle.ocl_types.specs.Elaboration as spec;
ghost use Rattle.ocl_types.specs.Faults.{type_fault};

use crate::fault::{TypeFault, TypeFlaw};
use crate::nodes;
use crate::requirements::{as_wanted, is_empty_for};
use crate::typed::Typed;
use imkl_model::ClassModel;
use ocl_core::Core;
use ocl_kinds::{Kind, wider_kind};
use std::alloc::Global;

/// The kind of two branches: the wider one; null beside a collection is the empty one.
fn branch_kind(model: &ClassModel, one: &Kind, other: &Kind) -> Option<Kind>
    requires one { IsKindOf model.now one.now }
    requires other { IsKindOf model.now other.now }
    ensures value { result ≡ spec.branch_kind model.now one.now other.now }
    ensures known { IfSome result (IsKindOf model.now) }
{
    if is_empty_for(one, other) {
        Some(*one)
    } else if is_empty_for(other, one) {
        Some(*other)
    } else {
        wider_kind(model, one, other)
    }
}

/// One of two branches, by a condition.
#[tactic(auto, unfolding(crate::specs::Elaboration::if_of))]
#[inline(never)]
pub(crate) fn if_of(
    alloc: Global,
    model: &ClassModel,
    condition: Core,
    then_branch: Typed,
    else_branch: Typed,
    offset: usize,
) -> Result<Typed, TypeFault>
    requires then_branch { IsKindOf model.now then_branch.kind }
    requires else_branch { IsKindOf model.now else_branch.kind }
    ensures gives { Gives type_fault typed_of result (spec.if_of model.now (core_view condition)
        (typed_of then_branch) (typed_of else_branch) offset) }
    ensures known { IfOk result (λ t. IsKindOf model.now t.kind) }
{
    let Some(kind) = branch_kind(model, &then_branch.kind, &else_branch.kind) else {
        return Err(TypeFault::At {
            flaw: TypeFlaw::NoCommonType,
            offset,
        });
    };
    let then_branch = as_wanted(alloc, &kind, then_branch)?;
    let else_branch = as_wanted(alloc, &kind, else_branch)?;
    Ok(Typed {
        core: nodes::if_core(alloc, kind, condition, then_branch, else_branch)?,
        kind,
    })
}
