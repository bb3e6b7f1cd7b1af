//! `let`: variables with their values.

ghost use Rattle.std.specs.Prelude.{◌≡◌, IfOk, map};
ghost use Rattle.ocl_core.specs.Core as tree;
ghost use Rattle.ocl_types.specs.TypedTrees.{typed};
ghost use Rattle.ocl_core.specs.CoreView.{core_view};
ghost use Rattle.ocl_types.specs.TypedView.{typed_in};

use crate::nodes;
use crate::typed::Typed;
use ocl_core::Core;
use std::alloc::{AllocError, Global};

/// A body inside values, with the body's kind.
#[inline(never)]
pub(crate) fn let_of(
    alloc: Global,
    values: Vec<Core>,
    body: Box<Typed>,
) -> Result<Box<Typed>, AllocError>
    ensures value { IfOk result (λ b. typed_in b ≡ typed
        (tree.lets_of (map core_view values.items) (typed_in body).core) body.value.kind) }
    ensures kind { IfOk result (λ b. b.value.kind ≡ body.value.kind) }
{
    let Typed { core, kind } = Box::into_inner(body);
    let core = nodes::lets(alloc, values, core)?;
    Ok(Box::new(alloc, Typed { core, kind })?)
}
