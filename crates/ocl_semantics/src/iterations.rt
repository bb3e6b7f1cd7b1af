//! The results of iterations, from the values of their body for each element.

ghost use Rattle.std.specs.Prelude.{◌≡◌, length, map, IfOk};
ghost use Rattle.ocl_semantics.specs.Meaning.{iteration_value};
ghost use Rattle.owned_values.specs.Meant.{meant, meant_elements, source};

use ocl_base::{CollectionKind, OutOfMemory};
use ocl_core::Iteration;
use owned_values::{
    Element, Value, collect, collect_flat, exists, for_all, one, reject, select, unique_bodies,
};
use std::alloc::Global;

/// What an iteration gives, by what its body gave for each element.
pub(crate) fn iteration_value<'a>(
    alloc: Global,
    iteration: Iteration,
    kind: CollectionKind,
    elements: &[Element<'a>],
    bodies: &[Value<'a>],
) -> Result<Value<'a>, OutOfMemory>
    requires { length bodies.now ≡ length elements.now }
    ensures { IfOk result (λ v. meant v ≡ iteration_value iteration
        (source kind (meant_elements elements.now)) (map meant bodies.now)) }
{
    match iteration {
        Iteration::ForAll => Ok(for_all(bodies)),
        Iteration::Exists => Ok(exists(bodies)),
        Iteration::One => Ok(one(bodies)),
        Iteration::Select => select(alloc, kind, elements, bodies),
        Iteration::Reject => reject(alloc, kind, elements, bodies),
        Iteration::Collect => collect(alloc, kind, bodies),
        Iteration::CollectFlat => collect_flat(alloc, kind, bodies),
        Iteration::IsUnique(_) => unique_bodies(alloc, bodies),
    }
}
