//! The value of a tree by itself.

ghost use Rattle.std.specs.Prelude.{◌≡◌, ◌<◌, length, IfOk, IfSome, string_bytes};
ghost use Rattle.ocl_core.specs.CoreView.{core_view};
ghost use Rattle.ocl_semantics.specs.Resolved.{IsResolved};
ghost use Rattle.owned_values.specs.Meant.{meant, IsValueThere};
ghost use Rattle.explain_why.specs.Valued.{self_value, valued_text};

use crate::values::put_value;
use imkl_population::{ObjectNo, Population};
use ocl_base::OutOfMemory;
use ocl_core::Core;
use ocl_semantics::{Variables, evaluate};
use owned_values::{Element, Value};
use std::alloc::Global;

/// What `self` is: an object, or invalid where there is none.
fn self_value<'a>(population: &Population<'_>, object: Option<ObjectNo>) -> Value<'a>
    requires object { IfSome object (λ o. o < length population.now.content.objects) }
    ensures value { meant result ≡ self_value object }
    ensures there { IsValueThere population.now.content (meant result) }
{
    match object {
        Some(object) => Value::Element(Element::Object(object)),
        None => Value::Invalid,
    }
}

/// The value of a tree whose one variable is `self`, as OCL writes it: `self` is an object, or invalid where there is none. Of
/// a collection and of a String as much is shown as explanations show.
pub fn value_of<'a>(
    alloc: Global,
    population: &'a Population<'_>,
    tree: &'a Core,
    object: Option<ObjectNo>,
) -> Result<String, OutOfMemory>
    requires resolved { IsResolved population.now.content.model (core_view tree.now) }
    requires object { IfSome object (λ o. o < length population.now.content.objects) }
    ensures { IfOk result (λ s. string_bytes s ≡
        valued_text population.entry.now.content (core_view tree.entry.now) object) }
{
    let mut out = String::new(alloc);
    let mut variables = Variables::new(alloc);
    variables.bind(self_value(population, object))?;
    let value = evaluate(alloc, population, tree, &mut variables)?;
    put_value(alloc, &mut out, population, &value)?;
    Ok(out)
}
