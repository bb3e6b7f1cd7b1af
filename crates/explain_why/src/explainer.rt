//! What explains parts, and the lines that it puts of a part and of variables.

ghost use Rattle.std.specs.Prelude.{◌≡◌, ◌++◌, OnOk, string_bytes};
ghost use Rattle.ocl_core.specs.CoreView.{core_view};
ghost use Rattle.owned_values.specs.Meant.{meant, IsValueThere};
ghost use Rattle.ocl_semantics.specs.Resolved.{IsResolved, AreThere};
ghost use Rattle.explain_why.specs.Values.{value_text, introduced_text};
ghost use Rattle.explain_why.specs.Explanation.{part_line, named_value, binding_line, bindings_line, valued_part};
ghost use Rattle.explain_why.specs.NameWalk.{naming_view};

use crate::names::Naming;
use crate::pieces::{put, put_indent};
use crate::texts::text_of;
use crate::values::{put_value, put_value_class};
use imkl_population::Population;
use ocl_base::OutOfMemory;
use ocl_core::Core;
use ocl_semantics::{Variables, evaluate};
use owned_values::Value;
use std::alloc::Global;

/// What explains parts.
#[derive(Clone, Copy)]
pub(crate) struct Explainer<'a, 'n, 's> {
    pub(crate) alloc: Global,
    /// The objects that rules are judged for.
    pub(crate) population: &'a Population<'a>,
    /// How far its lines stand to the right.
    pub(crate) level: usize,
    /// What is known of names there.
    pub(crate) naming: Naming<'n, 's>,
}

impl<'a> Explainer<'a, '_, '_> {
    /// Puts a part with its value, and why that is null or invalid.
    pub(crate) fn put_part(
        self,
        out: &mut String,
        part: &str,
        value: &Value<'_>,
        reason: &str,
    ) -> Result<(), OutOfMemory>
        requires there { IsValueThere self.population.now.content (meant value.now) }
        ensures { OnOk result (string_bytes out.new ≡ string_bytes out.old ++ part_line
            self.entry.level part.now
            (value_text self.entry.population.now.content (meant value.now)) reason.now) }
    {
        put_indent(out, self.level)?;
        put(out, part)?;
        put(out, " is ")?;
        put_value(self.alloc, out, self.population, value)?;
        put(out, reason)?;
        put(out, "\n")
    }

    /// Puts a tree with its value, and why that is null or invalid.
    pub(crate) fn put_tree(
        self,
        out: &mut String,
        core: &'a Core,
        reason: &str,
        variables: &mut Variables<'a>,
    ) -> Result<(), OutOfMemory>
        requires resolved { IsResolved self.population.now.content.model (core_view core.now) }
        requires there { AreThere self.population.now.content variables.old }
        ensures text { OnOk result (string_bytes out.new ≡ string_bytes out.old ++ valued_part
            self.entry.population.now.content (core_view core.now) self.entry.level variables.old
            (naming_view self.entry.naming) reason.now) }
        ensures kept { OnOk result (variables.new ≡ variables.old) }
    {
        let text = text_of(self.alloc, self.population.model(), core, self.naming)?;
        let value = evaluate(self.alloc, self.population, core, variables)?;
        self.put_part(out, &text.text, &value, reason)
    }

    /// Puts a variable with its value; an object has its class there.
    fn put_binding(self, out: &mut String, name: &str, value: &Value<'_>) -> Result<(), OutOfMemory>
        requires there { IsValueThere self.population.now.content (meant value.now) }
        ensures { OnOk result (string_bytes out.new ≡ string_bytes out.old ++ named_value name.now
            (introduced_text self.entry.population.now.content (meant value.now))) }
    {
        put(out, name)?;
        put(out, " is ")?;
        put_value(self.alloc, out, self.population, value)?;
        put_value_class(out, self.population, value)
    }

    /// Puts a line with a variable and its value.
    pub(crate) fn put_binding_line(
        self,
        out: &mut String,
        name: &str,
        value: &Value<'_>,
    ) -> Result<(), OutOfMemory>
        requires there { IsValueThere self.population.now.content (meant value.now) }
        ensures { OnOk result (string_bytes out.new ≡ string_bytes out.old ++ binding_line
            self.entry.level name.now
            (introduced_text self.entry.population.now.content (meant value.now))) }
    {
        put_indent(out, self.level)?;
        self.put_binding(out, name, value)?;
        put(out, "\n")
    }

    /// Puts a line with the two variables of a fold and their values.
    pub(crate) fn put_bindings_line(
        self,
        out: &mut String,
        name: &str,
        accumulator: &str,
        first: &Value<'_>,
        second: &Value<'_>,
    ) -> Result<(), OutOfMemory>
        requires first { IsValueThere self.population.now.content (meant first.now) }
        requires second { IsValueThere self.population.now.content (meant second.now) }
        ensures { OnOk result (string_bytes out.new ≡ string_bytes out.old ++ bindings_line
            self.entry.level name.now accumulator.now
            (introduced_text self.entry.population.now.content (meant first.now))
            (introduced_text self.entry.population.now.content (meant second.now))) }
    {
        put_indent(out, self.level)?;
        self.put_binding(out, name, first)?;
        put(out, ", ")?;
        self.put_binding(out, accumulator, second)?;
        put(out, "\n")
    }
}
