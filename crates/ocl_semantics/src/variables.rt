//! The variables that a tree sees.

ghost use Rattle.std.specs.Prelude.{◌≡◌, ◌∷◌, [], drop, length, IfOk, OnOk};
ghost use Rattle.ocl_base.specs.Lists.{variable_at};
ghost use Rattle.owned_values.specs.Meant.{meant};
ghost use Rattle.rule_values.specs.Operations.{or_invalid};

use ocl_base::OutOfMemory;
use owned_values::{Value, copy_value};
use std::alloc::Global;
use std::marker::Model;

/// The values of variables, of which the one that was bound first is variable 0. Contracts see them newest first.
#[derive(Drop)]
pub struct Variables<'a> {
    values: Vec<Value<'a>>,
}

impl<'a> Model for Variables<'a> {
    ghost use Rattle.std.specs.Prelude.{List, map, reverse};
    ghost use Rattle.owned_values.specs.Meant.{meant};
    ghost use Rattle.rule_values.specs.Value.{Value as Meant};

    ghost Value = { List Meant };

    ghost view = { λ v. reverse (map meant v.values.items) };
}

impl<'a> Variables<'a> {
    /// No variables.
    pub fn new(alloc: Global) -> Variables<'a>
        ensures { result ≡ [] }
    {
        Variables {
            values: Vec::new(alloc),
        }
    }

    /// How many there are.
    pub fn len(&self) -> usize
        ensures { result ≡ length self.now }
    {
        self.values.len()
    }

    /// Binds the next one.
    pub fn bind(&mut self, value: Value<'a>) -> Result<(), OutOfMemory>
        ensures { OnOk result (self.new ≡ meant value.entry ∷ self.old) }
    {
        self.values.push(value)?;
        Ok(())
    }

    /// Forgets the newest, so many of them.
    pub fn forget(&mut self, count: usize)
        ensures { self.new ≡ drop count self.old }
    {
        let left = self.values.len().saturating_sub(count);
        self.values.truncate(left);
    }

    /// The value of the variable of a number; invalid where there is none.
    pub(crate) fn value(&self, alloc: Global, number: usize) -> Result<Value<'a>, OutOfMemory>
        ensures { IfOk result (λ v. meant v ≡ or_invalid (variable_at self.now number)) }
    {
        if number < self.values.len() {
            copy_value(alloc, &self.values[number])
        } else {
            Ok(Value::Invalid)
        }
    }
}
