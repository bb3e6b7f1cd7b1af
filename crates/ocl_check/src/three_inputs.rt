//! Reading the three inputs of a command, one after another.

ghost use Rattle.std.specs.Prelude.{IfOk, OnOk};
ghost use Rattle.std.specs.Io.KnownBytes.{IsAtEnd};
ghost use Rattle.ocl_check.specs.Answers.{IsUnread};
ghost use Rattle.ocl_check.specs.Ending.{IsInput};
ghost use Rattle.ocl_check.specs.Sources.{ReadsInOrder, none, ◌then◌, used, fails_for_read};

use crate::input::{InputFault, MAX_INPUT, read_input, read_two};
use crate::source::Source;
use std::alloc::Global;

/// A class model, a delivery and rules, each read whole.
#[derive(Drop)]
pub(crate) struct Inputs {
    /// The class model.
    pub(crate) model: Vec<u8>,
    /// The delivery.
    pub(crate) delivery: Vec<u8>,
    /// The rules.
    pub(crate) rules: Vec<u8>,
}

/// Reads three inputs, one after another, each whole.
pub(crate) fn read_inputs<M: Source, D: Source, R: Source>(
    alloc: Global,
    model: &mut M,
    delivery: &mut D,
    rules: &mut R,
) -> Result<Inputs, InputFault>
    requires model { IsUnread (M.has_failed model.old) (M.reads model.old) }
    requires delivery { IsUnread (D.has_failed delivery.old) (D.reads delivery.old) }
    requires rules { IsUnread (R.has_failed rules.old) (R.reads rules.old) }
    ensures model { IfOk result (λ i. IsInput (M.remaining model.old) i.model.items) }
    ensures delivery { IfOk result (λ i. IsInput (D.remaining delivery.old) i.delivery.items) }
    ensures rules { IfOk result (λ i. IsInput (R.remaining rules.old) i.rules.items) }
    ensures end { OnOk result (IsAtEnd (R.remaining rules.new)) }
    ensures read { ReadsInOrder (none then used M.remaining M.has_failed M.reads model.old model.new
        then used D.remaining D.has_failed D.reads delivery.old delivery.new
        then used R.remaining R.has_failed R.reads rules.old rules.new) (fails_for_read result) }
{
    let (model, delivery) = read_two(alloc, model, delivery)?;
    let rules = read_input(alloc, rules, MAX_INPUT)?;
    Ok(Inputs {
        model,
        delivery,
        rules,
    })
}
