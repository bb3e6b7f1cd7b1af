//! The lengths of the operands.

ghost use Rattle.std.specs.Prelude.{◌≡◌, drop};
ghost use Rattle.rule_verify.specs.InstrKinds.{Surroundings};
ghost use Rattle.rule_cost.specs.Bounds as spec;

use crate::cut::Cut;
use ocl_base::Stack;
use rule_code::Instr;
use rule_verify::{operand_count, operands_above};

/// The length of the topmost operand, 0 where there is none.
pub(crate) fn top_length(operands: &Stack<Cut>) -> Cut
    ensures { result ≡ spec.top_length operands.now }
{
    length_above(operands, 0)
}

/// The length of the operand below the topmost one, 0 where there is none.
pub(crate) fn second_length(operands: &Stack<Cut>) -> Cut
    ensures { result ≡ spec.second_length operands.now }
{
    length_above(operands, 1)
}

/// The length of the operand that a block works on, 0 where it isn't there.
pub(crate) fn block_length(operands: &Stack<Cut>, instr: Instr) -> Cut
    ensures { result ≡ spec.block_length instr operands.now }
{
    length_above(operands, operands_above(instr))
}

/// The length of the operand that has a number of operands above it, 0 where it isn't there.
fn length_above(operands: &Stack<Cut>, number: usize) -> Cut
    ensures { result ≡ spec.top_length (drop number operands.now) }
{
    match operands.from_top(number) {
        Some(length) => length,
        None => Cut::new(0),
    }
}

/// Takes `count` operands.
pub(crate) fn take(operands: &mut Stack<Cut>, count: usize)
    ensures { operands.new ≡ drop count operands.old }
{
    for _ in 0..count {
        let _topmost = operands.pop();
    }
}

/// Takes the operands of an instruction.
pub(crate) fn take_operands(operands: &mut Stack<Cut>, instr: Instr)
    ensures { (s : Surroundings) → operands.new ≡ spec.lengths_below s instr operands.old }
{
    take(operands, operand_count(instr));
}
