//! The walk over the code of a rule, each instruction once.

ghost use Rattle.std.specs.Prelude.{◌≡◌, ◌+◌, ◌<◌, ◌≤◌, ◌∷◌, slice_get, Some, OnOk, IfOk};
ghost use Rattle.rule_verify.specs.CodeTree.{shape_of};
ghost use Rattle.rule_cost.specs.CostWalk.{IsSizedCode, IsRange, Advances, Totals};

use crate::cut::Cut;
use crate::instructions::{
    bind, block_charges, branch_charges, length_given, length_yielded, plain_charge, turn_charges,
};
use crate::operands::{block_length, take, take_operands, top_length};
use crate::place::{Advance, Place, Total};
use crate::sized::SizedCode;
use crate::watch::{Passed, Turns, Watch};
use ocl_base::Stack;
use rule_code::Instr;
use rule_verify::{Shape, block_of, bound_count, shape_of};
use std::alloc::{AllocError, Global};

/// Puts a length on top of others.
fn put(lengths: &mut Stack<Cut>, length: Cut) -> Result<(), AllocError>
    ensures { OnOk result (lengths.new ≡ length ∷ lengths.old) }
{
    lengths.push(length)
}

/// An instruction without a body.
fn plain<W: Watch>(
    code: &SizedCode<'_>,
    variables: &Stack<Cut>,
    operands: &mut Stack<Cut>,
    place: Place,
    instr: Instr,
    watch: &mut W,
) -> Result<Advance, AllocError>
    requires code { IsSizedCode code.now }
    requires place { IsRange code.now place }
    requires inside { place.at < place.end }
    requires here { slice_get code.now.code.now place.at ≡ Some instr }
    requires shape { shape_of instr ≡ Shape.Single }
    ensures { IfOk result (λ a. Advances code.now variables.now place operands.old a operands.new) }
{
    let length = length_given(code, variables, operands, instr);
    let charges = plain_charge(operands, instr);
    take_operands(operands, instr);
    put(operands, length)?;
    watch.pass(Passed {
        at: place.at,
        charges: charges.number(),
        turns: None,
    });
    Ok(Advance {
        next: place.at + 1,
        charges,
    })
}

/// The charges of the sequence that begins at a place, with no operand before it, and the length of
/// the operand that it ends with.
#[cycle(walk)]
pub(crate) fn sequence<W: Watch>(
    alloc: Global,
    code: &SizedCode<'_>,
    variables: &mut Stack<Cut>,
    place: Place,
    watch: &mut W,
) -> Result<Total, AllocError>
    requires code { IsSizedCode code.now }
    requires place { IsRange code.now place }
    ensures kept { OnOk result (variables.new ≡ variables.old) }
    ensures totals { IfOk result (Totals code.now variables.old place) }
{
    let mut operands = Stack::new(alloc);
    let mut charges = Cut::new(0);
    let mut at = place.at;
    'instructions: while at < place.end {
        let here = Place { at, ..place };
        let advance = step(alloc, code, variables, &mut operands, here, watch)?;
        charges = charges.plus(advance.charges);
        at = advance.next;
    }
    Ok(Total {
        charges,
        length: top_length(&operands),
    })
}

/// An instruction with its bodies. A block that is longer than what is left ends its sequence, as
/// in the tree of the code; accepted code has none.
#[cycle(walk)]
fn step<W: Watch>(
    alloc: Global,
    code: &SizedCode<'_>,
    variables: &mut Stack<Cut>,
    operands: &mut Stack<Cut>,
    place: Place,
    watch: &mut W,
) -> Result<Advance, AllocError>
    requires code { IsSizedCode code.now }
    requires place { IsRange code.now place }
    requires inside { place.at < place.end }
    ensures kept { OnOk result (variables.new ≡ variables.old) }
    ensures advances { IfOk result (λ a. Advances code.now variables.old place operands.old a
        operands.new) }
{
    let instr = code.code[place.at];
    let left = place.end - place.at - 1;
    match shape_of(instr) {
        Shape::Single => plain(code, variables, operands, place, instr, watch),
        Shape::OneBody(length) if length <= left => {
            block(
                alloc, code, variables, operands, place, instr, length, watch,
            )
        }
        Shape::TwoBodies(first, second) if first <= left && second <= left - first => {
            branches(
                alloc,
                code,
                variables,
                operands,
                place,
                instr,
                (first, second),
                watch,
            )
        }
        _ => Ok(Advance {
            next: place.end,
            charges: Cut::new(0),
        }),
    }
}

/// A block with one body of `length` instructions, which has more variables.
#[cycle(walk)]
fn block<W: Watch>(
    alloc: Global,
    code: &SizedCode<'_>,
    variables: &mut Stack<Cut>,
    operands: &mut Stack<Cut>,
    place: Place,
    instr: Instr,
    length: usize,
    watch: &mut W,
) -> Result<Advance, AllocError>
    requires code { IsSizedCode code.now }
    requires place { IsRange code.now place }
    requires inside { place.at < place.end }
    requires here { slice_get code.now.code.now place.at ≡ Some instr }
    requires shape { shape_of instr ≡ Shape.OneBody length }
    requires nests { place.at + 1 + length ≤ place.end }
    ensures kept { OnOk result (variables.new ≡ variables.old) }
    ensures advances { IfOk result (λ a. Advances code.now variables.old place operands.old a
        operands.new) }
{
    watch.open(place.at);
    let source = block_length(operands, instr);
    bind(variables, instr, source)?;
    let at = place.at + 1;
    let end = at + length;
    let body = sequence(alloc, code, variables, Place { at, end }, watch)?;
    take(variables, bound_count(instr));
    take_operands(operands, instr);
    let opened = block_of(instr);
    put(operands, length_yielded(opened, source, body.length))?;
    let charges = block_charges(opened, source, body.charges, body.length);
    watch.pass(Passed {
        at: place.at,
        charges: charges.number(),
        turns: Some(Turns {
            source: source.number(),
            charges: turn_charges(opened, body.charges, body.length).number(),
        }),
    });
    Ok(Advance { next: end, charges })
}

/// A block with two bodies, of `lengths` instructions.
#[cycle(walk)]
fn branches<W: Watch>(
    alloc: Global,
    code: &SizedCode<'_>,
    variables: &mut Stack<Cut>,
    operands: &mut Stack<Cut>,
    place: Place,
    instr: Instr,
    lengths: (usize, usize),
    watch: &mut W,
) -> Result<Advance, AllocError>
    requires code { IsSizedCode code.now }
    requires place { IsRange code.now place }
    requires inside { place.at < place.end }
    requires here { slice_get code.now.code.now place.at ≡ Some instr }
    requires shape { shape_of instr ≡ Shape.TwoBodies lengths.0 lengths.1 }
    requires nests { place.at + 1 + lengths.0 + lengths.1 ≤ place.end }
    ensures kept { OnOk result (variables.new ≡ variables.old) }
    ensures advances { IfOk result (λ a. Advances code.now variables.old place operands.old a
        operands.new) }
{
    watch.open(place.at);
    let at = place.at + 1;
    let middle = at + lengths.0;
    let end = middle + lengths.1;
    let first = sequence(alloc, code, variables, Place { at, end: middle }, watch)?;
    let second = sequence(alloc, code, variables, Place { at: middle, end }, watch)?;
    take_operands(operands, instr);
    put(operands, first.length.max(second.length))?;
    let charges = branch_charges(first.charges, second.charges);
    watch.pass(Passed {
        at: place.at,
        charges: charges.number(),
        turns: None,
    });
    Ok(Advance { next: end, charges })
}
