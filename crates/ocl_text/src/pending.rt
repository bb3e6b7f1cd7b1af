//! Binary operators that wait for their right operands.
//!
//! The innermost is last, and each binds tighter than the one before it. Where an operator follows an operand, those at
//! the end that bind no looser get that operand.

ghost use Rattle.std.specs.Prelude.{◌≡◌, IfOk};
ghost use Rattle.ocl_base.specs.Steps.{Gives};
ghost use Rattle.ocl_text.specs.Parses.{left, meaning};
ghost use Rattle.ocl_text.specs.Pending as spec;
ghost use Rattle.ocl_text.specs.Pending.{pending_of, reduced_of, waiting};
ghost use Rattle.ocl_text.specs.View.{view};

use crate::cursor::{Cursor, ParseFault, PlacedOperator};
use crate::nodes;
use crate::tree::Expression;
use std::alloc::{AllocError, Global};

/// An operator that waits for its right operand.
#[derive(Drop)]
pub(crate) struct Pending {
    /// What stands left of the operator.
    pub(crate) left: Expression,
    pub(crate) operator: PlacedOperator,
    /// How many more operators its chain may have.
    pub(crate) links: usize,
}

/// What stands left of an operator, and those that still wait.
#[derive(Drop)]
struct Reduced {
    left: Expression,
    /// How many operators the chain may still have, the next one included.
    links: usize,
    pending: Vec<Pending>,
}

/// The operator with both operands.
fn complete(alloc: Global, pending: Pending, right: Expression) -> Result<Expression, AllocError>
    ensures { IfOk result (λ e. view e ≡ spec.completed (pending_of pending) (view right)) }
{
    let Pending { left, operator, .. } = pending;
    nodes::binary(alloc, operator.operator, left, right, operator.offset)
}

/// The operand with all operators that wait for it.
pub(crate) fn close(
    alloc: Global,
    before: Vec<Pending>,
    operand: Expression,
) -> Result<Expression, AllocError>
    ensures { IfOk result (λ e. view e ≡ spec.closed (waiting before) (view operand)) }
{
    let mut pending = before;
    let mut value = operand;
    'close: while let Some(last) = pending.pop() {
        value = complete(alloc, last, value)?;
    }
    Ok(value)
}

/// What stands left of an operator of this height that follows the operand: the operators that bind no looser get their
/// right operands, and those that bind looser wait on. A chain may have this many operators.
fn reduce(
    alloc: Global,
    chain: usize,
    before: Vec<Pending>,
    operand: Expression,
    height: usize,
) -> Result<Reduced, AllocError>
    ensures { IfOk result (λ s.
        reduced_of s ≡ spec.reduce chain height (waiting before) (view operand)) }
{
    let mut pending = before;
    let mut left = operand;
    'reduce: while let Some(last) = pending.pop() {
        if last.operator.height > height {
            pending.push(last)?;
            return Ok(Reduced {
                left,
                links: chain,
                pending,
            });
        }
        let links = last.links;
        let in_chain = last.operator.height == height;
        left = complete(alloc, last, left)?;
        if in_chain {
            return Ok(Reduced {
                left,
                links,
                pending,
            });
        }
    }
    Ok(Reduced {
        left,
        links: chain,
        pending,
    })
}

/// The operators that wait once the next one, which follows an operand, waits too.
#[tactic(auto, unfolding(crate::specs::Pending::wait))]
pub(crate) fn wait(
    alloc: Global,
    cursor: &Cursor<'_>,
    before: Vec<Pending>,
    operand: Expression,
    operator: PlacedOperator,
) -> Result<Vec<Pending>, ParseFault>
    ensures { Gives (meaning cursor.now.tokens.now) waiting result
        (spec.wait cursor.now.chain (waiting before) (view operand) operator (left cursor.now)) }
{
    let reduced = reduce(alloc, cursor.chain, before, operand, operator.height)?;
    if reduced.links == 0 {
        return Err(ParseFault::TooDeep(cursor.index));
    }
    let Reduced {
        left,
        links,
        pending,
    } = reduced;
    let mut pending = pending;
    pending.push(Pending {
        left,
        operator,
        links: links - 1,
    })?;
    Ok(pending)
}
