//! Contexts and their invariants.

ghost use Rattle.std.specs.Prelude.{◌≡◌, ◌<◌, ◌+◌, suc, [], length, map, string_bytes, IfOk};
ghost use Rattle.ocl_tokens.specs.Terminals.{terminals};
ghost use Rattle.ocl_text.specs.Grammar.{numbered};
ghost use Rattle.ocl_text.specs.Parse as spec;
ghost use Rattle.ocl_text.specs.Parses.{Parses, ParsesAll, left, whole};
ghost use Rattle.ocl_text.specs.View.{rule_of};

use crate::cursor::{Cursor, Mark, ParseFault, PlacedName};
use crate::name::Name;
use crate::parser;
use crate::tree::SurfaceRule;
use ocl_tokens::{Token, TokenKind};
use std::alloc::{AllocError, Global};

/// The name that the invariant of this number gets.
#[tactic(auto, using(crate::proofs::Names::numbered_name))]
fn numbered_name(alloc: Global, number: usize) -> Result<Name, AllocError>
    ensures { IfOk result (λ n. n ≡ numbered number) }
{
    let text = format!(in alloc; "inv{number}")?;
    Name::new(alloc, text.as_str())
}

/// The name of the invariant of this number: its own, or the one that it gets.
#[tactic(auto, unfolding(crate::specs::Parse::rule_name))]
fn rule_name(alloc: Global, cursor: &mut Cursor<'_>, number: usize) -> Result<Name, ParseFault>
    ensures { Parses cursor.old cursor.new (λ n. n) result
        (spec.rule_name number (left cursor.old)) }
{
    if cursor.next_is(Mark::Identifier) {
        cursor.identifier(alloc)
    } else {
        Ok(numbered_name(alloc, number)?)
    }
}

/// A context, up to its class.
#[tactic(auto, unfolding(crate::specs::Parse::context))]
fn context(alloc: Global, cursor: &mut Cursor<'_>) -> Result<PlacedName, ParseFault>
    ensures { Parses cursor.old cursor.new (λ n. (n.name, n.offset)) result
        (spec.context (left cursor.old)) }
{
    cursor.expect(Mark::Context)?;
    cursor.placed_name(alloc)
}

/// An invariant, after the `inv` at this offset in the text.
#[tactic(auto, unfolding(crate::specs::Parse::invariant_at))]
fn invariant_at(
    alloc: Global,
    cursor: &mut Cursor<'_>,
    depth: usize,
    class: &PlacedName,
    number: usize,
    offset: usize,
) -> Result<SurfaceRule, ParseFault>
    ensures { Parses cursor.old cursor.new rule_of result
        (spec.invariant_at (whole cursor.old depth) (class.now.name, class.now.offset) number
        offset (left cursor.old)) }
{
    let name = rule_name(alloc, cursor, number)?;
    cursor.expect(Mark::Colon)?;
    let expression = parser::expression(alloc, cursor, depth)?;
    Ok(SurfaceRule {
        name,
        context: class.name.copy()?,
        offset,
        context_offset: class.offset,
        expression,
    })
}

/// The invariant of this number.
#[tactic(auto, unfolding(crate::specs::Parse::invariant))]
fn invariant(
    alloc: Global,
    cursor: &mut Cursor<'_>,
    depth: usize,
    class: &PlacedName,
    number: usize,
) -> Result<SurfaceRule, ParseFault>
    ensures { Parses cursor.old cursor.new rule_of result
        (spec.invariant (whole cursor.old depth) (class.now.name, class.now.offset) number
        (left cursor.old)) }
{
    let start = cursor.index;
    let t = cursor.next_token()?;
    match t.kind {
        TokenKind::Inv => invariant_at(alloc, cursor, depth, class, number, t.span.start),
        _ => Err(ParseFault::Syntax(start)),
    }
}

/// The rules before, and those of one context.
#[tactic(auto, using(crate::proofs::Turns::invariants_over))]
fn invariants(
    alloc: Global,
    cursor: &mut Cursor<'_>,
    depth: usize,
    class: &PlacedName,
    before: Vec<SurfaceRule>,
) -> Result<Vec<SurfaceRule>, ParseFault>
    ensures { Parses cursor.old cursor.new (λ v. map rule_of v.items) result
        (spec.invariants (whole cursor.old depth) (class.now.name, class.now.offset)
        (length (left cursor.old)) (map rule_of before.items) (left cursor.old)) }
{
    let mut all = before;
    let left = cursor.count();
    'invariants: for _turn in 0..left {
        let number = all.len() + 1;
        let rule = invariant(alloc, cursor, depth, class, number)?;
        all.push(rule)?;
        if !cursor.next_is(Mark::Inv) {
            return Ok(all);
        }
    }
    Err(ParseFault::Syntax(cursor.index))
}

/// The rules of all the tokens.
#[tactic(auto, using(crate::proofs::Turns::contexts_done))]
fn contexts(
    alloc: Global,
    cursor: &mut Cursor<'_>,
    depth: usize,
) -> Result<Vec<SurfaceRule>, ParseFault>
    ensures { ParsesAll cursor.old.tokens.now (λ v. map rule_of v.items) result
        (spec.contexts (whole cursor.old depth) (length (left cursor.old)) []
        (left cursor.old)) }
{
    let mut all = Vec::new(alloc);
    let left = cursor.count();
    'contexts: for _turn in 0..left {
        if cursor.is_done() {
            return Ok(all);
        }
        let class = context(alloc, cursor)?;
        all = invariants(alloc, cursor, depth, &class, all)?;
    }
    if cursor.is_done() {
        Ok(all)
    } else {
        Err(ParseFault::Syntax(cursor.index))
    }
}

/// The rules of all these tokens, with at most this number of constructs open round a token, and of links in a chain.
#[tactic(auto, unfolding(crate::specs::Parse::all_rules))]
pub(crate) fn rules_of(
    alloc: Global,
    tokens: &[Token<'_>],
    nesting: usize,
    chain: usize,
) -> Result<Vec<SurfaceRule>, ParseFault>
    requires { nesting < 1000 }
    ensures { ParsesAll tokens.now (λ v. map rule_of v.items) result
        (spec.all_rules nesting chain (terminals tokens.now)) }
{
    contexts(alloc, &mut Cursor::new(tokens, chain), nesting + 1)
}
