//! Declared types, and the variables of iterations.

ghost use Rattle.std.specs.Prelude.{◌≡◌, ◌+◌, length, true, drop, IfOk};
ghost use Rattle.ocl_base.specs.Words.{is_name};
ghost use Rattle.ocl_text.specs.Parse as spec;
ghost use Rattle.ocl_text.specs.Parses.{Parses, left};
ghost use Rattle.ocl_text.specs.Tree.{Named, Collection};
ghost use Rattle.ocl_text.specs.View.{view_type, view_variable, view_variables};

use crate::cursor::{Cursor, Mark, ParseFault, Start, VariableLimit};
use crate::name::Name;
use crate::tree::{DeclaredType, Variable, Variables};
use ocl_tokens::TokenKind;
use std::alloc::{AllocError, Global};

#[tactic(auto, using(crate::proofs::Views::type_views))]
fn type_by_name(alloc: Global, text: &str, offset: usize) -> Result<DeclaredType, AllocError>
    requires { is_name text.now ≡ true }
    ensures { IfOk result (λ t. view_type t ≡ Named text.now offset) }
{
    let name = Name::new(alloc, text)?;
    Ok(DeclaredType::Named { name, offset })
}

#[tactic(auto, using(crate::proofs::Views::type_views))]
fn collection(
    alloc: Global,
    text: &str,
    element: DeclaredType,
    offset: usize,
) -> Result<DeclaredType, AllocError>
    requires { is_name text.now ≡ true }
    ensures { IfOk result (λ t. view_type t ≡ Collection text.now (view_type element) offset) }
{
    let name = Name::new(alloc, text)?;
    let element = Box::new(alloc, element)?;
    Ok(DeclaredType::Collection {
        name,
        element,
        offset,
    })
}

#[cycle(types)]
#[tactic(auto, unfolding(crate::specs::Parse::a_type))]
pub(crate) fn a_type(
    alloc: Global,
    cursor: &mut Cursor<'_>,
    depth: usize,
) -> Result<DeclaredType, ParseFault>
    ensures { Parses cursor.old cursor.new view_type result (spec.a_type depth (left cursor.old)) }
{
    if depth == 0 {
        return Err(cursor.too_deep(Start::Name));
    }
    type_over(alloc, cursor, depth - 1)
}

#[cycle(types)]
#[tactic(auto, unfolding(crate::specs::Parse::type_over), using(crate::proofs::Names::token_name))]
fn type_over(
    alloc: Global,
    cursor: &mut Cursor<'_>,
    depth: usize,
) -> Result<DeclaredType, ParseFault>
    ensures { Parses cursor.old cursor.new view_type result
        (spec.type_over (spec.a_type depth) (left cursor.old)) }
{
    let start = cursor.index;
    let t = cursor.next_token()?;
    match t.kind {
        TokenKind::Identifier => {
            if cursor.take(Mark::Open) {
                let inner = a_type(alloc, cursor, depth)?;
                cursor.expect(Mark::Close)?;
                Ok(collection(alloc, t.text, inner, t.span.start)?)
            } else {
                Ok(type_by_name(alloc, t.text, t.span.start)?)
            }
        }
        _ => Err(ParseFault::Syntax(start)),
    }
}

/// A variable, with its type where one is written.
#[tactic(auto, unfolding(crate::specs::Parse::a_variable))]
pub(crate) fn a_variable(
    alloc: Global,
    cursor: &mut Cursor<'_>,
    depth: usize,
) -> Result<Variable, ParseFault>
    ensures { Parses cursor.old cursor.new view_variable result
        (spec.a_variable depth (left cursor.old)) }
{
    let name = cursor.identifier(alloc)?;
    if cursor.take(Mark::Colon) {
        let declared = a_type(alloc, cursor, depth)?;
        let declared = Some(declared);
        Ok(Variable { name, declared })
    } else {
        let declared = None;
        Ok(Variable { name, declared })
    }
}

/// One or two variables, as they stand before a bar.
#[tactic(auto, unfolding(crate::specs::Parse::variables_by))]
fn variables_after(
    alloc: Global,
    cursor: &mut Cursor<'_>,
    depth: usize,
    limit: VariableLimit,
    first: Variable,
) -> Result<Variables, ParseFault>
    ensures { Parses cursor.old cursor.new view_variables result
        (spec.variables_by depth limit (view_variable first) (left cursor.old)) }
{
    if cursor.take_second(limit) {
        let second = a_variable(alloc, cursor, depth)?;
        cursor.expect(Mark::Bar)?;
        Ok(Variables::Pair(first, second))
    } else {
        cursor.expect(Mark::Bar)?;
        Ok(Variables::Single(first))
    }
}

#[tactic(auto, unfolding(crate::specs::Parse::variables))]
fn variables(
    alloc: Global,
    cursor: &mut Cursor<'_>,
    depth: usize,
    limit: VariableLimit,
) -> Result<Variables, ParseFault>
    ensures { Parses cursor.old cursor.new view_variables result
        (spec.variables depth limit (left cursor.old)) }
{
    if depth == 0 {
        return Err(ParseFault::TooDeep(cursor.index));
    }
    let first = a_variable(alloc, cursor, depth)?;
    variables_after(alloc, cursor, depth, limit, first)
}

/// The variables of an iteration, where there are any.
#[tactic(auto, unfolding(crate::specs::Parse::optional_variables))]
pub(crate) fn optional_variables(
    alloc: Global,
    cursor: &mut Cursor<'_>,
    depth: usize,
    limit: VariableLimit,
) -> Result<Variables, ParseFault>
    ensures { Parses cursor.old cursor.new view_variables result
        (spec.optional_variables depth limit (left cursor.old)) }
{
    if cursor.begins_variable() {
        variables(alloc, cursor, depth, limit)
    } else {
        Ok(Variables::Unnamed)
    }
}
