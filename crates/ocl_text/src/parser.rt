//! Expressions, by recursive descent. Round a token there are fewer open constructs than the depth.

ghost use Rattle.std.specs.Prelude.{◌≡◌, ◌≤◌, ◌<◌, ◌+◌, [], ◌∷◌, true, length, List, map, vec_len, IfOk, IfErr};
ghost use Rattle.ocl_base.specs.Words.{is_name};
ghost use Rattle.ocl_tokens.specs.Terminals.{Terminal};
ghost use Rattle.ocl_text.specs.Names.{is_operation_name};
ghost use Rattle.ocl_text.specs.Parse as spec;
ghost use Rattle.ocl_text.specs.Parses.{Parses, UnlessOutOfMemory, left, operand, whole};
ghost use Rattle.ocl_text.specs.Grammar.{IsExpr, SpellsExpr};
ghost use Rattle.ocl_text.specs.Tree.{SurfaceTree};
ghost use Rattle.ocl_text.specs.View.{view, bound_of, view_variable, view_variables};

use crate::cursor::{Cursor, Mark, ParseFault, Start, VariableLimit};
use crate::tree::{Binding, Expression, Keyword, Navigation, PrefixOperator, Variable, Variables};
use crate::{cursor, nodes, pending, types};
use ocl_tokens::{Token, TokenKind};
use std::alloc::Global;

/// The expression that comes next.
pub(crate) fn expression(
    alloc: Global,
    cursor: &mut Cursor<'_>,
    depth: usize,
) -> Result<Expression, ParseFault>
    ensures gives { Parses cursor.old cursor.new view result
        (whole cursor.old depth (left cursor.old)) }
    ensures spells { IfOk result (λ x.
        IsExpr cursor.old.chain depth (left cursor.old) (view x) (left cursor.new)) }
    ensures only { IfOk result (λ x. (tree : SurfaceTree) (rest : List Terminal)
        → SpellsExpr (left cursor.old) tree rest
        → (tree ≡ view x) × (rest ≡ left cursor.new)) }
    ensures refused { IfErr result (UnlessOutOfMemory ((tree : SurfaceTree) (rest : List Terminal)
        → IsExpr cursor.old.chain depth (left cursor.old) tree rest → ⊥)) }
{
    expr(alloc, cursor, depth)
}

/// An expression: a `let`, or operands with binary operators. No token may stand where the depth is 0.
#[cycle(parser)]
#[tactic(auto, unfolding(crate::specs::Parse::unary, crate::specs::Parse::expr, crate::specs::Parse::expr_over))]
fn expr(alloc: Global, cursor: &mut Cursor<'_>, depth: usize) -> Result<Expression, ParseFault>
    ensures { Parses cursor.old cursor.new view result (whole cursor.old depth (left cursor.old)) }
{
    if depth == 0 {
        return Err(cursor.too_deep(Start::Expression));
    }
    let Some(t) = cursor.peek() else {
        return operators(alloc, cursor, depth);
    };
    match t.kind {
        TokenKind::Let => {
            cursor.advance();
            let_expression(alloc, cursor, depth - 1, t.span.start)
        }
        _ => operators(alloc, cursor, depth),
    }
}

/// What follows a `let` at this offset in the text.
#[cycle(parser)]
#[tactic(auto, unfolding(crate::specs::Parse::let_expression))]
fn let_expression(
    alloc: Global,
    cursor: &mut Cursor<'_>,
    depth: usize,
    offset: usize,
) -> Result<Expression, ParseFault>
    ensures { Parses cursor.old cursor.new view result
        (spec.let_expression depth (operand cursor.old depth) (whole cursor.old depth) offset
        (left cursor.old)) }
{
    if depth == 0 {
        return Err(cursor.too_deep(Start::Name));
    }
    let bindings = bindings(alloc, cursor, depth)?;
    cursor.expect(Mark::In)?;
    let body = expr(alloc, cursor, depth)?;
    Ok(nodes::let_expression(alloc, bindings, body, offset)?)
}

/// A bound name with its type and its value.
#[cycle(parser)]
#[tactic(auto, unfolding(crate::specs::Parse::a_bind))]
fn a_bind(alloc: Global, cursor: &mut Cursor<'_>, depth: usize) -> Result<Binding, ParseFault>
    ensures { Parses cursor.old cursor.new bound_of result
        (spec.a_bind depth (operand cursor.old depth) (left cursor.old)) }
{
    let name = cursor.placed_name(alloc)?;
    cursor.expect(Mark::Colon)?;
    let declared = types::a_type(alloc, cursor, depth)?;
    cursor.expect(Mark::Equal)?;
    let value = operators(alloc, cursor, depth)?;
    Ok(nodes::binding(name, declared, value))
}

/// One binding or more, with commas between.
#[cycle(parser)]
#[tactic(auto, using(crate::proofs::Turns::items_over))]
fn bindings(
    alloc: Global,
    cursor: &mut Cursor<'_>,
    depth: usize,
) -> Result<Vec<Binding>, ParseFault>
    ensures all { Parses cursor.old cursor.new (λ v. map bound_of v.items) result
        (spec.items (spec.a_bind depth (operand cursor.old depth))
        (length (left cursor.old)) [] (left cursor.old)) }
    ensures some { IfOk result (λ v. 0 < vec_len v) }
{
    let mut all = Vec::new(alloc);
    let left = cursor.count();
    'bindings: for _turn in 0..left {
        let binding = a_bind(alloc, cursor, depth)?;
        all.push(binding)?;
        if !cursor.take(Mark::Comma) {
            return Ok(all);
        }
    }
    Err(ParseFault::Syntax(cursor.index))
}

/// An operand with the prefix operators before it.
#[cycle(parser)]
#[tactic(auto, unfolding(crate::specs::Parse::unary, crate::specs::Parse::unary_over))]
fn unary(alloc: Global, cursor: &mut Cursor<'_>, depth: usize) -> Result<Expression, ParseFault>
    ensures { Parses cursor.old cursor.new view result
        (spec.unary cursor.old.chain depth (left cursor.old)) }
{
    if depth == 0 {
        return Err(cursor.too_deep(Start::Operand));
    }
    let Some(t) = cursor.peek() else {
        return Err(ParseFault::Syntax(cursor.index));
    };
    match t.kind {
        TokenKind::Minus => {
            cursor.advance();
            let inner = unary(alloc, cursor, depth - 1)?;
            Ok(nodes::prefix(alloc, PrefixOperator::Negate, inner, t.span.start)?)
        }
        TokenKind::Not => {
            cursor.advance();
            let inner = unary(alloc, cursor, depth - 1)?;
            Ok(nodes::prefix(alloc, PrefixOperator::Not, inner, t.span.start)?)
        }
        _ => post(alloc, cursor, depth - 1),
    }
}

/// A first operand and the steps after it.
#[cycle(parser)]
#[tactic(auto, unfolding(crate::specs::Parse::post))]
fn post(alloc: Global, cursor: &mut Cursor<'_>, depth: usize) -> Result<Expression, ParseFault>
    ensures { Parses cursor.old cursor.new view result
        (spec.post cursor.old.chain depth (operand cursor.old depth) (whole cursor.old depth)
        (left cursor.old)) }
{
    let source = prim(alloc, cursor, depth)?;
    steps(alloc, cursor, depth, source)
}

/// A name at this offset in the text, alone or qualified.
#[tactic(auto, unfolding(crate::specs::Parse::name_or_literal))]
fn name_or_literal(
    alloc: Global,
    cursor: &mut Cursor<'_>,
    text: &str,
    offset: usize,
) -> Result<Expression, ParseFault>
    requires { is_name text.now ≡ true }
    ensures { Parses cursor.old cursor.new view result (spec.name_or_literal text.now offset
        (left cursor.old)) }
{
    if cursor.take(Mark::ColonColon) {
        let literal = cursor.identifier(alloc)?;
        Ok(nodes::enumeration_literal(alloc, text, literal, offset)?)
    } else {
        Ok(nodes::name(alloc, text, offset)?)
    }
}

/// A first operand.
#[cycle(parser)]
#[tactic(auto, unfolding(crate::specs::Parse::prim), using(crate::proofs::Names::token_name, crate::proofs::Names::token_number))]
fn prim(alloc: Global, cursor: &mut Cursor<'_>, depth: usize) -> Result<Expression, ParseFault>
    ensures { Parses cursor.old cursor.new view result
        (spec.prim (operand cursor.old depth) (whole cursor.old depth) (left cursor.old)) }
{
    let start = cursor.index;
    let t = cursor.next_token()?;
    let offset = t.span.start;
    match t.kind {
        TokenKind::Number(value) => Ok(nodes::number(value, offset)),
        TokenKind::Identifier => name_or_literal(alloc, cursor, t.text, offset),
        TokenKind::String => Ok(nodes::string(alloc, t.text, offset)?),
        TokenKind::True => Ok(nodes::keyword(Keyword::True, offset)),
        TokenKind::False => Ok(nodes::keyword(Keyword::False, offset)),
        TokenKind::Null => Ok(nodes::keyword(Keyword::Null, offset)),
        TokenKind::Invalid => Ok(nodes::keyword(Keyword::Invalid, offset)),
        TokenKind::SelfObject => Ok(nodes::keyword(Keyword::SelfObject, offset)),
        TokenKind::Open => {
            let inner = expr(alloc, cursor, depth)?;
            cursor.expect(Mark::Close)?;
            Ok(inner)
        }
        TokenKind::If => if_expression(alloc, cursor, depth, offset),
        _ => Err(ParseFault::Syntax(start)),
    }
}

/// What follows an `if` at this offset in the text.
#[cycle(parser)]
#[tactic(auto, unfolding(crate::specs::Parse::if_expression))]
fn if_expression(
    alloc: Global,
    cursor: &mut Cursor<'_>,
    depth: usize,
    offset: usize,
) -> Result<Expression, ParseFault>
    ensures { Parses cursor.old cursor.new view result
        (spec.if_expression (operand cursor.old depth) (whole cursor.old depth) offset
        (left cursor.old)) }
{
    let condition = operators(alloc, cursor, depth)?;
    cursor.expect(Mark::Then)?;
    let then_branch = expr(alloc, cursor, depth)?;
    cursor.expect(Mark::Else)?;
    let else_branch = expr(alloc, cursor, depth)?;
    cursor.expect(Mark::Endif)?;
    Ok(nodes::if_expression(alloc, condition, then_branch, else_branch, offset)?)
}

/// Operands with binary operators between them.
#[cycle(parser)]
fn operators(alloc: Global, cursor: &mut Cursor<'_>, depth: usize) -> Result<Expression, ParseFault>
    ensures { Parses cursor.old cursor.new view result
        (operand cursor.old depth (left cursor.old)) }
{
    let mut waiting = Vec::new(alloc);
    'operators: loop {
        let operand = unary(alloc, cursor, depth)?;
        let Some(operator) = cursor.next_operator() else {
            return Ok(pending::close(alloc, waiting, operand)?);
        };
        waiting = pending::wait(alloc, cursor, waiting, operand, operator)?;
        cursor.advance();
    }
}

/// The steps by dots and arrows after a source.
#[cycle(parser)]
#[tactic(auto, using(crate::proofs::Turns::steps_none, crate::proofs::Turns::steps_deep, crate::proofs::Turns::steps_err, crate::proofs::Turns::steps_more))]
fn steps(
    alloc: Global,
    cursor: &mut Cursor<'_>,
    depth: usize,
    first: Expression,
) -> Result<Expression, ParseFault>
    ensures { Parses cursor.old cursor.new view result
        (spec.step_list depth (operand cursor.old depth) (whole cursor.old depth) cursor.old.chain
        (view first) (left cursor.old)) }
{
    let mut source = first;
    let mut left = cursor.chain;
    'steps: while cursor.begins_step() {
        if left == 0 {
            return Err(ParseFault::TooDeep(cursor.index));
        }
        source = step(alloc, cursor, depth, source)?;
        left -= 1;
    }
    Ok(source)
}

/// One step, which has begun.
#[cycle(parser)]
#[tactic(auto, unfolding(crate::specs::Parse::one_step))]
fn step(
    alloc: Global,
    cursor: &mut Cursor<'_>,
    depth: usize,
    source: Expression,
) -> Result<Expression, ParseFault>
    ensures { Parses cursor.old cursor.new view result
        (spec.one_step depth (operand cursor.old depth) (whole cursor.old depth) (view source)
        (left cursor.old)) }
{
    let start = cursor.index;
    let t = cursor.next_token()?;
    match t.kind {
        TokenKind::Dot => after_dot(alloc, cursor, depth, source),
        TokenKind::Arrow => after_arrow(alloc, cursor, depth, source),
        _ => Err(ParseFault::Syntax(start)),
    }
}

/// A call of the operation of this name, by its arguments.
#[cycle(parser)]
#[tactic(auto, unfolding(crate::specs::Parse::operation_call))]
fn operation_call(
    alloc: Global,
    cursor: &mut Cursor<'_>,
    depth: usize,
    source: Expression,
    navigation: Navigation,
    name: &Token<'_>,
) -> Result<Expression, ParseFault>
    requires { is_operation_name name.now.text.now ≡ true }
    ensures { Parses cursor.old cursor.new view result
        (spec.operation_call depth (operand cursor.old depth) (whole cursor.old depth) (view source)
        navigation name.now.text.now name.now.span.start (left cursor.old)) }
{
    let all = arguments(alloc, cursor, depth)?;
    Ok(nodes::call(alloc, source, navigation, name.text, all, name.span.start)?)
}

/// The step after a dot.
#[cycle(parser)]
#[tactic(auto, unfolding(crate::specs::Parse::after_dot, crate::specs::Parse::called), using(crate::proofs::Names::token_name, crate::proofs::Names::token_operation))]
fn after_dot(
    alloc: Global,
    cursor: &mut Cursor<'_>,
    depth: usize,
    source: Expression,
) -> Result<Expression, ParseFault>
    ensures { Parses cursor.old cursor.new view result
        (spec.after_dot depth (operand cursor.old depth) (whole cursor.old depth) (view source)
        (left cursor.old)) }
{
    let start = cursor.index;
    let t = cursor.next_token()?;
    match t.kind {
        TokenKind::Identifier => {
            if cursor.next_is(Mark::Open) {
                operation_call(alloc, cursor, depth, source, Navigation::Dot, &t)
            } else {
                Ok(nodes::property(alloc, source, t.text, t.span.start)?)
            }
        }
        TokenKind::Div | TokenKind::Mod => {
            operation_call(alloc, cursor, depth, source, Navigation::Dot, &t)
        }
        _ => Err(ParseFault::Syntax(start)),
    }
}

/// The step after an arrow: a fold or an iteration by its name, else a call.
#[cycle(parser)]
#[tactic(auto, unfolding(crate::specs::Parse::after_arrow, crate::specs::Parse::applied_step), using(crate::proofs::Names::token_operation))]
fn after_arrow(
    alloc: Global,
    cursor: &mut Cursor<'_>,
    depth: usize,
    source: Expression,
) -> Result<Expression, ParseFault>
    ensures { Parses cursor.old cursor.new view result
        (spec.after_arrow depth (operand cursor.old depth) (whole cursor.old depth) (view source)
        (left cursor.old)) }
{
    let start = cursor.index;
    let t = cursor.next_token()?;
    match t.kind {
        TokenKind::Identifier if cursor::is_fold_name(t.text) => {
            fold(alloc, cursor, depth, source, t.span.start)
        }
        TokenKind::Identifier => match cursor::iterator_of(t.text) {
            Some(iterator) => {
                let limit = cursor::variable_limit(iterator);
                let (variables, body) = iteration(alloc, cursor, depth, limit)?;
                let offset = t.span.start;
                Ok(nodes::iterate(alloc, source, iterator, variables, body, offset)?)
            }
            None => operation_call(alloc, cursor, depth, source, Navigation::Arrow, &t),
        },
        _ => Err(ParseFault::Syntax(start)),
    }
}

/// The variables and the body of an iteration.
#[cycle(parser)]
#[tactic(auto, unfolding(crate::specs::Parse::iteration))]
fn iteration(
    alloc: Global,
    cursor: &mut Cursor<'_>,
    depth: usize,
    limit: VariableLimit,
) -> Result<(Variables, Expression), ParseFault>
    ensures { Parses cursor.old cursor.new (λ x. (view_variables x.0, view x.1)) result
        (spec.iteration depth (whole cursor.old depth) limit (left cursor.old)) }
{
    cursor.expect(Mark::Open)?;
    let names = types::optional_variables(alloc, cursor, depth, limit)?;
    let body = expr(alloc, cursor, depth)?;
    cursor.expect(Mark::Close)?;
    Ok((names, body))
}

/// A fold over a source, at this offset in the text.
#[cycle(parser)]
#[tactic(auto, unfolding(crate::specs::Parse::a_fold, crate::specs::Parse::fold_in))]
fn fold(
    alloc: Global,
    cursor: &mut Cursor<'_>,
    depth: usize,
    source: Expression,
    offset: usize,
) -> Result<Expression, ParseFault>
    ensures { Parses cursor.old cursor.new view result
        (spec.a_fold depth (operand cursor.old depth) (whole cursor.old depth) (view source) offset
        (left cursor.old)) }
{
    cursor.expect(Mark::Open)?;
    if depth == 0 {
        return Err(cursor.too_deep(Start::Name));
    }
    let variable = types::a_variable(alloc, cursor, depth)?;
    cursor.expect(Mark::Semicolon)?;
    let accumulator = a_bind(alloc, cursor, depth)?;
    fold_body(alloc, cursor, depth, source, variable, accumulator, offset)
}

/// What follows the accumulator of a fold.
#[cycle(parser)]
#[tactic(auto, unfolding(crate::specs::Parse::fold_body))]
fn fold_body(
    alloc: Global,
    cursor: &mut Cursor<'_>,
    depth: usize,
    source: Expression,
    variable: Variable,
    accumulator: Binding,
    offset: usize,
) -> Result<Expression, ParseFault>
    ensures { Parses cursor.old cursor.new view result
        (spec.fold_body (whole cursor.old depth) (view source) (view_variable variable)
        (bound_of accumulator) offset (left cursor.old)) }
{
    cursor.expect(Mark::Bar)?;
    let body = expr(alloc, cursor, depth)?;
    cursor.expect(Mark::Close)?;
    Ok(nodes::fold(alloc, source, variable, accumulator, body, offset)?)
}

/// The arguments of a call.
#[cycle(parser)]
#[tactic(auto, unfolding(crate::specs::Parse::arguments, crate::specs::Parse::arguments_in))]
fn arguments(
    alloc: Global,
    cursor: &mut Cursor<'_>,
    depth: usize,
) -> Result<Vec<Expression>, ParseFault>
    ensures { Parses cursor.old cursor.new (λ v. map view v.items) result
        (spec.arguments (operand cursor.old depth) depth (left cursor.old)) }
{
    cursor.expect(Mark::Open)?;
    if depth == 0 {
        return Err(cursor.too_deep(Start::Argument));
    }
    if cursor.take(Mark::Close) {
        Ok(Vec::new(alloc))
    } else {
        let all = items(alloc, cursor, depth)?;
        cursor.expect(Mark::Close)?;
        Ok(all)
    }
}

/// One argument or more, with commas between.
#[cycle(parser)]
#[tactic(auto, using(crate::proofs::Turns::items_over))]
fn items(
    alloc: Global,
    cursor: &mut Cursor<'_>,
    depth: usize,
) -> Result<Vec<Expression>, ParseFault>
    ensures { Parses cursor.old cursor.new (λ v. map view v.items) result
        (spec.items (operand cursor.old depth) (length (left cursor.old)) []
        (left cursor.old)) }
{
    let mut all = Vec::new(alloc);
    let left = cursor.count();
    'items: for _turn in 0..left {
        let item = operators(alloc, cursor, depth)?;
        all.push(item)?;
        if !cursor.take(Mark::Comma) {
            return Ok(all);
        }
    }
    Err(ParseFault::Syntax(cursor.index))
}
