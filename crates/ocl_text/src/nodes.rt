//! Each kind of node, in a box where it needs one.

ghost use Rattle.std.specs.Prelude.{◌≡◌, ◌≤◌, ◌<◌, true, IfOk, map, vec_len};
ghost use Rattle.ocl_base.specs.Words.{is_name};
ghost use Rattle.ocl_text.specs.Names.{is_operation_name};
ghost use Rattle.ocl_text.specs.Strings.{string_value};
ghost use Rattle.ocl_text.specs.Tree as tree;
ghost use Rattle.ocl_text.specs.View as spec;

use crate::cursor::PlacedName;
use crate::name::{Name, OperationName, WholeNumber};
use crate::strings;
use crate::tree::{
    BinaryOperator, Binding, DeclaredType, Expression, IteratorKind, Keyword, Link, Navigation,
    PrefixOperator, Variable, Variables,
};
use ocl_tokens::MAX_NUMBER;
use std::alloc::{AllocError, Global};

#[tactic(auto, using(crate::proofs::Views::views))]
pub(crate) fn number(value: u64, offset: usize) -> Expression
    requires { value ≤ MAX_NUMBER }
    ensures { spec.view result ≡ tree.Number value offset }
{
    let value = WholeNumber::new(value);
    Expression::Number { value, offset }
}

#[tactic(auto, using(crate::proofs::Views::views))]
pub(crate) fn string(alloc: Global, spelling: &str, offset: usize) -> Result<Expression, AllocError>
    ensures { IfOk result (λ e. spec.view e ≡ tree.String (string_value spelling.now) offset) }
{
    let value = strings::string_value(alloc, spelling)?;
    Ok(Expression::String { value, offset })
}

#[tactic(auto, using(crate::proofs::Views::views))]
pub(crate) fn keyword(keyword: Keyword, offset: usize) -> Expression
    ensures { spec.view result ≡ tree.Keyword keyword offset }
{
    Expression::Keyword { keyword, offset }
}

#[tactic(auto, using(crate::proofs::Views::views))]
pub(crate) fn name(alloc: Global, text: &str, offset: usize) -> Result<Expression, AllocError>
    requires { is_name text.now ≡ true }
    ensures { IfOk result (λ e. spec.view e ≡ tree.Name text.now offset) }
{
    let name = Name::new(alloc, text)?;
    Ok(Expression::Name { name, offset })
}

#[tactic(auto, using(crate::proofs::Views::views))]
pub(crate) fn enumeration_literal(
    alloc: Global,
    enumeration: &str,
    literal: Name,
    offset: usize,
) -> Result<Expression, AllocError>
    requires { is_name enumeration.now ≡ true }
    ensures { IfOk result (λ e. spec.view e ≡ tree.EnumerationLiteral enumeration.now literal
        offset) }
{
    let enumeration = Name::new(alloc, enumeration)?;
    Ok(Expression::EnumerationLiteral {
        enumeration,
        literal,
        offset,
    })
}

#[tactic(auto, using(crate::proofs::Views::views))]
pub(crate) fn prefix(
    alloc: Global,
    operator: PrefixOperator,
    operand: Expression,
    offset: usize,
) -> Result<Expression, AllocError>
    ensures { IfOk result (λ e. spec.view e ≡ tree.Prefix operator (spec.view operand) offset) }
{
    let operand = Box::new(alloc, operand)?;
    Ok(Expression::Prefix {
        operator,
        operand,
        offset,
    })
}

/// What stands left of a link, with the link.
#[tactic(auto, using(crate::proofs::Views::views))]
fn with_link(alloc: Global, left: Expression, link: Link) -> Result<Expression, AllocError>
    ensures { IfOk result (λ e. spec.view e ≡ spec.link_of link (spec.view left)) }
{
    match left {
        Expression::Spine { first, links } => {
            let mut links = links;
            links.push(link)?;
            Ok(Expression::Spine { first, links })
        }
        operand => {
            let mut links = Vec::new(alloc);
            links.push(link)?;
            let first = Box::new(alloc, operand)?;
            Ok(Expression::Spine { first, links })
        }
    }
}

#[tactic(auto, using(crate::proofs::Views::views))]
pub(crate) fn binary(
    alloc: Global,
    operator: BinaryOperator,
    left: Expression,
    right: Expression,
    offset: usize,
) -> Result<Expression, AllocError>
    ensures { IfOk result (λ e. spec.view e
        ≡ tree.Binary operator (spec.view left) (spec.view right) offset) }
{
    let link = Link::Binary {
        operator,
        right,
        offset,
    };
    with_link(alloc, left, link)
}

#[tactic(auto, using(crate::proofs::Views::views))]
pub(crate) fn property(
    alloc: Global,
    source: Expression,
    text: &str,
    offset: usize,
) -> Result<Expression, AllocError>
    requires { is_name text.now ≡ true }
    ensures { IfOk result (λ e. spec.view e ≡ tree.Property (spec.view source) text.now offset) }
{
    let name = Name::new(alloc, text)?;
    with_link(alloc, source, Link::Property { name, offset })
}

#[tactic(auto, using(crate::proofs::Views::views))]
pub(crate) fn call(
    alloc: Global,
    source: Expression,
    navigation: Navigation,
    text: &str,
    arguments: Vec<Expression>,
    offset: usize,
) -> Result<Expression, AllocError>
    requires { is_operation_name text.now ≡ true }
    ensures { IfOk result (λ e. spec.view e
        ≡ tree.Call (spec.view source) navigation text.now
        (tree.trees_of (map spec.view arguments.items)) offset) }
{
    let name = OperationName::new(alloc, text)?;
    let link = Link::Call {
        navigation,
        name,
        arguments,
        offset,
    };
    with_link(alloc, source, link)
}

#[tactic(auto, using(crate::proofs::Views::views))]
pub(crate) fn iterate(
    alloc: Global,
    source: Expression,
    iterator: IteratorKind,
    variables: Variables,
    body: Expression,
    offset: usize,
) -> Result<Expression, AllocError>
    ensures { IfOk result (λ e. spec.view e
        ≡ tree.Iterate (spec.view source) iterator (spec.view_variables variables)
        (spec.view body) offset) }
{
    let link = Link::Iterate {
        iterator,
        variables,
        body,
        offset,
    };
    with_link(alloc, source, link)
}

#[tactic(auto, using(crate::proofs::Views::views))]
pub(crate) fn fold(
    alloc: Global,
    source: Expression,
    variable: Variable,
    accumulator: Binding,
    body: Expression,
    offset: usize,
) -> Result<Expression, AllocError>
    ensures { IfOk result (λ e. spec.view e
        ≡ tree.fold_with (spec.view source) (spec.view_variable variable)
        (spec.bound_of accumulator) (spec.view body) offset) }
{
    let accumulator = Box::new(alloc, accumulator)?;
    let link = Link::Fold {
        variable,
        accumulator,
        body,
        offset,
    };
    with_link(alloc, source, link)
}

#[tactic(auto, using(crate::proofs::Views::views))]
pub(crate) fn binding(placed: PlacedName, declared: DeclaredType, value: Expression) -> Binding
    ensures { spec.bound_of result
        ≡ tree.binding (placed.name, placed.offset) (spec.view_type declared) (spec.view value) }
{
    let PlacedName { name, offset } = placed;
    Binding {
        name,
        declared,
        value,
        offset,
    }
}

/// The bindings, one or more, round a body.
#[tactic(auto, using(crate::proofs::Views::views))]
pub(crate) fn let_expression(
    alloc: Global,
    bindings: Vec<Binding>,
    body: Expression,
    offset: usize,
) -> Result<Expression, AllocError>
    requires { 0 < vec_len bindings }
    ensures { IfOk result (λ e. spec.view e
        ≡ tree.lets_at offset (map spec.bound_of bindings.items) (spec.view body)) }
{
    let mut others = bindings;
    let first = Box::new(alloc, others.remove(0))?;
    let body = Box::new(alloc, body)?;
    Ok(Expression::Let {
        first,
        others,
        body,
        offset,
    })
}

#[tactic(auto, using(crate::proofs::Views::views))]
pub(crate) fn if_expression(
    alloc: Global,
    condition: Expression,
    then_branch: Expression,
    else_branch: Expression,
    offset: usize,
) -> Result<Expression, AllocError>
    ensures { IfOk result (λ e. spec.view e
        ≡ tree.If (spec.view condition) (spec.view then_branch) (spec.view else_branch) offset) }
{
    let condition = Box::new(alloc, condition)?;
    let then_branch = Box::new(alloc, then_branch)?;
    let else_branch = Box::new(alloc, else_branch)?;
    Ok(Expression::If {
        condition,
        then_branch,
        else_branch,
        offset,
    })
}
