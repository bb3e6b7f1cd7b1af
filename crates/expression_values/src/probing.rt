//! The core tree of an expression of any type, with its kind, by a rule that has a type whichever the expression has.

ghost use Rattle.std.specs.Prelude.{◌≡◌, Some, IfOk, IfSome};
ghost use Rattle.imkl_model.specs.ClassModel.{Model};
ghost use Rattle.ocl_text.specs.Tree as surface;
ghost use Rattle.ocl_text.specs.View.{view, rule_of};
ghost use Rattle.ocl_core.specs.CoreView.{core_view};
ghost use Rattle.ocl_semantics.specs.Resolved.{IsResolved};
ghost use Rattle.expression_values.specs.EvalAnswers.{choice_tree, null_test, chosen_part, probe, probed_part};

use ocl_core::{Core, CoreLink};
use ocl_kinds::Kind;
use ocl_text::{BinaryOperator, Expression, Keyword, Link, SurfaceRule};
use std::alloc::{AllocError, Global};

/// A word that no text has.
#[tactic(auto, using(ocl_text::proofs::ForAbove::views))]
fn word(keyword: Keyword) -> Expression
    ensures { view result ≡ surface.Keyword keyword 0 }
{
    Expression::Keyword { keyword, offset: 0 }
}

/// The expression `if true then E else null endif` of an expression E.
#[tactic(auto, using(ocl_text::proofs::ForAbove::views))]
fn choice(alloc: Global, expression: Expression) -> Result<Expression, AllocError>
    ensures { IfOk result (λ e. view e ≡ choice_tree (view expression)) }
{
    Ok(Expression::If {
        condition: Box::new(alloc, word(Keyword::True))?,
        then_branch: Box::new(alloc, expression)?,
        else_branch: Box::new(alloc, word(Keyword::Null))?,
        offset: 0,
    })
}

/// The expression `E = null` of an expression E.
#[tactic(auto, using(ocl_text::proofs::ForAbove::views))]
fn is_null(alloc: Global, expression: Expression) -> Result<Expression, AllocError>
    ensures { IfOk result (λ e. view e ≡ null_test (view expression)) }
{
    let mut links = Vec::new(alloc);
    links.push(Link::Binary {
        operator: BinaryOperator::Equal,
        right: word(Keyword::Null),
        offset: 0,
    })?;
    Ok(Expression::Spine {
        first: Box::new(alloc, expression)?,
        links,
    })
}

/// The rule `if true then E else null endif = null`, in place of the rule that is an expression E.
pub(crate) fn probe(alloc: Global, rule: SurfaceRule) -> Result<SurfaceRule, AllocError>
    ensures { IfOk result (λ r. rule_of r ≡ probe (rule_of rule)) }
{
    let SurfaceRule {
        name,
        context,
        offset,
        context_offset,
        expression,
    } = rule;
    let chosen = choice(alloc, expression)?;
    Ok(SurfaceRule {
        name,
        context,
        offset,
        context_offset,
        expression: is_null(alloc, chosen)?,
    })
}

/// An expression's core tree, with its kind.
#[derive(Clone, Copy)]
pub(crate) struct Part<'a> {
    /// The kind.
    pub(crate) kind: Kind,
    /// The core tree.
    pub(crate) tree: &'a Core,
}

/// The branch of a choice that is chosen where the condition is true.
#[tactic(auto, using(ocl_core::proofs::ForAbove::views))]
fn chosen_part<'a>(tree: &'a Core) -> Option<Part<'a>>
    ensures part { IfSome result (λ part. chosen_part (core_view tree.entry.now) ≡
        Some (part.kind, core_view part.tree.now)) }
    ensures resolved { (m : Model) → IsResolved m (core_view tree.entry.now) →
        IfSome result (λ part. IsResolved m (core_view part.tree.now)) }
{
    match tree {
        Core::If {
            kind,
            then_branch: part,
            ..
        } => Some(Part {
            kind: *kind,
            tree: part,
        }),
        _ => None,
    }
}

/// The expression in the core tree of a probe.
#[tactic(auto, using(ocl_core::proofs::ForAbove::views))]
pub(crate) fn probed_part<'a>(tree: &'a Core) -> Option<Part<'a>>
    ensures part { IfSome result (λ part. probed_part (core_view tree.entry.now) ≡
        Some (part.kind, core_view part.tree.now)) }
    ensures resolved { (m : Model) → IsResolved m (core_view tree.entry.now) →
        IfSome result (λ part. IsResolved m (core_view part.tree.now)) }
{
    let Core::Spine { first, links } = tree else {
        return None;
    };
    match links.as_slice() {
        [CoreLink::Operation { .. }] => chosen_part(first),
        _ => None,
    }
}
