//! Equality of trees, of what is applied to a first operand, and of lists of both.

ghost use Rattle.std.specs.Prelude.{◌≡◌, true, map};
ghost use Rattle.ocl_core.specs.CoreView.{core_view, core_link_of};

use crate::leaves::{is_same_constant, is_same_iteration};
use crate::operators::is_same_operator;
use ocl_core::{Core, CoreLink};

/// Whether two core trees are the same, node by node. `true` means that both are one tree: the same constant, variable,
/// class, feature, operator, iteration or kind at each place. `false` means that some node differs; an operand alone and
/// one with an empty list of links are different nodes, though they are one tree.
#[cycle(same)]
#[tactic(auto, using(ocl_core::proofs::ForAbove::views))]
pub fn is_same_tree(left: &Core, right: &Core) -> bool
    ensures same { result ≡ true → core_view left.now ≡ core_view right.now }
    ensures complete { left.now ≡ right.now → result ≡ true }
{
    match (left, right) {
        (Core::Constant { value }, Core::Constant { value: other }) => {
            is_same_constant(value, other)
        }
        (Core::Variable { number }, Core::Variable { number: other }) => number == other,
        (Core::AllInstances { class }, Core::AllInstances { class: other }) => class == other,
        (
            Core::Spine { first, links },
            Core::Spine {
                first: other,
                links: others,
            },
        ) => is_same_tree(first, other) && are_same_links(links, others),
        (
            Core::Let { values, body },
            Core::Let {
                values: others,
                body: other,
            },
        ) => are_same_trees(values, others) && is_same_tree(body, other),
        (
            Core::If {
                kind,
                condition,
                then_branch,
                else_branch,
            },
            Core::If {
                kind: other_kind,
                condition: other_condition,
                then_branch: other_then,
                else_branch: other_else,
            },
        ) => {
            kind == other_kind
                && is_same_tree(condition, other_condition)
                && is_same_tree(then_branch, other_then)
                && is_same_tree(else_branch, other_else)
        }
        _ => false,
    }
}

/// Whether two lists have the same trees in the same order.
#[cycle(same)]
fn are_same_trees(left: &[Core], right: &[Core]) -> bool
    ensures same { result ≡ true → map core_view left.now ≡ map core_view right.now }
    ensures complete { left.now ≡ right.now → result ≡ true }
{
    if left.len() != right.len() {
        return false;
    }
    'trees: for index in 0..left.len() {
        if !is_same_tree(&left[index], &right[index]) {
            return false;
        }
    }
    true
}

/// Whether two lists have the same links in the same order.
#[cycle(same)]
fn are_same_links(links: &[CoreLink], others: &[CoreLink]) -> bool
    ensures same { result ≡ true → map core_link_of links.now ≡ map core_link_of others.now }
    ensures complete { links.now ≡ others.now → result ≡ true }
{
    if links.len() != others.len() {
        return false;
    }
    'links: for index in 0..links.len() {
        if !is_same_link(&links[index], &others[index]) {
            return false;
        }
    }
    true
}

/// Whether two links are the same: whether they make the same of each first operand.
#[cycle(same)]
#[tactic(auto, using(ocl_core::proofs::ForAbove::views))]
fn is_same_link(left: &CoreLink, right: &CoreLink) -> bool
    ensures same { result ≡ true → core_link_of left.now ≡ core_link_of right.now }
    ensures complete { left.now ≡ right.now → result ≡ true }
{
    match (left, right) {
        (CoreLink::Feature { feature }, CoreLink::Feature { feature: other }) => feature == other,
        (
            CoreLink::Operation { operator, others },
            CoreLink::Operation {
                operator: other,
                others: more,
            },
        ) => is_same_operator(*operator, *other) && are_same_trees(others, more),
        (
            CoreLink::AsCollection {
                collection,
                element,
            },
            CoreLink::AsCollection {
                collection: other,
                element: another,
            },
        ) => collection == other && element == another,
        (
            CoreLink::Iterate { iteration, body },
            CoreLink::Iterate {
                iteration: other,
                body: other_body,
            },
        ) => is_same_iteration(*iteration, *other) && is_same_tree(body, other_body),
        (
            CoreLink::Fold { kind, start, body },
            CoreLink::Fold {
                kind: other,
                start: other_start,
                body: other_body,
            },
        ) => kind == other && is_same_tree(start, other_start) && is_same_tree(body, other_body),
        _ => false,
    }
}
