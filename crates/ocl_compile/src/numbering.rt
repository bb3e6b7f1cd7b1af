//! Numbers the texts and symbols of core trees, in the order of their code.

ghost use Rattle.std.specs.Prelude.{map};
ghost use Rattle.ocl_core.specs.Core.{cores_of};
ghost use Rattle.ocl_core.specs.CoreView.{core_view, constant_of};
ghost use Rattle.ocl_compile.specs.Numbering.{with_uses, constant_uses, scalar_uses, kind_uses, operator_uses, iteration_uses, tree_uses, trees_uses};
ghost use Rattle.ocl_compile.specs.EmitWalk.{link_node};
ghost use Rattle.ocl_compile.specs.NumberWalk.{AreUsesOf, NumbersTo, links_uses};

use crate::numbers::{NumberFault, Numbers};
use imkl_model::ClassModel;
use ocl_core::{ConstantValue, Core, CoreLink, Iteration, Operator};
use ocl_kinds::{Kind, ScalarKind};
use rule_verify::Named;
use std::alloc::Global;

/// Numbers what the kind of a single value names.
fn number_scalar(
    alloc: Global,
    model: &ClassModel,
    kind: ScalarKind,
    numbers: &mut Numbers,
) -> Result<(), NumberFault>
    requires { AreUsesOf model.now (scalar_uses kind) }
    ensures { NumbersTo result numbers.new
        (with_uses model.now numbers.old (scalar_uses kind)) }
{
    match kind {
        ScalarKind::Enumeration(enumeration) => {
            numbers.add_symbol(alloc, model, Named::Enumeration(enumeration))
        }
        ScalarKind::Class(class) => numbers.add_symbol(alloc, model, Named::Class(class)),
        _ => Ok(()),
    }
}

/// Numbers what the kind of a value names.
fn number_kind(
    alloc: Global,
    model: &ClassModel,
    kind: Kind,
    numbers: &mut Numbers,
) -> Result<(), NumberFault>
    requires { AreUsesOf model.now (kind_uses kind) }
    ensures { NumbersTo result numbers.new
        (with_uses model.now numbers.old (kind_uses kind)) }
{
    match kind {
        Kind::Scalar(element) => number_scalar(alloc, model, element, numbers),
        Kind::Collection(_, element) => number_scalar(alloc, model, element, numbers),
    }
}

/// Numbers the text or the literal that a constant is.
fn number_constant(
    alloc: Global,
    model: &ClassModel,
    value: &ConstantValue,
    numbers: &mut Numbers,
) -> Result<(), NumberFault>
    requires { AreUsesOf model.now (constant_uses (constant_of value.now)) }
    ensures { NumbersTo result numbers.new
        (with_uses model.now numbers.old (constant_uses (constant_of value.now))) }
{
    match value {
        ConstantValue::Text(text) => numbers.add_text(alloc, text.as_str()),
        ConstantValue::Literal(enumeration, literal) => {
            numbers.add_symbol(alloc, model, Named::Literal(*enumeration, *literal))
        }
        _ => Ok(()),
    }
}

/// Numbers what an operator names.
fn number_operator(
    alloc: Global,
    model: &ClassModel,
    operator: Operator,
    numbers: &mut Numbers,
) -> Result<(), NumberFault>
    requires { AreUsesOf model.now (operator_uses operator) }
    ensures { NumbersTo result numbers.new
        (with_uses model.now numbers.old (operator_uses operator)) }
{
    match operator {
        Operator::Plain(_) => Ok(()),
        Operator::OfClass(_, class) => numbers.add_symbol(alloc, model, Named::Class(class)),
        Operator::OfElements(_, element) => number_scalar(alloc, model, element, numbers),
        Operator::Equal(kind) => number_kind(alloc, model, kind, numbers),
    }
}

/// Numbers what an iteration names.
fn number_iteration(
    alloc: Global,
    model: &ClassModel,
    iteration: Iteration,
    numbers: &mut Numbers,
) -> Result<(), NumberFault>
    requires { AreUsesOf model.now (iteration_uses iteration) }
    ensures { NumbersTo result numbers.new
        (with_uses model.now numbers.old (iteration_uses iteration)) }
{
    match iteration {
        Iteration::IsUnique(element) => number_scalar(alloc, model, element, numbers),
        _ => Ok(()),
    }
}

/// Numbers what a core tree uses.
#[cycle(number)]
#[tactic(auto, using(ocl_core::proofs::ForAbove::views))]
pub(crate) fn number_tree(
    alloc: Global,
    model: &ClassModel,
    core: &Core,
    numbers: &mut Numbers,
) -> Result<(), NumberFault>
    requires { AreUsesOf model.now (tree_uses model.now (core_view core.now)) }
    ensures { NumbersTo result numbers.new
        (with_uses model.now numbers.old (tree_uses model.now (core_view core.now))) }
{
    match core {
        Core::Constant { value } => number_constant(alloc, model, value, numbers),
        Core::Variable { .. } => Ok(()),
        Core::AllInstances { class } => numbers.add_symbol(alloc, model, Named::Class(*class)),
        Core::Spine { first, links } => {
            number_tree(alloc, model, first, numbers)?;
            number_links(alloc, model, links, numbers)
        }
        Core::Let { values, body } => {
            number_trees(alloc, model, values, numbers)?;
            number_tree(alloc, model, body, numbers)
        }
        Core::If {
            kind,
            condition,
            then_branch,
            else_branch,
        } => {
            number_tree(alloc, model, condition, numbers)?;
            number_kind(alloc, model, *kind, numbers)?;
            number_tree(alloc, model, then_branch, numbers)?;
            number_tree(alloc, model, else_branch, numbers)
        }
    }
}

/// Numbers what several core trees use, in their order.
#[cycle(number)]
fn number_trees(
    alloc: Global,
    model: &ClassModel,
    trees: &[Core],
    numbers: &mut Numbers,
) -> Result<(), NumberFault>
    requires { AreUsesOf model.now (trees_uses model.now (cores_of (map core_view trees.now))) }
    ensures { NumbersTo result numbers.new (with_uses model.now numbers.old
        (trees_uses model.now (cores_of (map core_view trees.now)))) }
{
    'trees: for tree in trees {
        number_tree(alloc, model, tree, numbers)?;
    }
    Ok(())
}

/// Numbers what a link uses, without what stands on its left.
#[cycle(number)]
#[tactic(auto, using(ocl_core::proofs::ForAbove::views))]
fn number_link(
    alloc: Global,
    model: &ClassModel,
    link: &CoreLink,
    numbers: &mut Numbers,
) -> Result<(), NumberFault>
    requires { AreUsesOf model.now (tree_uses model.now (link_node link.now)) }
    ensures { NumbersTo result numbers.new
        (with_uses model.now numbers.old (tree_uses model.now (link_node link.now))) }
{
    match link {
        CoreLink::Feature { feature } => {
            let owner = model.feature_info(*feature).owner;
            numbers.add_symbol(alloc, model, Named::Feature(owner, *feature))
        }
        CoreLink::Operation { operator, others } => {
            number_trees(alloc, model, others, numbers)?;
            number_operator(alloc, model, *operator, numbers)
        }
        CoreLink::AsCollection { element, .. } => number_scalar(alloc, model, *element, numbers),
        CoreLink::Iterate { iteration, body } => {
            number_iteration(alloc, model, *iteration, numbers)?;
            number_tree(alloc, model, body, numbers)
        }
        CoreLink::Fold { kind, start, body } => {
            number_tree(alloc, model, start, numbers)?;
            number_scalar(alloc, model, *kind, numbers)?;
            number_tree(alloc, model, body, numbers)
        }
    }
}

/// Numbers what links use.
#[cycle(number)]
fn number_links(
    alloc: Global,
    model: &ClassModel,
    links: &[CoreLink],
    numbers: &mut Numbers,
) -> Result<(), NumberFault>
    requires { AreUsesOf model.now (links_uses model.now links.now) }
    ensures { NumbersTo result numbers.new
        (with_uses model.now numbers.old (links_uses model.now links.now)) }
{
    'links: for link in links {
        number_link(alloc, model, link, numbers)?;
    }
    Ok(())
}
