//! Each kind of node of a core tree, in a box where it needs one. What is applied to a tree is one more link
//! of its spine.

ghost use Rattle.std.specs.Prelude.{◌≡◌, IfOk, [], ◌∷◌, map};
ghost use Rattle.ocl_core.specs.Core as tree;
ghost use Rattle.ocl_core.specs.CoreView as spec;
ghost use Rattle.rule_trees.specs.InstrTrees.{operation_on};

use imkl_model::{ClassNo, CollectionKind, FeatureNo};
use ocl_core::{ConstantValue, Core, CoreLink, Iteration, Operator};
use ocl_kinds::{Kind, ScalarKind};
use std::alloc::{AllocError, Global};

#[tactic(auto, using(ocl_core::proofs::ForAbove::views))]
pub(crate) fn constant(value: ConstantValue) -> Core
    ensures { spec.core_view result ≡ tree.Value (spec.constant_of value) }
{
    Core::Constant { value }
}

#[tactic(auto, using(ocl_core::proofs::ForAbove::views))]
pub(crate) fn variable(number: usize) -> Core
    ensures { spec.core_view result ≡ tree.Variable number }
{
    Core::Variable { number }
}

#[tactic(auto, using(ocl_core::proofs::ForAbove::views))]
pub(crate) fn all_instances(class: ClassNo) -> Core
    ensures { spec.core_view result ≡ tree.AllInstances class }
{
    Core::AllInstances { class }
}

/// What stands left of a link, with the link.
#[tactic(auto, using(ocl_core::proofs::ForAbove::views))]
fn with_link(alloc: Global, left: Core, link: CoreLink) -> Result<Core, AllocError>
    ensures { IfOk result (λ c. spec.core_view c ≡ spec.core_link_of link (spec.core_view left)) }
{
    match left {
        Core::Spine { first, links } => {
            let mut links = links;
            links.push(link)?;
            Ok(Core::Spine { first, links })
        }
        operand => {
            let mut links = Vec::new(alloc);
            links.push(link)?;
            let first = Box::new(alloc, operand)?;
            Ok(Core::Spine { first, links })
        }
    }
}

#[tactic(auto, using(ocl_core::proofs::ForAbove::views))]
pub(crate) fn feature(alloc: Global, source: Core, feature: FeatureNo) -> Result<Core, AllocError>
    ensures { IfOk result (λ c. spec.core_view c ≡ tree.Feature (spec.core_view source) feature) }
{
    with_link(alloc, source, CoreLink::Feature { feature })
}

#[tactic(auto, using(ocl_core::proofs::ForAbove::views))]
pub(crate) fn operation(
    alloc: Global,
    operator: Operator,
    first: Core,
    others: Vec<Core>,
) -> Result<Core, AllocError>
    ensures { IfOk result (λ c. spec.core_view c
        ≡ operation_on operator (spec.core_view first) (map spec.core_view others.items)) }
{
    with_link(alloc, first, CoreLink::Operation { operator, others })
}

/// An operation on one operand.
pub(crate) fn unary(alloc: Global, operator: Operator, operand: Core) -> Result<Core, AllocError>
    ensures { IfOk result (λ c. spec.core_view c
        ≡ operation_on operator (spec.core_view operand) []) }
{
    operation(alloc, operator, operand, Vec::new(alloc))
}

/// An operation on two operands.
pub(crate) fn binary(
    alloc: Global,
    operator: Operator,
    left: Core,
    right: Core,
) -> Result<Core, AllocError>
    ensures { IfOk result (λ c. spec.core_view c
        ≡ operation_on operator (spec.core_view left) (spec.core_view right ∷ [])) }
{
    let mut others = Vec::new(alloc);
    others.push(right)?;
    operation(alloc, operator, left, others)
}

/// An operation on three operands.
pub(crate) fn ternary(
    alloc: Global,
    operator: Operator,
    first: Core,
    second: Core,
    third: Core,
) -> Result<Core, AllocError>
    ensures { IfOk result (λ c. spec.core_view c
        ≡ operation_on operator (spec.core_view first)
        (spec.core_view second ∷ spec.core_view third ∷ [])) }
{
    let mut others = Vec::new(alloc);
    others.push(second)?;
    others.push(third)?;
    operation(alloc, operator, first, others)
}

#[tactic(auto, using(ocl_core::proofs::ForAbove::views))]
pub(crate) fn as_collection(
    alloc: Global,
    collection: CollectionKind,
    element: ScalarKind,
    source: Core,
) -> Result<Core, AllocError>
    ensures { IfOk result (λ c. spec.core_view c
        ≡ tree.AsCollection collection element (spec.core_view source)) }
{
    let link = CoreLink::AsCollection {
        collection,
        element,
    };
    with_link(alloc, source, link)
}

#[tactic(auto, using(ocl_core::proofs::ForAbove::views))]
pub(crate) fn iterate(
    alloc: Global,
    iteration: Iteration,
    source: Core,
    body: Core,
) -> Result<Core, AllocError>
    ensures { IfOk result (λ c. spec.core_view c
        ≡ tree.Iterate iteration (spec.core_view source) (spec.core_view body)) }
{
    with_link(alloc, source, CoreLink::Iterate { iteration, body })
}

#[tactic(auto, using(ocl_core::proofs::ForAbove::views))]
pub(crate) fn fold(
    alloc: Global,
    kind: ScalarKind,
    source: Core,
    start: Core,
    body: Core,
) -> Result<Core, AllocError>
    ensures { IfOk result (λ c. spec.core_view c
        ≡ tree.Fold kind (spec.core_view source) (spec.core_view start) (spec.core_view body)) }
{
    let start = Box::new(alloc, start)?;
    with_link(alloc, source, CoreLink::Fold { kind, start, body })
}

/// A body inside these values.
#[tactic(auto, using(ocl_core::proofs::ForAbove::views))]
fn lets(alloc: Global, values: Vec<Core>, body: Core) -> Result<Core, AllocError>
    ensures { IfOk result (λ c. spec.core_view c
        ≡ tree.lets_of (map spec.core_view values.items) (spec.core_view body)) }
{
    let body = Box::new(alloc, body)?;
    Ok(Core::Let { values, body })
}

/// A body inside one value.
pub(crate) fn let_core(alloc: Global, value: Core, body: Core) -> Result<Core, AllocError>
    ensures { IfOk result (λ c. spec.core_view c
        ≡ tree.Let (spec.core_view value) (spec.core_view body)) }
{
    let mut values = Vec::new(alloc);
    values.push(value)?;
    lets(alloc, values, body)
}

#[tactic(auto, using(ocl_core::proofs::ForAbove::views))]
pub(crate) fn if_core(
    alloc: Global,
    kind: Kind,
    condition: Core,
    then_branch: Core,
    else_branch: Core,
) -> Result<Core, AllocError>
    ensures { IfOk result (λ c. spec.core_view c
        ≡ tree.If kind (spec.core_view condition) (spec.core_view then_branch)
        (spec.core_view else_branch)) }
{
    let condition = Box::new(alloc, condition)?;
    let then_branch = Box::new(alloc, then_branch)?;
    let else_branch = Box::new(alloc, else_branch)?;
    Ok(Core::If {
        kind,
        condition,
        then_branch,
        else_branch,
    })
}
