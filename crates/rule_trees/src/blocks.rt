//! Blocks, by the trees of their bodies.

ghost use Rattle.std.specs.Prelude.{◌≡◌, ◌∷◌, map, OnOk, IsSome, Some};
ghost use Rattle.ocl_core.specs.CoreView.{core_view};
ghost use Rattle.rule_verify.specs.InstrKinds.{scalar_meant};
ghost use Rattle.rule_trees.specs.CoreOf as spec;
ghost use Rattle.rule_trees.specs.TreeWalk.{surroundings_in};

use crate::code::RuleCode;
use crate::meant::{kind_meant, scalar_meant};
use crate::nodes;
use crate::operands::{put, take};
use ocl_base::Stack;
use ocl_core::{Core, Iteration};
use ocl_kinds::ScalarKind;
use rule_code::Instr;
use std::alloc::{AllocError, Global};

/// The only tree that code has left.
pub(crate) fn sole(trees: Stack<Core>) -> Core
    requires { IsSome (spec.sole (Some (map core_view trees))) }
    ensures { spec.sole (Some (map core_view trees)) ≡ Some (core_view result) }
{
    let mut trees = trees;
    take(&mut trees)
}

/// The topmost tree as a variable of a body.
fn bind(alloc: Global, body: Core, trees: &mut Stack<Core>) -> Result<(), AllocError>
    requires { IsSome (spec.let_trees (core_view body) (map core_view trees.old)) }
    ensures { OnOk result (spec.let_trees (core_view body) (map core_view trees.old)
        ≡ Some (map core_view trees.new)) }
{
    let value = take(trees);
    let tree = nodes::let_core(alloc, value, body)?;
    put(trees, tree)
}

/// An iteration over the topmost tree.
fn iterate(
    alloc: Global,
    iteration: Iteration,
    body: Core,
    trees: &mut Stack<Core>,
) -> Result<(), AllocError>
    requires { IsSome (spec.iteration_trees iteration (core_view body) (map core_view trees.old)) }
    ensures { OnOk result (spec.iteration_trees iteration (core_view body)
        (map core_view trees.old) ≡ Some (map core_view trees.new)) }
{
    let source = take(trees);
    let tree = nodes::iterate(alloc, iteration, source, body)?;
    put(trees, tree)
}

/// A value accumulated over a source. Its start is above the source.
fn fold(
    alloc: Global,
    kind: ScalarKind,
    body: Core,
    trees: &mut Stack<Core>,
) -> Result<(), AllocError>
    requires { IsSome (spec.fold_trees kind (core_view body) (map core_view trees.old)) }
    ensures { OnOk result (spec.fold_trees kind (core_view body) (map core_view trees.old)
        ≡ Some (map core_view trees.new)) }
{
    let start = take(trees);
    let source = take(trees);
    let tree = nodes::fold(alloc, kind, source, start, body)?;
    put(trees, tree)
}

/// A block with the tree of its body.
pub(crate) fn close_block(
    alloc: Global,
    code: &RuleCode<'_>,
    instr: Instr,
    body: Core,
    trees: &mut Stack<Core>,
) -> Result<(), AllocError>
    requires { IsSome (spec.block_trees (surroundings_in code.now) instr (Some (core_view body))
        (map core_view trees.old)) }
    ensures { OnOk result (spec.block_trees (surroundings_in code.now) instr
        (Some (core_view body)) (map core_view trees.old) ≡ Some (map core_view trees.new)) }
{
    match instr {
        Instr::Let(_) => bind(alloc, body, trees),
        Instr::ForAll(_) => iterate(alloc, Iteration::ForAll, body, trees),
        Instr::Exists(_) => iterate(alloc, Iteration::Exists, body, trees),
        Instr::One(_) => iterate(alloc, Iteration::One, body, trees),
        Instr::Select(_) => iterate(alloc, Iteration::Select, body, trees),
        Instr::Reject(_) => iterate(alloc, Iteration::Reject, body, trees),
        Instr::Collect(_) => iterate(alloc, Iteration::Collect, body, trees),
        Instr::CollectFlat(_) => iterate(alloc, Iteration::CollectFlat, body, trees),
        Instr::IsUnique(kind, _) => {
            let kind = scalar_meant(code, kind);
            iterate(alloc, Iteration::IsUnique(kind), body, trees)
        }
        Instr::Fold(kind, _) => fold(alloc, scalar_meant(code, kind), body, trees),
        _ => unreachable!(),
    }
}

/// An IF with the trees of its branches.
pub(crate) fn close_branches(
    alloc: Global,
    code: &RuleCode<'_>,
    instr: Instr,
    first: Core,
    second: Core,
    trees: &mut Stack<Core>,
) -> Result<(), AllocError>
    requires { IsSome (spec.branch_trees (surroundings_in code.now) instr (Some (core_view first))
        (Some (core_view second)) (map core_view trees.old)) }
    ensures { OnOk result (spec.branch_trees (surroundings_in code.now) instr
        (Some (core_view first)) (Some (core_view second)) (map core_view trees.old)
        ≡ Some (map core_view trees.new)) }
{
    let Instr::If(kind, _, _) = instr else {
        unreachable!()
    };
    let kind = kind_meant(code, kind);
    let condition = take(trees);
    let tree = nodes::if_core(alloc, kind, condition, first, second)?;
    put(trees, tree)
}
