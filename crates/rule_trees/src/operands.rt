//! The stack of trees: operands are taken from its top, and a tree is put in their place.

ghost use Rattle.std.specs.Prelude.{◌≡◌, ◌<◌, ◌∷◌, length, map, OnOk, IsSome, Some};
ghost use Rattle.ocl_core.specs.CoreView.{core_view};
ghost use Rattle.rule_verify.specs.InstrKinds.{scalar_meant};
ghost use Rattle.rule_trees.specs.InstrTrees as spec;
ghost use Rattle.rule_trees.specs.InstrTrees.{symbol_meant};
ghost use Rattle.rule_trees.specs.TreeWalk.{operated, surroundings_in};

use crate::code::RuleCode;
use crate::meant::{class_named, feature_named, scalar_meant};
use crate::nodes;
use crate::operations::Operation;
use imkl_model::CollectionKind;
use ocl_base::Stack;
use ocl_core::{ClassOperator, Core, Operator};
use rule_code::{SymbolNumber, WrittenScalar};
use std::alloc::{AllocError, Global};

/// The topmost tree, taken off.
pub(crate) fn take(trees: &mut Stack<Core>) -> Core
    requires { 0 < length trees.old }
    ensures { trees.old ≡ result ∷ trees.new }
{
    let Some(tree) = trees.pop() else {
        unreachable!()
    };
    tree
}

/// Puts a tree on top of others.
pub(crate) fn put(trees: &mut Stack<Core>, tree: Core) -> Result<(), AllocError>
    ensures { OnOk result (trees.new ≡ tree ∷ trees.old) }
{
    trees.push(tree)
}

/// An operator on one tree.
fn on_one(alloc: Global, operator: Operator, trees: &mut Stack<Core>) -> Result<(), AllocError>
    requires { IsSome (spec.on_one operator (map core_view trees.old)) }
    ensures { OnOk result (spec.on_one operator (map core_view trees.old)
        ≡ Some (map core_view trees.new)) }
{
    let operand = take(trees);
    let tree = nodes::unary(alloc, operator, operand)?;
    put(trees, tree)
}

/// An operator on two trees.
fn on_two(alloc: Global, operator: Operator, trees: &mut Stack<Core>) -> Result<(), AllocError>
    requires { IsSome (spec.on_two operator (map core_view trees.old)) }
    ensures { OnOk result (spec.on_two operator (map core_view trees.old)
        ≡ Some (map core_view trees.new)) }
{
    let right = take(trees);
    let left = take(trees);
    let tree = nodes::binary(alloc, operator, left, right)?;
    put(trees, tree)
}

/// An operator on three trees.
fn on_three(alloc: Global, operator: Operator, trees: &mut Stack<Core>) -> Result<(), AllocError>
    requires { IsSome (spec.on_three operator (map core_view trees.old)) }
    ensures { OnOk result (spec.on_three operator (map core_view trees.old)
        ≡ Some (map core_view trees.new)) }
{
    let third = take(trees);
    let second = take(trees);
    let first = take(trees);
    let tree = nodes::ternary(alloc, operator, first, second, third)?;
    put(trees, tree)
}

/// An operation on the topmost trees.
pub(crate) fn operate(
    alloc: Global,
    operation: Option<Operation>,
    trees: &mut Stack<Core>,
) -> Result<(), AllocError>
    requires { IsSome (operated operation (map core_view trees.old)) }
    ensures { OnOk result (operated operation (map core_view trees.old)
        ≡ Some (map core_view trees.new)) }
{
    match operation {
        Some(Operation::One(operator)) => on_one(alloc, operator, trees),
        Some(Operation::Two(operator)) => on_two(alloc, operator, trees),
        Some(Operation::Three(operator)) => on_three(alloc, operator, trees),
        None => unreachable!(),
    }
}

/// The feature that a symbol names, of the topmost tree.
pub(crate) fn read_feature(
    alloc: Global,
    code: &RuleCode<'_>,
    symbol: SymbolNumber,
    trees: &mut Stack<Core>,
) -> Result<(), AllocError>
    requires { IsSome (spec.feature_over (map core_view trees.old)
        (symbol_meant (surroundings_in code.now) symbol.0)) }
    ensures { OnOk result (spec.feature_over (map core_view trees.old)
        (symbol_meant (surroundings_in code.now) symbol.0) ≡ Some (map core_view trees.new)) }
{
    let source = take(trees);
    let tree = nodes::feature(alloc, source, feature_named(code, symbol))?;
    put(trees, tree)
}

/// The topmost tree with a question for the class that a symbol names.
pub(crate) fn ask_class(
    alloc: Global,
    code: &RuleCode<'_>,
    operator: ClassOperator,
    symbol: SymbolNumber,
    trees: &mut Stack<Core>,
) -> Result<(), AllocError>
    requires { IsSome (spec.class_over operator (map core_view trees.old)
        (symbol_meant (surroundings_in code.now) symbol.0)) }
    ensures { OnOk result (spec.class_over operator (map core_view trees.old)
        (symbol_meant (surroundings_in code.now) symbol.0) ≡ Some (map core_view trees.new)) }
{
    let operator = Operator::OfClass(operator, class_named(code, symbol));
    let operand = take(trees);
    let tree = nodes::unary(alloc, operator, operand)?;
    put(trees, tree)
}

/// The topmost tree as the only element of a collection.
pub(crate) fn as_collection(
    alloc: Global,
    code: &RuleCode<'_>,
    collection: CollectionKind,
    kind: WrittenScalar,
    trees: &mut Stack<Core>,
) -> Result<(), AllocError>
    requires { IsSome (spec.collection_over collection (scalar_meant (surroundings_in code.now) kind)
        (map core_view trees.old)) }
    ensures { OnOk result (spec.collection_over collection
        (scalar_meant (surroundings_in code.now) kind) (map core_view trees.old)
        ≡ Some (map core_view trees.new)) }
{
    let source = take(trees);
    let tree = nodes::as_collection(alloc, collection, scalar_meant(code, kind), source)?;
    put(trees, tree)
}
