//! Instructions without a body: each puts its tree in the place of those of its operands.

ghost use Rattle.std.specs.Prelude.{◌≡◌, length, map, OnOk, IsSome, Some};
ghost use Rattle.ocl_core.specs.CoreView.{core_view};
ghost use Rattle.rule_code.specs.WellFormed.{InstrFits};
ghost use Rattle.rule_trees.specs.InstrTrees as spec;
ghost use Rattle.rule_trees.specs.InstrTrees.{symbol_meant};
ghost use Rattle.rule_trees.specs.TreeWalk.{surroundings_in};

use crate::code::RuleCode;
use crate::meant::{class_named, literal_named};
use crate::nodes;
use crate::operands::{as_collection, ask_class, operate, put, read_feature};
use crate::operations::operation_of;
use crate::values::{integer, text};
use ocl_base::Stack;
use ocl_core::{ClassOperator, ConstantValue, Core};
use rule_code::{Instr, SymbolNumber};
use std::alloc::{AllocError, Global};

/// Puts an Integer on top.
fn put_integer(alloc: Global, number: i64, trees: &mut Stack<Core>) -> Result<(), AllocError>
    ensures { OnOk result (spec.integer_over number (map core_view trees.old)
        ≡ Some (map core_view trees.new)) }
{
    let tree = integer(alloc, number)?;
    put(trees, tree)
}

/// Puts the literal that a symbol names on top.
fn put_literal(
    code: &RuleCode<'_>,
    symbol: SymbolNumber,
    trees: &mut Stack<Core>,
) -> Result<(), AllocError>
    requires { IsSome (spec.literal_over (symbol_meant (surroundings_in code.now) symbol.0)
        (map core_view trees.old)) }
    ensures { OnOk result (spec.literal_over (symbol_meant (surroundings_in code.now) symbol.0)
        (map core_view trees.old) ≡ Some (map core_view trees.new)) }
{
    let (enumeration, literal) = literal_named(code, symbol);
    put(
        trees,
        nodes::constant(ConstantValue::Literal(enumeration, literal)),
    )
}

/// Puts the objects of the class that a symbol names on top.
fn put_instances(
    code: &RuleCode<'_>,
    symbol: SymbolNumber,
    trees: &mut Stack<Core>,
) -> Result<(), AllocError>
    requires { IsSome (spec.instances_over (symbol_meant (surroundings_in code.now) symbol.0)
        (map core_view trees.old)) }
    ensures { OnOk result (spec.instances_over (symbol_meant (surroundings_in code.now) symbol.0)
        (map core_view trees.old) ≡ Some (map core_view trees.new)) }
{
    put(trees, nodes::all_instances(class_named(code, symbol)))
}

/// An instruction without a body.
pub(crate) fn plain(
    alloc: Global,
    code: &RuleCode<'_>,
    instr: Instr,
    trees: &mut Stack<Core>,
) -> Result<(), AllocError>
    requires fits { InstrFits (length code.now.accepted.now.unit.texts)
        code.now.accepted.now.unit.symbols instr }
    requires there { IsSome (spec.plain_trees (surroundings_in code.now) instr
        (map core_view trees.old)) }
    ensures { OnOk result (spec.plain_trees (surroundings_in code.now) instr
        (map core_view trees.old) ≡ Some (map core_view trees.new)) }
{
    match instr {
        Instr::SelfObject => put(trees, nodes::variable(0)),
        Instr::Get(number) => put(trees, nodes::variable(usize::from(number))),
        Instr::Int(number) => put_integer(alloc, number, trees),
        Instr::Bool(truth) => put(trees, nodes::constant(ConstantValue::Boolean(truth))),
        Instr::Text(number) => {
            let tree = text(alloc, code, number)?;
            put(trees, tree)
        }
        Instr::Enum(literal) => put_literal(code, literal, trees),
        Instr::Null => put(trees, nodes::constant(ConstantValue::Null)),
        Instr::Invalid => put(trees, nodes::constant(ConstantValue::Invalid)),
        Instr::Attr(feature) => read_feature(alloc, code, feature, trees),
        Instr::All(class) => put_instances(code, class, trees),
        Instr::AsColl(collection, kind) => as_collection(alloc, code, collection, kind, trees),
        Instr::KindOf(class) => ask_class(alloc, code, ClassOperator::IsKindOf, class, trees),
        Instr::TypeOf(class) => ask_class(alloc, code, ClassOperator::IsTypeOf, class, trees),
        Instr::AsType(class) => ask_class(alloc, code, ClassOperator::AsType, class, trees),
        _ => operate(alloc, operation_of(code, instr), trees),
    }
}
