//! The operations, as a table, and what operators and iterations ask of their operands.

ghost use Rattle.std.specs.Prelude.{◌≡◌, option_map, map};
ghost use Rattle.ocl_kinds.specs.Kinds.{IsKindOf};
ghost use Rattle.ocl_types.specs.Operators as spec;
ghost use Rattle.ocl_types.specs.Elaboration.{turn_of};
ghost use Rattle.ocl_types.specs.TableView.{operation_row_of};

use imkl_model::ClassModel;
use ocl_core::{BasicType, ClassOperator, ElementOperator, Iteration, PlainOperator};
use ocl_kinds::{Kind, ScalarKind, fits, scalar_fits};
use ocl_text::{BinaryOperator, IteratorKind};

/// What an operation asks of its source.
#[derive(Clone, Copy)]
pub enum Source {
    /// A value of this type.
    OfType(BasicType),
    /// A single value.
    Single,
    /// A collection.
    AnyCollection,
    /// A collection of values of this type.
    CollectionOf(BasicType),
}

/// What an operator between two operands asks of them.
#[derive(Clone, Copy)]
pub(crate) enum Binary {
    /// Whole numbers; it gives a value of this type.
    Numbers(PlainOperator, BasicType),
    /// Truth values; it gives one.
    Truths(PlainOperator),
    /// Values that can be compared; it says whether they are equal, or whether they aren't.
    Equality {
        /// Whether it says that they aren't.
        is_negated: bool,
    },
}

/// What an iteration asks of its body, and what it gives.
#[derive(Clone, Copy)]
pub(crate) enum Turn {
    /// It asks for truth values, and gives one.
    Asks(Iteration),
    /// It asks for truth values, and gives some of the elements.
    Keeps(Iteration),
    /// It gives what the body gives.
    Gathers,
    /// It asks for single values, and says whether they differ.
    Compares,
}

/// What an operation does.
pub enum Effect {
    /// An operator is applied to the source and to arguments of these types.
    Plainly(PlainOperator, &'static [BasicType], BasicType),
    /// An operator is applied to the elements of the source.
    OnElements(ElementOperator),
}

/// An operation, but for the three that take the name of a class.
pub struct Operation {
    /// Its name.
    pub name: &'static str,
    /// What its source must be.
    pub source: Source,
    /// What it does.
    pub effect: Effect,
    /// Whether its result is the negation of that.
    pub is_negated: bool,
}

static OPERATIONS: [Operation; 19] = [
    Operation {
        name: "div",
        source: Source::OfType(BasicType::Integer),
        effect: Effect::Plainly(
            PlainOperator::Divide,
            &[BasicType::Integer],
            BasicType::Integer,
        ),
        is_negated: false,
    },
    Operation {
        name: "mod",
        source: Source::OfType(BasicType::Integer),
        effect: Effect::Plainly(
            PlainOperator::Modulo,
            &[BasicType::Integer],
            BasicType::Integer,
        ),
        is_negated: false,
    },
    Operation {
        name: "min",
        source: Source::OfType(BasicType::Integer),
        effect: Effect::Plainly(
            PlainOperator::Minimum,
            &[BasicType::Integer],
            BasicType::Integer,
        ),
        is_negated: false,
    },
    Operation {
        name: "max",
        source: Source::OfType(BasicType::Integer),
        effect: Effect::Plainly(
            PlainOperator::Maximum,
            &[BasicType::Integer],
            BasicType::Integer,
        ),
        is_negated: false,
    },
    Operation {
        name: "abs",
        source: Source::OfType(BasicType::Integer),
        effect: Effect::Plainly(PlainOperator::Absolute, &[], BasicType::Integer),
        is_negated: false,
    },
    Operation {
        name: "size",
        source: Source::OfType(BasicType::String),
        effect: Effect::Plainly(PlainOperator::CharacterCount, &[], BasicType::Integer),
        is_negated: false,
    },
    Operation {
        name: "substring",
        source: Source::OfType(BasicType::String),
        effect: Effect::Plainly(
            PlainOperator::Substring,
            &[BasicType::Integer, BasicType::Integer],
            BasicType::String,
        ),
        is_negated: false,
    },
    Operation {
        name: "oclIsUndefined",
        source: Source::Single,
        effect: Effect::Plainly(PlainOperator::IsUndefined, &[], BasicType::Boolean),
        is_negated: false,
    },
    Operation {
        name: "oclIsInvalid",
        source: Source::Single,
        effect: Effect::Plainly(PlainOperator::IsInvalid, &[], BasicType::Boolean),
        is_negated: false,
    },
    Operation {
        name: "size",
        source: Source::AnyCollection,
        effect: Effect::Plainly(PlainOperator::ElementCount, &[], BasicType::Integer),
        is_negated: false,
    },
    Operation {
        name: "isEmpty",
        source: Source::AnyCollection,
        effect: Effect::Plainly(PlainOperator::IsEmpty, &[], BasicType::Boolean),
        is_negated: false,
    },
    Operation {
        name: "notEmpty",
        source: Source::AnyCollection,
        effect: Effect::Plainly(PlainOperator::IsEmpty, &[], BasicType::Boolean),
        is_negated: true,
    },
    Operation {
        name: "includes",
        source: Source::AnyCollection,
        effect: Effect::OnElements(ElementOperator::Includes),
        is_negated: false,
    },
    Operation {
        name: "excludes",
        source: Source::AnyCollection,
        effect: Effect::OnElements(ElementOperator::Includes),
        is_negated: true,
    },
    Operation {
        name: "count",
        source: Source::AnyCollection,
        effect: Effect::OnElements(ElementOperator::Occurrences),
        is_negated: false,
    },
    Operation {
        name: "includesAll",
        source: Source::AnyCollection,
        effect: Effect::OnElements(ElementOperator::IncludesAll),
        is_negated: false,
    },
    Operation {
        name: "excludesAll",
        source: Source::AnyCollection,
        effect: Effect::OnElements(ElementOperator::ExcludesAll),
        is_negated: false,
    },
    Operation {
        name: "sum",
        source: Source::CollectionOf(BasicType::Integer),
        effect: Effect::Plainly(PlainOperator::Sum, &[], BasicType::Integer),
        is_negated: false,
    },
    Operation {
        name: "asSet",
        source: Source::AnyCollection,
        effect: Effect::OnElements(ElementOperator::AsSet),
        is_negated: false,
    },
];

/// All operations but the three that take the name of a class (`docs/use/language.md`, "Types").
pub fn operations() -> &'static [Operation]
    ensures { map operation_row_of result.now ≡ spec.operations }
{
    &OPERATIONS
}

/// The operator of the operation of this name, if it is one of the three whose argument is a class's name.
pub fn class_operator(name: &str) -> Option<ClassOperator>
    ensures { result ≡ spec.class_operator name.now }
{
    match name {
        "oclIsKindOf" => Some(ClassOperator::IsKindOf),
        "oclIsTypeOf" => Some(ClassOperator::IsTypeOf),
        "oclAsType" => Some(ClassOperator::AsType),
        _ => None,
    }
}

/// Whether a source of this kind is what an operation asks for.
fn is_source(model: &ClassModel, source: Source, kind: &Kind) -> bool
    requires { IsKindOf model.now kind.now }
    ensures { result ≡ spec.is_source model.now source kind.now }
{
    match source {
        Source::OfType(wanted) => match kind {
            Kind::Scalar(ScalarKind::Void) => false,
            Kind::Scalar(element) => scalar_fits(model, element, &wanted.kind()),
            Kind::Collection(_, _) => false,
        },
        Source::Single => matches!(kind, Kind::Scalar(_)),
        Source::AnyCollection => matches!(kind, Kind::Collection(_, _)),
        Source::CollectionOf(wanted) => match kind {
            Kind::Scalar(_) => false,
            Kind::Collection(_, element) => scalar_fits(model, element, &wanted.kind()),
        },
    }
}

fn is_row_for(model: &ClassModel, name: &str, kind: &Kind, row: &Operation) -> bool
    requires { IsKindOf model.now kind.now }
    ensures { result ≡ spec.is_row_for model.now name.now kind.now (operation_row_of row.now) }
{
    row.name == name && is_source(model, row.source, kind)
}

fn row_in<'t>(
    model: &ClassModel,
    name: &str,
    kind: &Kind,
    rows: &'t [Operation],
) -> Option<&'t Operation>
    requires { IsKindOf model.now kind.now }
    ensures { option_map (λ r. operation_row_of r.now) result
        ≡ spec.row_for model.now name.now kind.now (map operation_row_of rows.now) }
{
    'rows: for row in rows {
        if is_row_for(model, name, kind, row) {
            return Some(row);
        }
    }
    None
}

/// The first operation of this name on such a source.
pub(crate) fn row_for(model: &ClassModel, name: &str, kind: &Kind) -> Option<&'static Operation>
    requires { IsKindOf model.now kind.now }
    ensures { option_map (λ r. operation_row_of r.now) result
        ≡ spec.row_for model.now name.now kind.now spec.operations }
{
    row_in(model, name, kind, &OPERATIONS)
}

/// What an operator between two operands asks of them.
pub(crate) fn operands_of(operator: BinaryOperator) -> Binary
    ensures { result ≡ spec.binary operator }
{
    match operator {
        BinaryOperator::Multiply => Binary::Numbers(PlainOperator::Multiply, BasicType::Integer),
        BinaryOperator::Divide => Binary::Numbers(PlainOperator::Divide, BasicType::Integer),
        BinaryOperator::Modulo => Binary::Numbers(PlainOperator::Modulo, BasicType::Integer),
        BinaryOperator::Add => Binary::Numbers(PlainOperator::Add, BasicType::Integer),
        BinaryOperator::Subtract => Binary::Numbers(PlainOperator::Subtract, BasicType::Integer),
        BinaryOperator::Less => Binary::Numbers(PlainOperator::Less, BasicType::Boolean),
        BinaryOperator::LessEqual => Binary::Numbers(PlainOperator::LessEqual, BasicType::Boolean),
        BinaryOperator::Greater => Binary::Numbers(PlainOperator::Greater, BasicType::Boolean),
        BinaryOperator::GreaterEqual => {
            Binary::Numbers(PlainOperator::GreaterEqual, BasicType::Boolean)
        }
        BinaryOperator::Equal => Binary::Equality { is_negated: false },
        BinaryOperator::NotEqual => Binary::Equality { is_negated: true },
        BinaryOperator::And => Binary::Truths(PlainOperator::And),
        BinaryOperator::Or => Binary::Truths(PlainOperator::Or),
        BinaryOperator::Xor => Binary::Truths(PlainOperator::Xor),
        BinaryOperator::Implies => Binary::Truths(PlainOperator::Implies),
    }
}

/// What an iteration asks of its body.
pub(crate) fn turn_of(iterator: IteratorKind) -> Turn
    ensures { result ≡ turn_of iterator }
{
    match iterator {
        IteratorKind::ForAll => Turn::Asks(Iteration::ForAll),
        IteratorKind::Exists => Turn::Asks(Iteration::Exists),
        IteratorKind::One => Turn::Asks(Iteration::One),
        IteratorKind::Select => Turn::Keeps(Iteration::Select),
        IteratorKind::Reject => Turn::Keeps(Iteration::Reject),
        IteratorKind::Collect => Turn::Gathers,
        IteratorKind::IsUnique => Turn::Compares,
    }
}
