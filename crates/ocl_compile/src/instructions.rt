//! The instructions of constants, variables, operators and iterations.

ghost use Rattle.std.specs.Prelude.{◌≡◌, ◌<◌};
ghost use Rattle.ocl_core.specs.CoreView.{constant_of};
ghost use Rattle.ocl_compile.specs.declared.limits.TheConstants.{COUNTING_END};
ghost use Rattle.ocl_compile.specs.Written.{IsWrittenConstant};
ghost use Rattle.ocl_compile.specs.Translation as spec;

use crate::fields::{symbol_of_unit, text_of_unit, written_kind, written_scalar};
use crate::numbers::Numbers;
use ocl_core::{ClassOperator, ConstantValue, ElementOperator, Iteration, Operator, PlainOperator};
use rule_code::{Instr, SymbolNumber, WrittenScalar};
use rule_verify::Named;

/// The instruction that gives a constant.
pub(crate) fn constant_instr(numbers: &Numbers, value: &ConstantValue) -> Instr
    ensures instr { result ≡ spec.constant_instr numbers.now (constant_of value.now) }
    ensures written { IsWrittenConstant (constant_of value.now) }
{
    match value {
        ConstantValue::Boolean(truth) => Instr::Bool(*truth),
        ConstantValue::Integer(number) => Instr::Int(number.get() as i64),
        ConstantValue::Text(text) => Instr::Text(text_of_unit(numbers, text.as_str())),
        ConstantValue::Literal(enumeration, literal) => {
            let symbol = Named::Literal(*enumeration, *literal);
            Instr::Enum(symbol_of_unit(numbers, symbol))
        }
        ConstantValue::Null => Instr::Null,
        ConstantValue::Invalid => Instr::Invalid,
    }
}

/// The instruction that gives a variable. Variable 0 is the object that the rule is judged on.
pub(crate) fn variable_instr(number: usize) -> Instr
    requires { number < COUNTING_END }
    ensures { result ≡ spec.variable_instr number }
{
    if number == 0 {
        Instr::SelfObject
    } else {
        Instr::Get(number as u16)
    }
}

fn plain_instr(operator: PlainOperator) -> Instr
    ensures { result ≡ spec.plain_instr operator }
{
    match operator {
        PlainOperator::Add => Instr::Add,
        PlainOperator::Subtract => Instr::Sub,
        PlainOperator::Multiply => Instr::Mul,
        PlainOperator::Divide => Instr::Div,
        PlainOperator::Modulo => Instr::Mod,
        PlainOperator::Minimum => Instr::Min,
        PlainOperator::Maximum => Instr::Max,
        PlainOperator::Negate => Instr::Neg,
        PlainOperator::Absolute => Instr::Abs,
        PlainOperator::Less => Instr::Lt,
        PlainOperator::LessEqual => Instr::Le,
        PlainOperator::Greater => Instr::Gt,
        PlainOperator::GreaterEqual => Instr::Ge,
        PlainOperator::CharacterCount => Instr::TLen,
        PlainOperator::Substring => Instr::SubStr,
        PlainOperator::Not => Instr::Not,
        PlainOperator::And => Instr::And,
        PlainOperator::Or => Instr::Or,
        PlainOperator::Xor => Instr::Xor,
        PlainOperator::Implies => Instr::Implies,
        PlainOperator::IsUndefined => Instr::Undef,
        PlainOperator::IsInvalid => Instr::IsInv,
        PlainOperator::BothNull => Instr::Eqx,
        PlainOperator::ElementCount => Instr::Size,
        PlainOperator::IsEmpty => Instr::IsEmpty,
        PlainOperator::Sum => Instr::Sum,
    }
}

fn class_instr(operator: ClassOperator, class: SymbolNumber) -> Instr
    ensures { result ≡ spec.class_instr operator class }
{
    match operator {
        ClassOperator::IsKindOf => Instr::KindOf(class),
        ClassOperator::IsTypeOf => Instr::TypeOf(class),
        ClassOperator::AsType => Instr::AsType(class),
    }
}

fn element_instr(operator: ElementOperator, kind: WrittenScalar) -> Instr
    ensures { result ≡ spec.element_instr operator kind }
{
    match operator {
        ElementOperator::Includes => Instr::Includes(kind),
        ElementOperator::Occurrences => Instr::Count(kind),
        ElementOperator::IncludesAll => Instr::IncAll(kind),
        ElementOperator::ExcludesAll => Instr::ExcAll(kind),
        ElementOperator::AsSet => Instr::AsSet(kind),
    }
}

/// The instruction of an operator.
pub(crate) fn operator_instr(numbers: &Numbers, operator: Operator) -> Instr
    ensures { result ≡ spec.operator_instr numbers.now operator }
{
    match operator {
        Operator::Plain(plain) => plain_instr(plain),
        Operator::OfClass(of_class, class) => {
            class_instr(of_class, symbol_of_unit(numbers, Named::Class(class)))
        }
        Operator::OfElements(of_elements, kind) => {
            element_instr(of_elements, written_scalar(numbers, kind))
        }
        Operator::Equal(kind) => Instr::Eq(written_kind(numbers, kind)),
    }
}

/// The instruction of an iteration whose body has `length` instructions.
pub(crate) fn iteration_instr(numbers: &Numbers, iteration: Iteration, length: u16) -> Instr
    ensures { result ≡ spec.iteration_instr numbers.now iteration length }
{
    match iteration {
        Iteration::ForAll => Instr::ForAll(length),
        Iteration::Exists => Instr::Exists(length),
        Iteration::One => Instr::One(length),
        Iteration::Select => Instr::Select(length),
        Iteration::Reject => Instr::Reject(length),
        Iteration::Collect => Instr::Collect(length),
        Iteration::CollectFlat => Instr::CollectFlat(length),
        Iteration::IsUnique(kind) => Instr::IsUnique(written_scalar(numbers, kind), length),
    }
}
