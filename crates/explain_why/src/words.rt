//! Words of OCL: kinds of collections, operators and iterations.

ghost use Rattle.std.specs.Prelude.{◌≡◌, string_bytes};
ghost use Rattle.explain_why.specs.Values as value;
ghost use Rattle.explain_why.specs.Texts.{form_of, plain_form, plain_word, operator_form, operator_word, class_word, element_word, iteration_word, is_form_open};

use ocl_base::CollectionKind;
use ocl_core::{ClassOperator, ElementOperator, Iteration, Operator, PlainOperator};

/// The name of a kind of collection.
pub fn kind_name(kind: CollectionKind) -> &'static str
    ensures { result.now ≡ value.kind_name kind }
{
    match kind {
        CollectionKind::Set => "Set",
        CollectionKind::OrderedSet => "OrderedSet",
        CollectionKind::Bag => "Bag",
        CollectionKind::Sequence => "Sequence",
    }
}

/// How an operator is written.
#[derive(Clone, Copy)]
pub enum Form {
    /// Between two operands.
    Between,
    /// Before an operand.
    Before,
    /// After an operand, before parentheses.
    After,
}

impl Form {
    /// Whether what is written so stands in parentheses where it is an operand.
    pub fn is_open(self) -> bool
        ensures { result ≡ is_form_open (form_of self) }
    {
        match self {
            Form::Between | Form::Before => true,
            Form::After => false,
        }
    }
}

/// How an operator is written that its name alone describes.
fn plain_form(operator: PlainOperator) -> Form
    ensures { form_of result ≡ plain_form operator }
{
    match operator {
        PlainOperator::Negate | PlainOperator::Not => Form::Before,
        PlainOperator::Minimum | PlainOperator::Maximum | PlainOperator::Absolute => Form::After,
        PlainOperator::CharacterCount | PlainOperator::Substring => Form::After,
        PlainOperator::IsUndefined | PlainOperator::IsInvalid => Form::After,
        PlainOperator::ElementCount | PlainOperator::IsEmpty | PlainOperator::Sum => Form::After,
        _ => Form::Between,
    }
}

/// The word of an operator that its name alone describes.
fn plain_word(operator: PlainOperator) -> &'static str
    ensures { result.now ≡ plain_word operator }
{
    match operator {
        PlainOperator::Add => " + ",
        PlainOperator::Subtract => " - ",
        PlainOperator::Multiply => " * ",
        PlainOperator::Divide => " div ",
        PlainOperator::Modulo => " mod ",
        PlainOperator::Minimum => ".min",
        PlainOperator::Maximum => ".max",
        PlainOperator::Negate => "-",
        PlainOperator::Absolute => ".abs",
        PlainOperator::Less => " < ",
        PlainOperator::LessEqual => " <= ",
        PlainOperator::Greater => " > ",
        PlainOperator::GreaterEqual => " >= ",
        PlainOperator::CharacterCount => ".size",
        PlainOperator::Substring => ".substring",
        PlainOperator::Not => "not ",
        PlainOperator::And => " and ",
        PlainOperator::Or => " or ",
        PlainOperator::Xor => " xor ",
        PlainOperator::Implies => " implies ",
        PlainOperator::IsUndefined => ".oclIsUndefined",
        PlainOperator::IsInvalid => ".oclIsInvalid",
        PlainOperator::BothNull => " = ",
        PlainOperator::ElementCount => "->size",
        PlainOperator::IsEmpty => "->isEmpty",
        PlainOperator::Sum => "->sum",
    }
}

/// The word of an operator that asks for a class.
fn class_word(operator: ClassOperator) -> &'static str
    ensures { result.now ≡ class_word operator }
{
    match operator {
        ClassOperator::IsKindOf => ".oclIsKindOf",
        ClassOperator::IsTypeOf => ".oclIsTypeOf",
        ClassOperator::AsType => ".oclAsType",
    }
}

/// The word of an operator on elements.
fn element_word(operator: ElementOperator) -> &'static str
    ensures { result.now ≡ element_word operator }
{
    match operator {
        ElementOperator::Includes => "->includes",
        ElementOperator::Occurrences => "->count",
        ElementOperator::IncludesAll => "->includesAll",
        ElementOperator::ExcludesAll => "->excludesAll",
        ElementOperator::AsSet => "->asSet",
    }
}

/// How an operator is written.
pub fn operator_form(operator: Operator) -> Form
    ensures { form_of result ≡ operator_form operator }
{
    match operator {
        Operator::Plain(plain) => plain_form(plain),
        Operator::OfClass(_, _) | Operator::OfElements(_, _) => Form::After,
        Operator::Equal(_) => Form::Between,
    }
}

/// The word of an operator.
pub fn operator_word(operator: Operator) -> &'static str
    ensures { result.now ≡ operator_word operator }
{
    match operator {
        Operator::Plain(plain) => plain_word(plain),
        Operator::OfClass(of_class, _) => class_word(of_class),
        Operator::OfElements(of_elements, _) => element_word(of_elements),
        Operator::Equal(_) => " = ",
    }
}

/// The word of an iteration, up to its variable.
pub fn iteration_word(iteration: Iteration) -> &'static str
    ensures { result.now ≡ iteration_word iteration }
{
    match iteration {
        Iteration::ForAll => "->forAll(",
        Iteration::Exists => "->exists(",
        Iteration::One => "->one(",
        Iteration::Select => "->select(",
        Iteration::Reject => "->reject(",
        Iteration::Collect | Iteration::CollectFlat => "->collect(",
        Iteration::IsUnique(_) => "->isUnique(",
    }
}
