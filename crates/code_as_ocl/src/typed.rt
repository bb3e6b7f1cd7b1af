//! Core trees as OCL of the profile: variables have types, and parentheses stand where the grammar wants them.

ghost use Rattle.std.specs.Prelude.{◌≡◌, ◌++◌, ◌<◌, length, map, IfOk, OnOk, string_bytes};
ghost use Rattle.std.specs.List.{AllByRecursion};
ghost use Rattle.ocl_core.specs.Core.{cores_of};
ghost use Rattle.ocl_core.specs.Core as tree;
ghost use Rattle.ocl_core.specs.CoreView.{core_view, constant_of};
ghost use Rattle.ocl_semantics.specs.Resolved.{IsOperatorOf, IsResolved, AreResolved};
ghost use Rattle.ocl_semantics.specs.Evaluated.{IsLinkResolved, AreLinksResolved, on_null};
ghost use Rattle.ocl_core.specs.Typing.{IsConstantOf};
ghost use Rattle.code_as_ocl.specs.TypedTexts as typed;
ghost use Rattle.code_as_ocl.specs.PrintedView.{printed_view};

use crate::kinds::{
    constant_kind, iteration_kind, operator_kind, put_type, scalar_name, variable_kind,
    with_accumulator, with_element,
};
use crate::levels::{first_level, operator_level, others_level};
use crate::quoted::whole_text;
use crate::wanted::let_kind;
use explain_why::{
    Form, class_asked, iteration_word, next, operator_form, operator_word, put, put_all_instances,
    put_constant, put_variable, put_wrapped,
};
use imkl_model::{ClassModel, CollectionKind, FeatureNo};
use ocl_base::OutOfMemory;
use ocl_core::{ConstantValue, Core, CoreLink, Iteration, Operator};
use ocl_kinds::{Kind, ScalarKind, feature_kind};
use std::alloc::Global;

/// The text of a tree, with how tightly it binds and its kind. It binds from 0, as a `let`, to 10, as a name.
#[derive(Drop)]
pub(crate) struct TypedText {
    pub(crate) text: String,
    pub(crate) level: u8,
    pub(crate) kind: Kind,
}

impl TypedText {
    /// Puts the text where one that binds at least so tightly is wanted.
    fn put_at_least(&self, out: &mut String, level: u8) -> Result<(), OutOfMemory>
        ensures { OnOk result (string_bytes out.new ≡
            string_bytes out.old ++ typed.at_least level (printed_view self.now)) }
    {
        put_wrapped(out, self.level < level, &self.text)
    }
}

/// A feature of what a text is of.
fn feature_printed(
    alloc: Global,
    model: &ClassModel,
    feature: FeatureNo,
    source: &TypedText,
) -> Result<TypedText, OutOfMemory>
    requires { feature < length model.now.features }
    ensures { IfOk result (λ t. printed_view t ≡
        typed.feature_printed model.now feature (printed_view source.now)) }
{
    let info = model.feature_info(feature);
    let mut text = String::new(alloc);
    source.put_at_least(&mut text, 10)?;
    put(&mut text, ".")?;
    put(&mut text, info.name.as_str())?;
    Ok(TypedText {
        text,
        level: 10,
        kind: feature_kind(info),
    })
}

/// An iteration over what a text is of, with this body.
fn iterate_printed(
    alloc: Global,
    iteration: &Iteration,
    variables: usize,
    source: &TypedText,
    body: &TypedText,
) -> Result<TypedText, OutOfMemory>
    ensures { IfOk result (λ t. printed_view t ≡ typed.iterate_printed iteration.now variables
        (printed_view source.now) (printed_view body.now)) }
{
    let mut text = String::new(alloc);
    source.put_at_least(&mut text, 10)?;
    put(&mut text, iteration_word(*iteration))?;
    put_variable(alloc, &mut text, variables)?;
    put(&mut text, " | ")?;
    put(&mut text, &body.text)?;
    put(&mut text, ")")?;
    Ok(TypedText {
        text,
        level: 10,
        kind: iteration_kind(*iteration, source.kind, body.kind),
    })
}

/// Puts the variables of a fold, up to the accumulator's first value.
fn put_fold_front(
    alloc: Global,
    out: &mut String,
    variables: usize,
    accumulator: &str,
) -> Result<(), OutOfMemory>
    ensures { OnOk result (string_bytes out.new ≡
        string_bytes out.old ++ typed.typed_fold_front variables accumulator.now) }
{
    put(out, "->iterate(")?;
    put_variable(alloc, out, variables)?;
    put(out, "; ")?;
    put_variable(alloc, out, next(variables)?)?;
    put(out, " : ")?;
    put(out, accumulator)?;
    put(out, " = ")
}

/// A fold over what a text is of, from this start value, with this body.
fn fold_printed(
    alloc: Global,
    model: &ClassModel,
    accumulator: &ScalarKind,
    variables: usize,
    source: &TypedText,
    start: &TypedText,
    body: &TypedText,
) -> Result<TypedText, OutOfMemory>
    ensures { IfOk result (λ t. printed_view t ≡ typed.fold_printed model.now accumulator.now
        variables (printed_view source.now) (printed_view start.now) (printed_view body.now)) }
{
    let mut text = String::new(alloc);
    source.put_at_least(&mut text, 10)?;
    put_fold_front(
        alloc,
        &mut text,
        variables,
        scalar_name(model, *accumulator),
    )?;
    start.put_at_least(&mut text, 1)?;
    put(&mut text, " | ")?;
    put(&mut text, &body.text)?;
    put(&mut text, ")")?;
    Ok(TypedText {
        text,
        level: 10,
        kind: Kind::Scalar(*accumulator),
    })
}

/// Puts what stands before the body of a `let` whose variable is of this kind.
fn put_let_front(
    alloc: Global,
    out: &mut String,
    model: &ClassModel,
    variables: usize,
    kind: Kind,
    value: &TypedText,
) -> Result<(), OutOfMemory>
    ensures { OnOk result (string_bytes out.new ≡ string_bytes out.old ++
        typed.typed_let_front model.now variables kind (printed_view value.now)) }
{
    put(out, "let ")?;
    put_variable(alloc, out, variables)?;
    put(out, " : ")?;
    put_type(out, model, kind)?;
    put(out, " = ")?;
    value.put_at_least(out, 1)?;
    put(out, " in ")
}

/// A condition with its branches.
fn if_printed(
    alloc: Global,
    kind: Kind,
    condition: &TypedText,
    first: &TypedText,
    second: &TypedText,
) -> Result<TypedText, OutOfMemory>
    ensures { IfOk result (λ t. printed_view t ≡ typed.if_printed kind
        (printed_view condition.now) (printed_view first.now) (printed_view second.now)) }
{
    let mut text = String::new(alloc);
    put(&mut text, "if ")?;
    condition.put_at_least(&mut text, 1)?;
    put(&mut text, " then ")?;
    put(&mut text, &first.text)?;
    put(&mut text, " else ")?;
    put(&mut text, &second.text)?;
    put(&mut text, " endif")?;
    Ok(TypedText {
        text,
        level: 10,
        kind,
    })
}

/// An operation on what a text is of, by the text of its other operands.
fn operation_printed(
    alloc: Global,
    model: &ClassModel,
    operator: &Operator,
    first: &TypedText,
    others: &str,
) -> Result<TypedText, OutOfMemory>
    requires { IsOperatorOf model.now operator.now }
    ensures { IfOk result (λ t. printed_view t ≡ typed.operation_printed model.now operator.now
        (printed_view first.now) others.now) }
{
    let (word, form) = (operator_word(*operator), operator_form(*operator));
    let wanted = first_level(form, *operator);
    let mut text = String::new(alloc);
    match form {
        Form::Between => {
            first.put_at_least(&mut text, wanted)?;
            put(&mut text, word)?;
            put(&mut text, others)?;
        }
        Form::Before => {
            put(&mut text, word)?;
            first.put_at_least(&mut text, wanted)?;
            put(&mut text, others)?;
        }
        Form::After => {
            first.put_at_least(&mut text, wanted)?;
            put(&mut text, word)?;
            put(&mut text, "(")?;
            put(&mut text, class_asked(model, operator))?;
            put(&mut text, others)?;
            put(&mut text, ")")?;
        }
    }
    Ok(TypedText {
        text,
        level: operator_level(*operator),
        kind: operator_kind(*operator, first.kind),
    })
}

/// A text that binds as a name does.
fn leaf_printed(text: String, kind: Kind) -> TypedText
    ensures { printed_view result ≡ typed.printed (string_bytes text) 10 kind }
{
    TypedText {
        text,
        level: 10,
        kind,
    }
}

/// A constant; a text whole.
fn constant_printed(
    alloc: Global,
    model: &ClassModel,
    value: &ConstantValue,
) -> Result<TypedText, OutOfMemory>
    requires { IsConstantOf model.now (constant_of value.now) }
    ensures { IfOk result (λ t. printed_view t ≡
        typed.constant_printed model.now (constant_of value.now)) }
{
    let text = match value {
        ConstantValue::Text(text) => whole_text(alloc, text)?,
        ConstantValue::Boolean(_)
        | ConstantValue::Integer(_)
        | ConstantValue::Literal(_, _)
        | ConstantValue::Null
        | ConstantValue::Invalid => {
            let mut text = String::new(alloc);
            put_constant(alloc, &mut text, model, value)?;
            text
        }
    };
    Ok(leaf_printed(text, constant_kind(value)))
}

/// What stands before the body of values, and the kinds of the variables that it sees.
#[derive(Drop)]
struct Front {
    text: String,
    kinds: Vec<Kind>,
}

/// Values and the body that sees them, by what stands before it.
fn closed_by(values: &[Core], front: String, body: TypedText) -> Result<TypedText, OutOfMemory>
    ensures { IfOk result (λ t. printed_view t ≡
        typed.closed_by (map core_view values.now) (string_bytes front) (printed_view body)) }
{
    let mut text = front;
    match values {
        [] => Ok(body),
        _ => {
            put(&mut text, &body.text)?;
            Ok(TypedText {
                text,
                level: 0,
                kind: body.kind,
            })
        }
    }
}

/// The text of a core tree whose variables have these kinds.
#[cycle(typed)]
#[tactic(auto, using(ocl_core::proofs::ForAbove::views))]
pub(crate) fn printed_of(
    alloc: Global,
    model: &ClassModel,
    core: &Core,
    kinds: &[Kind],
) -> Result<TypedText, OutOfMemory>
    requires { IsResolved model.now (core_view core.now) }
    ensures { IfOk result (λ t. printed_view t ≡
        typed.printed_of model.now (core_view core.now) kinds.now) }
{
    match core {
        Core::Constant { value } => constant_printed(alloc, model, value),
        Core::Variable { number } => {
            let mut text = String::new(alloc);
            put_variable(alloc, &mut text, *number)?;
            Ok(leaf_printed(text, variable_kind(kinds, *number)))
        }
        Core::AllInstances { class } => {
            let mut text = String::new(alloc);
            put_all_instances(&mut text, model, *class)?;
            let kind = Kind::Collection(CollectionKind::Set, ScalarKind::Class(*class));
            Ok(leaf_printed(text, kind))
        }
        Core::Spine { first, links } => {
            let text = printed_of(alloc, model, first, kinds)?;
            links_printed(alloc, model, links, kinds, text)
        }
        Core::Let { values, body } => {
            let front = front_of(alloc, model, values, body, kinds)?;
            let inner = printed_of(alloc, model, body, &front.kinds)?;
            closed_by(values, front.text, inner)
        }
        Core::If {
            kind,
            condition,
            then_branch,
            else_branch,
        } => {
            let condition = printed_of(alloc, model, condition, kinds)?;
            let first = printed_of(alloc, model, then_branch, kinds)?;
            let second = printed_of(alloc, model, else_branch, kinds)?;
            if_printed(alloc, *kind, &condition, &first, &second)
        }
    }
}

/// What stands before the body of values. The body, which isn't printed here, says what is wanted of variables that are null.
#[cycle(typed)]
fn front_of(
    alloc: Global,
    model: &ClassModel,
    values: &[Core],
    body: &Core,
    kinds: &[Kind],
) -> Result<Front, OutOfMemory>
    requires { AllByRecursion (IsResolved model.now) (map core_view values.now) }
    ensures text { IfOk result (λ f. string_bytes f.text ≡
        typed.lets_printed model.now (map core_view values.now) (core_view body.now) kinds.now) }
    ensures kinds { IfOk result (λ f. f.kinds.items ≡
        typed.lets_kinds model.now (map core_view values.now) (core_view body.now) kinds.now) }
{
    let mut front = Front {
        text: String::new(alloc),
        kinds: Vec::from_slice(alloc, kinds)?,
    };
    'values: for index in 0..values.len() {
        let printed = printed_of(alloc, model, &values[index], &front.kinds)?;
        let variable = front.kinds.len();
        let kind = let_kind(model, variable, printed.kind, &values[index + 1..], body);
        put_let_front(alloc, &mut front.text, model, variable, kind, &printed)?;
        front.kinds.push(kind)?;
    }
    Ok(front)
}

/// Links one after another on a text.
#[cycle(typed)]
fn links_printed(
    alloc: Global,
    model: &ClassModel,
    links: &[CoreLink],
    kinds: &[Kind],
    first: TypedText,
) -> Result<TypedText, OutOfMemory>
    requires { AreLinksResolved model.now links.now }
    ensures { IfOk result (λ t. printed_view t ≡
        typed.links_printed model.now kinds.now links.now (printed_view first)) }
{
    let mut text = first;
    'links: for link in links {
        text = link_printed(alloc, model, link, kinds, text)?;
    }
    Ok(text)
}

/// A link on a text.
#[cycle(typed)]
#[tactic(auto, using(ocl_core::proofs::ForAbove::views))]
fn link_printed(
    alloc: Global,
    model: &ClassModel,
    link: &CoreLink,
    kinds: &[Kind],
    first: TypedText,
) -> Result<TypedText, OutOfMemory>
    requires { IsLinkResolved model.now link.now }
    ensures { IfOk result (λ t. printed_view t ≡
        typed.node_printed model.now (on_null link.now) kinds.now (printed_view first)) }
{
    match link {
        CoreLink::Feature { feature } => feature_printed(alloc, model, *feature, &first),
        CoreLink::Operation { operator, others } => {
            let level = others_level(operator_form(*operator), *operator);
            let others = others_printed(alloc, model, level, others, kinds)?;
            operation_printed(alloc, model, operator, &first, &others)
        }
        CoreLink::AsCollection {
            collection,
            element,
        } => Ok(TypedText {
            text: first.text,
            level: first.level,
            kind: Kind::Collection(*collection, *element),
        }),
        CoreLink::Iterate { iteration, body } => {
            let seen = with_element(alloc, kinds, first.kind)?;
            let body = printed_of(alloc, model, body, &seen)?;
            iterate_printed(alloc, iteration, kinds.len(), &first, &body)
        }
        CoreLink::Fold { kind, start, body } => {
            let start = printed_of(alloc, model, start, kinds)?;
            let seen = with_accumulator(alloc, kinds, first.kind, *kind)?;
            let body = printed_of(alloc, model, body, &seen)?;
            fold_printed(alloc, model, kind, kinds.len(), &first, &start, &body)
        }
    }
}

/// The operands after the first, which have to bind so tightly.
#[cycle(typed)]
fn others_printed(
    alloc: Global,
    model: &ClassModel,
    level: u8,
    others: &[Core],
    kinds: &[Kind],
) -> Result<String, OutOfMemory>
    requires { AreResolved model.now (cores_of (map core_view others.now)) }
    ensures { IfOk result (λ s. string_bytes s ≡ typed.others_printed model.now level 0
        (cores_of (map core_view others.now)) kinds.now) }
{
    let mut text = String::new(alloc);
    'others: for index in 0..others.len() {
        if index > 0 {
            put(&mut text, ", ")?;
        }
        let other = printed_of(alloc, model, &others[index], kinds)?;
        other.put_at_least(&mut text, level)?;
    }
    Ok(text)
}
