//! Core trees as short OCL.

ghost use Rattle.std.specs.Prelude.{◌≡◌, ◌++◌, ◌<◌, length, map, IfOk, OnOk, string_bytes};
ghost use Rattle.std.specs.List.{AllByRecursion};
ghost use Rattle.ocl_core.specs.Core.{cores_of, lets_of};
ghost use Rattle.ocl_core.specs.CoreView.{constant_of, core_view, core_link_of, core_spine};
ghost use Rattle.ocl_core.specs.Typing.{IsConstantOf};
ghost use Rattle.ocl_semantics.specs.Resolved.{IsOperatorOf, IsResolved, AreResolved};
ghost use Rattle.ocl_semantics.specs.Evaluated.{on_null, IsLinkResolved, AreLinksResolved};
ghost use Rattle.explain_why.specs.Names.{next_name, past, with_next};
ghost use Rattle.explain_why.specs.NameWalk.{naming_view, inner_view, with_all};
ghost use Rattle.explain_why.specs.Texts.{constant_text, class_asked, operator_form, operator_word, is_form_open, is_open, wrapped, instances_text, operation_text, fold_front, let_front, text_of, others_text};
ghost use Rattle.explain_why.specs.TextWalk.{written_text, tree_text, body_text, fold_body_text, node_text, link_text, links_text, lets_front, are_lets_open};

use crate::names::{Inner, Naming, copy_naming, next_name, past, past_link, put_name, with_next};
use crate::pieces::{put, put_count};
use crate::values::{put_before, put_literal, put_quoted};
use crate::words::{Form, iteration_word, kind_name, operator_form, operator_word};
use imkl_model::{ClassModel, ClassNo};
use ocl_base::OutOfMemory;
use ocl_core::{ConstantValue, Core, CoreLink, Operator};
use std::alloc::Global;

/// A tree's text, and whether it stands in parentheses as an operand.
#[derive(Drop)]
pub(crate) struct Text {
    pub(crate) text: String,
    pub(crate) is_open: bool,
}

/// Puts a constant.
pub fn put_constant(
    alloc: Global,
    out: &mut String,
    model: &ClassModel,
    value: &ConstantValue,
) -> Result<(), OutOfMemory>
    requires { IsConstantOf model.now (constant_of value.now) }
    ensures { OnOk result (string_bytes out.new ≡ string_bytes out.old ++
        constant_text model.now (constant_of value.now)) }
{
    match value {
        ConstantValue::Boolean(true) => put(out, "true"),
        ConstantValue::Boolean(false) => put(out, "false"),
        ConstantValue::Integer(number) => put_count(alloc, out, number.get() as usize),
        ConstantValue::Text(text) => put_quoted(alloc, out, text),
        ConstantValue::Literal(enumeration, literal) => {
            put_literal(out, model, *enumeration, *literal)
        }
        ConstantValue::Null => put(out, "null"),
        ConstantValue::Invalid => put(out, "invalid"),
    }
}

/// Puts a text, in parentheses where it has to stand in them.
pub fn put_wrapped(out: &mut String, wraps: bool, text: &str) -> Result<(), OutOfMemory>
    ensures { OnOk result (string_bytes out.new ≡ string_bytes out.old ++ wrapped wraps text.now) }
{
    if !wraps {
        return put(out, text);
    }
    put(out, "(")?;
    put(out, text)?;
    put(out, ")")
}

/// The class that an operator asks for, or nothing.
pub fn class_asked<'m>(model: &'m ClassModel, operator: &Operator) -> &'m str
    requires { IsOperatorOf model.now operator.now }
    ensures { result.now ≡ class_asked model.now operator.now }
{
    match operator {
        Operator::OfClass(_, class) => model.class_name(*class),
        _ => "",
    }
}

/// Puts all instances of a class.
pub fn put_all_instances(
    out: &mut String,
    model: &ClassModel,
    class: ClassNo,
) -> Result<(), OutOfMemory>
    requires { class < length model.now.classes }
    ensures { OnOk result (string_bytes out.new ≡ string_bytes out.old ++
        instances_text model.now class) }
{
    put(out, model.class_name(class))?;
    put(out, ".allInstances()")
}

/// Whether values as variables of a body stand in parentheses as an operand, by whether the body does.
fn is_let_open(values: &[Core], is_open: bool) -> bool
    ensures { result ≡ are_lets_open (map core_view values.now) is_open }
{
    match values {
        [] => is_open,
        _ => true,
    }
}

/// Puts the variables of a fold: the element's, and the accumulator's up to its first value.
fn put_fold_variables(out: &mut String, name: &str, accumulator: &str) -> Result<(), OutOfMemory>
    ensures { OnOk result (string_bytes out.new ≡
        string_bytes out.old ++ fold_front name.now accumulator.now) }
{
    put(out, "->iterate(")?;
    put(out, name)?;
    put(out, "; ")?;
    put(out, accumulator)?;
    put(out, " = ")
}

/// Puts the variables of a fold that are bound next, up to the accumulator's first value.
fn put_fold_front(
    alloc: Global,
    out: &mut String,
    naming: Naming<'_, '_>,
) -> Result<(), OutOfMemory>
    ensures { OnOk result (string_bytes out.new ≡ string_bytes out.old ++ fold_front
        (next_name (naming_view naming.entry))
        (next_name (with_next (naming_view naming.entry)))) }
{
    let name = next_name(alloc, naming)?;
    let outer = with_next(alloc, naming)?;
    let accumulator = next_name(alloc, outer.naming())?;
    put_fold_variables(out, &name, &accumulator)
}

/// The text of a core tree, by the names that are known where it stands.
#[cycle(text)]
#[tactic(auto, using(ocl_core::proofs::ForAbove::views))]
pub(crate) fn text_of(
    alloc: Global,
    model: &ClassModel,
    core: &Core,
    naming: Naming<'_, '_>,
) -> Result<Text, OutOfMemory>
    requires { IsResolved model.now (core_view core.now) }
    ensures text { IfOk result (λ t. string_bytes t.text ≡
        text_of model.now (core_view core.now) (naming_view naming.entry)) }
    ensures wraps { IfOk result (λ t. t.is_open ≡ is_open (core_view core.now)) }
{
    match core {
        Core::Constant { value } => {
            let mut text = String::new(alloc);
            put_constant(alloc, &mut text, model, value)?;
            Ok(Text {
                text,
                is_open: false,
            })
        }
        Core::Variable { number } => {
            let mut text = String::new(alloc);
            put_name(alloc, &mut text, naming, *number)?;
            Ok(Text {
                text,
                is_open: false,
            })
        }
        Core::AllInstances { class } => {
            let mut text = String::new(alloc);
            put_all_instances(&mut text, model, *class)?;
            Ok(Text {
                text,
                is_open: false,
            })
        }
        Core::Spine { first, links } => {
            let text = text_of(alloc, model, first, naming)?;
            let behind = past(first, naming)?;
            links_text(alloc, model, text, links, behind)
        }
        Core::Let { values, body } => {
            let mut text = String::new(alloc);
            let within = put_lets(alloc, &mut text, model, values, naming)?;
            let inner = text_of(alloc, model, body, within.naming())?;
            put(&mut text, &inner.text)?;
            let is_open = is_let_open(values, inner.is_open);
            Ok(Text { text, is_open })
        }
        Core::If {
            condition,
            then_branch,
            else_branch,
            ..
        } => {
            let mut text = String::new(alloc);
            put_after(alloc, &mut text, model, "if ", condition, naming)?;
            let behind = past(condition, naming)?;
            put_after(alloc, &mut text, model, " then ", then_branch, behind)?;
            let last = past(then_branch, behind)?;
            put_after(alloc, &mut text, model, " else ", else_branch, last)?;
            put(&mut text, " endif")?;
            Ok(Text {
                text,
                is_open: false,
            })
        }
    }
}

/// Puts the text of a tree.
#[cycle(text)]
fn put_text(
    alloc: Global,
    out: &mut String,
    model: &ClassModel,
    core: &Core,
    naming: Naming<'_, '_>,
) -> Result<(), OutOfMemory>
    requires { IsResolved model.now (core_view core.now) }
    ensures { OnOk result (string_bytes out.new ≡ string_bytes out.old ++
        text_of model.now (core_view core.now) (naming_view naming.entry)) }
{
    let text = text_of(alloc, model, core, naming)?;
    put(out, &text.text)
}

/// Puts the text of a tree after a word.
#[cycle(text)]
fn put_after(
    alloc: Global,
    out: &mut String,
    model: &ClassModel,
    word: &str,
    core: &Core,
    naming: Naming<'_, '_>,
) -> Result<(), OutOfMemory>
    requires { IsResolved model.now (core_view core.now) }
    ensures { OnOk result (string_bytes out.new ≡ string_bytes out.old ++ (word.now ++
        text_of model.now (core_view core.now) (naming_view naming.entry))) }
{
    put(out, word)?;
    put_text(alloc, out, model, core, naming)
}

/// Puts what stands before the body of values as variables, and answers what is known of names in the body.
#[cycle(text)]
fn put_lets<'n>(
    alloc: Global,
    out: &mut String,
    model: &ClassModel,
    values: &[Core],
    naming: Naming<'n, '_>,
) -> Result<Inner<'n>, OutOfMemory>
    requires { AllByRecursion (IsResolved model.now) (map core_view values.now) }
    ensures text { OnOk result (string_bytes out.new ≡ string_bytes out.old ++
        lets_front model.now (map core_view values.now) (naming_view naming.entry)) }
    ensures names { IfOk result (λ n. inner_view n ≡
        with_all (map core_view values.now) (naming_view naming.entry)) }
{
    let mut inner = copy_naming(alloc, naming)?;
    'values: for value in values {
        inner = put_let(alloc, out, model, value, inner.naming())?;
    }
    Ok(inner)
}

/// The text of values as variables of a body.
pub(crate) fn let_text(
    alloc: Global,
    model: &ClassModel,
    values: &[Core],
    body: &Core,
    naming: Naming<'_, '_>,
) -> Result<String, OutOfMemory>
    requires values { AllByRecursion (IsResolved model.now) (map core_view values.now) }
    requires body { IsResolved model.now (core_view body.now) }
    ensures { IfOk result (λ s. string_bytes s ≡ text_of model.now
        (lets_of (map core_view values.now) (core_view body.now)) (naming_view naming.entry)) }
{
    let mut text = String::new(alloc);
    let within = put_lets(alloc, &mut text, model, values, naming)?;
    let inner = text_of(alloc, model, body, within.naming())?;
    put(&mut text, &inner.text)?;
    Ok(text)
}

/// Puts the first part of a `let`: its variable and its value. It answers what is known of names behind it.
#[cycle(text)]
fn put_let<'n>(
    alloc: Global,
    out: &mut String,
    model: &ClassModel,
    value: &Core,
    naming: Naming<'n, '_>,
) -> Result<Inner<'n>, OutOfMemory>
    requires { IsResolved model.now (core_view value.now) }
    ensures text { OnOk result (string_bytes out.new ≡ string_bytes out.old ++ let_front
        (next_name (past (core_view value.now) (naming_view naming.entry)))
        (text_of model.now (core_view value.now) (naming_view naming.entry))) }
    ensures names { IfOk result (λ n. inner_view n ≡
        with_next (past (core_view value.now) (naming_view naming.entry))) }
{
    let behind = past(value, naming)?;
    let name = next_name(alloc, behind)?;
    put(out, "let ")?;
    put(out, &name)?;
    put(out, " = ")?;
    put_text(alloc, out, model, value, naming)?;
    put(out, " in ")?;
    with_next(alloc, behind)
}

/// The text of links on a first operand, by the names that are known behind that.
#[cycle(text)]
fn links_text(
    alloc: Global,
    model: &ClassModel,
    first: Text,
    links: &[CoreLink],
    naming: Naming<'_, '_>,
) -> Result<Text, OutOfMemory>
    requires { AreLinksResolved model.now links.now }
    ensures { IfOk result (λ t. written_text t ≡
        links_text model.now (naming_view naming.entry) links.now (written_text first)) }
{
    let mut text = first;
    let mut behind = naming;
    'links: for link in links {
        text = link_text(alloc, model, link, behind, &text)?;
        behind = past_link(link, behind)?;
    }
    Ok(text)
}

/// The text of a first operand with its links.
pub(crate) fn spine_text(
    alloc: Global,
    model: &ClassModel,
    first: &Core,
    links: &[CoreLink],
    naming: Naming<'_, '_>,
) -> Result<Text, OutOfMemory>
    requires first { IsResolved model.now (core_view first.now) }
    requires links { AreLinksResolved model.now links.now }
    ensures { IfOk result (λ t. written_text t ≡ tree_text model.now
        (core_spine (core_view first.now) (map core_link_of links.now))
        (naming_view naming.entry)) }
{
    let text = text_of(alloc, model, first, naming)?;
    let behind = past(first, naming)?;
    links_text(alloc, model, text, links, behind)
}

/// The text of a link on a first operand, by the names that are known behind that.
#[cycle(text)]
pub(crate) fn link_text(
    alloc: Global,
    model: &ClassModel,
    link: &CoreLink,
    naming: Naming<'_, '_>,
    first: &Text,
) -> Result<Text, OutOfMemory>
    requires { IsLinkResolved model.now link.now }
    ensures { IfOk result (λ t. written_text t ≡
        link_text model.now (naming_view naming.entry) link.now (written_text first.now)) }
{
    let mut text = String::new(alloc);
    let is_open = match link {
        CoreLink::Operation { operator, .. } => operator_form(*operator).is_open(),
        _ => false,
    };
    put_link(alloc, &mut text, model, link, naming, first)?;
    Ok(Text { text, is_open })
}

/// Puts a first operand with a link on it.
#[cycle(text)]
#[tactic(auto, using(ocl_core::proofs::ForAbove::views))]
fn put_link(
    alloc: Global,
    out: &mut String,
    model: &ClassModel,
    link: &CoreLink,
    naming: Naming<'_, '_>,
    first: &Text,
) -> Result<(), OutOfMemory>
    requires { IsLinkResolved model.now link.now }
    ensures { OnOk result (string_bytes out.new ≡ string_bytes out.old ++ node_text model.now
        (on_null link.now) (naming_view naming.entry)
        (wrapped first.now.is_open (string_bytes first.now.text))) }
{
    match link {
        CoreLink::Feature { feature } => {
            put_wrapped(out, first.is_open, &first.text)?;
            put(out, ".")?;
            put(out, model.feature_info(*feature).name.as_str())
        }
        CoreLink::Operation { operator, others } => {
            put_operation(alloc, out, model, operator, others, naming, first)
        }
        CoreLink::AsCollection { collection, .. } => {
            put_wrapped(out, first.is_open, &first.text)?;
            put(out, "->as")?;
            put(out, kind_name(*collection))?;
            put(out, "()")
        }
        CoreLink::Iterate { iteration, body } => {
            put_wrapped(out, first.is_open, &first.text)?;
            put(out, iteration_word(*iteration))?;
            put_body(alloc, out, model, body, naming)
        }
        CoreLink::Fold { start, body, .. } => {
            put_wrapped(out, first.is_open, &first.text)?;
            let behind = past(start, naming)?;
            put_fold_front(alloc, out, behind)?;
            put_text(alloc, out, model, start, naming)?;
            put_fold_body(alloc, out, model, body, behind)
        }
    }
}

/// Puts the variable of an iteration and its body, up to the parenthesis.
#[cycle(text)]
fn put_body(
    alloc: Global,
    out: &mut String,
    model: &ClassModel,
    body: &Core,
    naming: Naming<'_, '_>,
) -> Result<(), OutOfMemory>
    requires { IsResolved model.now (core_view body.now) }
    ensures { OnOk result (string_bytes out.new ≡ string_bytes out.old ++ body_text model.now
        (core_view body.now) (naming_view naming.entry)) }
{
    let name = next_name(alloc, naming)?;
    let within = with_next(alloc, naming)?;
    put(out, &name)?;
    put(out, " | ")?;
    put_text(alloc, out, model, body, within.naming())?;
    put(out, ")")
}

/// Puts the body of a fold behind its start, up to the parenthesis, by the names that are known behind the start.
#[cycle(text)]
fn put_fold_body(
    alloc: Global,
    out: &mut String,
    model: &ClassModel,
    body: &Core,
    naming: Naming<'_, '_>,
) -> Result<(), OutOfMemory>
    requires { IsResolved model.now (core_view body.now) }
    ensures { OnOk result (string_bytes out.new ≡ string_bytes out.old ++ fold_body_text
        model.now (core_view body.now) (naming_view naming.entry)) }
{
    let outer = with_next(alloc, naming)?;
    let within = with_next(alloc, outer.naming())?;
    put(out, " | ")?;
    put_text(alloc, out, model, body, within.naming())?;
    put(out, ")")
}

/// Puts an operation on a first operand.
#[cycle(text)]
fn put_operation(
    alloc: Global,
    out: &mut String,
    model: &ClassModel,
    operator: &Operator,
    others: &[Core],
    naming: Naming<'_, '_>,
    first: &Text,
) -> Result<(), OutOfMemory>
    requires operator { IsOperatorOf model.now operator.now }
    requires others { AreResolved model.now (cores_of (map core_view others.now)) }
    ensures { OnOk result (string_bytes out.new ≡ string_bytes out.old ++ operation_text
        (operator_form operator.now) (operator_word operator.now)
        (class_asked model.now operator.now)
        (wrapped first.now.is_open (string_bytes first.now.text))
        (others_text model.now (is_form_open (operator_form operator.now)) 0
        (cores_of (map core_view others.now)) (naming_view naming.entry))) }
{
    let word = operator_word(*operator);
    match operator_form(*operator) {
        Form::Between => {
            put_wrapped(out, first.is_open, &first.text)?;
            put(out, word)?;
            put_others(alloc, out, model, true, others, naming)
        }
        Form::Before => {
            put(out, word)?;
            put_wrapped(out, first.is_open, &first.text)?;
            put_others(alloc, out, model, true, others, naming)
        }
        Form::After => {
            put_wrapped(out, first.is_open, &first.text)?;
            put(out, word)?;
            put(out, "(")?;
            put(out, class_asked(model, operator))?;
            put_others(alloc, out, model, false, others, naming)?;
            put(out, ")")
        }
    }
}

/// Puts the operands after the first.
#[cycle(text)]
fn put_others(
    alloc: Global,
    out: &mut String,
    model: &ClassModel,
    wraps: bool,
    others: &[Core],
    naming: Naming<'_, '_>,
) -> Result<(), OutOfMemory>
    requires { AreResolved model.now (cores_of (map core_view others.now)) }
    ensures { OnOk result (string_bytes out.new ≡ string_bytes out.old ++ others_text model.now
        wraps 0 (cores_of (map core_view others.now)) (naming_view naming.entry)) }
{
    let mut behind = naming;
    'others: for index in 0..others.len() {
        put_before(out, index)?;
        let text = text_of(alloc, model, &others[index], behind)?;
        put_wrapped(out, wraps && text.is_open, &text.text)?;
        behind = past(&others[index], behind)?;
    }
    Ok(())
}
