//! The walk over a rule's expression: children before their node, left before right.
//!
//! Hundreds of its calls can wait for one another, so their frames are small. Values are boxed, and what makes nodes of them
//! isn't inlined, nor what handles a `let` or an `if`.

ghost use Rattle.std.specs.Prelude.{◌≡◌, map, drop, All, Some, None, Ok, IfOk, OnOk};
ghost use Rattle.ocl_base.specs.Steps.{Gives};
ghost use Rattle.ocl_kinds.specs.Kinds.{IsScalarKindOf, IsKindOf};
ghost use Rattle.ocl_text.specs.Tree as tree;
ghost use Rattle.ocl_text.specs.Tree.{SurfaceTree, trees_of, offset_of};
ghost use Rattle.ocl_text.specs.View.{view, bound_of, link_of, view_variable, view_variables};
ghost use Rattle.ocl_types.specs.CallView.{values_view, arguments_view, AreKnownArguments};
ghost use Rattle.ocl_core.specs.CoreView.{core_view};
ghost use Rattle.ocl_types.specs.TypedView.{typed_in};
ghost use Rattle.ocl_types.specs.Elaboration as spec;
ghost use Rattle.ocl_types.specs.EnvironmentView.{IsEnvironment, within};
ghost use Rattle.ocl_types.specs.Faults.{type_fault};
ghost use Rattle.ocl_types.specs.FoldView.{start_in, begun_in};
ghost use Rattle.ocl_types.specs.Operators.{class_operator};
ghost use Rattle.ocl_types.specs.Scope as names;
ghost use Rattle.ocl_types.specs.ScopeView.{AreKnownVariables, Extends};
ghost use Rattle.ocl_types.specs.Walk as walk;
ghost use Rattle.ocl_types.specs.Walk.{IsLet, IsIf, IsLeft, class_of_call, binary_after, call_after, iterate_after};

use crate::arguments::{class_before_links, classes_of_arguments, known_class};
use crate::boxed;
use crate::calls::{Arguments, Values, instances_call};
use crate::declared::declared_kind;
use crate::environment::Environment;
use crate::fault::TypeFault;
use crate::folds::{Begun, Start, accumulator_kind, push_both};
use crate::iterations::{declared_element, push_after_dot, push_variables};
use crate::lets::let_of;
use crate::names::{keyword_value, literal_value, name_value, number_value, text_value};
use crate::operators::left_of;
use crate::requirements::{asks_truth, bound_value, source_of_arrow};
use crate::scope::Scope;
use crate::table::class_operator;
use crate::typed::Typed;
use ocl_core::Core;
use ocl_kinds::{Kind, ScalarKind};
use ocl_text::{
    BinaryOperator, Binding, Expression, IteratorKind, Link, Name, Navigation, Variable, Variables,
};
use std::alloc::Global;

/// What an expression is elaborated to, with the kind of its value, or its first fault.
#[cycle(walk)]
#[tactic(auto, unfolding(crate::specs::Elaboration::elaborate), using(ocl_text::proofs::ForAbove::views))]
pub(crate) fn elaborate<'t>(
    alloc: Global,
    environment: &Environment<'_>,
    scope: &mut Scope<'t>,
    expression: &'t Expression,
) -> Result<Box<Typed>, TypeFault>
    requires { IsEnvironment environment.now scope.old }
    ensures gives { Gives type_fault typed_in result
        (within environment.now spec.elaborate scope.old (view expression.now)) }
    ensures known { IfOk result (λ b. IsKindOf environment.now.model.now b.value.kind) }
    ensures kept { OnOk result (scope.new ≡ scope.old) }
{
    let model = environment.model;
    match expression {
        Expression::Number { value, .. } => number_value(alloc, value),
        Expression::String { value, .. } => text_value(alloc, value.as_str()),
        Expression::Keyword { keyword, .. } => {
            keyword_value(alloc, environment.context, *keyword)
        }
        Expression::Name { name, offset } => {
            name_value(alloc, model, scope, name.as_str(), *offset)
        }
        Expression::EnumerationLiteral {
            enumeration,
            literal,
            offset,
        } => literal_value(
            alloc,
            model,
            enumeration.as_str(),
            literal.as_str(),
            *offset,
        ),
        Expression::Prefix {
            operator,
            operand,
            offset,
        } => {
            let operand_offset = operand.offset();
            let value = elaborate(alloc, environment, scope, operand)?;
            boxed::prefix_of(alloc, model, *operator, value, operand_offset, *offset)
        }
        Expression::Spine { first, links } => match class_before_links(first, links) {
            Some((class, at)) => {
                let link = &links[0];
                let value = instances_link(alloc, environment, scope, link, class, at)?;
                links_after(alloc, environment, scope, links, 1, value, link.offset())
            }
            None => {
                let left = elaborate(alloc, environment, scope, first)?;
                links_after(alloc, environment, scope, links, 0, left, first.offset())
            }
        },
        Expression::Let { .. } => let_value(alloc, environment, scope, expression),
        Expression::If { .. } => if_value(alloc, environment, scope, expression),
    }
}

/// What a `let` is elaborated to.
#[cycle(walk)]
#[tactic(auto, unfolding(crate::specs::Elaboration::elaborate), using(ocl_text::proofs::ForAbove::views))]
#[inline(never)]
fn let_value<'t>(
    alloc: Global,
    environment: &Environment<'_>,
    scope: &mut Scope<'t>,
    expression: &'t Expression,
) -> Result<Box<Typed>, TypeFault>
    requires environment { IsEnvironment environment.now scope.old }
    requires expression { IsLet expression.now }
    ensures gives { Gives type_fault typed_in result
        (within environment.now spec.elaborate scope.old (view expression.now)) }
    ensures known { IfOk result (λ b. IsKindOf environment.now.model.now b.value.kind) }
    ensures kept { OnOk result (scope.new ≡ scope.old) }
{
    let Expression::Let {
        first,
        others,
        body,
        ..
    } = expression
    else {
        unreachable!()
    };
    let outside = scope.len();
    let outer = bind_one(alloc, environment, scope, first)?;
    let values = bind_others(alloc, environment, scope, others, outer)?;
    let value = elaborate(alloc, environment, scope, body)?;
    scope.cut(outside);
    Ok(let_of(alloc, values, value)?)
}

/// What an `if` is elaborated to.
#[cycle(walk)]
#[tactic(auto, unfolding(crate::specs::Elaboration::elaborate), using(ocl_text::proofs::ForAbove::views))]
#[inline(never)]
fn if_value<'t>(
    alloc: Global,
    environment: &Environment<'_>,
    scope: &mut Scope<'t>,
    expression: &'t Expression,
) -> Result<Box<Typed>, TypeFault>
    requires environment { IsEnvironment environment.now scope.old }
    requires expression { IsIf expression.now }
    ensures gives { Gives type_fault typed_in result
        (within environment.now spec.elaborate scope.old (view expression.now)) }
    ensures known { IfOk result (λ b. IsKindOf environment.now.model.now b.value.kind) }
    ensures kept { OnOk result (scope.new ≡ scope.old) }
{
    let Expression::If {
        condition,
        then_branch,
        else_branch,
        offset,
    } = expression
    else {
        unreachable!()
    };
    let model = environment.model;
    let truth = elaborate(alloc, environment, scope, condition)?;
    asks_truth(model, &truth.kind, condition.offset())?;
    let one = elaborate(alloc, environment, scope, then_branch)?;
    let other = elaborate(alloc, environment, scope, else_branch)?;
    boxed::if_of(alloc, model, truth, one, other, *offset)
}

/// The values of several arguments.
#[cycle(walk)]
#[tactic(auto, unfolding(crate::specs::Elaboration::elaborates), using(crate::proofs::Several::several))]
#[inline(never)]
fn elaborate_all<'t>(
    alloc: Global,
    environment: &Environment<'_>,
    scope: &mut Scope<'t>,
    arguments: &'t [Expression],
) -> Result<Values, TypeFault>
    requires { IsEnvironment environment.now scope.old }
    ensures gives { Gives type_fault values_view result
        (within environment.now spec.elaborates scope.old (trees_of (map view arguments.now))) }
    ensures known { IfOk result (λ v. All (IsKindOf environment.now.model.now) v.kinds.items) }
    ensures kept { OnOk result (scope.new ≡ scope.old) }
{
    let mut cores = Vec::new(alloc);
    let mut kinds = Vec::new(alloc);
    'arguments: for argument in arguments {
        let value = elaborate(alloc, environment, scope, argument)?;
        let Typed { core, kind } = Box::into_inner(value);
        cores.push(core)?;
        kinds.push(kind)?;
    }
    Ok(Values { cores, kinds })
}

/// The arguments of a call of this name.
#[cycle(walk)]
#[inline(never)]
fn arguments_of<'t>(
    alloc: Global,
    environment: &Environment<'_>,
    scope: &mut Scope<'t>,
    name: &str,
    arguments: &'t [Expression],
) -> Result<Arguments, TypeFault>
    requires { IsEnvironment environment.now scope.old }
    ensures gives { Gives type_fault arguments_view result (spec.arguments_of
        (class_operator name.now)
        (spec.classes_of_arguments environment.now.model.now (trees_of (map view arguments.now)))
        (within environment.now spec.elaborates scope.old
        (trees_of (map view arguments.now)))) }
    ensures known { IfOk result (AreKnownArguments environment.now.model.now) }
    ensures kept { OnOk result (scope.new ≡ scope.old) }
{
    match class_operator(name) {
        Some(operator) => {
            let classes = classes_of_arguments(alloc, environment.model, arguments)?;
            Ok(Arguments::Classes(operator, classes))
        }
        None => {
            let values = elaborate_all(alloc, environment, scope, arguments)?;
            Ok(Arguments::Values(values))
        }
    }
}

/// An operator with its right operand, after a left operand at its own offset.
#[cycle(walk)]
#[inline(never)]
fn binary_link<'t>(
    alloc: Global,
    environment: &Environment<'_>,
    scope: &mut Scope<'t>,
    operator: BinaryOperator,
    right: &'t Expression,
    offset: usize,
    left: Box<Typed>,
    left_offset: usize,
) -> Result<Box<Typed>, TypeFault>
    requires environment { IsEnvironment environment.now scope.old }
    requires left { IsKindOf environment.now.model.now left.value.kind }
    ensures gives { Gives type_fault typed_in result (within environment.now binary_after
        scope.old operator (typed_in left) left_offset (view right.now) offset) }
    ensures known { IfOk result (λ b. IsKindOf environment.now.model.now b.value.kind) }
    ensures kept { OnOk result (scope.new ≡ scope.old) }
{
    left_of(environment.model, operator, &left.kind, left_offset)?;
    let other = elaborate(alloc, environment, scope, right)?;
    boxed::binary_of(
        alloc,
        environment.model,
        operator,
        left,
        other,
        right.offset(),
        offset,
    )
}

/// A call by a dot or an arrow on a value.
#[cycle(walk)]
#[tactic(auto, unfolding(crate::specs::Elaboration::call_of))]
#[inline(never)]
fn call_link<'t>(
    alloc: Global,
    environment: &Environment<'_>,
    scope: &mut Scope<'t>,
    navigation: Navigation,
    name: &str,
    arguments: &'t [Expression],
    offset: usize,
    left: Box<Typed>,
) -> Result<Box<Typed>, TypeFault>
    requires environment { IsEnvironment environment.now scope.old }
    requires left { IsKindOf environment.now.model.now left.value.kind }
    ensures gives { Gives type_fault typed_in result (within environment.now call_after
        scope.old (spec.OfValue (typed_in left)) navigation name.now
        (trees_of (map view arguments.now)) offset) }
    ensures known { IfOk result (λ b. IsKindOf environment.now.model.now b.value.kind) }
    ensures kept { OnOk result (scope.new ≡ scope.old) }
{
    let model = environment.model;
    match navigation {
        Navigation::Dot => {
            let outside = scope.len();
            push_after_dot(model, scope, &left.kind)?;
            let values = arguments_of(alloc, environment, scope, name, arguments)?;
            scope.cut(outside);
            boxed::dot_call(alloc, model, outside, left, name, values, offset)
        }
        Navigation::Arrow => {
            let values = arguments_of(alloc, environment, scope, name, arguments)?;
            boxed::arrow_call(alloc, model, left, name, values, offset)
        }
    }
}

/// An iteration over a value.
#[cycle(walk)]
#[inline(never)]
fn iterate_link<'t>(
    alloc: Global,
    environment: &Environment<'_>,
    scope: &mut Scope<'t>,
    iterator: IteratorKind,
    variables: &'t Variables,
    body: &'t Expression,
    left: Box<Typed>,
    offset: usize,
) -> Result<Box<Typed>, TypeFault>
    requires environment { IsEnvironment environment.now scope.old }
    requires left { IsKindOf environment.now.model.now left.value.kind }
    ensures gives { Gives type_fault typed_in result (within environment.now iterate_after
        scope.old iterator (typed_in left) (view_variables variables.now) (view body.now) offset) }
    ensures known { IfOk result (λ b. IsKindOf environment.now.model.now b.value.kind) }
    ensures kept { OnOk result (scope.new ≡ scope.old) }
{
    let model = environment.model;
    let source = source_of_arrow(alloc, Box::into_inner(left))?;
    let outside = scope.len();
    push_variables(model, scope, &source, variables)?;
    let value = elaborate(alloc, environment, scope, body)?;
    scope.cut(outside);
    boxed::iterate_of(
        alloc,
        model,
        outside,
        iterator,
        source,
        variables,
        value,
        body.offset(),
    )
}

/// The start value of an accumulator.
#[cycle(walk)]
#[inline(never)]
fn start_of<'t>(
    alloc: Global,
    environment: &Environment<'_>,
    scope: &mut Scope<'t>,
    accumulator: &'t Binding,
) -> Result<Box<Start>, TypeFault>
    requires { IsEnvironment environment.now scope.old }
    ensures gives { Gives type_fault start_in result
        (within environment.now walk.start_of scope.old (bound_of accumulator.now)) }
    ensures known { IfOk result (λ b. IsScalarKindOf environment.now.model.now b.value.kind) }
    ensures kept { OnOk result (scope.new ≡ scope.old) }
{
    let model = environment.model;
    let kind = accumulator_kind(model, &accumulator.declared)?;
    let value = elaborate(alloc, environment, scope, &accumulator.value)?;
    let value = Box::into_inner(value);
    let offset = accumulator.declared.offset();
    let core = bound_value(alloc, model, &Kind::Scalar(kind), value, offset)?;
    Ok(Box::new(alloc, Start { kind, core })?)
}

/// What a fold over a value has before its body.
#[cycle(walk)]
#[inline(never)]
fn fold_begun<'t>(
    alloc: Global,
    environment: &Environment<'_>,
    scope: &mut Scope<'t>,
    variable: &'t Variable,
    accumulator: &'t Binding,
    left: Box<Typed>,
) -> Result<Box<Begun>, TypeFault>
    requires environment { IsEnvironment environment.now scope.old }
    requires left { IsKindOf environment.now.model.now left.value.kind }
    ensures gives { Gives type_fault begun_in result (within environment.now walk.fold_begun
        scope.old (typed_in left) (view_variable variable.now) (bound_of accumulator.now)) }
    ensures element { IfOk result (λ b. IsKindOf environment.now.model.now b.value.element) }
    ensures start { IfOk result (λ b. IsScalarKindOf environment.now.model.now b.value.start.value.kind) }
    ensures kept { OnOk result (scope.new ≡ scope.old) }
{
    let model = environment.model;
    let source = source_of_arrow(alloc, Box::into_inner(left))?;
    let element = declared_element(model, source.element, &variable.declared)?;
    let start = start_of(alloc, environment, scope, accumulator)?;
    let begun = Begun {
        source,
        element,
        start,
    };
    Ok(Box::new(alloc, begun)?)
}

/// What the accumulator of a fold becomes at each element, which is of this kind.
#[cycle(walk)]
#[inline(never)]
fn fold_body<'t>(
    alloc: Global,
    environment: &Environment<'_>,
    scope: &mut Scope<'t>,
    variable: &'t Name,
    element: Kind,
    accumulator: &'t Name,
    kind: ScalarKind,
    body: &'t Expression,
) -> Result<Box<Typed>, TypeFault>
    requires environment { IsEnvironment environment.now scope.old }
    requires element { IsKindOf environment.now.model.now element }
    requires kind { IsScalarKindOf environment.now.model.now kind }
    ensures gives { Gives type_fault typed_in result (within environment.now spec.elaborate
        (spec.fold_scope scope.old (names.scope_variable (names.Named variable.now) element)
        accumulator.now kind) (view body.now)) }
    ensures known { IfOk result (λ b. IsKindOf environment.now.model.now b.value.kind) }
    ensures kept { OnOk result (scope.new ≡ scope.old) }
{
    let outside = scope.len();
    push_both(
        environment.model,
        scope,
        variable,
        element,
        accumulator,
        kind,
    )?;
    let value = elaborate(alloc, environment, scope, body)?;
    scope.cut(outside);
    Ok(value)
}

/// A fold of which the body is left.
#[cycle(walk)]
#[inline(never)]
fn fold_link<'t>(
    alloc: Global,
    environment: &Environment<'_>,
    scope: &mut Scope<'t>,
    variable: &'t Name,
    accumulator: &'t Name,
    begun: Box<Begun>,
    body: &'t Expression,
) -> Result<Box<Typed>, TypeFault>
    requires environment { IsEnvironment environment.now scope.old }
    requires element { IsKindOf environment.now.model.now begun.value.element }
    requires start { IsScalarKindOf environment.now.model.now begun.value.start.value.kind }
    ensures gives { Gives type_fault typed_in result (within environment.now walk.fold_rest
        scope.old variable.now accumulator.now (begun_in begun) (view body.now)) }
    ensures known { IfOk result (λ b. IsKindOf environment.now.model.now b.value.kind) }
    ensures kept { OnOk result (scope.new ≡ scope.old) }
{
    let Begun {
        source,
        element,
        start,
    } = Box::into_inner(begun);
    let kind = start.kind;
    let value = fold_body(
        alloc,
        environment,
        scope,
        variable,
        element,
        accumulator,
        kind,
        body,
    )?;
    boxed::fold_of(
        alloc,
        environment.model,
        source,
        start,
        value,
        body.offset(),
    )
}

/// A link after what stands on its left, which isn't a class before `.allInstances`.
#[cycle(walk)]
fn link_after<'t>(
    alloc: Global,
    environment: &Environment<'_>,
    scope: &mut Scope<'t>,
    link: &'t Link,
    left: Box<Typed>,
    left_offset: usize,
) -> Result<Box<Typed>, TypeFault>
    requires environment { IsEnvironment environment.now scope.old }
    requires left { IsKindOf environment.now.model.now left.value.kind }
    ensures gives { (tree : SurfaceTree)
        → within environment.now spec.elaborate scope.old tree ≡ Ok (typed_in left)
        → offset_of tree ≡ left_offset → class_of_call (link_of link.now tree) ≡ None
        → Gives type_fault typed_in result
        (within environment.now spec.elaborate scope.old (link_of link.now tree)) }
    ensures known { IfOk result (λ b. IsKindOf environment.now.model.now b.value.kind) }
    ensures kept { OnOk result (scope.new ≡ scope.old) }
{
    let model = environment.model;
    match link {
        Link::Binary {
            operator,
            right,
            offset,
        } => binary_link(
            alloc,
            environment,
            scope,
            *operator,
            right,
            *offset,
            left,
            left_offset,
        ),
        Link::Property { name, offset } => {
            boxed::property_of(alloc, model, scope.len(), left, name.as_str(), *offset)
        }
        Link::Call {
            navigation,
            name,
            arguments,
            offset,
        } => {
            let name = name.as_str();
            call_link(
                alloc,
                environment,
                scope,
                *navigation,
                name,
                arguments,
                *offset,
                left,
            )
        }
        Link::Iterate {
            iterator,
            variables,
            body,
            offset,
        } => iterate_link(
            alloc,
            environment,
            scope,
            *iterator,
            variables,
            body,
            left,
            *offset,
        ),
        Link::Fold {
            variable,
            accumulator,
            body,
            ..
        } => {
            let begun = fold_begun(alloc, environment, scope, variable, accumulator, left)?;
            let accumulator = &accumulator.name;
            fold_link(
                alloc,
                environment,
                scope,
                &variable.name,
                accumulator,
                begun,
                body,
            )
        }
    }
}

/// `allInstances` on a class of this name.
#[cycle(walk)]
#[inline(never)]
fn instances_link<'t>(
    alloc: Global,
    environment: &Environment<'_>,
    scope: &mut Scope<'t>,
    link: &'t Link,
    class: &Name,
    class_offset: usize,
) -> Result<Box<Typed>, TypeFault>
    requires environment { IsEnvironment environment.now scope.old }
    requires call { class_of_call (link_of link.now (tree.Name class.now class_offset))
        ≡ Some (class.now, class_offset) }
    ensures gives { Gives type_fault typed_in result (within environment.now spec.elaborate
        scope.old (link_of link.now (tree.Name class.now class_offset))) }
    ensures known { IfOk result (λ b. IsKindOf environment.now.model.now b.value.kind) }
    ensures kept { OnOk result (scope.new ≡ scope.old) }
{
    let Link::Call {
        name,
        arguments,
        offset,
        ..
    } = link
    else {
        unreachable!()
    };
    let class = known_class(environment.model, class.as_str(), class_offset)?;
    let values = arguments_of(alloc, environment, scope, name.as_str(), arguments)?;
    instances_call(alloc, class, &values, *offset)
}

/// The links from an index on, one after another, where this stands on their left.
#[cycle(walk)]
fn links_after<'t>(
    alloc: Global,
    environment: &Environment<'_>,
    scope: &mut Scope<'t>,
    links: &'t [Link],
    from: usize,
    left: Box<Typed>,
    left_offset: usize,
) -> Result<Box<Typed>, TypeFault>
    requires environment { IsEnvironment environment.now scope.old }
    requires left { IsKindOf environment.now.model.now left.value.kind }
    ensures gives { (tree : SurfaceTree)
        → IsLeft environment.now.model.now environment.now.context scope.old tree
        (drop from links.now) (typed_in left) left_offset
        → Gives type_fault typed_in result
        (within environment.now spec.elaborate scope.old tree) }
    ensures known { IfOk result (λ b. IsKindOf environment.now.model.now b.value.kind) }
    ensures kept { OnOk result (scope.new ≡ scope.old) }
{
    let mut value = left;
    let mut offset = left_offset;
    'links: for i in from..links.len() {
        let link = &links[i];
        value = link_after(alloc, environment, scope, link, value, offset)?;
        offset = link.offset();
    }
    Ok(value)
}

/// The value of a variable of a `let`, which the scope ends with from then on.
#[cycle(walk)]
#[inline(never)]
fn bind_one<'t>(
    alloc: Global,
    environment: &Environment<'_>,
    scope: &mut Scope<'t>,
    binding: &'t Binding,
) -> Result<Core, TypeFault>
    requires { IsEnvironment environment.now scope.old }
    ensures gives { Gives type_fault (λ c. walk.bound_core scope.new (core_view c)) result
        (within environment.now walk.bind_one scope.old (bound_of binding.now)) }
    ensures known { OnOk result (AreKnownVariables environment.now.model.now scope.new) }
    ensures extends { OnOk result (Extends scope.old scope.new) }
{
    let model = environment.model;
    let kind = declared_kind(model, &binding.declared)?;
    let value = elaborate(alloc, environment, scope, &binding.value)?;
    let value = Box::into_inner(value);
    let value = bound_value(alloc, model, &kind, value, binding.declared.offset())?;
    scope.push_named(&binding.name, kind)?;
    Ok(value)
}

/// The values of several variables of a `let`, each seen by those after it, behind that of a first one.
#[cycle(walk)]
#[inline(never)]
fn bind_others<'t>(
    alloc: Global,
    environment: &Environment<'_>,
    scope: &mut Scope<'t>,
    bindings: &'t [Binding],
    first: Core,
) -> Result<Vec<Core>, TypeFault>
    requires { IsEnvironment environment.now scope.old }
    ensures gives { Gives type_fault
        (λ v. walk.bound_cores scope.new (map core_view v.items)) result
        (within environment.now walk.bind_others scope.old (map bound_of bindings.now)
        (core_view first)) }
    ensures known { OnOk result (AreKnownVariables environment.now.model.now scope.new) }
    ensures extends { OnOk result (Extends scope.old scope.new) }
{
    let mut values = Vec::new(alloc);
    values.push(first)?;
    'bindings: for binding in bindings {
        let value = bind_one(alloc, environment, scope, binding)?;
        values.push(value)?;
    }
    Ok(values)
}
