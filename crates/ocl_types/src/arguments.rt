//! Bare names in the tree, and arguments that are names of classes.

ghost use Rattle.std.specs.Prelude.{◌≡◌, ◌<◌, length, None, Err, IfOk, map, option_map, if◌then◌else◌};
ghost use Rattle.imkl_model.specs.ClassModel.{class_number};
ghost use Rattle.ocl_base.specs.Steps.{Gives, found};
ghost use Rattle.ocl_text.specs.Tree.{SurfaceTree, trees_of};
ghost use Rattle.ocl_text.specs.View.{view, link_of};
ghost use Rattle.ocl_types.specs.CallView.{AreKnownClasses};
ghost use Rattle.ocl_types.specs.Elaboration as spec;
ghost use Rattle.ocl_types.specs.declared.fault.TypeFault.TheVariants.{At};
ghost use Rattle.ocl_types.specs.declared.fault.TypeFlaw.TheVariants.{UnknownName};
ghost use Rattle.ocl_types.specs.Faults.{type_fault, type_fault_at};
ghost use Rattle.ocl_types.specs.Walk as walk;

use crate::fault::{TypeFault, TypeFlaw};
use imkl_model::{ClassModel, ClassNo};
use ocl_text::{Expression, Link, Name, Navigation};
use std::alloc::Global;

/// The name that an expression is, with its offset.
#[tactic(auto, using(ocl_text::proofs::ForAbove::views, crate::proofs::Links::spine_is_no_name))]
pub(crate) fn as_name(expression: &Expression) -> Option<(&Name, usize)>
    ensures { option_map (λ x. (x.0.now, x.1)) result ≡ spec.as_name (view expression.now) }
{
    match expression {
        Expression::Name { name, offset } => Some((name, *offset)),
        Expression::Spine { first, links } => {
            if links.is_empty() {
                as_name(first)
            } else {
                None
            }
        }
        _ => None,
    }
}

/// The class of this name, which stands at the offset.
#[inline(never)]
pub(crate) fn known_class(
    model: &ClassModel,
    name: &str,
    offset: usize,
) -> Result<ClassNo, TypeFault>
    ensures gives { Gives type_fault (λ c. c) result
        (found (class_number model.now name.now) (type_fault_at UnknownName offset)) }
    ensures known { IfOk result (λ c. c < length model.now.classes) }
    ensures unknown { class_number model.now name.now ≡ None
        → result ≡ Err (At UnknownName offset) }
{
    match model.class(name) {
        Some(class) => Ok(class),
        None => Err(TypeFault::At {
            flaw: TypeFlaw::UnknownName,
            offset,
        }),
    }
}

fn class_of_argument(model: &ClassModel, argument: &Expression) -> Result<ClassNo, TypeFault>
    ensures gives { Gives type_fault (λ c. c) result
        (spec.class_of_argument model.now (view argument.now)) }
    ensures known { IfOk result (λ c. c < length model.now.classes) }
{
    match as_name(argument) {
        Some((name, offset)) => known_class(model, name.as_str(), offset),
        None => Err(TypeFault::At {
            flaw: TypeFlaw::UnknownName,
            offset: argument.offset(),
        }),
    }
}

/// The classes that arguments name.
#[tactic(auto, unfolding(crate::specs::Elaboration::classes_of_arguments), using(crate::proofs::Several::several))]
#[inline(never)]
pub(crate) fn classes_of_arguments(
    alloc: Global,
    model: &ClassModel,
    arguments: &[Expression],
) -> Result<Vec<ClassNo>, TypeFault>
    ensures gives { Gives type_fault (λ v. v.items) result
        (spec.classes_of_arguments model.now (trees_of (map view arguments.now))) }
    ensures known { IfOk result (λ v. AreKnownClasses model.now v.items) }
{
    let mut classes = Vec::new(alloc);
    'arguments: for argument in arguments {
        classes.push(class_of_argument(model, argument)?)?;
    }
    Ok(classes)
}

/// Whether a link is `.allInstances(..)`.
#[tactic(auto, using(ocl_text::proofs::ForAbove::views))]
fn is_all_instances(link: &Link) -> bool
    ensures { (left : SurfaceTree) → walk.class_of_call (link_of link.now left)
        ≡ (if result then spec.as_name left else None) }
{
    match link {
        Link::Call {
            navigation: Navigation::Dot,
            name,
            ..
        } => name.as_str() == "allInstances",
        _ => false,
    }
}

/// The name of the class in `C.allInstances(..)`, with its offset, where an operand and its first link are that.
#[inline(never)]
pub(crate) fn class_before_links<'t>(
    first: &'t Expression,
    links: &[Link],
) -> Option<(&'t Name, usize)>
    ensures { option_map (λ x. (x.0.now, x.1)) result
        ≡ walk.class_before_links (view first.now) links.now }
{
    match links.first() {
        Some(link) if is_all_instances(link) => as_name(first),
        _ => None,
    }
}
