//! The extent of the code of core trees.

ghost use Rattle.std.specs.Prelude.{◌≡◌, map};
ghost use Rattle.ocl_core.specs.Core.{CoreTree, lets_of};
ghost use Rattle.ocl_core.specs.CoreView.{core_view, core_link_of};
ghost use Rattle.ocl_compile.specs.Extents.{extent_of, cut_extent};

use crate::extent::Extent;
use ocl_core::{Core, CoreLink};

/// The extent of the code of a core tree.
#[cycle(measuring)]
pub(crate) fn measure(core: &Core) -> Extent
    ensures { result ≡ cut_extent (extent_of (core_view core.now)) }
{
    match core {
        Core::Constant { .. } | Core::Variable { .. } | Core::AllInstances { .. } => Extent::one(),
        Core::Spine { first, links } => {
            let mut extent = measure(first);
            for link in links {
                extent = measure_link(extent, link);
            }
            extent
        }
        Core::Let { values, body } => measure_lets(values, measure(body)),
        Core::If {
            condition,
            then_branch,
            else_branch,
            ..
        } => measure(condition).then_branches(measure(then_branch), measure(else_branch)),
    }
}

/// The extent of the code of values as variables of a body, whose code has this extent.
#[cycle(measuring)]
fn measure_lets(values: &[Core], body: Extent) -> Extent
    ensures { (inner : CoreTree) → body ≡ cut_extent (extent_of inner)
        → result ≡ cut_extent (extent_of (lets_of (map core_view values.now) inner)) }
{
    let mut extent = body;
    for i in (0..values.len()).rev() {
        extent = measure(&values[i]).then_block(extent);
    }
    extent
}

/// The extent of code of this extent, and then that of a link.
#[cycle(measuring)]
fn measure_link(extent: Extent, link: &CoreLink) -> Extent
    ensures { (source : CoreTree) → extent ≡ cut_extent (extent_of source)
        → result ≡ cut_extent (extent_of (core_link_of link.now source)) }
{
    match link {
        CoreLink::Feature { .. } | CoreLink::AsCollection { .. } => extent.then_instruction(),
        CoreLink::Operation { others, .. } => {
            let mut whole = extent;
            for i in 0..others.len() {
                whole = whole.then_above(i + 1, measure(&others[i]));
            }
            whole.then_instruction()
        }
        CoreLink::Iterate { body, .. } => extent.then_block(measure(body)),
        CoreLink::Fold { start, body, .. } => {
            extent
                .then_above(1, measure(start))
                .then_block(measure(body))
        }
    }
}
