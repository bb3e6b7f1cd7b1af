//! Elements of collections, as slots.

ghost use Rattle.std.specs.Prelude.{◌≡◌, ◌<◌, length, slice_get, Some};
ghost use Rattle.rule_slots.specs.Slots.{lists_in, home_named, scalar_slot, held_slots, IsInHome};

use crate::lists::Lists;
use crate::slot::{Home, Slot, home_named, index_slot, number_slot, text_slot, truth_slot};
use imkl_population::{Scalar, ScalarText};

/// A whole text of the population.
fn whole_text(index: usize, text: &ScalarText) -> Slot
    ensures { result ≡ scalar_slot index (Scalar.Text text.now) }
{
    let bytes = text.as_str();
    text_slot(0, index, 0, bytes.len())
}

/// A value of the population, which has this index.
#[inline(always)]
pub fn scalar_slot(index: usize, scalar: &Scalar) -> Slot
    ensures { result ≡ scalar_slot index scalar.now }
{
    match scalar {
        Scalar::Bool(b) => truth_slot(*b),
        Scalar::Int(n) => number_slot(*n),
        Scalar::Text(text) => whole_text(index, text),
        Scalar::Literal(_, literal) => index_slot(literal.index()),
        Scalar::Object(object) => index_slot(object.index()),
    }
}

/// An element of a collection that is a part of this list.
#[inline(always)]
pub(crate) fn element_in(
    home: Home,
    lists: Lists<'_>,
    pool: &[Slot],
    source: Slot,
    index: usize,
) -> Slot
    requires home { home_named source.list ≡ home }
    requires index { index < source.count }
    requires within { IsInHome (lists_in lists) (length pool.now) source }
    ensures { slice_get (held_slots (lists_in lists.entry) pool.now source) index ≡ Some result }
{
    match home {
        Home::Scalars => {
            let scalars = lists.scalars();
            let place = source.start + index;
            scalar_slot(place, &scalars[place])
        }
        Home::Instances => {
            let instances = lists.instances();
            let place = source.start + index;
            index_slot(instances[place].index())
        }
        Home::Pool => {
            let place = source.start + index;
            pool[place]
        }
    }
}

/// An element of a collection.
#[inline(always)]
pub fn element(lists: Lists<'_>, pool: &[Slot], source: Slot, index: usize) -> Slot
    requires index { index < source.count }
    requires within { IsInHome (lists_in lists) (length pool.now) source }
    ensures { slice_get (held_slots (lists_in lists.entry) pool.now source) index ≡ Some result }
{
    element_in(home_named(source.list), lists, pool, source, index)
}
