//! Slots: values without their kinds.

ghost use Rattle.std.specs.Prelude.{◌≡◌};
ghost use Rattle.rule_slots.specs.Slots.{slot, home_named, plain_mark, null_mark, invalid_mark, invalid_slot, null_slot, number_slot, truth_slot, index_slot, text_slot, part_slot};

/// Whether a slot is defined.
#[derive(Clone, Copy)]
pub enum Mark {
    /// It has a value.
    Plain,
    /// Null.
    Null,
    /// Invalid.
    Invalid,
}

/// The list that a collection is a part of.
#[derive(Clone, Copy)]
pub enum Home {
    /// The values of the population.
    Scalars,
    /// The instances of its classes.
    Instances,
    /// The pool of the machine.
    Pool,
}

/// A value without its kind: a mark and words, which mean something by the kind of the place where the slot stands.
/// A truth value is the number 0 or 1, a whole number the number itself. A literal and an object have their index.
/// A text has the list where it lies (0 the population's values, 1 the unit's texts), its index there, and the range
/// of its bytes. A collection has the list that it is a part of (0 the population's values, 1 its instances, 2 the
/// pool), and its range there.
#[derive(Clone, Copy)]
pub struct Slot {
    /// Whether it is defined.
    pub mark: Mark,
    /// Where a text or a collection lies.
    pub list: u8,
    /// A truth value or a whole number.
    pub number: i64,
    /// An object, a literal, or where a text stands in its list.
    pub index: usize,
    /// Where the range of a text or a collection begins.
    pub start: usize,
    /// How long that range is.
    pub count: usize,
}

/// The list that a word names.
pub fn home_named(list: u8) -> Home
    ensures { result ≡ home_named list }
{
    if list == 0 {
        return Home::Scalars;
    }
    if list == 1 {
        return Home::Instances;
    }
    Home::Pool
}

/// A slot of these words.
fn slot_of(mark: Mark, list: u8, number: i64, index: usize, start: usize, count: usize) -> Slot
    ensures { result ≡ slot mark list number index start count }
{
    Slot {
        mark,
        list,
        number,
        index,
        start,
        count,
    }
}

/// Invalid.
pub fn invalid_slot() -> Slot
    ensures { result ≡ invalid_slot }
{
    slot_of(Mark::Invalid, 0, 0, 0, 0, 0)
}

/// Null.
pub fn null_slot() -> Slot
    ensures { result ≡ null_slot }
{
    slot_of(Mark::Null, 0, 0, 0, 0, 0)
}

/// A whole number.
pub fn number_slot(number: i64) -> Slot
    ensures { result ≡ number_slot number }
{
    slot_of(Mark::Plain, 0, number, 0, 0, 0)
}

/// A truth value.
pub fn truth_slot(truth: bool) -> Slot
    ensures { result ≡ truth_slot truth }
{
    if truth {
        number_slot(1)
    } else {
        number_slot(0)
    }
}

/// An object, or a literal.
pub fn index_slot(index: usize) -> Slot
    ensures { result ≡ index_slot index }
{
    slot_of(Mark::Plain, 0, 0, index, 0, 0)
}

/// A text: a range of the bytes of one that stands in a list.
pub(crate) fn text_slot(list: u8, index: usize, start: usize, count: usize) -> Slot
    ensures { result ≡ text_slot list index start count }
{
    slot_of(Mark::Plain, list, 0, index, start, count)
}

/// A collection: a range of a list.
pub fn part_slot(list: u8, start: usize, count: usize) -> Slot
    ensures { result ≡ part_slot list start count }
{
    slot_of(Mark::Plain, list, 0, 0, start, count)
}

impl Slot {
    /// Whether it is neither null nor invalid.
    pub fn is_plain(self) -> bool
        ensures { result ≡ plain_mark self.mark }
    {
        matches!(self.mark, Mark::Plain)
    }

    /// Whether it is null.
    pub fn is_null(self) -> bool
        ensures { result ≡ null_mark self.mark }
    {
        matches!(self.mark, Mark::Null)
    }

    /// Whether it is invalid.
    pub fn is_invalid(self) -> bool
        ensures { result ≡ invalid_mark self.mark }
    {
        matches!(self.mark, Mark::Invalid)
    }
}
