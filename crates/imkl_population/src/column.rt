//! The values at one feature, of all objects that have some.

ghost use Rattle.std.specs.Prelude.{◌≡◌, ◌<◌, ◌++◌, ℕ, [], ◌∷◌, false, length, map, min, slice_range, IfOk, OnOk, OnErr};
ghost use Rattle.std.specs.Ordering.{nat_cmp};
ghost use Rattle.std.specs.BTreeMap.{insert_entry};
ghost use Rattle.imkl_population.specs.Written.{written_in, IsMap};
ghost use Rattle.imkl_population.specs.Population.{pairs_of};
ghost use Rattle.imkl_population.specs.Values.{is_over};
ghost use Rattle.imkl_population.specs.Given.{given_values};
ghost use Rattle.imkl_population.specs.Store.{IsEntry, AreRangesWithin, map_of, pairs_in, shifted, standing, AllStand};

use crate::checks::is_over;
use crate::column_ranges::ColumnRanges;
use crate::entries::{Entry, find_entry, put_entry};
use crate::given::GivenValues;
use crate::ranks::Ranks;
use crate::scalar::Scalar;
use std::alloc::{AllocError, Global};
use std::marker::Model;

/// The values at one feature, and for each object that has some the range of its own. Objects
/// ascend. Contracts see the list of all values and the ranges.
#[derive(Drop)]
pub struct Column {
    scalars: Vec<Scalar>,
    entries: Vec<Entry>,
    ranks: Ranks,
}

impl Model for Column {
    ghost use Rattle.std.specs.Prelude.{map};
    ghost use Rattle.imkl_population.specs.Store.{Stored, range_of, IsLaidOut};

    ghost Value = { Stored };

    ghost view = { λ c. record { scalars = c.scalars.items; ranges = map range_of c.entries.items } };

    ghost invariant = { λ c. IsLaidOut c.scalars.items c.entries.items };
}

fn values_of(scalars: &[Scalar], entry: Entry) -> &[Scalar]
    requires { IsEntry (length scalars.now) entry }
    ensures { result.now ≡ slice_range scalars.now entry.start entry.end }
{
    &scalars[entry.start..entry.end]
}

/// Adds the pairs of a holder and the objects among its values.
fn add_pairs(
    pairs: &mut Vec<(usize, usize)>,
    holder: usize,
    values: &[Scalar],
) -> Result<(), AllocError>
    ensures { OnOk result (pairs.new.items ≡ pairs.old.items ++ pairs_of holder values.now) }
{
    for value in values {
        if let Scalar::Object(target) = value {
            pairs.push((holder, target.index()))?;
        }
    }
    Ok(())
}

/// Adds copies of values at the end of a list.
fn add_copies(list: &mut Vec<Scalar>, alloc: Global, values: &[Scalar]) -> Result<(), AllocError>
    ensures { OnOk result (list.new.items ≡ list.old.items ++ values.now) }
{
    for value in values {
        list.push(value.copied(alloc)?)?;
    }
    Ok(())
}

/// How many more items a list of `count` is expected to get, if the objects from this one on add as many each as those before
/// it did. At most seven times as many as there are, so that a wrong guess costs little.
fn expected_growth(count: usize, object: usize, objects: usize) -> usize {
    let left = objects.saturating_sub(object);
    let more = count.saturating_mul(left) / object.max(1);
    let spare = more / 16;
    more.saturating_add(spare).min(count.saturating_mul(7))
}

impl Column {
    /// No values.
    pub(crate) fn new(alloc: Global) -> Column
        ensures { map_of result ≡ [] }
    {
        Column {
            scalars: Vec::new(alloc),
            entries: Vec::new(alloc),
            ranks: Ranks::new(alloc),
        }
    }

    /// No values, and room for so many, each of an object of its own.
    pub(crate) fn with_capacity(alloc: Global, values: usize) -> Result<Column, AllocError>
        ensures { IfOk result (λ c. map_of c ≡ []) }
    {
        Ok(Column {
            scalars: Vec::with_capacity(alloc, values)?,
            entries: Vec::with_capacity(alloc, values)?,
            ranks: Ranks::new(alloc),
        })
    }

    /// Each range lies within the values.
    pub(crate) fn within(&self)
        ensures { AreRangesWithin self.now }
    {
        let _scalars = &self.scalars;
    }

    /// The values of an object: none where it has no entry.
    pub(crate) fn get(&self, object: usize) -> &[Scalar]
        ensures { result.now ≡ written_in (map_of self.now) object }
    {
        let guess = self.ranks.guess(object);
        match find_entry(&self.entries, guess, object) {
            Some(entry) => values_of(&self.scalars, entry),
            None => &[],
        }
    }

    /// Moves values to an object, in the place of those that it has. What stood there stays in the
    /// list of values, where nothing leads to it, until it is given back.
    pub(crate) fn set(&mut self, object: usize, values: &mut Vec<Scalar>) -> Result<(), AllocError>
        ensures ok { OnOk result (map_of self.new ≡
            insert_entry nat_cmp (map_of self.old) object values.old.items) }
        ensures err { OnErr result (map_of self.new ≡ map_of self.old) }
        ensures moved { OnOk result (values.new.items ≡ []) }
    {
        let start = self.scalars.len();
        self.scalars.append(values)?;
        let end = self.scalars.len();
        let entry = Entry { object, start, end };
        put_entry(&mut self.entries, entry)
    }

    /// Moves one value to an object, as `set` does with those of a list.
    fn set_one(&mut self, object: usize, value: Scalar) -> Result<(), AllocError>
        ensures ok { OnOk result (map_of self.new ≡
            insert_entry nat_cmp (map_of self.old) object (value ∷ [])) }
        ensures err { OnErr result (map_of self.new ≡ map_of self.old) }
    {
        let start = self.scalars.len();
        self.scalars.push(value)?;
        let end = self.scalars.len();
        put_entry(&mut self.entries, Entry { object, start, end })
    }

    /// Moves values to an object, in the place of those that it has.
    pub(crate) fn put(&mut self, object: usize, values: GivenValues) -> Result<(), AllocError>
        ensures ok { OnOk result (map_of self.new ≡
            insert_entry nat_cmp (map_of self.old) object (given_values values)) }
        ensures err { OnErr result (map_of self.new ≡ map_of self.old) }
    {
        match values {
            GivenValues::One(value) => self.set_one(object, value),
            GivenValues::Many(values) => {
                let mut values = values;
                self.set(object, &mut values)
            }
        }
    }

    /// Makes room for the values of an object. Where a list is full, it gets room for what is expected of all objects, which
    /// mostly come in their order.
    pub(crate) fn make_room(
        &mut self,
        object: usize,
        objects: usize,
        values: usize,
    ) -> Result<(), AllocError>
        ensures { self.new ≡ self.old }
    {
        let scalars = self.scalars.len();
        if self.scalars.capacity().saturating_sub(scalars) < values {
            let more = expected_growth(scalars, object, objects);
            self.scalars.reserve(more.max(values))?;
        }
        let entries = self.entries.len();
        if entries == self.entries.capacity() {
            let more = expected_growth(entries, object, objects);
            self.entries.reserve(more.max(1))?;
        }
        Ok(())
    }

    /// How many values the entries have together, `usize::MAX` where there are more.
    fn standing(&self) -> usize
        ensures { result ≡ min (standing self.now.ranges) usize.MAX }
    {
        let mut count = 0usize;
        for entry in self.entries.as_slice() {
            count = count.saturating_add(entry.end - entry.start);
        }
        count
    }

    /// The same values in a list that holds no others, which has room for so many. Its entries aren't counted.
    fn copied(&self, alloc: Global, count: usize) -> Result<Column, AllocError>
        ensures same { IfOk result (λ c. map_of c ≡ map_of self.now) }
        ensures stand { IfOk result AllStand }
    {
        let mut scalars = Vec::with_capacity(alloc, count)?;
        let mut entries = Vec::with_capacity(alloc, self.entries.len())?;
        for entry in self.entries.as_slice() {
            let start = scalars.len();
            add_copies(&mut scalars, alloc, values_of(&self.scalars, *entry))?;
            entries.push(Entry {
                object: entry.object,
                start,
                end: scalars.len(),
            })?;
        }
        Ok(Column {
            scalars,
            entries,
            ranks: Ranks::new(alloc),
        })
    }

    /// Gives back the memory of values that were replaced. Where there are none, it only looks at the entries.
    pub(crate) fn give_back(&mut self, alloc: Global) -> Result<(), AllocError>
        ensures same { map_of self.new ≡ map_of self.old }
        ensures stand { OnOk result (AllStand self.new) }
    {
        let count = self.standing();
        if count != self.scalars.len() {
            *self = self.copied(alloc, count)?;
        }
        Ok(())
    }

    /// Counts the entries anew, so that what is read from now on is found without a search.
    pub(crate) fn rank(&mut self, alloc: Global) -> Result<(), AllocError>
        ensures { self.new ≡ self.old }
    {
        self.ranks = Ranks::of(alloc, &self.entries)?;
        Ok(())
    }

    /// How many values there are, replaced ones too.
    pub(crate) fn value_count(&self) -> usize
        ensures { result ≡ length self.now.scalars }
    {
        self.scalars.len()
    }

    /// Moves the values to the end of a list, gives their own memory back, and answers where each
    /// object's stand.
    pub(crate) fn into_ranges(self, list: &mut Vec<Scalar>) -> Result<ColumnRanges, AllocError>
        ensures moved { OnOk result (list.new.items ≡ list.old.items ++ self.scalars) }
        ensures ranges { IfOk result (λ r. r ≡ map (shifted (length list.old.items)) self.ranges) }
    {
        let Column {
            scalars,
            entries,
            ranks,
        } = self;
        let mut scalars = scalars;
        let base = list.len();
        list.append(&mut scalars)?;
        Ok(ColumnRanges::new(base, entries, ranks))
    }

    /// The pairs of an object and each object among its values.
    pub(crate) fn pairs(&self, alloc: Global) -> Result<Vec<(usize, usize)>, AllocError>
        ensures pairs { IfOk result (λ v. v.items ≡ pairs_in (map_of self.now)) }
        ensures map { IsMap (map_of self.now) }
    {
        let mut pairs = Vec::with_capacity(alloc, self.scalars.len())?;
        for entry in self.entries.as_slice() {
            add_pairs(&mut pairs, entry.object, values_of(&self.scalars, *entry))?;
        }
        Ok(pairs)
    }

    /// The first object that has more values than an upper bound, if there is one, or an earlier
    /// object.
    pub(crate) fn first_over(&self, upper: Option<u32>) -> usize
        ensures { (o : ℕ) → o < result
            → is_over upper (length (written_in (map_of self.now) o)) ≡ false }
    {
        let mut first = usize::MAX;
        for entry in self.entries.as_slice() {
            if is_over(upper, entry.end - entry.start) {
                first = first.min(entry.object);
            }
        }
        first
    }
}
