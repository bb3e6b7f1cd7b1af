//! The range of one feature's values in the list of all values.

ghost use Rattle.std.specs.Prelude.{◌≡◌, ℕ, ◌+◌, ◌<◌, [], map, slice_index_or, All};
ghost use Rattle.std.specs.List.Sorted.{IsStrictlySortedBy};
ghost use Rattle.std.specs.Map.{keys_of};
ghost use Rattle.std.specs.Ordering.{nat_cmp};
ghost use Rattle.imkl_population.specs.FinishedPopulation.{range_in};
ghost use Rattle.imkl_population.specs.Store.{IsPlaced, longest_range, segment_behind, objects_in, range_of, shifted};

use crate::entries::{Entry, find_entry};
use crate::ranks::Ranks;
use crate::store::Segment;
use std::marker::Model;

/// The ranges of the objects that have values at one feature. Entries count from the place of the feature's first value, and
/// objects ascend. Contracts see each object with its range in the list of all values.
#[derive(Drop)]
pub struct ColumnRanges {
    base: usize,
    entries: Vec<Entry>,
    ranks: Ranks,
}

impl Model for ColumnRanges {
    ghost use Rattle.std.specs.Prelude.{List, ℕ, map};
    ghost use Rattle.imkl_population.specs.declared.store.Segment.{Segment};
    ghost use Rattle.imkl_population.specs.Store.{ArePlaced, range_of, shifted};

    ghost Value = { List (ℕ × Segment) };

    ghost view = { λ c. map (shifted c.base) (map range_of c.entries.items) };

    ghost invariant = { λ c. ArePlaced c.base c.entries.items };
}

/// The range of an entry that counts from a place.
fn segment_of(base: usize, entry: Entry) -> Segment
    requires { IsPlaced base entry }
    ensures { result ≡ segment_behind base (range_of entry).1 }
{
    Segment {
        start: base + entry.start,
        end: base + entry.end,
    }
}

impl ColumnRanges {
    /// The ranges of entries that count from a place.
    pub(crate) fn new(base: usize, entries: Vec<Entry>, ranks: Ranks) -> ColumnRanges
        requires placed { All (IsPlaced base) entries.items }
        requires ascend { IsStrictlySortedBy nat_cmp (objects_in entries.items) }
        ensures { result ≡ map (shifted base) (map range_of entries.items) }
    {
        ColumnRanges {
            base,
            entries,
            ranks,
        }
    }

    /// The range of an object's values: an empty one where it has none.
    fn range(&self, object: usize) -> Segment
        ensures { result ≡ range_in self.now object }
    {
        let guess = self.ranks.guess(object);
        match find_entry(&self.entries, guess, object) {
            Some(entry) => segment_of(self.base, entry),
            None => Segment { start: 0, end: 0 },
        }
    }

    /// The greatest number of values of an object.
    fn longest(&self) -> usize
        ensures longest { result ≡ longest_range self.now }
        ensures ascend { IsStrictlySortedBy nat_cmp (keys_of self.now) }
    {
        let mut longest = 0;
        for entry in self.entries.as_slice() {
            longest = longest.max(entry.end - entry.start);
        }
        longest
    }
}

/// The range of an object's values at a feature: an empty one where it has none.
pub(crate) fn range_at(columns: &[ColumnRanges], feature: usize, object: usize) -> Segment
    ensures { result ≡ range_in (slice_index_or columns.now feature []) object }
{
    match columns.get(feature) {
        Some(column) => column.range(object),
        None => Segment { start: 0, end: 0 },
    }
}

/// The greatest number of values of an object at a feature.
pub(crate) fn longest_at(columns: &[ColumnRanges], feature: usize) -> usize
    ensures longest { result ≡ longest_range (slice_index_or columns.now feature []) }
    ensures ascend { IsStrictlySortedBy nat_cmp (keys_of (slice_index_or columns.now feature [])) }
{
    match columns.get(feature) {
        Some(column) => column.longest(),
        None => 0,
    }
}
