//! The values of all objects, feature by feature.

ghost use Rattle.std.specs.Prelude.{◌≡◌, ◌+◌, ◌<◌, ◌≤◌, ◌++◌, ◌∷◌, ◌==◌, ℕ, [], false, length, min, take, All, IfOk, OnOk, OnErr, if◌then◌else◌};
ghost use Rattle.std.specs.Ordering.{nat_cmp};
ghost use Rattle.std.specs.BTreeMap.{insert_entry};
ghost use Rattle.imkl_population.specs.Written.{written_in, IsMap};
ghost use Rattle.imkl_population.specs.Values.{is_over};
ghost use Rattle.imkl_population.specs.Given.{given_values};
ghost use Rattle.imkl_population.specs.Store.{AreRangesWithin, AllStand, maps_of, column_at, object_row, pairs_in, ranges_from, scalars_of};

use crate::column::Column;
use crate::column_ranges::ColumnRanges;
use crate::given::GivenValues;
use crate::scalar::Scalar;
use std::alloc::{AllocError, Global};
use std::marker::Model;

/// A range of a list, from `start` to before `end`: an object's values, or a class's objects.
#[derive(Clone, Copy)]
pub struct Segment {
    /// The place of the first element, from 0.
    pub start: usize,
    /// The place behind the last element: `start` where there are none.
    pub end: usize,
}

/// How many objects and features there are.
#[derive(Clone, Copy)]
pub(crate) struct StoreSize {
    pub(crate) objects: usize,
    pub(crate) features: usize,
}

/// An object, and a feature of it.
#[derive(Clone, Copy)]
pub(crate) struct Cell {
    pub(crate) object: usize,
    pub(crate) feature: usize,
}

/// A column of values for each of the first features. Contracts see the columns.
#[derive(Drop)]
pub struct Store {
    columns: Vec<Column>,
}

impl Model for Store {
    ghost use Rattle.std.specs.Prelude.{List, All};
    ghost use Rattle.imkl_population.specs.Store.{Stored, AreRangesWithin};

    ghost Value = { List Stored };

    ghost view = { λ s. s.columns.items };

    ghost invariant = { λ s. All AreRangesWithin s.columns.items };
}

impl Store {
    /// No columns.
    pub(crate) fn new(alloc: Global) -> Store
        ensures { result ≡ [] }
    {
        Store {
            columns: Vec::new(alloc),
        }
    }

    /// Each range lies within the values of its column.
    pub(crate) fn within(&self)
        ensures { All AreRangesWithin self.now }
    {
        let _columns = &self.columns;
    }

    /// One column more.
    pub(crate) fn push(&mut self, column: Column) -> Result<(), AllocError>
        ensures ok { OnOk result (self.new ≡ self.old ++ column ∷ []) }
        ensures err { OnErr result (self.new ≡ self.old) }
    {
        column.within();
        self.columns.push(column)?;
        Ok(())
    }

    /// The values of an object at a feature: none where nothing is set.
    pub(crate) fn get(&self, feature: usize, object: usize) -> &[Scalar]
        ensures { result.now ≡ written_in (column_at self.now feature) object }
    {
        match self.columns.get(feature) {
            Some(column) => column.get(object),
            None => &[],
        }
    }

    /// Adds columns without values, up to a number.
    fn grow(&mut self, alloc: Global, count: usize) -> Result<(), AllocError>
        ensures long { OnOk result (count ≤ length self.new) }
        ensures same { (o : ℕ) → object_row (maps_of self.new) o ≡ object_row (maps_of self.old) o }
    {
        for _ in self.columns.len()..count {
            self.push(Column::new(alloc))?;
        }
        Ok(())
    }

    /// Moves values to an object at a feature that has a column.
    fn set(&mut self, feature: usize, object: usize, values: GivenValues) -> Result<(), AllocError>
        requires { feature < length self.old }
        ensures ok { OnOk result ((o : ℕ) → object_row (maps_of self.new) o ≡
            (if o == object
            then insert_entry nat_cmp (object_row (maps_of self.old) o) feature (given_values values)
            else object_row (maps_of self.old) o)) }
        ensures err { OnErr result ((o : ℕ) →
            object_row (maps_of self.new) o ≡ object_row (maps_of self.old) o) }
    {
        let column = &mut self.columns[feature];
        let result = column.put(object, values);
        column.within();
        result
    }

    /// Makes room for a number of values of an object at a feature that has a column.
    fn make_room(
        &mut self,
        feature: usize,
        object: usize,
        objects: usize,
        values: usize,
    ) -> Result<(), AllocError>
        requires { feature < length self.old }
        ensures { self.new ≡ self.old }
    {
        let column = &mut self.columns[feature];
        let result = column.make_room(object, objects, values);
        column.within();
        result
    }

    /// Moves values to an object at a feature, in the place of those that stand there.
    pub(crate) fn put(
        &mut self,
        alloc: Global,
        size: StoreSize,
        cell: Cell,
        values: GivenValues,
    ) -> Result<(), AllocError>
        requires { cell.feature < size.features }
        ensures ok { OnOk result ((o : ℕ) → object_row (maps_of self.new) o ≡
            (if o == cell.object
            then insert_entry nat_cmp (object_row (maps_of self.old) o) cell.feature
            (given_values values)
            else object_row (maps_of self.old) o)) }
        ensures err { OnErr result ((o : ℕ) →
            object_row (maps_of self.new) o ≡ object_row (maps_of self.old) o) }
    {
        self.grow(alloc, size.features)?;
        self.make_room(cell.feature, cell.object, size.objects, values.len())?;
        self.set(cell.feature, cell.object, values)
    }

    /// Gives back the memory of a column's replaced values.
    fn give_back_column(&mut self, alloc: Global, feature: usize) -> Result<(), AllocError>
        requires { feature < length self.old }
        ensures same { maps_of self.new ≡ maps_of self.old }
        ensures stand { OnOk result (All AllStand (take feature self.old) →
            All AllStand (take (feature + 1) self.new)) }
    {
        let column = &mut self.columns[feature];
        let result = column.give_back(alloc);
        column.within();
        result
    }

    /// Gives back the memory of replaced values.
    pub(crate) fn give_back(&mut self, alloc: Global) -> Result<(), AllocError>
        ensures same { maps_of self.new ≡ maps_of self.old }
        ensures stand { OnOk result (All AllStand self.new) }
    {
        for feature in 0..self.columns.len() {
            self.give_back_column(alloc, feature)?;
        }
        Ok(())
    }

    /// Counts the entries of a column anew.
    fn rank_column(&mut self, alloc: Global, feature: usize) -> Result<(), AllocError>
        requires { feature < length self.old }
        ensures { self.new ≡ self.old }
    {
        let column = &mut self.columns[feature];
        let result = column.rank(alloc);
        column.within();
        result
    }

    /// Counts the entries of all columns anew, so that values are found without a search.
    pub(crate) fn rank(&mut self, alloc: Global) -> Result<(), AllocError>
        ensures { self.new ≡ self.old }
    {
        for feature in 0..self.columns.len() {
            self.rank_column(alloc, feature)?;
        }
        Ok(())
    }

    /// The pairs of an object and each object among its values at a feature.
    pub(crate) fn pairs(
        &self,
        alloc: Global,
        feature: usize,
    ) -> Result<Vec<(usize, usize)>, AllocError>
        ensures pairs { IfOk result (λ v. v.items ≡ pairs_in (column_at self.now feature)) }
        ensures map { IsMap (column_at self.now feature) }
    {
        match self.columns.get(feature) {
            Some(column) => column.pairs(alloc),
            None => Ok(Vec::new(alloc)),
        }
    }

    /// How many values there are in all columns, `usize::MAX` where there are more.
    pub(crate) fn value_count(&self) -> usize
        ensures { result ≡ min (length (scalars_of self.now)) usize.MAX }
    {
        let mut count = 0usize;
        for column in self.columns.as_slice() {
            count = count.saturating_add(column.value_count());
        }
        count
    }

    /// Moves the values of all columns to the end of a list, column after column, and answers where
    /// each object's stand. A column's own memory is given back before the next one is moved.
    pub(crate) fn into_ranges(
        self,
        alloc: Global,
        list: &mut Vec<Scalar>,
    ) -> Result<Vec<ColumnRanges>, AllocError>
        ensures moved { OnOk result (list.new.items ≡ list.old.items ++ scalars_of self) }
        ensures ranges { IfOk result (λ v. v.items ≡ ranges_from (length list.old.items) self) }
    {
        let Store { columns } = self;
        let mut ranges = Vec::with_capacity(alloc, columns.len())?;
        for column in columns {
            ranges.push(column.into_ranges(list)?)?;
        }
        Ok(ranges)
    }

    /// The first object that has more values at a feature than an upper bound, if there is one, or
    /// an earlier object.
    pub(crate) fn first_over(&self, feature: usize, upper: Option<u32>) -> usize
        ensures { (o : ℕ) → o < result →
            is_over upper (length (written_in (column_at self.now feature) o)) ≡ false }
    {
        match self.columns.get(feature) {
            Some(column) => column.first_over(upper),
            None => usize::MAX,
        }
    }
}
