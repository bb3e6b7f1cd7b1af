//! Which classes each class reaches by superclass steps, by Warshall's algorithm.

ghost use Rattle.std.specs.Prelude.{◌≡◌, ◌==◌, ℕ, ◌<◌, ◌&&◌, ◌||◌, length, All, IfOk};
ghost use Rattle.std.specs.List.{list_any};
ghost use Rattle.imkl_model.specs.Tables.{has_mark, mark_at, IsSquare, AreWithin};
ghost use Rattle.imkl_model.specs.Chains.{any_below, is_super, reaches};
ghost use Rattle.imkl_model.specs.ClassModel.{supers_in};

use crate::entry::Class;
use crate::numbers::ClassNo;
use crate::row::Row;
use std::alloc::{AllocError, Global};

fn direct_row(alloc: Global, count: usize, supers: &[ClassNo]) -> Result<Row, AllocError>
    requires { All (λ d. d < count) supers.now }
    ensures { IfOk result (λ r. (length r ≡ count)
        × ((j : ℕ) → has_mark r j ≡ list_any (λ e. e == j) supers.now)) }
{
    let mut row = Row::new(alloc, count)?;
    for class in supers {
        row.add(class.index());
    }
    Ok(row)
}

fn direct_rows(alloc: Global, classes: &[Class]) -> Result<Vec<Row>, AllocError>
    requires { AreWithin (length classes.now) (supers_in classes.now) }
    ensures square { IfOk result (λ v. IsSquare (length classes.now) v.items) }
    ensures steps { IfOk result (λ v. (i j : ℕ) → i < length classes.now
        → mark_at v.items i j ≡ is_super (supers_in classes.now) i j) }
{
    let mut rows = Vec::new(alloc);
    for class in classes {
        rows.push(direct_row(alloc, classes.len(), class.supers.as_slice())?)?;
    }
    Ok(rows)
}

/// Adds the classes of the middle row to the row of each class that reaches the class k.
fn pass(rows: &mut Vec<Row>, middle: &Row, k: usize)
    requires in_range { k < length rows.old.items }
    requires square { IsSquare (length rows.old.items) rows.old.items }
    requires as_long { length middle.now ≡ length rows.old.items }
    ensures square { IsSquare (length rows.old.items) rows.new.items }
    ensures joins { (i j : ℕ) → i < length rows.old.items → mark_at rows.new.items i j
        ≡ (mark_at rows.old.items i j || (mark_at rows.old.items i k && has_mark middle.now j)) }
{
    for i in 0..rows.len() {
        let row = &mut rows[i];
        if row.has(k) {
            row.merge(middle);
        }
    }
}

/// One round of Warshall's algorithm: joins steps to the class k with steps from it.
fn round(rows: &mut Vec<Row>, middle: &mut Row, k: usize)
    requires in_range { k < length rows.old.items }
    requires square { IsSquare (length rows.old.items) rows.old.items }
    requires as_long { length middle.old ≡ length rows.old.items }
    ensures square { IsSquare (length rows.old.items) rows.new.items }
    ensures as_long { length middle.new ≡ length rows.old.items }
    ensures joins { (i j : ℕ) → i < length rows.old.items → mark_at rows.new.items i j
        ≡ (mark_at rows.old.items i j
        || (mark_at rows.old.items i k && mark_at rows.old.items k j)) }
{
    middle.copy_from(&rows[k]);
    pass(rows, middle, k);
}

/// The classes that each class reaches by one or more steps.
pub(crate) fn ancestor_rows(alloc: Global, classes: &[Class]) -> Result<Vec<Row>, AllocError>
    requires { AreWithin (length classes.now) (supers_in classes.now) }
    ensures square { IfOk result (λ v. IsSquare (length classes.now) v.items) }
    ensures reaches { IfOk result (λ v. (i j : ℕ) → i < length classes.now
        → mark_at v.items i j ≡ reaches (supers_in classes.now) i j) }
{
    let mut rows = direct_rows(alloc, classes)?;
    let mut middle = Row::new(alloc, classes.len())?;
    for k in 0..classes.len() {
        round(&mut rows, &mut middle, k);
    }
    Ok(rows)
}

/// Whether a class is marked in its own row.
pub(crate) fn reaches_itself(rows: &[Row]) -> bool
    requires { IsSquare (length rows.now) rows.now }
    ensures { result ≡ any_below (λ c. mark_at rows.now c c) (length rows.now) }
{
    for (class, row) in rows.iter().enumerate() {
        if row.has(class) {
            return true;
        }
    }
    false
}
