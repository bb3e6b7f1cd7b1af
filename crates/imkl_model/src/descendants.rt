//! Which classes conform to each class.

ghost use Rattle.std.specs.Prelude.{◌≡◌, ◌<◌, ℕ, length, IfOk};
ghost use Rattle.imkl_model.specs.Tables.{has_mark};
ghost use Rattle.imkl_model.specs.Chains.{is_or_reaches};
ghost use Rattle.imkl_model.specs.ClassModel.{supers_in};
ghost use Rattle.imkl_model.specs.Held.{AreDescendants};

use crate::class_table::ClassTable;
use crate::numbers::ClassNo;
use crate::row::Row;
use std::alloc::{AllocError, Global};

fn row_below(alloc: Global, classes: &ClassTable, class: ClassNo) -> Result<Row, AllocError>
    requires { class < length classes.now }
    ensures { IfOk result (λ r. (length r ≡ length classes.now) × ((c : ℕ) → c < length classes.now
        → has_mark r c ≡ is_or_reaches (supers_in classes.now) c class)) }
{
    let mut row = Row::new(alloc, classes.len())?;
    for from in 0..classes.len() {
        if classes.conforms(ClassNo::new(from), class) {
            row.add(from);
        }
    }
    Ok(row)
}

/// For each class, the classes that conform to it, as marks.
pub(crate) fn descendants(alloc: Global, classes: &ClassTable) -> Result<Vec<Row>, AllocError>
    ensures { IfOk result (λ v. AreDescendants classes.now v.items) }
{
    let mut rows = Vec::new(alloc);
    for class in 0..classes.len() {
        rows.push(row_below(alloc, classes, ClassNo::new(class))?)?;
    }
    Ok(rows)
}
