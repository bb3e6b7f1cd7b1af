//! The opposite ends of all objects, from what is written at the source ends.

ghost use Rattle.std.specs.Prelude.{◌≡◌, ◌<◌, ◌^◌, ◌==◌, ◌++◌, ℕ, [], length, All, IfOk, OnOk, if◌then◌else◌};
ghost use Rattle.std.specs.List.Sorted.{IsNonDecreasingBy};
ghost use Rattle.imkl_model.specs.ClassModel.{feature_at};
ghost use Rattle.imkl_model.specs.declared.feature.Role.TheVariants.{OppositeEnd};
ghost use Rattle.imkl_population.specs.Written.{written_in};
ghost use Rattle.imkl_population.specs.Building.{as_objects};
ghost use Rattle.imkl_population.specs.Population.{holders_of, pairs};
ghost use Rattle.imkl_population.specs.Ends.{AreHolders, AreEnds};
ghost use Rattle.imkl_population.specs.Store.{map_of, maps_of};

use crate::builder::PopulationBuilder;
use crate::column::Column;
use crate::numbers::ObjectNo;
use crate::scalar::Scalar;
use crate::store::Store;
use imkl_model::{FeatureNo, Role};
use std::alloc::{AllocError, Global};

/// The pairs of an association in the order of their targets, each target's in that of its holders.
fn by_target(
    builder: &PopulationBuilder<'_>,
    source: FeatureNo,
) -> Result<Vec<(usize, usize)>, AllocError>
    ensures ascend { IfOk result (λ v. IsNonDecreasingBy (λ q. q.1) v.items) }
    ensures known { IfOk result (λ v. All (λ q. q.0 < length builder.now.objects) v.items) }
    ensures same { IfOk result (λ v. (o : ℕ) →
        holders_of o v.items ≡ holders_of o (pairs builder.now source)) }
{
    let mut pairs = builder.pairs(source)?;
    pairs.sort_by_key(|pair| pair.1)?;
    Ok(pairs)
}

/// Moves holders, if there are any, to a target that has none.
fn put_holders(
    column: &mut Column,
    target: usize,
    holders: &mut Vec<Scalar>,
) -> Result<(), AllocError>
    requires { written_in (map_of column.old) target ≡ [] }
    ensures moved { OnOk result (holders.new.items ≡ []) }
    ensures put { OnOk result ((o : ℕ) → written_in (map_of column.new) o ≡
        written_in (map_of column.old) o ++ (if target == o then holders.old.items else [])) }
{
    if holders.is_empty() {
        return Ok(());
    }
    column.set(target, holders)
}

/// Goes on to the next pair's target. Where it is another one, holders of the last are complete.
fn go_on(
    column: &mut Column,
    target: usize,
    holders: &mut Vec<Scalar>,
    next: usize,
) -> Result<(), AllocError>
    requires none { written_in (map_of column.old) target ≡ [] }
    requires next { written_in (map_of column.old) next ≡ [] }
    ensures none { OnOk result (written_in (map_of column.new) next ≡ []) }
    ensures same { OnOk result ((o : ℕ) →
        written_in (map_of column.new) o ++ (if next == o then holders.new.items else []) ≡
        written_in (map_of column.old) o ++ (if target == o then holders.old.items else [])) }
{
    if next == target {
        return Ok(());
    }
    put_holders(column, target, holders)
}

/// The holders of each target, from pairs in the order of their targets.
fn holders(alloc: Global, pairs: &[(usize, usize)]) -> Result<Column, AllocError>
    requires ascend { IsNonDecreasingBy (λ q. q.1) pairs.now }
    requires small { All (λ q. q.0 < 2 ^ 32) pairs.now }
    ensures { IfOk result (λ c. (o : ℕ) →
        written_in (map_of c) o ≡ as_objects (holders_of o pairs.now)) }
{
    let mut column = Column::with_capacity(alloc, pairs.len())?;
    let mut holders = Vec::new(alloc);
    let mut target = 0;
    for pair in pairs {
        go_on(&mut column, target, &mut holders, pair.1)?;
        target = pair.1;
        holders.push(Scalar::Object(ObjectNo::new(pair.0)))?;
    }
    put_holders(&mut column, target, &mut holders)?;
    Ok(column)
}

/// The opposite end of an association.
fn opposite_end(
    alloc: Global,
    builder: &PopulationBuilder<'_>,
    source: FeatureNo,
) -> Result<Column, AllocError>
    ensures { IfOk result (λ c. AreHolders builder.now source (map_of c)) }
{
    builder.within_limit();
    let pairs = by_target(builder, source)?;
    let mut column = holders(alloc, &pairs)?;
    column.rank(alloc)?;
    Ok(column)
}

/// The column of a feature, if it is an opposite end.
fn end_of(
    alloc: Global,
    builder: &PopulationBuilder<'_>,
    feature: FeatureNo,
) -> Result<Column, AllocError>
    requires { feature < length builder.now.model.features }
    ensures { IfOk result (λ c. (source : ℕ) →
        (feature_at builder.now.model feature).role ≡ OppositeEnd source →
        AreHolders builder.now source (map_of c)) }
{
    match builder.model().feature_info(feature).role {
        Role::OppositeEnd { source } => opposite_end(alloc, builder, source),
        _ => Ok(Column::new(alloc)),
    }
}

/// The opposite ends of all objects.
pub(crate) fn opposite_ends(
    alloc: Global,
    builder: &PopulationBuilder<'_>,
) -> Result<Store, AllocError>
    ensures { IfOk result (λ s. AreEnds builder.now (maps_of s)) }
{
    let mut ends = Store::new(alloc);
    for feature in 0..builder.model().feature_count() {
        let column = end_of(alloc, builder, FeatureNo::new(feature))?;
        ends.push(column)?;
    }
    Ok(ends)
}
