//! Lists of objects that several classes share.

ghost use Rattle.std.specs.Prelude.{◌≡◌, ◌<◌, ◌^◌, ◌++◌, false, length, min, slice_index_or, All, IfOk, OnOk};
ghost use Rattle.std.specs.BTreeMap.{get};
ghost use Rattle.imkl_population.specs.declared.store.Segment.{Segment};
ghost use Rattle.imkl_population.specs.Population.{Population};
ghost use Rattle.imkl_population.specs.Instances.{AreMarks, AreMembers, AreShared, Begins, IsRangeOf, by_classes, direct_of, objects_of_classes};
ghost use Rattle.ocl_base.specs.Numbers.{places};

use crate::builder::PopulationBuilder;
use crate::numbers::ObjectNo;
use crate::order::in_order;
use crate::store::Segment;
use imkl_model::ClassNo;
use std::alloc::{AllocError, Global};
use std::collections::BTreeMap;

/// The objects of a population by their classes, and the classes of its objects.
#[derive(Drop)]
pub struct Members {
    /// For each class the objects that are directly of it, in their order.
    pub direct: Vec<Vec<ObjectNo>>,
    /// For each object the class that it is directly of.
    pub classes: Vec<ClassNo>,
}

/// Lists of objects, each of them once, one behind the other.
#[derive(Drop)]
pub struct SharedLists {
    /// The lists.
    pub list: Vec<ObjectNo>,
    /// The range of each list, by the classes that have its objects as their own.
    pub ranges: BTreeMap<Vec<ClassNo>, Segment>,
}

/// No list yet.
pub(crate) fn no_lists(alloc: Global) -> SharedLists
    ensures { (p : Population) → AreShared p result }
{
    SharedLists {
        list: Vec::new(alloc),
        ranges: BTreeMap::new(alloc),
    }
}

/// The objects directly of some classes, class by class.
fn gather(
    alloc: Global,
    direct: &[Vec<ObjectNo>],
    classes: &[ClassNo],
) -> Result<Vec<ObjectNo>, AllocError>
    requires { All (λ c. c < length direct.now) classes.now }
    ensures { IfOk result (λ v. v.items ≡ direct_of direct.now classes.now) }
{
    let mut objects = Vec::new(alloc);
    for class in classes {
        objects.extend_from_slice(&direct[class.index()])?;
    }
    Ok(objects)
}

/// Adds the objects directly of some classes to a list, sorted.
fn add_sorted(
    list: &mut Vec<ObjectNo>,
    builder: &PopulationBuilder<'_>,
    members: &Members,
    classes: &[ClassNo],
) -> Result<(), AllocError>
    requires members { AreMembers builder.now members.now }
    requires classes { All (λ c. c < length members.now.direct.items) classes.now }
    ensures { OnOk result (list.new.items ≡
        list.old.items ++ objects_of_classes builder.now classes.now) }
{
    let mut objects = in_order(gather(builder.alloc(), &members.direct, classes)?);
    list.append(&mut objects)?;
    Ok(())
}

/// A mark for each of so many classes, set for some of them.
fn marks(alloc: Global, count: usize, classes: &[ClassNo]) -> Result<Vec<bool>, AllocError>
    requires { All (λ c. c < count) classes.now }
    ensures { IfOk result (λ v. AreMarks count classes.now v.items) }
{
    let mut marks = vec![in alloc; false; count]?;
    for class in classes {
        marks[class.index()] = true;
    }
    Ok(marks)
}

/// Adds the objects whose classes are marked to a list, by a look at the class of each object.
fn add_marked(
    list: &mut Vec<ObjectNo>,
    classes: &[ClassNo],
    marks: &[bool],
) -> Result<(), AllocError>
    requires marked { All (λ c. c < length marks.now) classes.now }
    requires small { length classes.now < 2 ^ 32 }
    ensures { OnOk result (list.new.items ≡ list.old.items ++
        places (λ o. slice_index_or marks.now (slice_index_or classes.now o 0) false)
        (length classes.now)) }
{
    for (object, class) in classes.iter().enumerate() {
        if marks[class.index()] {
            list.push(ObjectNo::new(object))?;
        }
    }
    Ok(())
}

/// Adds the objects directly of some classes to a list, by a look at each object.
fn add_found(
    list: &mut Vec<ObjectNo>,
    builder: &PopulationBuilder<'_>,
    members: &Members,
    classes: &[ClassNo],
) -> Result<(), AllocError>
    requires members { AreMembers builder.now members.now }
    requires classes { All (λ c. c < length members.now.direct.items) classes.now }
    ensures { OnOk result (list.new.items ≡
        list.old.items ++ objects_of_classes builder.now classes.now) }
{
    let marks = marks(builder.alloc(), members.direct.len(), classes)?;
    add_marked(list, &members.classes, &marks)
}

/// How many objects are directly of some classes, `usize::MAX` where there are more.
fn count_of(direct: &[Vec<ObjectNo>], classes: &[ClassNo]) -> usize
    requires { All (λ c. c < length direct.now) classes.now }
    ensures { result ≡ min (length (direct_of direct.now classes.now)) usize.MAX }
{
    let mut count = 0usize;
    for class in classes {
        count = count.saturating_add(direct[class.index()].len());
    }
    count
}

/// Adds the objects directly of some classes to a list, in order, and answers with their range. Few are sorted; where they are
/// a 16th of all objects or more, a look at each object is quicker. Those of one class are in order as they stand.
fn add_objects(
    list: &mut Vec<ObjectNo>,
    builder: &PopulationBuilder<'_>,
    members: &Members,
    classes: &[ClassNo],
) -> Result<Segment, AllocError>
    requires members { AreMembers builder.now members.now }
    requires classes { All (λ c. c < length members.now.direct.items) classes.now }
    ensures grown { OnOk result (list.new.items ≡
        list.old.items ++ objects_of_classes builder.now classes.now) }
    ensures range { IfOk result (λ r.
        r ≡ record { start = length list.old.items; end = length list.new.items }) }
{
    let start = list.len();
    let count = count_of(&members.direct, classes);
    if 1 < classes.len() && members.classes.len() / 16 <= count {
        add_found(list, builder, members, classes)?;
    } else {
        add_sorted(list, builder, members, classes)?;
    }
    let end = list.len();
    Ok(Segment { start, end })
}

/// The range of the objects of some classes, which are added only if no range is kept for them.
pub(crate) fn range_of(
    lists: &mut SharedLists,
    builder: &PopulationBuilder<'_>,
    members: &Members,
    classes: Vec<ClassNo>,
) -> Result<Segment, AllocError>
    requires members { AreMembers builder.now members.now }
    requires classes { All (λ c. c < length members.now.direct.items) classes.items }
    requires shared { AreShared builder.now lists.old }
    ensures range { IfOk result (λ r. IsRangeOf builder.now lists.new.list.items classes.items r) }
    ensures shared { OnOk result (AreShared builder.now lists.new) }
    ensures kept { OnOk result (Begins lists.old.list.items lists.new.list.items) }
    ensures stored { IfOk result (λ r. get by_classes lists.new.ranges classes ≡ Some r) }
    ensures once { (r : Segment) → get by_classes lists.old.ranges classes ≡ Some r →
        (result ≡ Ok r) × (lists.new ≡ lists.old) }
{
    if let Some(range) = lists.ranges.get(&classes) {
        return Ok(*range);
    }
    let range = add_objects(&mut lists.list, builder, members, &classes)?;
    lists.ranges.insert(classes, range)?;
    Ok(range)
}

/// The lists, one behind the other.
pub(crate) fn list_of_all(lists: SharedLists) -> Vec<ObjectNo>
    ensures { result.items ≡ lists.list.items }
{
    let SharedLists { list, ranges: _ } = lists;
    list
}
