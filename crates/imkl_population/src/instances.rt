//! The objects of each class, those of its subclasses included.

ghost use Rattle.std.specs.Prelude.{◌≡◌, ◌<◌, ◌++◌, ℕ, [], ◌∷◌, length, All, IfOk, OnOk, if◌then◌else◌, ◌==◌};
ghost use Rattle.imkl_population.specs.Instances.{AreDirect, AreMembers, conforming, inhabited, list_of};
ghost use Rattle.imkl_population.specs.Layout.{AreInstances};
ghost use Rattle.imkl_population.specs.Population.{class_of};
ghost use Rattle.imkl_population.specs.Sizes.{list_below};

use crate::builder::PopulationBuilder;
use crate::numbers::ObjectNo;
use crate::sharing::{Members, list_of_all, no_lists, range_of};
use crate::store::Segment;
use imkl_model::{ClassModel, ClassNo};
use std::alloc::{AllocError, Global};

/// As many lists without objects.
fn no_objects(alloc: Global, count: usize) -> Result<Vec<Vec<ObjectNo>>, AllocError>
    ensures { IfOk result (λ v. (length v.items ≡ count) × ((c : ℕ) → list_of v.items c ≡ [])) }
{
    let mut lists = Vec::with_capacity(alloc, count)?;
    for _ in 0..count {
        lists.push(Vec::new(alloc))?;
    }
    Ok(lists)
}

/// Adds an object to the list of its class.
fn add_object(
    lists: &mut [Vec<ObjectNo>],
    class: ClassNo,
    object: ObjectNo,
) -> Result<(), AllocError>
    requires { class < length lists.old }
    ensures same { length lists.new ≡ length lists.old }
    ensures added { OnOk result ((c : ℕ) → c < length lists.old →
        list_of lists.new c ≡ list_of lists.old c ++ (if class == c then object ∷ [] else [])) }
{
    lists[class.index()].push(object)?;
    Ok(())
}

/// For each class the objects that are directly of it.
fn direct_objects(
    alloc: Global,
    builder: &PopulationBuilder<'_>,
) -> Result<Vec<Vec<ObjectNo>>, AllocError>
    ensures { IfOk result (λ v. AreDirect builder.now (length builder.now.objects) v.items) }
{
    builder.within_limit();
    let mut lists = no_objects(alloc, builder.model().class_count())?;
    for object in 0..builder.objects() {
        let object = ObjectNo::new(object);
        add_object(&mut lists, builder.class_of(object), object)?;
    }
    Ok(lists)
}

/// The class of each object.
fn classes_of(alloc: Global, builder: &PopulationBuilder<'_>) -> Result<Vec<ClassNo>, AllocError>
    ensures { IfOk result (λ v. v.items ≡
        list_below (class_of builder.now) (length builder.now.objects)) }
{
    builder.within_limit();
    let mut classes = Vec::with_capacity(alloc, builder.objects())?;
    for object in 0..builder.objects() {
        classes.push(builder.class_of(ObjectNo::new(object)))?;
    }
    Ok(classes)
}

/// The objects by their classes, and the classes of the objects.
fn members(alloc: Global, builder: &PopulationBuilder<'_>) -> Result<Members, AllocError>
    ensures { IfOk result (AreMembers builder.now) }
{
    builder.within_limit();
    let direct = direct_objects(alloc, builder)?;
    let classes = classes_of(alloc, builder)?;
    Ok(Members { direct, classes })
}

/// The classes that have objects of their own.
fn inhabited_classes(alloc: Global, direct: &[Vec<ObjectNo>]) -> Result<Vec<ClassNo>, AllocError>
    ensures { IfOk result (λ v. v.items ≡ inhabited direct.now) }
{
    let mut classes = Vec::new(alloc);
    for class in 0..direct.len() {
        if !direct[class].is_empty() {
            classes.push(ClassNo::new(class))?;
        }
    }
    Ok(classes)
}

/// Those of some classes that conform to a class.
fn classes_below(
    alloc: Global,
    model: &ClassModel,
    classes: &[ClassNo],
    class: ClassNo,
) -> Result<Vec<ClassNo>, AllocError>
    requires classes { All (λ c. c < length model.now.classes) classes.now }
    requires class { class < length model.now.classes }
    ensures { IfOk result (λ v. v.items ≡ conforming model.now classes.now class) }
{
    let mut found = Vec::new(alloc);
    for from in classes {
        if model.conforms(*from, class) {
            found.push(*from)?;
        }
    }
    Ok(found)
}

/// All classes' objects in one list, and the range of each class. Classes that the same classes
/// with objects conform to have the same objects, and share their range.
pub(crate) fn instances(
    alloc: Global,
    builder: &PopulationBuilder<'_>,
) -> Result<(Vec<ObjectNo>, Vec<Segment>), AllocError>
    ensures { IfOk result (λ r. (length r.1.items ≡ length builder.now.model.classes) ×
        AreInstances builder.now r.0.items r.1.items (length builder.now.model.classes)) }
{
    let members = members(alloc, builder)?;
    let inhabited = inhabited_classes(alloc, &members.direct)?;
    let mut shared = no_lists(alloc);
    let mut ranges = Vec::new(alloc);
    for class in 0..builder.model().class_count() {
        let sources = classes_below(alloc, builder.model(), &inhabited, ClassNo::new(class))?;
        let range = range_of(&mut shared, builder, &members, sources)?;
        ranges.push(range)?;
    }
    Ok((list_of_all(shared), ranges))
}
