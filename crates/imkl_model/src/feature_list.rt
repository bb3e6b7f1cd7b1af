//! The features that a class model writes, in the model's order.

ghost use Rattle.std.specs.Prelude.{◌≡◌, ◌+◌, ◌^◌, ◌<◌, ◌++◌, ◌∷◌, [], length, map, IfOk, OnOk};
ghost use Rattle.imkl_model.specs.WrittenFeatures.{written_attribute_of, written_source_end, written_opposite_end, written_attributes, written_ends, written_features};

use crate::feature::Role;
use crate::numbers::FeatureNo;
use crate::written::{Written, WrittenAssociation, WrittenAttribute, WrittenClass, WrittenFeature};
use ocl_base::Text;
use std::alloc::{AllocError, Global};

fn attribute(
    alloc: Global,
    owner: &Text,
    attribute: &WrittenAttribute,
) -> Result<WrittenFeature, AllocError>
    ensures { IfOk result (λ f. f ≡ written_attribute_of owner.now attribute.now) }
{
    Ok(WrittenFeature {
        owner: owner.copy(alloc)?,
        name: attribute.name.copy(alloc)?,
        element: attribute.element.copy(alloc)?,
        lower: attribute.lower,
        upper: attribute.upper,
        ordered: attribute.ordered,
        unique: attribute.unique,
        role: Role::Attribute,
    })
}

/// The source end, where it is the feature at this index.
fn source(
    alloc: Global,
    index: usize,
    association: &WrittenAssociation,
) -> Result<WrittenFeature, AllocError>
    requires { index + 1 < 2 ^ 64 }
    ensures { IfOk result (λ f. f ≡ written_source_end index association.now) }
{
    let end = &association.end;
    Ok(WrittenFeature {
        owner: association.from.copy(alloc)?,
        name: end.name.copy(alloc)?,
        element: association.to.copy(alloc)?,
        lower: end.lower,
        upper: end.upper,
        ordered: end.ordered,
        unique: true,
        role: Role::SourceEnd {
            opposite: FeatureNo::new(index + 1),
        },
    })
}

/// The opposite end of the feature at this index.
fn opposite(
    alloc: Global,
    index: usize,
    association: &WrittenAssociation,
) -> Result<WrittenFeature, AllocError>
    ensures { IfOk result (λ f. f ≡ written_opposite_end index association.now) }
{
    let end = &association.opposite;
    Ok(WrittenFeature {
        owner: association.to.copy(alloc)?,
        name: end.name.copy(alloc)?,
        element: association.from.copy(alloc)?,
        lower: end.lower,
        upper: end.upper,
        ordered: end.ordered,
        unique: true,
        role: Role::OppositeEnd {
            source: FeatureNo::new(index),
        },
    })
}

fn push_attributes(
    alloc: Global,
    features: &mut Vec<WrittenFeature>,
    owner: &Text,
    attributes: &[WrittenAttribute],
) -> Result<(), AllocError>
    ensures { OnOk result (features.new.items
        ≡ features.old.items ++ map (written_attribute_of owner.now) attributes.now) }
{
    for written in attributes {
        features.push(attribute(alloc, owner, written)?)?;
    }
    Ok(())
}

fn push_classes(
    alloc: Global,
    features: &mut Vec<WrittenFeature>,
    classes: &[WrittenClass],
) -> Result<(), AllocError>
    ensures { OnOk result (features.new.items
        ≡ features.old.items ++ written_attributes classes.now) }
{
    for class in classes {
        push_attributes(alloc, features, &class.name, class.attributes.as_slice())?;
    }
    Ok(())
}

fn push_ends(
    alloc: Global,
    features: &mut Vec<WrittenFeature>,
    association: &WrittenAssociation,
) -> Result<(), AllocError>
    ensures { let index = length features.old.items in OnOk result (features.new.items
        ≡ features.old.items ++ written_source_end index association.now
        ∷ written_opposite_end index association.now ∷ []) }
{
    let index = features.len();
    features.push(source(alloc, index, association)?)?;
    features.push(opposite(alloc, index, association)?)?;
    Ok(())
}

fn push_associations(
    alloc: Global,
    features: &mut Vec<WrittenFeature>,
    associations: &[WrittenAssociation],
) -> Result<(), AllocError>
    ensures { OnOk result (features.new.items
        ≡ features.old.items ++ written_ends (length features.old.items) associations.now) }
{
    for association in associations {
        push_ends(alloc, features, association)?;
    }
    Ok(())
}

/// Attributes class by class, then both ends of each association.
pub(crate) fn written_features(
    alloc: Global,
    written: &Written,
) -> Result<Vec<WrittenFeature>, AllocError>
    ensures { IfOk result (λ v. v.items ≡ written_features written.now) }
{
    let mut features = Vec::new(alloc);
    push_classes(alloc, &mut features, written.classes.as_slice())?;
    push_associations(alloc, &mut features, written.associations.as_slice())?;
    Ok(features)
}
