//! Old names as they are written: those of classes, and those of features.

ghost use Rattle.std.specs.Prelude.{◌≡◌, All, IfOk};
ghost use Rattle.imkl_model.specs.Shape.{class_renames_of, feature_renames_of};
ghost use Rattle.imkl_model.specs.Spelled.{IsSpelledRename, IsSpelledClassRename, IsSpelledFeatureRename};

use crate::written::{WrittenClassRename, WrittenFeatureRename, WrittenRename};
use std::alloc::{AllocError, Global};

/// The old names of classes.
pub(crate) fn class_renames(
    alloc: Global,
    renames: &[WrittenRename],
) -> Result<Vec<WrittenClassRename>, AllocError>
    requires { All IsSpelledRename renames.now }
    ensures entries { IfOk result (λ v. v.items ≡ class_renames_of renames.now) }
    ensures fits { IfOk result (λ v. All IsSpelledClassRename v.items) }
{
    let mut found = Vec::new(alloc);
    for rename in renames {
        if let WrittenRename::Class(rename) = rename {
            found.push(WrittenClassRename {
                old: rename.old.copy(alloc)?,
                new: rename.new.copy(alloc)?,
            })?;
        }
    }
    Ok(found)
}

/// The old names of features.
pub(crate) fn feature_renames(
    alloc: Global,
    renames: &[WrittenRename],
) -> Result<Vec<WrittenFeatureRename>, AllocError>
    requires { All IsSpelledRename renames.now }
    ensures entries { IfOk result (λ v. v.items ≡ feature_renames_of renames.now) }
    ensures fits { IfOk result (λ v. All IsSpelledFeatureRename v.items) }
{
    let mut found = Vec::new(alloc);
    for rename in renames {
        if let WrittenRename::Feature(rename) = rename {
            found.push(WrittenFeatureRename {
                class: rename.class.copy(alloc)?,
                old: rename.old.copy(alloc)?,
                new: rename.new.copy(alloc)?,
            })?;
        }
    }
    Ok(found)
}
