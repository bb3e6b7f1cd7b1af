//! Kinds in common with any object, which no text and no code compares.

use ocl_kinds::{ScalarKind, common_kind};

#[test]
fn any_object_has_a_kind_in_common_with_null_alone(rt: HostRuntime) {
    let object = ScalarKind::AnyObject;
    assert!(rt; common_kind(&object, &ScalarKind::Boolean).is_none());
    assert!(rt; common_kind(&object, &ScalarKind::Void) == Some(object));
}
