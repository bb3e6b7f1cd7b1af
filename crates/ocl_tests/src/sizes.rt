//! Which deliveries fit what was admitted for others, and budgets that no command line has.

use crate::asked::{Asked, Inputs, is_answered};
use std::alloc::{AllocError, Global};
use std::test::*;
use test_support::file_of_rules;

/// Attributes with and without upper bounds, and ends.
const BOXES: &str = r#"{"model":"boxes","enums":[],
"classes":[
{"name":"Thing","abstract":true,"supers":[],"attributes":[]},
{"name":"Box","abstract":false,"supers":["Thing"],"attributes":[
{"name":"three","type":"Integer","lower":0,"upper":3,"ordered":false,"unique":true},
{"name":"many","type":"Integer","lower":0,"upper":null,"ordered":false,"unique":true},
{"name":"words","type":"String","lower":0,"upper":null,"ordered":true,"unique":false},
{"name":"none","type":"Integer","lower":0,"upper":null,"ordered":false,"unique":true},
{"name":"a4","type":"Integer","lower":0,"upper":4,"ordered":false,"unique":true},
{"name":"a489229","type":"Integer","lower":0,"upper":489229,"ordered":false,"unique":true},
{"name":"a611674","type":"Integer","lower":0,"upper":611674,"ordered":false,"unique":true},
{"name":"a635625","type":"Integer","lower":0,"upper":635625,"ordered":false,"unique":true},
{"name":"million","type":"Integer","lower":0,"upper":1000000,"ordered":false,"unique":true}]},
{"name":"Crate","abstract":false,"supers":["Box"],"attributes":[]},
{"name":"Lid","abstract":false,"supers":["Thing"],"attributes":[]},
{"name":"Ghost","abstract":false,"supers":["Thing"],"attributes":[]}],
"associations":[
{"name":"covers","from":"Box","to":"Lid",
"end":{"name":"lids","lower":0,"upper":null,"ordered":false},
"opposite":{"name":"boxes","lower":0,"upper":null,"ordered":false}},
{"name":"stores","from":"Box","to":"Lid",
"end":{"name":"dozen","lower":0,"upper":12,"ordered":true},
"opposite":{"name":"atMost12","lower":0,"upper":12,"ordered":false}}]}"#;

/// Three boxes, the last of them a crate, and five lids. The longest `many` has 4 members and stands in the crate, the longest
/// `words` has 5.
const DELIVERY: &str = r#"{"model":"boxes","objects":[
{"id":"B1","class":"Box","features":{"many":[1,2,3],"words":["a","b","c","d","e"]}},
{"id":"B2","class":"Box","features":{"three":[1],"many":[7],"words":["x","x"]}},
{"id":"C1","class":"Crate","features":{"many":[1,2,3,4]}},
{"id":"L1","class":"Lid","features":{}},
{"id":"L2","class":"Lid","features":{}},
{"id":"L3","class":"Lid","features":{}},
{"id":"L4","class":"Lid","features":{}},
{"id":"L5","class":"Lid","features":{}}]}"#;

/// A rule of one step, and one whose bound is 2^63, as `tests/bounds.rows` has it.
const OVER: &str = "\
Box a: true
Box b: true; self; attr Box.a4; forall 10; self; attr Box.million; forall 7; self; \
attr Box.million; forall 4; self; attr Box.million; forall 1; true; and; self; attr Box.a611674; \
forall 7; self; attr Box.million; forall 4; self; attr Box.million; forall 1; true; and; self; \
attr Box.a489229; forall 4; self; attr Box.million; forall 1; true; and; self; attr Box.a635625; \
forall 1; true; and; not; not";

/// Whether rules over the boxes are answered so.
fn is_said(
    alloc: Global,
    rules: &str,
    budget: u64,
    asked: Asked<'_>,
    words: &str,
) -> Result<bool, AllocError> {
    let code = file_of_rules(alloc, rules)?;
    let inputs = Inputs {
        model: BOXES,
        delivery: DELIVERY,
        code: &code,
        budget,
    };
    Ok(is_answered(alloc, inputs, asked, words))
}

#[test]
fn a_rule_that_is_over_is_within_no_budget(rt: HostRuntime) -> Result<(), Fail> {
    for budget in [9_223_372_036_854_775_808, u64::MAX] {
        let words = "rule 1 is too costly";
        assert!(rt; is_said(rt.alloc(), OVER, budget, Asked::Admitted, words)?);
    }
    Ok(())
}

/// Whether that is said of the boxes with a text in the place of another, in the class model and in the delivery.
fn is_said_with(alloc: Global, old: &str, new: &str, words: &str) -> Result<bool, AllocError> {
    let model = BOXES.replace(alloc, old, new)?;
    let delivery = DELIVERY.replace(alloc, old, new)?;
    let asked = Asked::Fits {
        model: model.as_str(),
        delivery: delivery.as_str(),
    };
    is_said(alloc, "Thing r: true", 1, asked, words)
}

#[test]
fn equal_sizes_fit(rt: HostRuntime) -> Result<(), Fail> {
    let cases = [
        // The same class model and delivery, read again.
        ("boxes", "boxes"),
        // Other values, and other lengths of values that aren't the longest.
        ("[1,2,3,4]", "[9,8,7,6]"),
        (r#""many":[7]"#, r#""many":[7,5,3,1]"#),
        (r#""three":[1]"#, r#""three":[3,2,1]"#),
        // Other ids, and links.
        (r#""id":"L5""#, r#""id":"L6""#),
        (r#""three":[1]"#, r#""lids":["L1","L2"]"#),
    ];
    for (old, new) in cases {
        let words = "the same class model, fits";
        assert!(rt; is_said_with(rt.alloc(), old, new, words)?, "{new}");
    }
    Ok(())
}

#[test]
fn other_sizes_do_not_fit(rt: HostRuntime) -> Result<(), Fail> {
    let cases = [
        // A longest value that is shorter, or longer, of an attribute without upper bound.
        ("[1,2,3,4]", "[1,2]"),
        ("[1,2,3]", "[1,2,3,4,5]"),
        (r#"["x","x"]"#, r#"["x","x","x","x","x","x"]"#),
        (r#""three":[1]"#, r#""none":[1]"#),
        // As many objects, of other classes; and one more.
        (r#""id":"L5","class":"Lid""#, r#""id":"L5","class":"Ghost""#),
        (r#""id":"B2","class":"Box""#, r#""id":"B2","class":"Crate""#),
        (
            r#"{"id":"L5","#,
            r#"{"id":"L6","class":"Lid","features":{}},{"id":"L5","#,
        ),
    ];
    for (old, new) in cases {
        let words = "the same class model, doesn't fit";
        assert!(rt; is_said_with(rt.alloc(), old, new, words)?, "{new}");
    }
    Ok(())
}

#[test]
fn another_class_model_does_not_fit(rt: HostRuntime) -> Result<(), Fail> {
    let cases = [
        (r#""model":"boxes""#, r#""model":"other""#),
        (
            r#""upper":12,"ordered":true"#,
            r#""upper":11,"ordered":true"#,
        ),
        (r#""name":"dozen""#, r#""name":"twelve""#),
    ];
    for (old, new) in cases {
        let words = "another class model, doesn't fit";
        assert!(rt; is_said_with(rt.alloc(), old, new, words)?, "{new}");
    }
    Ok(())
}
