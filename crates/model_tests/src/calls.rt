//! Calls on builders that no delivery leads to, and calls behind others that were refused.

use crate::models::{Question, ask};
use std::test::Fail;

/// Cables of which some are glass fibre, ducts that hold at most two, and bundles of at least three. Its features are naam 0,
/// diepten 1, themas 2, actief 3, omvat 4, ligtIn 5, bundelt 6 and gebundeld 7.
const DUCTS: &str = r#"{"model":"m","enums":[{"name":"Thema","literals":["water","gas","riool"]}],
"classes":[
{"name":"Leiding","abstract":true,"supers":[],"attributes":[
{"name":"naam","type":"String","lower":0,"upper":1,"ordered":false,"unique":true},
{"name":"diepten","type":"Integer","lower":0,"upper":null,"ordered":true,"unique":false}]},
{"name":"Kabel","abstract":false,"supers":["Leiding"],"attributes":[
{"name":"themas","type":"Thema","lower":1,"upper":2,"ordered":false,"unique":true}]},
{"name":"Glasvezel","abstract":false,"supers":["Kabel"],"attributes":[
{"name":"actief","type":"Boolean","lower":0,"upper":null,"ordered":false,"unique":true}]},
{"name":"Buis","abstract":false,"supers":["Leiding"],"attributes":[]},
{"name":"Bundel","abstract":false,"supers":[],"attributes":[]}],
"associations":[
{"name":"omhulling","from":"Buis","to":"Kabel",
"end":{"name":"omvat","lower":0,"upper":2,"ordered":false},
"opposite":{"name":"ligtIn","lower":0,"upper":2,"ordered":false}},
{"name":"bundeling","from":"Bundel","to":"Kabel",
"end":{"name":"bundelt","lower":3,"upper":null,"ordered":false},
"opposite":{"name":"gebundeld","lower":0,"upper":null,"ordered":false}}]}"#;

/// Refused, a call adds nothing.
const ADDED: &str = "add Kabel k: done
add Kabel k 1: BadId
add Leiding k 1: BadId
add Leiding k: DuplicateId
add Kabel k: DuplicateId
add Leiding l: AbstractClass
add Buis l: done
add Buis l: DuplicateId
add Kabel K: done";

/// A cable and a duct, and the faults of setting in their order; refused, a call leaves what was set.
const SET: &str = "add Kabel k: done
add Buis b: done
set b Kabel.themas = 'x: WrongFeature
set b Buis.omvat = ::1: WrongFeature
set k Leiding.naam = ::1 ::1: WrongKind
set k Kabel.themas = ::0 ::3: WrongKind
set k Kabel.themas = ::0 ::1 ::0: DuplicateTarget
set k Kabel.themas =: TooFew { object: ObjectNo { index: 0 }, feature: FeatureNo { index: 2 } }
set k Kabel.themas = ::0 ::1 ::2: TooMany { object: ObjectNo { index: 0 }, feature: FeatureNo { index: 2 } }
set k Leiding.naam = 'a 'a: TooMany { object: ObjectNo { index: 0 }, feature: FeatureNo { index: 0 } }
set k Leiding.naam = 'a 'b: TooMany { object: ObjectNo { index: 0 }, feature: FeatureNo { index: 0 } }
set k Kabel.themas = ::2: done
set k Kabel.themas = ::1 ::0: done
set k Leiding.naam =: done
set k Leiding.diepten = 7 -7 7: done
set k Leiding.diepten = 9223372036854775807 -9223372036854775808: done
set k Leiding.diepten = 1 'a: WrongKind
values
2 objects, 4 values
k.diepten: 9223372036854775807 -9223372036854775808
k.themas: ::1 ::0
";

/// Each type takes its own values alone.
const TYPES: &str = "add Glasvezel g: done
set g Leiding.naam = 'a: done
set g Leiding.naam = 1: WrongKind
set g Leiding.diepten = 1: done
set g Leiding.diepten = true: WrongKind
set g Leiding.diepten = 1 'a: WrongKind
set g Glasvezel.actief = true false: done
set g Glasvezel.actief = true true: DuplicateTarget
set g Glasvezel.actief = 1: WrongKind
set g Kabel.themas = ::1: done
set g Kabel.themas = 'gas: WrongKind
set g Kabel.themas = @0: WrongKind";

/// The faults of linking in their order.
const LINKED: &str = "add Kabel k: done
add Buis b: done
add Glasvezel g: done
add Kabel h: done
link b Leiding.naam = b: WrongFeature
link b Kabel.ligtIn = b: WrongFeature
link b Bundel.bundelt = b: WrongFeature
link k Kabel.ligtIn = b b: Derived
link b Buis.omvat = k k b: WrongClass
link b Buis.omvat = k @4: WrongClass
link b Buis.omvat = k g k: DuplicateTarget
link b Buis.omvat = k g h: TooMany { object: ObjectNo { index: 1 }, feature: FeatureNo { index: 4 } }
link b Buis.omvat = g k: done
link b Buis.omvat =: done";

/// A target twice comes before too few targets.
const BUNDLED: &str = "add Kabel k: done
add Kabel g: done
add Kabel h: done
add Bundel u: done
link u Bundel.bundelt = k k: DuplicateTarget
link u Bundel.bundelt = k g: TooFew { object: ObjectNo { index: 3 }, feature: FeatureNo { index: 6 } }
link u Bundel.bundelt = h k g: done";

/// Three cables and two ducts that hold some of them; calls that are refused leave no trace.
const FIVE: &str = "add Kabel k: done
add Buis b: done
add Glasvezel g: done
add Buis c: done
add Kabel h: done
set k Kabel.themas = ::1 ::0: done
set g Kabel.themas = ::0: done
set h Kabel.themas = ::1: done
set c Leiding.diepten = 7 -7 7: done
link c Buis.omvat = g k: done
link b Buis.omvat = h: done
link b Buis.omvat = h g: done
add Kabel k: DuplicateId
set k Kabel.themas =: TooFew { object: ObjectNo { index: 0 }, feature: FeatureNo { index: 2 } }
link c Buis.omvat = h b: WrongClass
values
5 objects, 15 values
k.themas: ::1 ::0
k.ligtIn: @3
b.omvat: @4 @2
g.themas: ::0
g.ligtIn: @1 @3
c.diepten: 7 -7 7
c.omvat: @2 @0
h.themas: ::1
h.ligtIn: @1
";

/// Attributes of each type, set in another order than the model's, with gaps before and between them.
const EACH_TYPE: &str = "add Kabel k: done
add Glasvezel g: done
add Kabel h: done
set g Glasvezel.actief = true: done
set g Leiding.naam = 'glas\u{e9}: done
set g Kabel.themas = ::2 ::0: done
set g Leiding.diepten = 5 -3 5: done
set k Kabel.themas = ::1: done
set k Leiding.naam = 'kabel: done
set h Leiding.diepten = 9: done
set h Kabel.themas = ::0: done
values
3 objects, 11 values
k.naam: 'kabel
k.themas: ::1
g.naam: 'glas\u{e9}
g.diepten: 5 -3 5
g.themas: ::2 ::0
g.actief: true
h.diepten: 9
h.themas: ::0
";

/// Values of few among many objects, set out of their order: at one feature too far apart to be counted.
const SCATTERED: &str = "fill 200: done
set o130 Leiding.diepten = 130: done
set o2 Leiding.diepten = 2: done
set o199 Leiding.diepten = 199: done
set o3 Leiding.diepten = 3: done
set o199 Leiding.naam = 'last: done
set o0 Leiding.naam = 'first: done
values
200 objects, 6 values
o0.naam: 'first
o2.diepten: 2
o3.diepten: 3
o130.diepten: 130
o199.naam: 'last
o199.diepten: 199
";

/// Attributes of which some are never set, and a source end that is set twice.
const SET_TWICE: &str = "add Kabel k: done
add Buis b: done
add Glasvezel g: done
add Buis c: done
set g Kabel.themas = ::0 ::2: done
set k Kabel.themas = ::1: done
set g Leiding.naam = 'glas: done
set c Leiding.diepten = 7 -7 7: done
set b Leiding.diepten =: done
link b Buis.omvat = k: done
link c Buis.omvat = g k: done
link b Buis.omvat = g: done
values
4 objects, 13 values
k.themas: ::1
k.ligtIn: @3
b.omvat: @2
g.naam: 'glas
g.themas: ::0 ::2
g.ligtIn: @1 @3
c.diepten: 7 -7 7
c.omvat: @2 @0
";

/// An attribute that is set a thousand times, and others and source ends that are set several times, to values of other
/// numbers: the last ones alone stand, and the opposite ends.
const REPLACED: &str = "add Kabel k: done
add Buis b: done
add Glasvezel g: done
add Buis c: done
set k Kabel.themas = ::0 ::2: done
set g Kabel.themas = ::1: done
set c Leiding.diepten = 9 8 9: done
repeat 1000 b Leiding.diepten: done
set g Leiding.naam = 'glas: done
set b Leiding.naam = 'first: done
set b Leiding.naam =: done
set b Leiding.naam = 'last: done
set c Leiding.naam = 'gone: done
set c Leiding.naam =: done
link b Buis.omvat = k g: done
link c Buis.omvat = k: done
link b Buis.omvat =: done
link b Buis.omvat = g: done
set k Kabel.themas = ::2: done
values
4 objects, 13 values
k.themas: ::2
k.ligtIn: @3
b.naam: 'last
b.diepten: -1 0
b.omvat: @2
g.naam: 'glas
g.themas: ::1
g.ligtIn: @1
c.diepten: 9 8 9
c.omvat: @0
";

/// A cable that three ducts hold.
const CROWDED: &str = "add Kabel k: done
set k Kabel.themas = ::1: done
add Buis b: done
link b Buis.omvat = k: done
add Buis c: done
link c Buis.omvat = k: done
add Buis d: done
link d Buis.omvat = k: done
values
TooMany { object: ObjectNo { index: 0 }, feature: FeatureNo { index: 5 } }";

/// The same, and a later cable that was never set: that comes first.
const CROWDED_AND_UNSET: &str = "add Kabel k: done
set k Kabel.themas = ::1: done
add Buis b: done
link b Buis.omvat = k: done
add Buis c: done
link c Buis.omvat = k: done
add Buis d: done
link d Buis.omvat = k: done
add Kabel l: done
values
TooFew { object: ObjectNo { index: 4 }, feature: FeatureNo { index: 2 } }";

/// A bundle that was never linked.
const UNLINKED: &str = "add Buis b: done
add Bundel u: done
values
TooFew { object: ObjectNo { index: 1 }, feature: FeatureNo { index: 6 } }";

/// The faults of adding in their order, where one object more fits, and where none does.
const LAST: &str = "fill 999999: done
add Buis last: done
add Buis more: Limit
add Buis more!: BadId
add Buis o7: DuplicateId
add Leiding more: AbstractClass
set last Leiding.diepten = 1: done
link last Buis.omvat =: done";

/// More objects than a builder was made for: each is found by its id, and none is added twice.
const MORE: &str = "room 3
fill 200: done
add Buis o0: DuplicateId
add Buis o77: DuplicateId
add Leiding o199: DuplicateId
add Buis o200: done
add Kabel k: done
set k Kabel.themas = ::1: done
link o120 Buis.omvat = k: done
link o121 Buis.omvat = o120: WrongClass
values
202 objects, 3 values
o120.omvat: @201
k.themas: ::1
k.ligtIn: @120
";

const CALLS: [&str; 14] = [
    ADDED,
    SET,
    TYPES,
    LINKED,
    BUNDLED,
    FIVE,
    EACH_TYPE,
    SCATTERED,
    SET_TWICE,
    REPLACED,
    CROWDED,
    CROWDED_AND_UNSET,
    UNLINKED,
    MORE,
];

#[test]
fn calls_on_builders_are_answered(rt: HostRuntime) -> Result<(), Fail> {
    for rows in CALLS {
        let wrong = ask(rt.alloc(), DUCTS, Question::Calls(rows))?;
        assert_eq!(rt; wrong.as_str(), "");
    }
    Ok(())
}

#[test]
fn a_million_objects_are_the_most(rt: HostRuntime) -> Result<(), Fail> {
    let wrong = ask(rt.alloc(), DUCTS, Question::Calls(LAST))?;
    assert_eq!(rt; wrong.as_str(), "");
    Ok(())
}

/// Two superclasses of the same two classes, and below one of these a chain of which only the last has objects of its own.
const STATIONS: &str = r#"{"model":"m","enums":[],"classes":[
{"name":"Net","abstract":true,"supers":[],"attributes":[]},
{"name":"Gebied","abstract":true,"supers":[],"attributes":[]},
{"name":"Station","abstract":false,"supers":["Net","Gebied"],"attributes":[]},
{"name":"Put","abstract":false,"supers":["Gebied","Net"],"attributes":[]},
{"name":"Gasstation","abstract":false,"supers":["Station"],"attributes":[]},
{"name":"Regelstation","abstract":false,"supers":["Gasstation"],"attributes":[]},
{"name":"Mast","abstract":false,"supers":["Net"],"attributes":[]}],
"associations":[]}"#;

/// Classes with the same instances, with as many others, and with none.
const SHARED: &str = "add Regelstation r: done
add Put p: done
add Regelstation s: done
add Put q: done
classes
Net: 0 1 2 3
Gebied: as Net
Station: 0 2
Put: 1 3
Gasstation: as Station
Regelstation: as Station
Mast:
";

#[test]
fn classes_with_the_same_instances_share_a_list(rt: HostRuntime) -> Result<(), Fail> {
    let wrong = ask(rt.alloc(), STATIONS, Question::Calls(SHARED))?;
    assert_eq!(rt; wrong.as_str(), "");
    Ok(())
}
