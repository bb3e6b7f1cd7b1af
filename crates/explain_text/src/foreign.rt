//! Operations, characters and words of other OCL, each with what to write here.

/// Operations on collections.
static ON_COLLECTIONS: [(&str, &str); 31] = [
    (
        "any",
        "`->exists(x | ..)` asks whether one is there, `->select(x | ..)` has all of them",
    ),
    ("append", NO_NEW_COLLECTIONS),
    ("asBag", "of a Set or a Bag, `->collect(x | x)` is a Bag"),
    ("asOrderedSet", NO_ORDERED_SET),
    (
        "asSequence",
        "of an OrderedSet, `->collect(x | x)` is a Sequence; of a Set there is none",
    ),
    ("at", NO_PLACES),
    (
        "closure",
        "nest as many steps as there may be, as `x.up->forAll(y | y <> x and y.up->forAll(z | z <> x))`",
    ),
    (
        "collectNested",
        "elements are never collections; nest iterations, as `c->forAll(x | x.d->forAll(y | ..))`",
    ),
    ("excluding", "`->reject(x | x = ..)` leaves it out"),
    (
        "first",
        "`->iterate(x; f : C = null | if f.oclIsUndefined() then x else f endif)` is the first",
    ),
    (
        "flatten",
        "leave it out: elements are never collections, and `->collect(x | ..)` flattens",
    ),
    (
        "including",
        "ask the collection and the value, as `c->forAll(x | x > 0) and y > 0`",
    ),
    ("indexOf", NO_PLACES),
    ("insertAt", NO_NEW_COLLECTIONS),
    (
        "intersection",
        "`c->select(x | d->includes(x))` has what is in both",
    ),
    ("last", "`->iterate(x; l : C = null | x)` is the last"),
    (
        "max",
        "for `c->max() <= 9` write `c->forAll(x | x <= 9)`; `->iterate(..)` computes it",
    ),
    (
        "min",
        "for `c->min() >= 9` write `c->forAll(x | x >= 9)`; `->iterate(..)` computes it",
    ),
    (
        "oclAsSet",
        "`->asSet()`; an arrow makes a Set of a single value by itself",
    ),
    (
        "oclIsInvalid",
        "`->size().oclIsInvalid()` asks it of the collection",
    ),
    (
        "oclIsUndefined",
        "a collection is never null; `->isEmpty()` asks whether nothing is in it",
    ),
    ("prepend", NO_NEW_COLLECTIONS),
    (
        "product",
        "nest iterations, as `c->forAll(x | d->forAll(y | ..))`",
    ),
    ("reverse", NO_NEW_COLLECTIONS),
    (
        "selectByKind",
        "`->select(x | x.oclIsKindOf(C))`; behind it `x.oclAsType(C)` has the features of C",
    ),
    (
        "selectByType",
        "`->select(x | x.oclIsTypeOf(C))`; behind it `x.oclAsType(C)` has the features of C",
    ),
    (
        "sortedBy",
        "nothing is sorted; `c->select(x | c->forAll(y | x.f <= y.f))` has those whose f is least",
    ),
    ("subOrderedSet", NO_NEW_COLLECTIONS),
    ("subSequence", NO_NEW_COLLECTIONS),
    (
        "symmetricDifference",
        "`c->reject(x | d->includes(x))` has what is in c alone; ask d likewise",
    ),
    (
        "union",
        "ask both, as `c->forAll(x | ..) and d->forAll(x | ..)`",
    ),
];

const NO_NEW_COLLECTIONS: &str = "no collection is made but by select, reject, collect and asSet";

const NO_ORDERED_SET: &str =
    "leave it out where order doesn't count: `->asSet()` has each element once, in order";

const NO_PLACES: &str = "elements have no index; `->iterate(..)` goes over them in order";

/// Operations on single values.
static ON_VALUES: [(&str, &str); 27] = [
    ("at", "the i-th character is `.substring(i, i)`"),
    (
        "characters",
        "the i-th character is `.substring(i, i)`, and `.size()` counts them",
    ),
    ("concat", NO_JOINED_STRINGS),
    (
        "endsWith",
        "`s.size() >= 2 and s.substring(s.size() - 1, s.size()) = 'nl'`",
    ),
    ("equalsIgnoreCase", ONE_CASE),
    ("floor", WHOLE_ALREADY),
    (
        "indexOf",
        "`.substring(l, u)` has the characters at given places; nothing is searched for",
    ),
    ("isEmpty", "an arrow asks: `->isEmpty()` is true of null"),
    ("length", "`.size()` counts the characters"),
    (
        "matches",
        "there are no patterns; compare parts, as `s.substring(1, 2) = 'nl'`",
    ),
    ("notEmpty", "an arrow asks: `->notEmpty()` is false of null"),
    ("oclAsSet", "`->asSet()`"),
    (
        "oclContainer",
        "the other end of the association has a name; read that",
    ),
    (
        "oclIsInState",
        "a delivery has no states; compare a feature",
    ),
    ("oclIsNew", "a delivery is one state, with no earlier one"),
    (
        "oclType",
        "`.oclIsTypeOf(C)` asks for exactly C, `.oclIsKindOf(C)` for its subclasses too",
    ),
    ("round", WHOLE_ALREADY),
    ("startsWith", "`s.size() >= 2 and s.substring(1, 2) = 'nl'`"),
    ("toBoolean", NOT_READ),
    ("toInteger", NOT_READ),
    ("toLower", ONE_CASE),
    ("toLowerCase", ONE_CASE),
    ("toReal", NOT_READ),
    (
        "toString",
        "compare the value itself: nothing is made into a String",
    ),
    ("toUpper", ONE_CASE),
    ("toUpperCase", ONE_CASE),
    (
        "trim",
        "compare parts, as `s.substring(1, 2) = 'nl'`: no String is made but by substring",
    ),
];

const NO_JOINED_STRINGS: &str =
    "Strings aren't joined; compare parts, as `s.substring(1, 2) = 'nl'`";

const ONE_CASE: &str = "letters keep their case; compare with each: `s = 'a' or s = 'A'`";

const WHOLE_ALREADY: &str = "leave it out: numbers are whole";

const NOT_READ: &str =
    "a String isn't read as another value; give the attribute that type in the class model";

/// Types.
static TYPES: [(&str, &str); 13] = [
    ("Bool", "the type is `Boolean`"),
    (
        "Collection",
        "name the kind: `Set(..)`, `OrderedSet(..)`, `Bag(..)` or `Sequence(..)`",
    ),
    ("Double", WHOLE_NUMBERS),
    ("Float", WHOLE_NUMBERS),
    (
        "OclAny",
        "name the class, the enumeration or the type of the value",
    ),
    (
        "OclVoid",
        "the type of null can't be written; name the type of the other values",
    ),
    ("Real", WHOLE_NUMBERS),
    ("Tuple", "give each part a `let` of its own"),
    ("UnlimitedNatural", WHOLE_NUMBERS),
    ("bool", "the type is `Boolean`"),
    ("boolean", "the type is `Boolean`"),
    ("int", "the type is `Integer`"),
    ("string", "the type is `String`"),
];

const WHOLE_NUMBERS: &str =
    "numbers are Integers; choose a smaller unit, as millimetres for metres";

/// Names that stand by themselves.
static NAMES: [(&str, &str); 12] = [
    ("False", "write `false`"),
    ("NULL", "write `null`"),
    ("None", "write `null`"),
    ("Null", "write `null`"),
    ("OclInvalid", "write `invalid`"),
    ("OclUndefined", "write `null`"),
    ("OclVoid", "write `null`"),
    ("True", "write `true`"),
    ("nil", "write `null`"),
    (
        "result",
        "there are no operations with a result; the context object is `self`",
    ),
    ("this", "the context object is `self`"),
    ("undefined", "write `null`"),
];

/// Words where they can't stand.
static WORDS: [(&str, &str); 20] = [
    ("AND", "the word is `and`"),
    ("Context", "the word is `context`"),
    ("INV", "the word is `inv`"),
    ("Inv", "the word is `inv`"),
    ("NOT", "the word is `not`"),
    ("OR", "the word is `or`"),
    ("body", ONLY_INVARIANTS),
    ("class", "rules of a class begin with `context`"),
    (
        "def",
        "there are no definitions; give a part a name by `let`",
    ),
    ("derive", ONLY_INVARIANTS),
    ("elseif", "write `else if .. then .. else .. endif endif`"),
    ("endpackage", NO_PACKAGES),
    ("import", NO_PACKAGES),
    ("init", ONLY_INVARIANTS),
    ("invariant", "the word is `inv`"),
    ("let", "a `let` inside an expression stands in parentheses"),
    ("package", NO_PACKAGES),
    ("post", ONLY_INVARIANTS),
    ("pre", ONLY_INVARIANTS),
    (
        "static",
        "there are no definitions; give a part a name by `let`",
    ),
];

const ONLY_INVARIANTS: &str = "there are only invariants: `inv name: ..`";

const NO_PACKAGES: &str = "a text begins with `context`, and names classes without a package";

/// What begins no token, longer ones before what they begin with.
static CHARACTERS: [(&str, &str); 30] = [
    ("!", "`<>` says that two values differ, and `not` negates"),
    ("\"", "a string stands in single quotes, as 'water'"),
    (
        "#",
        "a literal is written with its enumeration, as `Enumeration::literal`",
    ),
    ("%", "`mod` is the remainder"),
    ("&", "`and` joins two conditions"),
    ("//", "a comment begins with `--`"),
    ("/", "`div` divides whole numbers"),
    ("?.", ASKED_FIRST),
    ("?-", "`->` is enough: before an arrow null is an empty Set"),
    ("?", "`if .. then .. else .. endif` chooses"),
    ("@", "there is no `@pre`"),
    (
        "[",
        "elements have no index; `->iterate(..)` goes over them in order",
    ),
    (
        "]",
        "elements have no index; `->iterate(..)` goes over them in order",
    ),
    ("^", "there are no messages and no powers"),
    ("{", NO_LITERALS),
    ("}", NO_LITERALS),
    ("\u{a0}", "write a plain space"),
    ("\u{ac}", "`not` negates"),
    ("\u{200b}", "leave it out"),
    ("\u{2013}", "write a plain `-`"),
    ("\u{2018}", STRAIGHT_QUOTES),
    ("\u{2019}", STRAIGHT_QUOTES),
    ("\u{201c}", STRAIGHT_QUOTES),
    ("\u{201d}", STRAIGHT_QUOTES),
    ("\u{2212}", "write a plain `-`"),
    ("\u{2260}", "`<>` says that two values differ"),
    ("\u{2264}", "write `<=`"),
    ("\u{2265}", "write `>=`"),
    ("\u{feff}", "save the text without a byte order mark"),
    ("~", "`not` negates"),
];

const ASKED_FIRST: &str =
    "write `.`; where null must be passed over, ask first: `x.oclIsUndefined() or x.f > 0`";

const NO_LITERALS: &str =
    "no collections are written out: for `Set{1, 2}->includes(x)` write `x = 1 or x = 2`, for `1..9` write `1 <= x and x <= 9`, for `c = Set{}` write `c->isEmpty()`";

const STRAIGHT_QUOTES: &str = "a string stands in straight single quotes, as 'water'";

/// What a table has for a name; nothing where it isn't there.
fn found_in(table: &[(&'static str, &'static str)], name: &str) -> &'static str {
    for (foreign, instead) in table {
        if *foreign == name {
            return *instead;
        }
    }
    ""
}

/// What to write in place of an operation on collections that other OCL has; nothing where it has none of this name.
pub fn instead_on_collection(name: &str) -> &'static str {
    found_in(&ON_COLLECTIONS, name)
}

/// What to write in place of an operation on a single value that other OCL has; nothing where it has none of this name.
pub fn instead_on_value(name: &str) -> &'static str {
    found_in(&ON_VALUES, name)
}

/// What to write in place of a type of other OCL; nothing where it has none of this name.
pub fn instead_of_type(name: &str) -> &'static str {
    found_in(&TYPES, name)
}

/// What to write in place of a name that stands by itself in other OCL; nothing where none does.
pub fn instead_of_name(name: &str) -> &'static str {
    found_in(&NAMES, name)
}

/// What to write in place of a word of other OCL that can't stand where it is; nothing where it isn't one.
pub(crate) fn instead_of_word(word: &str) -> &'static str {
    found_in(&WORDS, word)
}

/// What to write in place of what bytes begin with, where no token does.
pub(crate) fn instead_of_character(bytes: &[u8]) -> &'static str {
    for (foreign, instead) in &CHARACTERS {
        if bytes.starts_with(foreign.as_bytes()) {
            return *instead;
        }
    }
    ""
}
