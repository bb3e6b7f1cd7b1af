//! Laws of what explanations show and leave out.

ghost use Rattle.explain_why.specs.Laws.{OthersDecideNothing, FirstDecidesNothing, RepeatedAreShown, ObjectsAreToldApart, IntroducedAreToldApart, NextNamesAreNew, NamesDifferInside};

/// An operand that is left out decides nothing: the operation has its value whatever that operand is.
pub fn left_out_decides_nothing()
    ensures others { OthersDecideNothing }
    ensures first { FirstDecidesNothing }
{}

/// Of an `isUnique` that is false, two elements at least are shown, with equal bodies.
pub fn repeated_are_shown()
    ensures { RepeatedAreShown }
{}

/// An object is written as no other value is, with its class or without: not as a number, a word of OCL, a literal or a String.
pub fn objects_are_told_apart()
    ensures alone { ObjectsAreToldApart }
    ensures introduced { IntroducedAreToldApart }
{}

/// A variable that is bound has a name that none of those has that are seen beside it: so no two that a part sees have one name.
pub fn names_are_told_apart()
    ensures new { NextNamesAreNew }
    ensures differ { NamesDifferInside }
{}
