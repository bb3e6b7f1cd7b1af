//! Laws of the definitions: the contracts of functions that do nothing.

ghost use Rattle.ocl_text.specs.ViewLaws.{ViewsNumber, ViewsString, ViewsKeyword, ViewsName, ViewsEnumerationLiteral, ViewsPrefix, ViewsSpine, ViewsLet, ViewsIf, ViewsBinding, ViewsBinary, ViewsProperty, ViewsCall, ViewsIterate, ViewsFold, ViewsNamedType, ViewsCollectionType};
ghost use Rattle.ocl_text.specs.Laws.{SpellsOneList, KeepsUnderWiderLimits, SpellsOrIsRefused};

/// A list of tokens spells at most one list of rules, and wider limits lose none.
pub fn rules_are_determined()
    ensures one { SpellsOneList }
    ensures wider { KeepsUnderWiderLimits }
{}

/// A list of tokens spells rules within the limits, or is wrong or too deep at some token.
pub fn each_list_spells_or_is_refused()
    ensures { SpellsOrIsRefused }
{}

/// How each kind of node is seen as a tree.
pub fn trees_are_viewed()
    ensures number { ViewsNumber }
    ensures string { ViewsString }
    ensures keyword { ViewsKeyword }
    ensures name { ViewsName }
    ensures enumeration_literal { ViewsEnumerationLiteral }
    ensures prefix { ViewsPrefix }
    ensures spine { ViewsSpine }
    ensures let_in { ViewsLet }
    ensures if_then { ViewsIf }
    ensures binding { ViewsBinding }
    ensures binary { ViewsBinary }
    ensures property { ViewsProperty }
    ensures call { ViewsCall }
    ensures iterate { ViewsIterate }
    ensures folding { ViewsFold }
    ensures named_type { ViewsNamedType }
    ensures collection_type { ViewsCollectionType }
{}
