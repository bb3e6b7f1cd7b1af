//! Laws of code trees and of symbols, over the definitions alone. The functions do nothing.

ghost use Rattle.std.specs.Prelude.{◌≡◌};
ghost use Rattle.imkl_model.specs.ClassModel.{Model, no_renames};
ghost use Rattle.imkl_model.specs.WellFormed.{IsClassModel};
ghost use Rattle.rule_verify.specs.Laws.{EachCodeHasItsLength, PresentSymbolsStay, SymbolsNameAsWritten};

/// The tree of code has as many instructions as the code.
pub fn code_trees()
    ensures { EachCodeHasItsLength }
{}

/// Old names change nothing of a symbol whose names are present ones, and without old names there is nothing to change.
pub fn symbols()
    ensures present { (m : Model) → IsClassModel m → PresentSymbolsStay m }
    ensures none { (m : Model) → m.renames ≡ no_renames → SymbolsNameAsWritten m }
{}
