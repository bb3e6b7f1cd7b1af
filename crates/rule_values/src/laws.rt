//! Laws of values.

ghost use Rattle.imkl_population.specs.Population.{Population};
ghost use Rattle.rule_values.specs.Laws.{FitsIn, SumsAreIntegers, SetsHaveTheirKind};

/// A value in a kind is in each kind that it fits.
pub fn values_in_wider_kinds()
    ensures { (p : Population) → FitsIn p }
{}

/// A sum is an Integer, or invalid.
pub fn sums_are_integers()
    ensures { (p : Population) → SumsAreIntegers p }
{}

/// The Set of what a collection holds is of its elements' kind, so it holds nothing twice.
pub fn sets_have_their_kind()
    ensures { (p : Population) → SetsHaveTheirKind p }
{}
