//! Laws of kinds.

ghost use Rattle.imkl_model.specs.ClassModel.{Model};
ghost use Rattle.imkl_model.specs.WellFormed.{IsClassModel};
ghost use Rattle.ocl_kinds.specs.Laws as laws;

/// Fitting is reflexive and transitive, and in a class model no two kinds fit each other.
pub fn fitting()
    ensures reflexive { (m : Model) → laws.FitsItself m }
    ensures transitive { (m : Model) → laws.FitsAlong m }
    ensures one_way { (m : Model) → IsClassModel m → laws.FitsOneWay m }
{}

/// The kind of a feature is one of the class model.
pub fn features()
    ensures { (m : Model) → IsClassModel m → laws.FeaturesHaveKinds m }
{}

/// The wider of two kinds is one of them, and both fit it; there is one where one of the two fits the other, and it doesn't
/// matter which comes first.
pub fn wider_kinds()
    ensures one { (m : Model) → laws.WiderIsOne m }
    ensures fit { (m : Model) → laws.BothFitWider m }
    ensures there { (m : Model) → laws.FittedIsWider m }
    ensures commutes { (m : Model) → IsClassModel m → laws.WiderCommutes m }
{}

/// Two kinds fit the kind that they have in common; there is one where both fit one kind, and it doesn't matter which comes
/// first.
pub fn common_kinds()
    ensures fit { (m : Model) → laws.BothFitCommon m }
    ensures there { (m : Model) → laws.FittingOneHaveCommon m }
    ensures commutes { laws.CommonCommutes }
{}
