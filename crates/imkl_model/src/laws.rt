//! Laws of the definitions: what the tests mean, and what holds of every class model.

ghost use Rattle.std.specs.Prelude.{◌≡◌, false, List, ℕ, Decides};
ghost use Rattle.imkl_model.specs.Chains.{IsCyclic, is_cyclic};
ghost use Rattle.imkl_model.specs.ClassModel.{Model, no_renames, Conforms, conforms, IsClash, has_clash};
ghost use Rattle.imkl_model.specs.Renames.{renames_clash};
ghost use Rattle.imkl_model.specs.WellFormed.{IsClassModel};
ghost use Rattle.imkl_model.specs.Laws as laws;

/// The test of conformance says whether a chain of zero or more superclass steps leads from one class to the other.
pub fn conforming()
    ensures { (m : Model) (c d : ℕ) → Decides (conforms m c d) (Conforms m c d) }
{}

/// The test of a cycle says whether a class reaches itself by one or more superclass steps.
pub fn cycles()
    ensures { (supers : List (List ℕ)) → Decides (is_cyclic supers) (IsCyclic supers) }
{}

/// The test of a clash says whether two features of one name and different owners belong to one class.
pub fn clashes()
    ensures { (m : Model) → Decides (has_clash m) ((c f g : ℕ) × IsClash m c f g) }
{}

/// Conformance is reflexive and transitive, so a class inherits what belongs to the classes that it conforms to. In a
/// class model it goes one way and stays among the classes.
pub fn conformance()
    ensures reflexive { (m : Model) → laws.ConformsToItself m }
    ensures transitive { (m : Model) → laws.ConformsAlong m }
    ensures inherits { (m : Model) → laws.Inherits m }
    ensures one_way { (m : Model) → IsClassModel m → laws.ConformsOneWay m }
    ensures within { (m : Model) → IsClassModel m → laws.ConformsWithin m }
{}

/// Names lead to the numbers of classes, enumerations and literals, and back. The feature found for a name belongs to the
/// class and bears the name, and it is the only one that does.
pub fn names_and_numbers()
    ensures classes { (m : Model) → IsClassModel m → laws.ClassesHaveNames m }
    ensures enumerations { (m : Model) → IsClassModel m → laws.EnumerationsHaveNames m }
    ensures literals { (m : Model) → IsClassModel m → laws.LiteralsHaveNames m }
    ensures features { (m : Model) → IsClassModel m → laws.FeaturesHaveNames m }
{}

/// What a name names, old or present, is there. A present name stays as it is whatever old names there are, and without old
/// names every name does.
pub fn old_names()
    ensures classes { (m : Model) → IsClassModel m → laws.LinkedClassesAreThere m }
    ensures features { (m : Model) → IsClassModel m → laws.LinkedFeaturesBelong m }
    ensures present_classes { (m : Model) → IsClassModel m → laws.PresentClassesStay m }
    ensures present_features { (m : Model) → IsClassModel m → laws.PresentFeaturesStay m }
    ensures none { (m : Model) → m.renames ≡ no_renames → laws.NamesStay m }
{}

/// Names differ where they must, and are names.
pub fn names()
    ensures types { (m : Model) → IsClassModel m → laws.TypesDiffer m }
    ensures defined { (m : Model) → IsClassModel m → laws.TypesAreDefined m }
    ensures associations { (m : Model) → IsClassModel m → laws.AssociationsDiffer m }
    ensures supers { (m : Model) → IsClassModel m → laws.SupersDiffer m }
    ensures names { (m : Model) → IsClassModel m → laws.HasNames m }
{}

/// A class model has no clash and is within its limits, its features are sound, and its ends are paired.
pub fn class_models()
    ensures clash { (m : Model) → IsClassModel m → has_clash m ≡ false }
    ensures old_names { (m : Model) → IsClassModel m → renames_clash m ≡ false }
    ensures limits { (m : Model) → IsClassModel m → laws.IsWithinLimits m }
    ensures features { (m : Model) → IsClassModel m → laws.FeaturesAreSound m }
    ensures ends { (m : Model) → IsClassModel m → laws.EndsArePaired m }
{}
