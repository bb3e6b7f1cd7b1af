//! Laws of the code file's format, over its definitions alone. The functions do nothing.

ghost use Rattle.std.specs.Prelude.{◌≡◌, ◌<◌, ◌++◌, ◌↔◌, [], List, ℕ, Ok, slice_index_or};
ghost use Rattle.rule_code.specs.Content.{Content};
ghost use Rattle.rule_code.specs.Spelling.{spelling};
ghost use Rattle.rule_code.specs.WellFormed.{IsUnit};
ghost use Rattle.rule_code.specs.CodeFile.{unit_of};
ghost use Rattle.rule_code.specs.Laws.{FaultsAreOfFields};

/// No unit's spelling begins another's, so no two units share one.
pub fn one_spelling()
    ensures { (u v : Content) (rest : List ℕ) → IsUnit u → IsUnit v → spelling v ≡ spelling u ++
        rest → (rest ≡ []) × (u ≡ v) }
{}

/// The unit that bytes are read as is the unit whose spelling they are.
pub fn reading_undoes_spelling()
    ensures { (bytes : List ℕ) (u : Content) → ((i : ℕ) → slice_index_or bytes i 0 < 256) →
        (unit_of bytes ≡ Ok u) ↔ (IsUnit u × (bytes ≡ spelling u)) }
{}

/// The first fault's field begins at its offset: a file that ends there or within the field is wrong at that very offset. And
/// files that agree through that field have the same first fault, unless the file's end cuts that field off.
pub fn faults_are_of_fields()
    ensures { FaultsAreOfFields }
{}
