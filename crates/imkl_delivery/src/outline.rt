//! The first pass over a delivery's tokens: its outline is checked, and all objects are added.

ghost use Rattle.std.specs.Prelude.{◌≡◌, ◌<◌, [], ◌∷◌, ℕ, true, List, Some, Ok, codes, length, IfOk, IfSome};
ghost use Rattle.json.specs.Token.{Token};
ghost use Rattle.serde_json.specs.Data.{Data, Items, Members, no_members};
ghost use Rattle.serde_json.specs.Read.{read};
ghost use Rattle.token_tree.specs.Tokens.{data_at, items_at, members_at};
ghost use Rattle.imkl_model.specs.ClassModel.{class_number};
ghost use Rattle.imkl_population.specs.Building.{KeepsModel};
ghost use Rattle.imkl_delivery.specs.Straight.{IsObject, AreFound, TakesMember, HasHead, IsHead, AreAdded};
ghost use Rattle.imkl_delivery.specs.Loading.{empty, add_entry};
ghost use Rattle.imkl_delivery.specs.Document.{Written};
ghost use Rattle.imkl_delivery.specs.Taken.{added_from};

use crate::detour::Detour;
use crate::tokens::{closes, opens, opens_object, skip_members, string};
use imkl_model::{ClassModel, ClassNo};
use imkl_population::{PopulationBuilder, PopulationFault};
use json::{Reader, Scratch};
use std::alloc::Global;

/// The members of an entry that were found so far.
#[derive(Clone, Copy, Drop)]
pub struct Found<'a> {
    /// The object's id.
    pub id: Option<&'a str>,
    /// The name of its class.
    pub class: Option<&'a str>,
    /// Whether there are features.
    pub features: bool,
}

/// An object's id, and the name of its class.
#[derive(Clone, Copy, Drop)]
pub struct Head<'a> {
    /// The object's id.
    pub id: &'a str,
    /// The name of its class.
    pub class: &'a str,
}

/// Passes over features.
fn skip_features(reader: &mut Reader<'_>) -> Result<(), Detour>
    ensures { IfOk result (λ x. (d : Data) (r : List Token) →
        data_at 124 reader.old ≡ Some (d, r) → (r ≡ reader.new) × IsObject d) }
{
    opens_object(reader)?;
    skip_members(reader)?;
    Ok(())
}

/// Takes the value of a member that is the id.
fn take_id<'a>(reader: &mut Reader<'a>, found: Found<'a>) -> Result<Found<'a>, Detour>
    ensures { IfOk result (λ f. TakesMember (codes "id") reader.old found.entry reader.new f) }
{
    if found.id.is_some() {
        return Err(Detour::ByTree);
    }
    let id = string(reader)?;
    Ok(Found {
        id: Some(id),
        class: found.class,
        features: found.features,
    })
}

/// Takes the value of a member that is the class's name.
fn take_class<'a>(reader: &mut Reader<'a>, found: Found<'a>) -> Result<Found<'a>, Detour>
    ensures { IfOk result (λ f. TakesMember (codes "class") reader.old found.entry reader.new f) }
{
    if found.class.is_some() {
        return Err(Detour::ByTree);
    }
    let class = string(reader)?;
    Ok(Found {
        id: found.id,
        class: Some(class),
        features: found.features,
    })
}

/// Passes over the value of a member that is the features.
fn take_features<'a>(reader: &mut Reader<'a>, found: Found<'a>) -> Result<Found<'a>, Detour>
    ensures { IfOk result (λ f.
        TakesMember (codes "features") reader.old found.entry reader.new f) }
{
    let has_features = found.features;
    if has_features {
        return Err(Detour::ByTree);
    }
    skip_features(reader)?;
    Ok(Found {
        id: found.id,
        class: found.class,
        features: true,
    })
}

/// Takes the value of a member of this name.
fn take_member<'a>(
    reader: &mut Reader<'a>,
    name: &str,
    found: Found<'a>,
) -> Result<Found<'a>, Detour>
    ensures { IfOk result (λ f. TakesMember name.now reader.old found.entry reader.new f) }
{
    if name == "id" {
        return take_id(reader, found);
    }
    if name == "class" {
        return take_class(reader, found);
    }
    if name == "features" {
        return take_features(reader, found);
    }
    Err(Detour::ByTree)
}

/// Takes the members of an entry up to its end.
fn take_members<'a>(reader: &mut Reader<'a>) -> Result<Found<'a>, Detour>
    ensures { IfOk result (λ f. (all : Members) (r : List Token) →
        members_at 124 no_members reader.old ≡ Some (all, r) →
        (r ≡ reader.new) × AreFound f all) }
{
    let mut found = Found {
        id: None,
        class: None,
        features: false,
    };
    for _ in 0..4 {
        match reader.next_key() {
            Ok(None) => return Ok(found),
            Ok(Some(name)) => {
                found = take_member(reader, name, found)?;
            }
            Err(_) => return Err(Detour::ByTree),
        }
    }
    Err(Detour::ByTree)
}

/// The id and class of members that were found, if all of an entry's are there.
fn head_of<'a>(found: Found<'a>) -> Result<Head<'a>, Detour>
    ensures { IfOk result (λ h. (all : Members) → AreFound found.entry all →
        HasHead h.id.now h.class.now all) }
{
    match (found.id, found.class) {
        (Some(id), Some(class)) if found.features => Ok(Head { id, class }),
        _ => Err(Detour::ByTree),
    }
}

/// Takes the entry that comes next.
fn take_entry<'a>(reader: &mut Reader<'a>) -> Result<Head<'a>, Detour>
    ensures { IfOk result (λ h. IsHead h.id.now h.class.now reader.old reader.new) }
{
    opens_object(reader)?;
    let found = take_members(reader)?;
    let head = head_of(found)?;
    Ok(head)
}

/// Whether a class has a name.
fn is_class(model: &ClassModel, class: ClassNo, name: &str) -> bool
    ensures number { result ≡ true → class_number model.now name.now ≡ Some class }
    ensures in_range { result ≡ true → class < length model.now.classes }
{
    model.well_formed();
    class.index() < model.class_count() && model.class_name(class) == name
}

/// The class of a name. Where the guess is right, nothing is searched.
fn class_of(model: &ClassModel, guess: ClassNo, name: &str) -> Option<ClassNo>
    ensures number { result ≡ class_number model.now name.now }
    ensures in_range { IfSome result (λ c. c < length model.now.classes) }
{
    if is_class(model, guess, name) {
        return Some(guess);
    }
    model.class(name)
}

/// Adds the object of an entry, whose class is guessed.
#[tactic(auto, unfolding(crate::specs::Loading::add_entry))]
fn add(
    builder: &mut PopulationBuilder<'_>,
    head: Head<'_>,
    guess: &mut ClassNo,
) -> Result<(), Detour>
    ensures added { IfOk result (λ x. (o : ℕ) (w : Written) →
        w.id ≡ head.entry.id.now → w.class ≡ head.entry.class.now →
        add_entry o w builder.old ≡ Ok builder.new) }
    ensures model { KeepsModel builder.old builder.new }
{
    let Some(class) = class_of(builder.model(), *guess, head.class) else {
        return Err(Detour::ByTree);
    };
    *guess = class;
    match builder.add_object(head.id, class) {
        Ok(_) => Ok(()),
        Err(PopulationFault::OutOfMemory) => Err(Detour::OutOfMemory),
        Err(_) => Err(Detour::ByTree),
    }
}

/// Adds the objects of all entries up to the end of their list. Deliveries often list objects of one class one after the
/// other, so each is guessed to be of the last one's class.
fn add_all(builder: &mut PopulationBuilder<'_>, reader: &mut Reader<'_>) -> Result<(), Detour>
    ensures added { IfOk result (λ x. (all : Items) (r : List Token) →
        items_at 125 reader.old ≡ Some (all, r) →
        (r ≡ reader.new) × AreAdded all builder.old builder.new) }
    ensures model { KeepsModel builder.old builder.new }
{
    let mut guess = ClassNo::new(0);
    for place in 0..usize::MAX {
        if reader.take_end_array() {
            return Ok(());
        }
        let head = take_entry(reader)?;
        add(builder, head, &mut guess)?;
    }
    Err(Detour::ByTree)
}

/// No entry takes fewer bytes.
const LEAST_ENTRY: usize = 36;

/// How many objects are to be expected, by how long the first ones are. Contracts promise nothing of it.
fn expected(reader: &mut Reader<'_>, bytes: usize) -> Result<usize, Detour> {
    let start = reader.offset();
    for count in 0..256 {
        if reader.take_end_array() {
            return Ok(count);
        }
        reader.skip_value(125)?;
    }
    let each = (reader.offset().saturating_sub(start) / 256).max(1);
    let count = bytes / each;
    Ok(count.saturating_add(count / 16).min(bytes / LEAST_ENTRY))
}

fn expected_in(text: &str, scratch: &mut Scratch, model: &ClassModel) -> Result<usize, Detour> {
    let mut reader = Reader::new(text, scratch)?;
    opens(&mut reader, model)?;
    expected(&mut reader, text.len())
}

/// Adds all objects of a delivery.
fn read_outline(
    builder: &mut PopulationBuilder<'_>,
    reader: &mut Reader<'_>,
    model: &ClassModel,
) -> Result<(), Detour>
    requires { builder.old ≡ empty model.now }
    ensures added { IfOk result (λ x. (d : Data) → data_at 127 reader.old ≡ Some (d, []) →
        added_from model.now d ≡ Ok builder.new) }
    ensures model { KeepsModel builder.old builder.new }
{
    opens(reader, model)?;
    add_all(builder, reader)?;
    closes(reader)?;
    Ok(())
}

/// All objects of a delivery, added.
pub(crate) fn outline<'m>(
    alloc: Global,
    text: &str,
    model: &'m ClassModel,
    scratch: &mut Scratch,
) -> Result<PopulationBuilder<'m>, Detour>
    ensures added { IfOk result (λ b. (d : Data) → read text.now ≡ Some d →
        added_from model.now d ≡ Ok b) }
    ensures model { IfOk result (λ b. b.model ≡ model.now) }
{
    let count = expected_in(text, scratch, model)?;
    let mut builder = PopulationBuilder::with_capacity(alloc, model, count)?;
    let mut reader = Reader::new(text, scratch)?;
    read_outline(&mut builder, &mut reader, model)?;
    Ok(builder)
}
