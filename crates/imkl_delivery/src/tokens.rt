//! Single tokens of a delivery.

ghost use Rattle.std.specs.Prelude.{◌≡◌, [], ◌∷◌, List, Some, IfOk};
ghost use Rattle.json.specs.Reads.{token_of};
ghost use Rattle.json.specs.Token.{Token as SpecToken, begin_object, end_object, begin_array, string, key};
ghost use Rattle.serde_json.specs.Data.{Members};
ghost use Rattle.token_tree.specs.Tokens.{members_at};
ghost use Rattle.imkl_delivery.specs.Straight.{opening};

use crate::detour::Detour;
use imkl_model::ClassModel;
use json::{Reader, Token};

/// The token that comes next.
pub(crate) fn next<'a>(reader: &mut Reader<'a>) -> Result<Token<'a>, Detour>
    ensures { IfOk result (λ t. reader.old ≡ token_of t ∷ reader.new) }
{
    reader.next().ok_or(Detour::ByTree)
}

/// The text of a string that comes next.
pub(crate) fn string<'a>(reader: &mut Reader<'a>) -> Result<&'a str, Detour>
    ensures { IfOk result (λ s. reader.old ≡ string s.now ∷ reader.new) }
{
    match next(reader)? {
        Token::String(text) => Ok(text),
        _ => Err(Detour::ByTree),
    }
}

/// Passes over the opening of a JSON object that comes next.
pub(crate) fn opens_object(reader: &mut Reader<'_>) -> Result<(), Detour>
    ensures { IfOk result (λ x. reader.old ≡ begin_object ∷ reader.new) }
{
    match next(reader)? {
        Token::BeginObject => Ok(()),
        _ => Err(Detour::ByTree),
    }
}

/// Passes over the opening of a list that comes next.
pub(crate) fn opens_list(reader: &mut Reader<'_>) -> Result<(), Detour>
    ensures { IfOk result (λ x. reader.old ≡ begin_array ∷ reader.new) }
{
    match next(reader)? {
        Token::BeginArray => Ok(()),
        _ => Err(Detour::ByTree),
    }
}

/// Passes over a member's name that comes next.
pub(crate) fn takes_key(reader: &mut Reader<'_>, name: &str) -> Result<(), Detour>
    ensures { IfOk result (λ x. reader.old ≡ key name.now ∷ reader.new) }
{
    match next(reader)? {
        Token::Key(found) if found == name => Ok(()),
        _ => Err(Detour::ByTree),
    }
}

/// Passes over what stands before the first object of a delivery for a class model.
pub(crate) fn opens(reader: &mut Reader<'_>, model: &ClassModel) -> Result<(), Detour>
    ensures { IfOk result (λ x. reader.old ≡ opening model.now.name reader.new) }
{
    opens_object(reader)?;
    takes_key(reader, "model")?;
    if string(reader)? != model.name() {
        return Err(Detour::ByTree);
    }
    takes_key(reader, "objects")?;
    opens_list(reader)
}

/// Passes over what stands behind the last object of a delivery.
pub(crate) fn closes(reader: &mut Reader<'_>) -> Result<(), Detour>
    ensures { IfOk result (λ x. reader.old ≡ end_object ∷ []) }
{
    match next(reader)? {
        Token::EndObject => {}
        _ => return Err(Detour::ByTree),
    }
    match reader.next() {
        None => Ok(()),
        Some(_) => Err(Detour::ByTree),
    }
}

/// Passes over members up to the end of their JSON object. Where they are read at all, they end there.
pub(crate) fn skip_members(reader: &mut Reader<'_>) -> Result<(), Detour>
    ensures { IfOk result (λ x. (found all : Members) (r : List SpecToken) →
        members_at 123 found reader.old ≡ Some (all, r) → r ≡ reader.new) }
{
    for _ in 0..u64::MAX {
        match reader.next_key() {
            Ok(None) => return Ok(()),
            Ok(Some(_)) => reader.skip_value(123)?,
            Err(_) => return Err(Detour::ByTree),
        }
    }
    Err(Detour::ByTree)
}
