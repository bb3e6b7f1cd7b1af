//! What is written at a feature of an object, until its turn comes in the class model's order.

ghost use Rattle.std.specs.Prelude.{◌≡◌, Some, IfOk};
ghost use Rattle.token_tree.specs.Tokens.{data_at};
ghost use Rattle.imkl_delivery.specs.Scalars.{is_absent};
ghost use Rattle.imkl_delivery.specs.Pending.{pending_view};

use crate::detour::Detour;
use json::{Reader, Token};
use serde_json::Value;
use std::alloc::Global;
use token_tree::{Single, single_of, singles_of};

/// What is written at a feature: straight from its tokens, of which nothing is copied, or else a JSON value.
#[derive(Drop)]
pub enum Pending<'a> {
    /// Null, which stands for no values.
    Nothing,
    /// One value.
    One(Single<'a>),
    /// The values of a list.
    Many(Vec<Single<'a>>),
    /// A value of a JSON tree.
    Tree(Value),
}

impl<'a> Pending<'a> {
    /// Whether it is null.
    pub(crate) fn is_nothing(&self) -> bool
        ensures { result ≡ is_absent (Some (pending_view self.now)) }
    {
        match self {
            Pending::Nothing => true,
            Pending::Tree(value) => value.is_null(),
            _ => false,
        }
    }
}

/// Reads what is written at a feature.
pub(crate) fn read_pending<'a>(
    alloc: Global,
    reader: &mut Reader<'a>,
) -> Result<Pending<'a>, Detour>
    ensures { IfOk result (λ p. data_at 123 reader.old ≡ Some (pending_view p, reader.new)) }
{
    match reader.next() {
        None => Err(Detour::ByTree),
        Some(Token::String(text)) => Ok(Pending::One(Single::Text(text))),
        Some(Token::Null) => Ok(Pending::Nothing),
        Some(Token::BeginArray) => Ok(Pending::Many(singles_of(alloc, reader)?)),
        Some(token) => Ok(Pending::One(single_of(token)?)),
    }
}
