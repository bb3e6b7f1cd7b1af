//! From bytes to a JSON tree, and from a tree to the parts that its readers ask for.

ghost use Rattle.std.specs.Prelude.{◌≡◌, map, option_map, IfOk, IfErr};
ghost use Rattle.serde_json.specs.View.{view, members_view};
ghost use Rattle.imkl_json.specs.Json.{IsTree, IsJsonFault, list_from, record_from, member_count};

use serde_json::{Map, Value};
use std::alloc::Global;
use thiserror::Error;

/// Why bytes have no JSON tree.
#[derive(Clone, Copy, PartialEq, Eq, Debug, Error)]
pub enum JsonFault {
    /// The bytes are no JSON text.
    #[error("not JSON")]
    NotJson,
    /// Memory ran out.
    #[error("out of memory")]
    OutOfMemory,
}

/// The JSON tree of some bytes. The one place where the bytes of an input become JSON. The error is `NotJson` where the
/// bytes are no JSON text, and `OutOfMemory` where memory ran out, whatever the bytes are.
pub fn tree(alloc: Global, bytes: &[u8]) -> Result<Value, JsonFault>
    ensures tree { IfOk result (λ v. IsTree bytes.now (view v)) }
    ensures fault { IfErr result (λ e. IsJsonFault e bytes.now) }
{
    match Value::from_slice(alloc, bytes) {
        Ok(value) => Ok(value),
        Err(e) if e.is_memory() => Err(JsonFault::OutOfMemory),
        Err(_) => Err(JsonFault::NotJson),
    }
}

/// The members of a JSON object that has exactly this number of them. `None` for any other value.
#[tactic(auto, using(crate::proofs::Trees::trees), unfolding(crate::specs::Json::record_from))]
pub fn record_of(value: &Value, members: usize) -> Option<&Map<String, Value>>
    ensures { option_map (λ ms. members_view ms.now.entries) result
        ≡ record_from members (view value.now) }
{
    match value.as_object() {
        Some(map) if map.len() == members => Some(map),
        _ => None,
    }
}

/// The values of a list. `None` for any other value.
#[tactic(auto, using(crate::proofs::Trees::trees), unfolding(crate::specs::Json::list_from))]
pub fn list_of(value: &Value) -> Option<&[Value]>
    ensures { option_map (λ vs. map view vs.now) result ≡ list_from (view value.now) }
{
    match value.as_array() {
        Some(values) => Some(values.as_slice()),
        None => None,
    }
}

/// How many members of this name a value has: 1, or 0. A reader adds it to the number of members that it asks for,
/// where this one is optional.
pub fn member_count(value: &Value, name: &str) -> usize
    ensures { result ≡ member_count name.now (view value.now) }
{
    match value.get(name) {
        Some(_) => 1,
        None => 0,
    }
}
