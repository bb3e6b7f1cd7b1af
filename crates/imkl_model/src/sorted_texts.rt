//! Texts in order of their bytes.

ghost use Rattle.std.specs.Prelude.{◌≡◌, ◌≤◌, true, false, length, map, IfOk, string_bytes, string_cmp};
ghost use Rattle.std.specs.List.Sorted.{IsSorted, IsPermutation, IsPartitionPoint};
ghost use Rattle.imkl_model.specs.Ranks.{rank_in, is_before};

use std::alloc::{AllocError, Global};

fn copies(alloc: Global, texts: &[String]) -> Result<Vec<String>, AllocError>
    ensures { IfOk result (λ v. map string_bytes v.items ≡ map string_bytes texts.now) }
{
    let mut found = Vec::new(alloc);
    for text in texts {
        found.push(String::from_str(alloc, text.as_str())?)?;
    }
    Ok(found)
}

/// Copies of some texts, in order.
pub(crate) fn in_order(alloc: Global, texts: &[String]) -> Result<Vec<String>, AllocError>
    ensures sorted { IfOk result (λ v. IsSorted string_cmp v.items) }
    ensures same { IfOk result (λ v. IsPermutation (map string_bytes texts.now)
        (map string_bytes v.items)) }
{
    let mut sorted = copies(alloc, texts)?;
    sorted.sort_unstable();
    Ok(sorted)
}

fn is_before(text: &String, name: &str) -> bool
    ensures { result ≡ is_before name.now text.now }
{
    text.as_str().cmp(name).is_lt()
}

/// How many of some texts in order stand before a name.
fn count_before(sorted: &[String], name: &str) -> usize
    requires { IsSorted string_cmp sorted.now }
    ensures within { result ≤ length sorted.now }
    ensures point { IsPartitionPoint (λ t. is_before name.now t ≡ true)
        (λ t. is_before name.now t ≡ false) sorted.now result }
{
    let mut low = 0;
    let mut high = sorted.len();
    while low < high {
        let middle = low + (high - low) / 2;
        if is_before(&sorted[middle], name) {
            low = middle + 1;
        } else {
            high = middle;
        }
    }
    low
}

/// The first place at which a name stands in texts that are in order.
pub(crate) fn rank_of(sorted: &[String], name: &str) -> Option<usize>
    requires { IsSorted string_cmp sorted.now }
    ensures { result ≡ rank_in (map string_bytes sorted.now) name.now }
{
    let rank = count_before(sorted, name);
    match sorted.get(rank) {
        Some(text) if text.as_str() == name => Some(rank),
        _ => None,
    }
}
