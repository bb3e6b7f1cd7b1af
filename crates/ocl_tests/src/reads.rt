//! What is read of accepted and of admitted code.

use crate::asked::{Asked, Inputs, is_answered};
use rule_code::SymbolNumber;
use rule_cost::Admitted;
use rule_verify::{Accepted, Named};
use std::alloc::Global;
use std::test::*;
use test_support::{CATALOGUE, DUCT, DUCT_DEPTH, bytes_of};

/// A rule r of KabelOfLeiding: ALL, SELECT with BOOL 1, FORALL with GET 1, ATTR diepte, UNDEF. Its symbols are the class, its
/// feature diepte, and a class Nope, which it doesn't use and which isn't there.
const GATHERS: &str = "\
4f434c42 0001 0004 0001 72 000e 4b6162656c4f664c656964696e67 0006 646965707465 0004 4e6f7065 \
0003 01 0001 03 0001 0002 01 0003 0001 0000 0000 0007 0a0000 450001 0401 420003 020001 090001 2a";

/// The same with ALL, INT 0, FOLD with GET 2, INT 0, EQ.
const FOLDS: &str = "\
4f434c42 0002 0004 0001 72 000e 4b6162656c4f664c656964696e67 0006 646965707465 0004 4e6f7065 \
0003 01 0001 03 0001 0002 01 0003 0001 0000 0000 0006 0a0000 030000000000000000 4a020001 020002 \
030000000000000000 2802";

/// What a symbol names, in a word.
fn named_word(accepted: &Accepted<'_>, symbol: u16) -> &'static str {
    if usize::from(symbol) >= accepted.unit().symbols.len() {
        return "no symbol";
    }
    match accepted.named(SymbolNumber(symbol)) {
        Some(Named::Class(_)) => "a class",
        Some(Named::Feature(_, _)) => "a feature",
        Some(_) => "another name",
        None => "nothing",
    }
}

/// What is read of the first rule, and of three symbols.
pub(crate) fn accepted_words(alloc: Global, accepted: &Accepted<'_>) -> Option<String> {
    if accepted.rules() == 0 {
        return None;
    }
    let name = accepted.rule_name(0);
    let class = accepted.model().class_name(accepted.context(0));
    let depths = accepted.depths(0);
    let memory = if accepted.takes_memory(0) {
        "gathers"
    } else {
        "gathers nothing"
    };
    let first = named_word(accepted, 0);
    let second = named_word(accepted, 1);
    let third = named_word(accepted, 2);
    format!(in alloc; "{name} of {class}, {depths:?}, {memory}: {first}, {second}, {third}").ok()
}

/// What is read of the budget, the first rule, its bound, and how many objects it judges.
pub(crate) fn admitted_words(alloc: Global, admitted: &Admitted<'_>) -> Option<String> {
    admitted.admitted();
    let budget = admitted.budget();
    let accepted = admitted.accepted();
    if accepted.rules() == 0 {
        return None;
    }
    let name = accepted.rule_name(0);
    let bound = admitted.bound(0);
    let objects = admitted.sizes().count(accepted.context(0));
    format!(in alloc; "within {budget}: {name}, at most {bound}, for {objects}").ok()
}

fn reads(alloc: Global, digits: &str, words: &str) -> Result<bool, Fail> {
    let code = bytes_of(alloc, digits)?;
    let inputs = Inputs {
        model: CATALOGUE,
        delivery: DUCT,
        code: &code,
        budget: 0,
    };
    Ok(is_answered(alloc, inputs, Asked::Accepted, words))
}

#[test]
fn accepted_code_is_read(rt: HostRuntime) -> Result<(), Fail> {
    let gathers =
        "r of KabelOfLeiding, Depths { operands: 1, variables: 2, blocks: 1 }, gathers: a class, a feature, nothing";
    assert!(rt; reads(rt.alloc(), GATHERS, gathers)?);
    let folds =
        "r of KabelOfLeiding, Depths { operands: 2, variables: 3, blocks: 1 }, gathers nothing: a class, a feature, nothing";
    assert!(rt; reads(rt.alloc(), FOLDS, folds)?);
    Ok(())
}

#[test]
fn admitted_code_is_read(rt: HostRuntime) {
    let inputs = Inputs {
        model: CATALOGUE,
        delivery: DUCT,
        code: DUCT_DEPTH,
        budget: 19,
    };
    let words = "within 19: d, at most 19, for 1";
    assert!(rt; is_answered(rt.alloc(), inputs, Asked::Admitted, words));
}
