//! Searches for deliveries, and warnings of rules that none was found to break.

use crate::files::in_memory;
use explain_command_line::ExampleWords;
use explain_notes::Input;
use ocl_check::CommandFault;
use ocl_explain::{Example, ExampleAsked, find_example, rule_names};
use rule_examples::Limits;
use rule_values::Verdict;

/// How far is searched, where the command line doesn't say it.
const DEFAULT_LIMITS: Limits = Limits {
    seed: 1,
    tries: 6000,
    objects: 6,
};

/// The most objects of a delivery, whatever the command line says.
const MAX_OBJECTS: u64 = 100;

/// How many deliveries one part of a search tries.
pub(crate) const TRIES_AT_ONCE: u64 = 2000;

/// How far `examples` searches.
pub(crate) fn limits_of(words: ExampleWords<'_>) -> Limits {
    let default = DEFAULT_LIMITS;
    let objects = words.objects.unwrap_or(default.objects as u64);
    Limits {
        seed: words.seed.unwrap_or(default.seed),
        tries: words.tries.unwrap_or(default.tries),
        objects: objects.min(MAX_OBJECTS) as usize,
    }
}

/// How many parts a search has.
pub(crate) fn search_parts(limits: Limits) -> u64 {
    limits.tries.div_ceil(TRIES_AT_ONCE)
}

/// Searches in one part, which tries other deliveries than those before it.
pub(crate) fn search_part(
    rt: &HostRuntime,
    asked: ExampleAsked<'_>,
    part: u64,
) -> Result<Option<Example>, CommandFault> {
    let left = asked
        .limits
        .tries
        .saturating_sub(part.saturating_mul(TRIES_AT_ONCE));
    let limits = Limits {
        seed: asked.limits.seed.wrapping_add(part.wrapping_mul(1 << 32)),
        tries: left.min(TRIES_AT_ONCE),
        ..asked.limits
    };
    in_memory(find_example(rt.alloc(), ExampleAsked { limits, ..asked }))
}

/// Whether a delivery was found that is as asked.
fn is_found(rt: &HostRuntime, asked: ExampleAsked<'_>) -> Result<bool, CommandFault> {
    for part in 0..search_parts(asked.limits) {
        if search_part(rt, asked, part)?.is_some() {
            return Ok(true);
        }
    }
    Ok(false)
}

/// Warns of each rule that no delivery was found to break. That none was found proves nothing.
pub(crate) fn warn_of_unbroken<'i>(
    rt: &HostRuntime,
    model: Input<'i>,
    rules: Input<'i>,
) -> Result<(), CommandFault> {
    let names = in_memory(rule_names(rt.alloc(), rules))?;
    let (tries, objects) = (DEFAULT_LIMITS.tries, DEFAULT_LIMITS.objects);
    for (index, name) in names.iter().enumerate() {
        let rule = name.as_str();
        let asked = ExampleAsked {
            model,
            rules,
            rule,
            index,
            verdict: Verdict::Fails,
            others_hold: false,
            limits: DEFAULT_LIMITS,
        };
        if !is_found(rt, asked)? {
            let _ = eprintln!(rt;
                "warning: {rule}: no delivery was found that breaks it, in {tries} tries of at most {objects} objects"
            );
        }
    }
    Ok(())
}
