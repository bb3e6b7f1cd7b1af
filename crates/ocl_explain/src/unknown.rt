//! Why there is no verdict of the rule and the object that `why` is asked for, in words.

use crate::selecting::no_rule;
use crate::whys::WhyAsked;
use explain_notes::Nearest;
use explain_refusals::Words;
use ocl_core::CoreRule;
use std::alloc::Global;

/// That no rule of a text has a name, with the nearest that one has.
pub(crate) fn unknown_rule(alloc: Global, path: &str, name: &str, rules: &[CoreRule]) -> Words {
    let mut nearest = Nearest::to(name);
    for rule in rules {
        nearest.offer(alloc, rule.name.as_str())?;
    }
    no_rule(alloc, path, name, &nearest)
}

/// That no object has the id.
pub(crate) fn unknown_object(alloc: Global, asked: WhyAsked<'_>) -> Words {
    let (path, id) = (asked.delivery.path, asked.id);
    format!(in alloc; "{path}: no object has the id `{id}`\n")
}

/// That the rule, of this context, doesn't judge the object, which is of this class.
pub(crate) fn not_judged(alloc: Global, asked: WhyAsked<'_>, context: &str, class: &str) -> Words {
    let (path, rule, id) = (asked.rules.path, asked.rule, asked.id);
    format!(in alloc;
        "{path}: rule `{rule}` judges objects of {context}, and `{id}` is of {class}\n"
    )
}
