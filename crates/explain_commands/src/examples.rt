//! Deliveries that show what each rule of a text means.

use crate::files::{in_memory, print, print_bytes, read_file, write_file};
use crate::requests::{end, say};
use crate::searching::{TRIES_AT_ONCE, limits_of, search_part, search_parts};
use explain_command_line::{ExampleWords, VERDICTS};
use explain_notes::Input;
use ocl_check::{CommandFault, JudgeOptions, MAX_BUDGET, Outcome, RulesForm, Telling};
use ocl_explain::{
    Example, ExampleAsked, Selected, answer_compile, rule_names, select_rules, test_rules,
};
use rule_values::Verdict;

/// A verdict by its number.
fn verdict_of(number: usize) -> Verdict {
    match number {
        0 => Verdict::Holds,
        1 => Verdict::Fails,
        _ => Verdict::Undecided,
    }
}

/// A search for one rule and one verdict.
#[derive(Clone, Copy)]
struct Showing<'a> {
    words: ExampleWords<'a>,
    asked: ExampleAsked<'a>,
    /// The verdict, in a word.
    word: &'a str,
}

impl Showing<'_> {
    /// Searches part by part, and says on standard error that it takes long.
    fn search(self, rt: &HostRuntime) -> Result<Option<Example>, CommandFault> {
        let (rule, word) = (self.asked.rule, self.word);
        for part in 0..search_parts(self.asked.limits) {
            if part > 0 {
                let done = part.saturating_mul(TRIES_AT_ONCE);
                let _ = eprintln!(rt; "{rule} {word}: not found in {done} tries, goes on");
            }
            if let Some(found) = search_part(rt, self.asked, part)? {
                return Ok(Some(found));
            }
        }
        Ok(None)
    }

    /// Writes a delivery and its report to the folder, and prints where.
    fn write_found(
        self,
        rt: &HostRuntime,
        folder: &str,
        found: &Example,
    ) -> Result<(), CommandFault> {
        let (rule, word, id) = (self.asked.rule, self.word, found.id.as_str());
        let path = in_memory(format!(in rt.alloc(); "{folder}/{rule}.{word}.json"))?;
        let report_path = in_memory(format!(in rt.alloc(); "{folder}/{rule}.{word}.report"))?;
        let bytes = found.delivery.as_str().as_bytes();
        let delivery = Input {
            path: path.as_str(),
            bytes,
        };
        let options = JudgeOptions {
            form: RulesForm::Text,
            budget: MAX_BUDGET,
        };
        let (model, rules) = (self.asked.model, self.asked.rules);
        let judged = in_memory(test_rules(rt.alloc(), options, model, delivery, rules, None))?;
        write_file(rt, path.as_str(), bytes)?;
        write_file(rt, report_path.as_str(), &judged.report)?;
        let line = format!(in rt.alloc(); "{rule} {word} {id} {path}\n");
        print(rt, in_memory(line)?.as_str())
    }

    /// Prints a delivery, or where it was written.
    fn print_found(self, rt: &HostRuntime, found: &Example) -> Result<(), CommandFault> {
        if let Some(folder) = self.words.folder {
            return self.write_found(rt, folder, found);
        }
        let (rule, word, id) = (self.asked.rule, self.word, found.id.as_str());
        let delivery = found.delivery.as_str();
        let text = format!(in rt.alloc(); "{rule} {word} {id}\n{delivery}\n");
        print(rt, in_memory(text)?.as_str())
    }

    /// Prints a delivery that shows the verdict, or that none was found.
    fn show(self, rt: &HostRuntime) -> Result<(), CommandFault> {
        if let Some(found) = self.search(rt)? {
            return self.print_found(rt, &found);
        }
        let (rule, word, limits) = (self.asked.rule, self.word, self.asked.limits);
        let (tries, objects) = (limits.tries, limits.objects);
        let line = format!(in rt.alloc();
            "{rule} {word}: none found in {tries} tries of at most {objects} objects\n\n"
        );
        print(rt, in_memory(line)?.as_str())
    }
}

/// Whether a verdict is meant by its word.
fn is_wanted(words: ExampleWords<'_>, word: &str) -> bool {
    match words.verdict {
        Some(wanted) => wanted == word,
        None => true,
    }
}

/// Shows each verdict that is meant of a rule.
fn show_rule<'i>(
    rt: &HostRuntime,
    words: ExampleWords<'i>,
    model: Input<'i>,
    rules: Input<'i>,
    rule: &'i str,
    index: usize,
) -> Result<(), CommandFault> {
    for (number, word) in VERDICTS.iter().enumerate() {
        if !is_wanted(words, word) {
            continue;
        }
        let asked = ExampleAsked {
            model,
            rules,
            rule,
            index,
            verdict: verdict_of(number),
            others_hold: words.others_hold,
            limits: limits_of(words),
        };
        Showing { words, asked, word }.show(rt)?;
    }
    Ok(())
}

/// Whether a rule is meant by its name.
fn is_meant(words: ExampleWords<'_>, rule: &str) -> bool {
    match words.names {
        Some(names) => names.split(',').any(|name| name == rule),
        None => true,
    }
}

/// Whether a rule is asked for that the text doesn't have; that is said on standard error.
fn asks_for_unknown(
    rt: &HostRuntime,
    words: ExampleWords<'_>,
    rules: Input<'_>,
) -> Result<bool, CommandFault> {
    let Some(names) = words.names else {
        return Ok(false);
    };
    match in_memory(select_rules(rt.alloc(), rules, names))? {
        Selected::Text(_text) => Ok(false),
        Selected::Unknown(said) => {
            let _ = rt.eprint(said.as_str());
            Ok(true)
        }
    }
}

/// Shows each rule that is meant.
fn show_rules<'i>(
    rt: &HostRuntime,
    words: ExampleWords<'i>,
    model: Input<'i>,
    rules: Input<'i>,
) -> Result<Outcome, CommandFault> {
    if asks_for_unknown(rt, words, rules)? {
        return Ok(Outcome::Status(2));
    }
    let names = in_memory(rule_names(rt.alloc(), rules))?;
    for (index, rule) in names.iter().enumerate() {
        if is_meant(words, rule.as_str()) {
            show_rule(rt, words, model, rules, rule.as_str(), index)?;
        }
    }
    Ok(Outcome::Status(0))
}

/// Compiles the rules, and shows each that is meant. Where an input is refused that is said as `compile` says it.
fn show_inputs<'i>(
    rt: &HostRuntime,
    words: ExampleWords<'i>,
    model: Input<'i>,
    rules: Input<'i>,
) -> Result<Outcome, CommandFault> {
    let mut code = Telling::new(Vec::new(rt.alloc()));
    let mut said = Telling::new(Vec::new(rt.alloc()));
    let ending = answer_compile(rt.alloc(), model, rules, &mut code, &mut said);
    match ending.outcome {
        Outcome::Status(0) => {
            say(rt, &ending.words);
            show_rules(rt, words, model, rules)
        }
        Outcome::Status(_) => {
            let line = said.into_inner();
            print_bytes(rt, &line)?;
            Ok(end(rt, ending))
        }
        // Memory takes all bytes that there is room for.
        Outcome::Failed(_) => Err(CommandFault::OutOfMemory),
    }
}

/// Reads the inputs, and shows the rules.
fn show_files(rt: &HostRuntime, words: ExampleWords<'_>) -> Result<Outcome, CommandFault> {
    let model = read_file(rt, words.model)?;
    let rules = read_file(rt, words.rules)?;
    show_inputs(rt, words, model.input(), rules.input())
}

/// Searches for deliveries that show what each rule of a text means.
pub fn show_examples(rt: &HostRuntime, words: ExampleWords<'_>) -> Outcome {
    match show_files(rt, words) {
        Ok(outcome) => outcome,
        Err(fault) => Outcome::Failed(fault),
    }
}
