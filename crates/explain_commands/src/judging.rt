//! The command `judge` over files.

use crate::files::{in_memory, read_file, report_write};
use crate::placing::Places;
use crate::requests::{StandardError, end_placed};
use crate::rule_texts::{read_texts, refused_part};
use crate::searching::warn_of_unbroken;
use crate::shown::shown_of_report;
use explain_command_line::{Printing, TextsAsked};
use explain_notes::Input;
use ocl_check::{CommandFault, JudgeOptions, Outcome, RulesForm, Telling};
use ocl_explain::{
    Detail, FormAsked, Selected, WithLastError, answer_judge, answer_judge_form, answer_judge_why,
    answer_judge_why_code, select_rules,
};
use ocl_programs::RuleFiles;
use report_forms::Form;
use std::io;

/// How a delivery is judged, and how the report is printed.
#[derive(Clone, Copy, Drop)]
struct Judging<'a> {
    options: JudgeOptions,
    printing: Printing<'a>,
    /// Where the rule texts are, if several were joined.
    places: Places<'a>,
    /// Whether a delivery is searched for that breaks each rule.
    searches: bool,
}

/// How much is printed of a finding.
fn detail(printing: Printing<'_>) -> Detail {
    match printing.explained {
        Some(limits) => Detail::Why(shown_of_report(limits)),
        None => Detail::Verdict,
    }
}

/// Prints the report, or what is refused.
fn print_report<'i>(
    rt: &HostRuntime,
    judging: Judging<'_>,
    model: Input<'i>,
    delivery: Input<'i>,
    rules: Input<'i>,
) -> Outcome {
    let mut sink = Telling::new(WithLastError::new(io::writer(rt)));
    let places = judging.places;
    let (alloc, listener, options) = (rt.alloc(), &StandardError { rt, places }, judging.options);
    let ending = match (judging.printing.form, detail(judging.printing)) {
        (Some(form), detail) => {
            let asked = FormAsked {
                model,
                delivery,
                rules,
                options,
                form,
                detail,
            };
            answer_judge_form(alloc, listener, asked, &mut sink)
        }
        (None, Detail::Verdict) => {
            answer_judge(alloc, listener, options, model, delivery, rules, &mut sink)
        }
        (None, Detail::Why(shown)) => {
            let budget = options.budget;
            match options.form {
                RulesForm::Text => answer_judge_why(
                    alloc, listener, budget, shown, model, delivery, rules, &mut sink,
                ),
                RulesForm::Code => answer_judge_why_code(
                    alloc, listener, budget, shown, model, delivery, rules, &mut sink,
                ),
            }
        }
    };
    report_write(rt, "standard output", sink.into_inner().error());
    end_placed(rt, places, ending)
}

/// Prints the report, and warns of each rule that no delivery was found to break.
fn print_warned<'i>(
    rt: &HostRuntime,
    judging: Judging<'_>,
    model: Input<'i>,
    delivery: Input<'i>,
    rules: Input<'i>,
) -> Result<Outcome, CommandFault> {
    let outcome = print_report(rt, judging, model, delivery, rules);
    match outcome {
        Outcome::Status(0 | 1) if judging.searches => warn_of_unbroken(rt, model, rules)?,
        _ => {}
    }
    Ok(outcome)
}

/// Prints the report. Where one of several rule texts is refused by itself, what is printed is as of that text alone.
fn print_rules<'i>(
    rt: &HostRuntime,
    judging: Judging<'i>,
    model: Input<'i>,
    delivery: Input<'i>,
    rules: Input<'i>,
) -> Result<Outcome, CommandFault> {
    match refused_part(rt, judging.places.parts, model, rules.bytes)? {
        Some(part) => {
            let places = Places::none();
            let judging = Judging { places, ..judging };
            print_warned(rt, judging, model, delivery, part)
        }
        None => print_warned(rt, judging, model, delivery, rules),
    }
}

/// Prints the report by some rules of a text, or that there is no rule of a name.
fn print_selected<'i>(
    rt: &HostRuntime,
    judging: Judging<'i>,
    names: &str,
    model: Input<'i>,
    delivery: Input<'i>,
    rules: Input<'i>,
) -> Result<Outcome, CommandFault> {
    match in_memory(select_rules(rt.alloc(), rules, names))? {
        Selected::Text(text) => {
            let path = rules.path;
            let rules = Input { path, bytes: &text };
            print_rules(rt, judging, model, delivery, rules)
        }
        Selected::Unknown(words) => {
            let _ = rt.eprint(words.as_str());
            Ok(Outcome::Status(2))
        }
    }
}

/// Judges by inputs that were read.
fn judge_inputs<'i>(
    rt: &HostRuntime,
    judging: Judging<'i>,
    model: Input<'i>,
    delivery: Input<'i>,
    rules: Input<'i>,
) -> Result<Outcome, CommandFault> {
    match judging.printing.rules {
        Some(names) => print_selected(rt, judging, names, model, delivery, rules),
        None => print_rules(rt, judging, model, delivery, rules),
    }
}

/// Judges by one text or code file, or by texts that are joined.
fn judge_files<'i>(
    rt: &HostRuntime,
    judging: Judging<'i>,
    path: &'i str,
    also: &[&'i str],
    model: Input<'i>,
    delivery: Input<'i>,
) -> Result<Outcome, CommandFault> {
    if also.is_empty() {
        let rules = read_file(rt, path)?;
        return judge_inputs(rt, judging, model, delivery, rules.input());
    }
    let texts = read_texts(rt, path, also)?;
    let judging = Judging {
        places: texts.places(),
        ..judging
    };
    judge_inputs(rt, judging, model, delivery, texts.input())
}

/// Whether explanations are wanted in a form that has none.
fn lacks_explanations(printing: Printing<'_>) -> bool {
    printing.explained.is_some() && matches!(printing.form, Some(Form::Github | Form::Sarif))
}

/// Judges a delivery by rules, and prints the report as it is wanted.
pub(crate) fn judge(
    rt: &HostRuntime,
    files: RuleFiles<'_>,
    options: JudgeOptions,
    printing: Printing<'_>,
    texts: &TextsAsked<'_>,
) -> Result<Outcome, CommandFault> {
    if lacks_explanations(printing) {
        let _ = rt.eprint("error: the forms github and sarif have no explanations (--why)\n");
        return Ok(Outcome::Status(2));
    }
    let judging = Judging {
        options,
        printing,
        places: Places::none(),
        searches: texts.searches,
    };
    let model = read_file(rt, files.model)?;
    let delivery = read_file(rt, files.delivery)?;
    let (model, delivery) = (model.input(), delivery.input());
    judge_files(rt, judging, files.rules, &texts.also, model, delivery)
}
