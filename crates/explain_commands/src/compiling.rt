//! The command `compile` over files.

use crate::files::{read_file, report_write};
use crate::placing::Places;
use crate::requests::end_placed;
use crate::rule_texts::{read_texts, refused_part};
use crate::searching::warn_of_unbroken;
use explain_command_line::TextsAsked;
use explain_notes::Input;
use ocl_check::{CommandFault, Outcome, Telling};
use ocl_explain::{WithLastError, answer_compile};
use ocl_programs::{CompileFiles, LazyOutput};
use std::io;

/// What rules are compiled to, and what is said of them.
#[derive(Clone, Copy, Drop)]
struct Compiling<'a> {
    /// The path of the code file.
    out: &'a str,
    /// Where the rule texts are, if several were joined.
    places: Places<'a>,
    /// Whether a delivery is searched for that breaks each rule.
    searches: bool,
}

/// Writes the code file, or prints what is refused.
fn write_code(
    rt: &HostRuntime,
    compiling: Compiling<'_>,
    model: Input<'_>,
    rules: Input<'_>,
) -> Outcome {
    let path = compiling.out;
    let mut out = Telling::new(WithLastError::new(LazyOutput::new(rt, path)));
    let mut sink = Telling::new(WithLastError::new(io::writer(rt)));
    let ending = answer_compile(rt.alloc(), model, rules, &mut out, &mut sink);
    report_write(rt, path, out.into_inner().error());
    report_write(rt, "standard output", sink.into_inner().error());
    end_placed(rt, compiling.places, ending)
}

/// Writes the code file, and warns of each rule that no delivery was found to break.
fn write_warned<'i>(
    rt: &HostRuntime,
    compiling: Compiling<'_>,
    model: Input<'i>,
    rules: Input<'i>,
) -> Result<Outcome, CommandFault> {
    let outcome = write_code(rt, compiling, model, rules);
    match outcome {
        Outcome::Status(0) if compiling.searches => warn_of_unbroken(rt, model, rules)?,
        _ => {}
    }
    Ok(outcome)
}

/// Compiles rules. Where one of several rule texts is refused by itself, what is printed is as of that text alone.
fn compile_inputs<'i>(
    rt: &HostRuntime,
    compiling: Compiling<'i>,
    model: Input<'i>,
    rules: Input<'i>,
) -> Result<Outcome, CommandFault> {
    match refused_part(rt, compiling.places.parts, model, rules.bytes)? {
        Some(part) => {
            let places = Places::none();
            write_warned(
                rt,
                Compiling {
                    places,
                    ..compiling
                },
                model,
                part,
            )
        }
        None => write_warned(rt, compiling, model, rules),
    }
}

/// Compiles one rule text, or texts that are joined.
pub(crate) fn compile(
    rt: &HostRuntime,
    files: CompileFiles<'_>,
    texts: &TextsAsked<'_>,
) -> Result<Outcome, CommandFault> {
    let compiling = Compiling {
        out: files.out,
        places: Places::none(),
        searches: texts.searches,
    };
    let model = read_file(rt, files.model)?;
    if texts.also.is_empty() {
        let rules = read_file(rt, files.rules)?;
        return compile_inputs(rt, compiling, model.input(), rules.input());
    }
    let joined = read_texts(rt, files.rules, &texts.also)?;
    let compiling = Compiling {
        places: joined.places(),
        ..compiling
    };
    compile_inputs(rt, compiling, model.input(), joined.input())
}
