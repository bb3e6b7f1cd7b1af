//! The program `ocl_explain`: which command answers what its command line asks, and its status.
#![tactic(auto)]

use clap::error::{Error, ErrorKind};
use explain_command_line::{Asked, CommandLine, read_words};
use explain_commands::{
    answer, evaluate, explain, list, schema, show_examples, show_rules, sum_up, test,
};
use ocl_check::{CommandFault, Outcome};
use std::process::ExitCode;
use std::{env, io};

/// The exit status of an outcome; that memory ran out is reported here, every other failure where it is met.
fn exit_status(rt: &HostRuntime, outcome: Outcome) -> ExitCode {
    if let Outcome::Failed(CommandFault::OutOfMemory) = outcome {
        let _ = rt.eprintln("memory ran out");
    }
    ExitCode::from(outcome.status())
}

/// Reports why the command line was refused, with status 2. Help and the version come here too, with status 0.
fn report_refusal(rt: &HostRuntime, error: &Error) -> ExitCode {
    if error.kind() == ErrorKind::OutOfMemory {
        return exit_status(rt, Outcome::Failed(CommandFault::OutOfMemory));
    }
    let is_help = error.exit_code() == 0;
    if error.print(rt).is_err() && is_help {
        return exit_status(rt, Outcome::Failed(CommandFault::Write));
    }
    ExitCode::from(if is_help { 0 } else { 2 })
}

/// Does what is asked.
fn run(rt: &HostRuntime, line: &CommandLine<'_>) -> Outcome {
    match line.asked {
        Asked::Answer(request, printing) => answer(rt, request, printing, &line.texts),
        Asked::Eval(words) => evaluate(rt, words),
        Asked::Examples(words) => show_examples(rt, words),
        Asked::List(files) => list(rt, files),
        Asked::Schema(model) => schema(rt, model),
        Asked::Show(words) => show_rules(rt, words),
        Asked::Summary(words) => sum_up(rt, words),
        Asked::Test(words) => test(rt, words),
        Asked::Why(words) => explain(rt, words),
    }
}

fn main(rt: HostRuntime) -> ExitCode {
    let args = match env::args(&rt) {
        Ok(args) => args,
        Err(error) if error.kind() == io::ErrorKind::OutOfMemory => {
            return exit_status(&rt, Outcome::Failed(CommandFault::OutOfMemory));
        }
        Err(_) => {
            let _ = rt.eprintln("error: an argument isn't UTF-8 text");
            return ExitCode::from(2);
        }
    };
    let Ok(words) = args.collect::<Vec<String>>(rt.alloc()) else {
        return exit_status(&rt, Outcome::Failed(CommandFault::OutOfMemory));
    };
    match read_words(rt.alloc(), words.as_slice()) {
        Ok(line) if line.shares_standard_input() => {
            let _ = rt.eprintln("error: standard input (-) may be named for one input only");
            ExitCode::from(2)
        }
        Ok(line) => exit_status(&rt, run(&rt, &line)),
        Err(error) => report_refusal(&rt, &error),
    }
}
