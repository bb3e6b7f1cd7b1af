//! The program `ocl_check`: its command line, its files, its standard streams and its status.
#![tactic(auto)]

mod command_line;
mod lazy_input;

use clap::error::{Error, ErrorKind};
use command_line::read_words;
use lazy_input::LazyInput;
use ocl_check::{
    CommandFault, CountedReader, JudgeOptions, Outcome, Telling, run_bound, run_compile, run_desk,
    run_judge, run_verify,
};
use ocl_programs::{CompileFiles, DeskFiles, LazyOutput, Request, RuleFiles, VerifyFiles};
use std::process::ExitCode;
use std::{env, io};

/// The exit status of an outcome; a failure is reported on standard error.
fn exit_status(rt: &impl Eprint, outcome: Outcome) -> ExitCode {
    if let Outcome::Failed(fault) = outcome {
        let _ = rt.eprintln(fault.line());
    }
    ExitCode::from(outcome.status())
}

/// Reports why the command line was refused, with status 2. Help and the version come here too, with status 0.
fn report_refusal(rt: &HostRuntime, error: &Error) -> ExitCode {
    if error.kind() == ErrorKind::OutOfMemory {
        return exit_status(rt, Outcome::Failed(CommandFault::OutOfMemory));
    }
    let is_help = error.exit_code() == 0;
    if error.print(rt).is_err() && is_help {
        return exit_status(rt, Outcome::Failed(CommandFault::Write));
    }
    ExitCode::from(if is_help { 0 } else { 2 })
}

fn judge(rt: &HostRuntime, files: RuleFiles<'_>, options: JudgeOptions) -> Outcome {
    run_judge(
        rt.alloc(),
        options,
        &mut CountedReader::new(LazyInput::new(rt, files.model)),
        &mut CountedReader::new(LazyInput::new(rt, files.delivery)),
        &mut CountedReader::new(LazyInput::new(rt, files.rules)),
        &mut Telling::new(io::writer(rt)),
    )
}

fn compile(rt: &HostRuntime, files: CompileFiles<'_>) -> Outcome {
    run_compile(
        rt.alloc(),
        &mut CountedReader::new(LazyInput::new(rt, files.model)),
        &mut CountedReader::new(LazyInput::new(rt, files.rules)),
        &mut Telling::new(LazyOutput::new(rt, files.out)),
        &mut Telling::new(io::writer(rt)),
    )
}

fn bound(rt: &HostRuntime, files: RuleFiles<'_>) -> Outcome {
    run_bound(
        rt.alloc(),
        &mut CountedReader::new(LazyInput::new(rt, files.model)),
        &mut CountedReader::new(LazyInput::new(rt, files.delivery)),
        &mut CountedReader::new(LazyInput::new(rt, files.rules)),
        &mut Telling::new(io::writer(rt)),
    )
}

fn verify(rt: &HostRuntime, files: VerifyFiles<'_>) -> Outcome {
    run_verify(
        rt.alloc(),
        &mut CountedReader::new(LazyInput::new(rt, files.model)),
        &mut CountedReader::new(LazyInput::new(rt, files.code)),
        &mut Telling::new(io::writer(rt)),
    )
}

fn desk(rt: &HostRuntime, files: DeskFiles<'_>) -> Outcome {
    run_desk(
        rt.alloc(),
        &mut CountedReader::new(LazyInput::new(rt, files.rules.model)),
        &mut CountedReader::new(LazyInput::new(rt, files.rules.delivery)),
        &mut CountedReader::new(LazyInput::new(rt, files.rules.rules)),
        &mut CountedReader::new(LazyInput::new(rt, files.script)),
        &mut Telling::new(io::writer(rt)),
    )
}

fn main(rt: HostRuntime) -> ExitCode {
    let args = match env::args(&rt) {
        Ok(args) => args,
        Err(error) if error.kind() == io::ErrorKind::OutOfMemory => {
            return exit_status(&rt, Outcome::Failed(CommandFault::OutOfMemory));
        }
        Err(_) => {
            let _ = rt.eprintln("error: an argument isn't UTF-8 text");
            return ExitCode::from(2);
        }
    };
    let Ok(words) = args.collect::<Vec<String>>(rt.alloc()) else {
        return exit_status(&rt, Outcome::Failed(CommandFault::OutOfMemory));
    };
    match read_words(rt.alloc(), words.as_slice()) {
        Ok(request) if request.shares_standard_input() => {
            let _ = rt.eprintln("error: standard input (-) may be named for one input only");
            ExitCode::from(2)
        }
        Ok(Request::Judge(files, options)) => exit_status(&rt, judge(&rt, files, options)),
        Ok(Request::Compile(files)) => exit_status(&rt, compile(&rt, files)),
        Ok(Request::Bound(files)) => exit_status(&rt, bound(&rt, files)),
        Ok(Request::Verify(files)) => exit_status(&rt, verify(&rt, files)),
        Ok(Request::Desk(files)) => exit_status(&rt, desk(&rt, files)),
        Err(error) => report_refusal(&rt, &error),
    }
}
