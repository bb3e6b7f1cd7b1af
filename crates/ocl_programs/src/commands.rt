//! The commands, with their arguments, and what a command line asks.

use crate::help;
use clap::{Arg, ArgAction, ArgMatches, Command, value_parser};
use ocl_check::{JudgeOptions, MAX_BUDGET, RulesForm};
use std::alloc::{AllocError, Global};

/// The files that `judge` and `bound` name, and `desk` first.
#[derive(Clone, Copy, Drop)]
pub struct RuleFiles<'a> {
    /// The path of the class model.
    pub model: &'a str,
    /// The path of the delivery.
    pub delivery: &'a str,
    /// The path of the rules.
    pub rules: &'a str,
}

/// The files that `verify` names.
#[derive(Clone, Copy, Drop)]
pub struct VerifyFiles<'a> {
    /// The path of the class model.
    pub model: &'a str,
    /// The path of the code file.
    pub code: &'a str,
}

/// The files that `compile` names.
#[derive(Clone, Copy, Drop)]
pub struct CompileFiles<'a> {
    /// The path of the class model.
    pub model: &'a str,
    /// The path of the rule text.
    pub rules: &'a str,
    /// The path of the code file to write.
    pub out: &'a str,
}

/// The files that `desk` names.
#[derive(Clone, Copy, Drop)]
pub struct DeskFiles<'a> {
    /// The class model, the delivery and the code file.
    pub rules: RuleFiles<'a>,
    /// The path of the script.
    pub script: &'a str,
}

/// A command with its files.
#[derive(Clone, Copy, Drop)]
pub enum Request<'a> {
    /// `judge` with its files and options.
    Judge(RuleFiles<'a>, JudgeOptions),
    /// `compile` with its files.
    Compile(CompileFiles<'a>),
    /// `bound` with its files.
    Bound(RuleFiles<'a>),
    /// `verify` with its files.
    Verify(VerifyFiles<'a>),
    /// `desk` with its files.
    Desk(DeskFiles<'a>),
}

/// The path that names standard input.
pub const STANDARD_INPUT: &str = "-";

/// How many of these paths name standard input.
fn standard_inputs(paths: &[&str]) -> usize {
    paths.iter().filter(|path| **path == STANDARD_INPUT).count()
}

impl Request<'_> {
    /// Whether standard input is named for more than one input, of which only the first would have any bytes.
    pub fn shares_standard_input(&self) -> bool {
        let count = match self {
            Request::Judge(files, _) | Request::Bound(files) => {
                standard_inputs(&[files.model, files.delivery, files.rules])
            }
            Request::Compile(files) => standard_inputs(&[files.model, files.rules]),
            Request::Verify(files) => standard_inputs(&[files.model, files.code]),
            Request::Desk(files) => standard_inputs(&[
                files.rules.model,
                files.rules.delivery,
                files.rules.rules,
                files.script,
            ]),
        };
        count > 1
    }
}

/// A file that must be named.
fn file<'a>(alloc: Global, name: &'a str, help: &'a str) -> Arg<'a> {
    Arg::new(alloc, name).required(true).help(help)
}

/// The option of `judge` that limits the work.
fn budget<'a>(alloc: Global) -> Arg<'a> {
    Arg::new(alloc, "budget")
        .long("budget")
        .value_name("N")
        .value_parser(value_parser!(u64).range(0..=MAX_BUDGET.cast_signed()))
        .help("The most that a rule may be charged for an object; 2^63-1 where not given")
}

/// The option of `judge` that takes rules as text.
fn text<'a>(alloc: Global) -> Arg<'a> {
    Arg::new(alloc, "text")
        .long("text")
        .action(ArgAction::SetTrue)
        .help("RULES is a rule text; without this option it is a code file")
}

/// A command on a class model, a delivery and rules.
fn on_delivery<'a>(
    alloc: Global,
    command: Command<'a>,
    rules: &'a str,
    help: &'a str,
) -> Result<Command<'a>, AllocError> {
    command
        .arg(file(alloc, "MODEL", "The class model, a JSON file"))?
        .arg(file(alloc, "DELIVERY", "The delivery, a JSON file"))?
        .arg(file(alloc, rules, help))
}

/// The command `judge`.
pub fn judge<'a>(alloc: Global) -> Result<Command<'a>, AllocError> {
    let command = Command::new(alloc, "judge")
        .about("Judges a delivery by rules, and prints the report")
        .after_help(help::JUDGE)
        .arg(text(alloc))?
        .arg(budget(alloc))?;
    on_delivery(
        alloc,
        command,
        "RULES",
        "The rules: a code file, or a rule text",
    )
}

/// The command `compile`.
pub fn compile<'a>(alloc: Global) -> Result<Command<'a>, AllocError> {
    Command::new(alloc, "compile")
        .about("Compiles a rule text to a code file")
        .after_help(help::COMPILE)
        .arg(file(alloc, "MODEL", "The class model, a JSON file"))?
        .arg(file(alloc, "RULES", "The rule text"))?
        .arg(file(alloc, "OUT", "The code file to write"))
}

/// The command `verify`.
pub fn verify<'a>(alloc: Global) -> Result<Command<'a>, AllocError> {
    Command::new(alloc, "verify")
        .about("Verifies a code file for a class model")
        .after_help(help::VERIFY)
        .arg(file(alloc, "MODEL", "The class model, a JSON file"))?
        .arg(file(alloc, "CODE", "The code file"))
}

/// The command `bound`.
pub fn bound<'a>(alloc: Global) -> Result<Command<'a>, AllocError> {
    let command = Command::new(alloc, "bound")
        .about("Says what each rule of a code file is charged at most for an object of a delivery")
        .after_help(help::BOUND);
    on_delivery(alloc, command, "CODE", "The code file")
}

/// The command `desk`.
pub fn desk<'a>(alloc: Global) -> Result<Command<'a>, AllocError> {
    let command = Command::new(alloc, "desk")
        .about("Makes many reports on a delivery side by side, as a script of calls says")
        .after_help(help::DESK);
    on_delivery(alloc, command, "CODE", "The code file")?.arg(file(
        alloc,
        "SCRIPT",
        "The script, a call in each line",
    ))
}

/// The word given for an argument; one that is required is always given.
pub fn word<'a>(matches: Option<&ArgMatches<'a>>, name: &str) -> &'a str {
    match matches {
        Some(matches) => matches.get_str(name).unwrap_or(""),
        None => "",
    }
}

/// The files that are given to `judge`, `bound` or `desk`, of which the third has this name.
fn rule_files<'a>(matches: Option<&ArgMatches<'a>>, rules: &str) -> RuleFiles<'a> {
    RuleFiles {
        model: word(matches, "MODEL"),
        delivery: word(matches, "DELIVERY"),
        rules: word(matches, rules),
    }
}

/// The options of `judge`. Without `--budget` the budget is `MAX_BUDGET`; without `--text` the rules are a
/// code file.
fn options(matches: Option<&ArgMatches<'_>>) -> JudgeOptions {
    let Some(matches) = matches else {
        return JudgeOptions {
            form: RulesForm::Code,
            budget: MAX_BUDGET,
        };
    };
    JudgeOptions {
        form: if matches.get_flag("text") {
            RulesForm::Text
        } else {
            RulesForm::Code
        },
        budget: matches.get_one::<u64>("budget").unwrap_or(MAX_BUDGET),
    }
}

/// What a command line asks that gives one of the five commands.
pub fn request_of<'a>(matches: &ArgMatches<'a>) -> Request<'a> {
    let verify = matches.subcommand_matches("verify");
    if verify.is_some() {
        return Request::Verify(VerifyFiles {
            model: word(verify, "MODEL"),
            code: word(verify, "CODE"),
        });
    }
    let compile = matches.subcommand_matches("compile");
    if compile.is_some() {
        return Request::Compile(CompileFiles {
            model: word(compile, "MODEL"),
            rules: word(compile, "RULES"),
            out: word(compile, "OUT"),
        });
    }
    let bound = matches.subcommand_matches("bound");
    if bound.is_some() {
        return Request::Bound(rule_files(bound, "CODE"));
    }
    let desk = matches.subcommand_matches("desk");
    if desk.is_some() {
        return Request::Desk(DeskFiles {
            rules: rule_files(desk, "CODE"),
            script: word(desk, "SCRIPT"),
        });
    }
    let judge = matches.subcommand_matches("judge");
    Request::Judge(rule_files(judge, "RULES"), options(judge))
}
