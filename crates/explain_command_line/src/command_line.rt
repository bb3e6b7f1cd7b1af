//! The command line.

use crate::eval_words::{EvalWords, eval, eval_words};
use crate::examples_words::{ExampleWords, example_words, examples};
use crate::judge_words::{
    Printing, explained, finding_lines, findings, format, json, printing_asked, rules,
};
use crate::list_words::{ListFiles, list, list_words};
use crate::schema_words::schema;
use crate::show_words::{ShowWords, show, show_words};
use crate::summary_words::{SummaryWords, summary, summary_words};
use crate::test_words::{TestWords, test, test_words};
use crate::text_words::{
    TextsAsked, compile_also, compile_search, judge_also, judge_search, put_also, searches,
};
use crate::why_words::{WhyWords, why, why_words};
use clap::{ArgMatches, Command, Error};
use ocl_programs::{Request, VERSION, bound, compile, desk, judge, request_of, verify, word};
use std::alloc::{AllocError, Global};

/// The end of the program's help.
const HELP: &str = "\
A command of ocl_check is answered as ocl_check answers it, with its status; on standard error it is
said why an input is refused, where, and how it can be mended. For instance
  ocl_explain judge --text examples/catalogue.json examples/network.json examples/network.rules
docs/use/explain.md shows what is said.";

/// What is asked.
#[derive(Clone, Copy, Drop)]
pub enum Asked<'a> {
    /// To answer a command of `ocl_check`, and to explain the answer; how a report is printed.
    Answer(Request<'a>, Printing<'a>),
    /// To evaluate expressions.
    Eval(EvalWords<'a>),
    /// To search for deliveries that show what rules mean.
    Examples(ExampleWords<'a>),
    /// To list a code file.
    List(ListFiles<'a>),
    /// To print the JSON Schema of the deliveries of a class model, by its path.
    Schema(&'a str),
    /// To show the rules of a code file as OCL.
    Show(ShowWords<'a>),
    /// To sum up a folder of reports.
    Summary(SummaryWords<'a>),
    /// To test rules by the deliveries of a folder.
    Test(TestWords<'a>),
    /// To explain a verdict.
    Why(WhyWords<'a>),
}

/// A command line that was read.
#[derive(Drop)]
pub struct CommandLine<'a> {
    /// What is asked.
    pub asked: Asked<'a>,
    /// What is asked of rule texts, where `judge` or `compile` is.
    pub texts: TextsAsked<'a>,
}

/// The program's commands and their arguments.
fn command<'a>(alloc: Global) -> Result<Command<'a>, AllocError> {
    Command::new(alloc, "ocl_explain")
        .about("Answers as ocl_check does, and says why an input is refused")
        .version(VERSION)
        .after_help(HELP)
        .subcommand_required(true)
        .subcommand(
            judge(alloc)?
                .arg(format(alloc))?
                .arg(json(alloc)?)?
                .arg(rules(alloc)?)?
                .arg(explained(alloc))?
                .arg(findings(alloc)?)?
                .arg(finding_lines(alloc)?)?
                .arg(judge_also(alloc)?)?
                .arg(judge_search(alloc)?)?,
        )?
        .subcommand(
            compile(alloc)?
                .arg(compile_also(alloc))?
                .arg(compile_search(alloc))?,
        )?
        .subcommand(verify(alloc)?)?
        .subcommand(bound(alloc)?)?
        .subcommand(desk(alloc)?)?
        .subcommand(eval(alloc)?)?
        .subcommand(examples(alloc)?)?
        .subcommand(list(alloc)?)?
        .subcommand(schema(alloc)?)?
        .subcommand(show(alloc)?)?
        .subcommand(summary(alloc)?)?
        .subcommand(test(alloc)?)?
        .subcommand(why(alloc)?)
}

/// What the matches of a command line ask.
fn asked_by<'a>(matches: &ArgMatches<'a>) -> Asked<'a> {
    if let Some(eval) = matches.subcommand_matches("eval") {
        return Asked::Eval(eval_words(eval));
    }
    if let Some(examples) = matches.subcommand_matches("examples") {
        return Asked::Examples(example_words(examples));
    }
    if let Some(list) = matches.subcommand_matches("list") {
        return Asked::List(list_words(list));
    }
    let schema = matches.subcommand_matches("schema");
    if schema.is_some() {
        return Asked::Schema(word(schema, "MODEL"));
    }
    if let Some(show) = matches.subcommand_matches("show") {
        return Asked::Show(show_words(show));
    }
    if let Some(summary) = matches.subcommand_matches("summary") {
        return Asked::Summary(summary_words(summary));
    }
    if let Some(test) = matches.subcommand_matches("test") {
        return Asked::Test(test_words(test));
    }
    if let Some(why) = matches.subcommand_matches("why") {
        return Asked::Why(why_words(why));
    }
    let judge = matches.subcommand_matches("judge");
    Asked::Answer(request_of(matches), printing_asked(judge))
}

/// What a command line asks of rule texts, beside what is asked of other inputs.
fn texts_asked<'a>(alloc: Global, matches: &ArgMatches<'a>) -> Result<TextsAsked<'a>, AllocError> {
    let judge = matches.subcommand_matches("judge");
    let compile = matches.subcommand_matches("compile");
    let mut also = Vec::new(alloc);
    put_also(&mut also, judge)?;
    put_also(&mut also, compile)?;
    Ok(TextsAsked {
        also,
        searches: searches(judge) || searches(compile),
    })
}

/// What the words ask; an error where the command line is refused, or asks for help or the version.
pub fn read_words<'a>(alloc: Global, words: &'a [String]) -> Result<CommandLine<'a>, Error> {
    let matches = command(alloc)?.try_get_matches_from(words)?;
    Ok(CommandLine {
        asked: asked_by(&matches),
        texts: texts_asked(alloc, &matches)?,
    })
}
