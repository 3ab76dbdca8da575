//! The command line as `clap` parses it, and the requests of `next` and `between`.

use crate::subcommands::{Subcommand, subcommands};
use crate::words::{Kind, Rule, Word};
use clap::{Arg, ArgAction, ArgMatches, Command, value_parser};
use cron_answers::answer::{Request, Which};
use cron_answers::span::Span;
use cron_looks::Times;
use crontool_machine::choices::{changes_of, form_of};
use std::alloc::{AllocError, Global};

// The version of the repository, and what `rt version` prints of the kit.
const VERSION: &str = "1.7.0, proved by rattle-kit-13f logic dac8208d650f15bf";

const ABOUT: &str = "Tells when cron expressions fire";

const AFTER_HELP: &str = "EXPRESSION has five fields, or is a nickname, as in a crontab; or it has \
six or seven fields, of which the first are seconds.\n\
An instant is ISO with an offset, a fire as it was printed, now, @SECONDS or a civil time in ZONE; \
or today, tomorrow, yesterday, monday, 2024-02, 14:30, +8h, -90m, +30s, +2d or -1w.\n\
DAY is a day, a month or tonight, as today, monday, 2024-02-29 or 2024-02.";

// How many fires `next` lists, unless another number is given.
const FIRES: u64 = 5;

// The argument or option of `clap` for a word of the command line, by its name and kind.
fn plain_arg<'a>(alloc: Global, name: &'a str, kind: Kind) -> Arg<'a> {
    let arg = Arg::new(alloc, name);
    match kind {
        Kind::Given => arg.required(true),
        Kind::Maybe => arg,
        Kind::Many(least) => arg
            .required(least > 0)
            .action(ArgAction::Append)
            .num_args(least..),
        Kind::Flag => arg.long(name).action(ArgAction::SetTrue),
        Kind::Choice(value) => arg.long(name).value_name(value),
        Kind::Number(value) => arg
            .long(name)
            .value_name(value)
            .value_parser(value_parser!(u64)),
        Kind::Count => arg
            .long(name)
            .short('n')
            .value_name("N")
            .value_parser(value_parser!(u64)),
        Kind::Default(value, default) => arg.long(name).value_name(value).default_value(default),
        Kind::Needed(value) => arg.long(name).value_name(value).required(true),
        Kind::ChoiceMany(value) => arg.long(name).value_name(value).action(ArgAction::Append),
        Kind::NeededNumber(value) => arg
            .long(name)
            .value_name(value)
            .required(true)
            .value_parser(value_parser!(u32)),
    }
}

// Whether a word may be an instant before now, such as `-90m`, which begins as an option does.
fn is_instant(name: &str, kind: Kind) -> bool {
    match kind {
        Kind::Given | Kind::Maybe => name.starts_with("START") || name.starts_with("END"),
        Kind::Choice(value) | Kind::Default(value, _) | Kind::Needed(value) => {
            matches!(value, "START" | "INSTANT")
        }
        _ => false,
    }
}

// The argument or option of `clap` for a word, with its line of the help and its rules on other
// words.
fn arg_of<'a>(alloc: Global, word: &Word, has_back: bool) -> Result<Arg<'a>, AllocError> {
    let Word(name, kind, rules, help) = *word;
    let mut arg = plain_arg(alloc, name, kind).help(help);
    if has_back && is_instant(name, kind) {
        arg = arg.allow_hyphen_values(true);
    }
    for rule in rules {
        arg = match *rule {
            Rule::With(other) => arg.requires_arg(other)?,
            Rule::Without(other) => arg.conflicts_with(other)?,
            Rule::Unless(other) => arg.required(false).required_unless_present(other)?,
        };
    }
    Ok(arg)
}

fn subcommand<'a>(
    alloc: Global,
    said: &Subcommand,
    texts: &'a HelpTexts,
    has_back: bool,
) -> Result<Command<'a>, AllocError> {
    let mut command = Command::new(alloc, said.name)
        .about(said.about)
        .after_help(texts.examples.as_str());
    for word in said.words.iter().chain(said.plan) {
        command = command.arg(arg_of(alloc, word, has_back)?)?;
    }
    if texts.usage.is_empty() {
        return Ok(command);
    }
    Ok(command.override_usage(texts.usage.as_str()))
}

// The usage of a subcommand in the help, for a program that was called as `program`. It is empty if
// the usage is made from the words.
fn usage_of(alloc: Global, program: &str, said: &Subcommand) -> Result<String, AllocError> {
    let mut usage = String::new(alloc);
    let name = said.name;
    for words in said.usages {
        if !usage.is_empty() {
            usage.push_str("\n       ")?;
        }
        write!(usage, "{program} {name} {words}")?;
    }
    Ok(usage)
}

// The examples of a subcommand in the help.
fn examples_of(alloc: Global, said: &Subcommand) -> Result<String, AllocError> {
    let [first, second] = said.examples;
    format!(in alloc; "Examples:\n  crontool {first}\n  crontool {second}")
}

/// What the help of a subcommand tells beside its words.
#[derive(Drop)]
pub struct HelpTexts {
    usage: String,
    examples: String,
}

/// What the help of each subcommand tells, for a program that was called as `program`.
pub fn texts_of(alloc: Global, program: &str) -> Result<Vec<HelpTexts>, AllocError> {
    let mut texts = Vec::new(alloc);
    for said in subcommands() {
        texts.push(HelpTexts {
            usage: usage_of(alloc, program, said)?,
            examples: examples_of(alloc, said)?,
        })?;
    }
    Ok(texts)
}

// Whether an argument begins as an instant before now does, such as `-90m`.
fn is_back(argument: &String) -> bool {
    matches!(argument.as_bytes(), [b'-', b'0'..=b'9', ..])
}

/// The whole command line for some arguments, with the texts of each subcommand. Instants may begin
/// with a dash only if an argument does with a dash and a digit: a misspelt option is none.
pub fn command<'a>(
    alloc: Global,
    texts: &'a [HelpTexts],
    arguments: &[String],
) -> Result<Command<'a>, AllocError> {
    let has_back = arguments.iter().any(is_back);
    let mut command = Command::new(alloc, "crontool")
        .version(VERSION)
        .about(ABOUT)
        .after_help(AFTER_HELP)
        .subcommand_required(true)
        .arg_required_else_help(true);
    let all = subcommands();
    for (said, text) in all.iter().zip(texts.iter()) {
        command = command.subcommand(subcommand(alloc, said, text, has_back)?)?;
    }
    Ok(command)
}

// Why words are wrong that a parse of the command line accepts.
const NO_NUMBER: &str = "N, before EXPRESSION, is a number";

const NO_EXPRESSION: &str = "one EXPRESSION is wanted";

const NO_WORD: &str = "a word is missing";

// How many fires `next` lists, and the expression.
fn counted<'a>(matches: &ArgMatches<'a>) -> Result<(u64, &'a str), &'static str> {
    let count = matches.get_one::<u64>("count");
    match (matches.get_strs("EXPRESSION"), count) {
        (Some([expression]), _) => Ok((count.unwrap_or(FIRES), *expression)),
        (Some([number, expression]), None) => match number.parse::<u64>() {
            Ok(count) => Ok((count, *expression)),
            Err(_) => Err(NO_NUMBER),
        },
        _ => Err(NO_EXPRESSION),
    }
}

// Which fires `next` lists, and the expression.
fn next_of<'a>(matches: &ArgMatches<'a>) -> Result<(Which<'a>, &'a str), &'static str> {
    let (count, expression) = counted(matches)?;
    let start = matches.get_str("after").ok_or(NO_WORD)?;
    if matches.get_flag("back") {
        return Ok((Which::Back(count, start), expression));
    }
    Ok((Which::Next(count, start), expression))
}

// Which fires `between` lists, and the expression: the last of two or three words.
fn between_of<'a>(matches: &ArgMatches<'a>) -> Result<(Which<'a>, &'a str), &'static str> {
    let (first, second) = (matches.get_str("START"), matches.get_str("END"));
    match (first, second, matches.get_str("EXPRESSION")) {
        (Some(start), Some(end), Some(expression)) => {
            Ok((Which::Between(Span::Ends(start, end)), expression))
        }
        (Some(word), Some(expression), None) => {
            Ok((Which::Between(Span::Whole(word)), expression))
        }
        _ => Err(NO_EXPRESSION),
    }
}

/// The request of `next` or `between`, with plain times and without a plan. `Err` says what is wrong with the words.
pub fn request_of<'a>(name: &str, matches: &ArgMatches<'a>) -> Result<Request<'a>, &'static str> {
    let (which, expression) = if name == "next" {
        next_of(matches)?
    } else {
        between_of(matches)?
    };
    Ok(Request {
        expression,
        quartz: matches.get_flag("quartz"),
        zone: matches.get_str("zone").ok_or(NO_WORD)?,
        which,
        changes: changes_of(matches),
        form: form_of(matches),
        plan: None,
        plan_lines: "",
        times: Times::Plain,
    })
}
