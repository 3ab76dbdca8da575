//! The arguments of `rota`, not read yet.

use cron_answers::span::Span;
use cron_fires::ClockChanges;
use cron_replies::form::Form;

/// What is asked of a rota, as in the arguments: instants are texts that aren't read yet.
#[derive(Clone, Copy)]
pub enum Which<'a> {
    /// The shifts of a span: of START and END, or of one word.
    Between(Span<'a>),
    /// Who is on duty at the value of `--at`.
    At(&'a str),
}

/// A file of swaps: a line for each, with the cells FROM, UNTIL and NAME between tabs.
#[derive(Clone, Copy)]
pub struct SwapFile<'a> {
    /// The name of the file in messages.
    pub name: &'a str,
    /// The bytes of the file.
    pub bytes: &'a [u8],
}

/// The arguments of `rota`, not read yet.
#[derive(Clone, Copy)]
pub struct Request<'a> {
    /// What is asked of the rota.
    pub which: Which<'a>,
    /// The value of `--people`: the names, with commas between.
    pub people: &'a str,
    /// The value of `--handover`: an expression, whose fires hand duty to the next.
    pub handover: &'a str,
    /// Whether that is an expression of Quartz.
    pub quartz: bool,
    /// The value of `--from`: the start of the rota, an instant.
    pub from: &'a str,
    /// The file of `--swaps`, if one is given.
    pub swaps: Option<SwapFile<'a>>,
    /// The value of `--zone`.
    pub zone: &'a str,
    /// The rule at clock changes that was chosen. `None` is the expression's own.
    pub changes: Option<ClockChanges>,
    /// How the answer is written.
    pub form: Form,
}
