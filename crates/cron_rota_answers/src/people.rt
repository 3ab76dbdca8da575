//! The names of the people of a rota.

ghost use Rattle.std.specs.Prelude.{◌≡◌, ◌++◌, ◌∷◌, [], IfErr, MatchResult, None, OnOk};
ghost use Rattle.std.specs.Char.{is_control};
ghost use Rattle.std.specs.List.{list_any};
ghost use Rattle.std.specs.Str.{bytes_eq, chars};
ghost use Rattle.cron_rota_answers.specs.People.{AreNoPeople, ArePeople, name_fault, texts};
ghost use Rattle.cron_rota_answers.specs.Inner.Names.{IsNameError};

use crate::cells::cut_cell;
use std::alloc::Global;
use std::error::Error;
use std::fmt;

/// What is wrong with a name.
#[derive(Clone, Copy, Debug, PartialEq, Eq)]
pub enum NameFault {
    /// It has no characters.
    Empty,
    /// It has a control character.
    Control,
    /// It is one of the names before it.
    Twice,
}

impl fmt::Display for NameFault {
    ghost use Rattle.std.specs.Prelude.{Some};
    ghost use Rattle.cron_rota_answers.specs.People.{name_fault_text};

    ghost output = { λ fault. Some (name_fault_text fault) };

    fn fmt<W: fmt::Write>(&self, f: &mut fmt::Formatter<W>) -> fmt::Result {
        match self {
            NameFault::Empty => f.write_str("is empty"),
            NameFault::Control => f.write_str("has a control character"),
            NameFault::Twice => f.write_str("is one of the names before it"),
        }
    }
}

/// A wrong name.
#[derive(Clone, Copy, Debug, PartialEq, Eq)]
pub struct WrongName {
    /// The number of the name. The first name has number 1.
    pub number: usize,
    /// What is wrong with it.
    pub fault: NameFault,
}

/// Why a text names no people.
#[derive(Clone, Copy, Debug, PartialEq, Eq)]
pub enum PeopleError {
    /// A name is wrong.
    Name(WrongName),
    /// There are more names than 32 bits count.
    TooMany,
    /// Memory ran out.
    OutOfMemory,
}

impl fmt::Display for PeopleError {
    ghost use Rattle.std.specs.Prelude.{Some};
    ghost use Rattle.cron_rota_answers.specs.People.{people_error_text};

    ghost output = { λ error. Some (people_error_text error) };

    fn fmt<W: fmt::Write>(&self, f: &mut fmt::Formatter<W>) -> fmt::Result {
        match self {
            PeopleError::Name(wrong) => {
                let (number, fault) = (wrong.number, wrong.fault);
                write!(f, "name {number} of the people {fault}")
            }
            PeopleError::TooMany => f.write_str("there are more than 4294967295 people"),
            PeopleError::OutOfMemory => f.write_str("out of memory"),
        }
    }
}

impl Error for PeopleError {}

fn has_control(name: &str) -> bool
    ensures { result ≡ list_any is_control (chars name.now) }
{
    name.chars().any(|character| character.is_control())
}

fn is_among(names: &[&str], name: &str) -> bool
    ensures { result ≡ list_any (bytes_eq name.now) (texts names.now) }
{
    names.iter().any(|other| name == *other)
}

// What is wrong with a name behind those before it.
fn name_fault(before: &[&str], name: &str) -> Option<NameFault>
    ensures { result ≡ name_fault (texts before.now) name.now }
{
    if name.is_empty() {
        return Some(NameFault::Empty);
    }
    if has_control(name) {
        return Some(NameFault::Control);
    }
    if is_among(before, name) {
        return Some(NameFault::Twice);
    }
    None
}

// Appends a name, unless it is wrong.
fn push_name<'a>(names: &mut Vec<&'a str>, name: &'a str) -> Result<(), PeopleError>
    ensures ok { OnOk result ((name_fault (texts names.old.items) name.now ≡ None)
        × (texts names.new.items ≡ texts names.old.items ++ name.now ∷ [])) }
    ensures err { IfErr result (IsNameError (texts names.old.items) name.now) }
{
    let number = names.len() + 1;
    if let Some(fault) = name_fault(names.as_slice(), name) {
        return Err(PeopleError::Name(WrongName { number, fault }));
    }
    match names.push(name) {
        Ok(()) => Ok(()),
        Err(_) => Err(PeopleError::OutOfMemory),
    }
}

/// The names of a text, which stand between commas. White space around each is left out.
pub fn names_of(alloc: Global, text: &str) -> Result<Vec<&str>, PeopleError>
    ensures { MatchResult result (λ names. ArePeople text.now (texts names.items))
        (AreNoPeople text.now) }
{
    let mut names = Vec::new(alloc);
    let mut rest = Some(text);
    'names: while let Some(left) = rest {
        let (name, more) = cut_cell(left, ',');
        match push_name(&mut names, name) {
            Ok(()) => rest = more,
            Err(error) => return Err(error),
        }
    }
    if names.len() > u32::MAX as usize {
        return Err(PeopleError::TooMany);
    }
    Ok(names)
}
