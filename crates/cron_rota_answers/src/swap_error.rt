//! Why a file of swaps is refused.

use std::fmt;

/// Why a line means no swap.
#[derive(Clone, Copy)]
pub enum LineFault<'a> {
    /// It is no UTF-8.
    NoText,
    /// It hasn't three cells.
    NotThree,
    /// This cell is no instant.
    NoInstant(&'a str),
    /// FROM, the first, isn't before UNTIL.
    Order(&'a str, &'a str),
    /// This cell is the name of none of the people.
    NoPerson(&'a str),
}

impl<'a> fmt::Display for LineFault<'a> {
    ghost use Rattle.std.specs.Prelude.{Some};
    ghost use Rattle.cron_rota_answers.specs.SwapErrors.{line_fault_text};

    ghost output = { λ fault. Some (line_fault_text fault) };

    fn fmt<W: fmt::Write>(&self, f: &mut fmt::Formatter<W>) -> fmt::Result {
        match self {
            LineFault::NoText => f.write_str("the line is no UTF-8"),
            LineFault::NotThree => {
                f.write_str("a swap is FROM, UNTIL and NAME, with a tab between each two")
            }
            LineFault::NoInstant(word) => write!(f, "'{word}' is no instant"),
            LineFault::Order(from, until) => {
                write!(f, "UNTIL '{until}' isn't later than FROM '{from}'")
            }
            LineFault::NoPerson(word) => write!(f, "'{word}' is none of the people"),
        }
    }
}

/// A wrong line.
#[derive(Clone, Copy)]
pub struct WrongLine<'a> {
    /// The number of the line. The first line has number 1.
    pub number: usize,
    /// What is wrong with it.
    pub fault: LineFault<'a>,
}

/// Why the lines of a file mean no swaps.
#[derive(Clone, Copy)]
pub enum SwapsError<'a> {
    /// A line is wrong.
    Line(WrongLine<'a>),
    /// Memory ran out.
    OutOfMemory,
}
