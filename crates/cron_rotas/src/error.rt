//! Why some people and swaps make no rota.

ghost use Rattle.std.specs.Prelude.{◌≡◌};

use std::error::Error;
use std::fmt;

/// Why some people and swaps make no rota.
#[derive(Clone, Copy, Debug, PartialEq, Eq)]
pub enum RotaError {
    /// There are no people.
    NoPeople,
    /// The swap with this number has no seconds or isn't of one of the people. The first swap has
    /// the number 0.
    Swap(usize),
}

impl fmt::Display for RotaError {
    ghost use Rattle.std.specs.Prelude.{Some};
    ghost use Rattle.cron_rotas.specs.Errors.{rota_error_text};

    ghost output = { λ error. Some (rota_error_text error) };

    fn fmt<W: fmt::Write>(&self, f: &mut fmt::Formatter<W>) -> fmt::Result {
        match self {
            RotaError::NoPeople => f.write_str("a rota has no people"),
            RotaError::Swap(number) => write!(
                f,
                "swap {number}, counted from 0, has no seconds or isn't of one of the people"
            ),
        }
    }
}

impl Error for RotaError {}
