//! The three cells of a line of swaps.

ghost use Rattle.std.specs.Prelude.{◌≡◌, ◌∷◌, option_map};
ghost use Rattle.cron_rota_answers.specs.Cells.{cells, cells_left};
ghost use Rattle.cron_rota_answers.specs.Lines.{columns_in, view};

use crate::cells::cut_cell;

/// The cells of a line of swaps.
#[derive(Clone, Copy)]
pub(crate) struct Columns<'a> {
    pub(crate) from: &'a str,
    pub(crate) until: &'a str,
    pub(crate) name: &'a str,
}

// The three cells of a line. `None` if more is left of it.
fn columns_with<'a>(
    from: &'a str,
    until: &'a str,
    name: &'a str,
    left: Option<&'a str>,
) -> Option<Columns<'a>>
    ensures { option_map view result
        ≡ columns_in (from.now ∷ until.now ∷ name.now ∷ cells_left 9 left.entry) }
{
    match left {
        Some(_) => None,
        None => Some(Columns { from, until, name }),
    }
}

/// The cells of a line, which stand between tabs. `None` if there are not three.
pub(crate) fn columns_of(line: &str) -> Option<Columns<'_>>
    ensures { option_map view result ≡ columns_in (cells 9 line.now) }
{
    let (from, Some(rest)) = cut_cell(line, '\t') else {
        return None;
    };
    let (until, Some(rest)) = cut_cell(rest, '\t') else {
        return None;
    };
    let (name, left) = cut_cell(rest, '\t');
    columns_with(from, until, name, left)
}
