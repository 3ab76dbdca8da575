//! The cells of a text that is cut at a character, one after another.

ghost use Rattle.std.specs.Prelude.{◌≡◌, ◌==◌, ◌∷◌, ◌<◌, IfSome, length, position};
ghost use Rattle.cron_rota_answers.specs.Cells.{cells, cells_left, parts, parts_left};

// The place of the first `at`.
fn place_of(bytes: &[u8], at: u8) -> Option<usize>
    ensures place { result ≡ position (λ b. b == at) bytes.now }
    ensures bound { IfSome result (λ place. place < length bytes.now) }
{
    bytes.iter().position(|byte| *byte == at)
}

/// The bytes before the first `at`, and those after it. All bytes and `None` if there is no `at`.
pub(crate) fn cut_bytes(bytes: &[u8], at: u8) -> (&[u8], Option<&[u8]>)
    ensures cut { parts at bytes.now ≡ result.0.now ∷ parts_left at result.1 }
    ensures shorter { IfSome result.1 (λ rest. length rest.now < length bytes.now) }
{
    match place_of(bytes, at) {
        Some(place) => (&bytes[..place], Some(&bytes[place + 1..])),
        None => (bytes, None),
    }
}

/// The text before the first `at`, without white space around it, and the text after that `at`.
/// `None` if there is no `at`.
pub(crate) fn cut_cell(text: &str, at: char) -> (&str, Option<&str>)
    requires { at < 128 }
    ensures { cells at text.now ≡ result.0.now ∷ cells_left at result.1 }
{
    match text.split_once(at) {
        Some((cell, rest)) => (cell.trim(), Some(rest)),
        None => (text.trim(), None),
    }
}
