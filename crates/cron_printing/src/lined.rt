//! The lines of fires: the text of a fire and a line feed.

ghost use Rattle.std.specs.Prelude.{◌≡◌, ℕ, List};

use arrayvec::ArrayVec;
use cron_dues::fire::DueFire;
use cron_dues::text::text_of;
use cron_moments::line::line_of;
use cron_moments::moment::Moment;

/// The longest line: the text of a due fire, and a line feed.
const LONGEST: usize = 54;

/// The bytes of a line.
pub type Line = ArrayVec<u8, LONGEST>;

/// A fire that has a line.
pub trait Lined {
    // the bytes of the line
    ghost line: { Self → List ℕ };

    /// The text of the fire and a line feed.
    fn line(&self) -> Line
        ensures { result.items ≡ line self.now };
}

impl Lined for Moment {
    ghost use Rattle.cron_moments.specs.MomentText.{item_line};

    ghost line = { item_line };

    fn line(&self) -> Line {
        let mut line = Line::new();
        line.try_extend_from_slice(line_of(self).as_slice())
            .unwrap();
        line
    }
}

impl Lined for DueFire {
    ghost use Rattle.cron_printing.specs.Printing.{due_line};

    ghost line = { due_line };

    fn line(&self) -> Line {
        let mut line = Line::new();
        line.try_extend_from_slice(text_of(self).as_slice())
            .unwrap();
        line.push(b'\n');
        line
    }
}
