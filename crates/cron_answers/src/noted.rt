//! What a stamp notes, a file that holds the last fire that was done.

ghost use Rattle.cron_answers.specs.Stamps.{ReadsStamp};

use crate::stamp::read_stamp;
use cron_dues::fire::DueFire;
use cron_zones::files::ZoneFiles;
use std::alloc::Global;
use std::io::ErrorKind;

/// What the file of a stamp notes: the last fire that was done, if it can be read.
#[derive(Clone, Copy)]
pub enum Noted {
    /// The last fire that was done.
    Fire(DueFire),
    /// Nothing: there is no file.
    Nothing,
    /// Nothing readable: the file is no stamp, or is cut short.
    Broken,
    /// Unknown: the file can't be read.
    Unread,
}

/// Reads the file of a stamp, once.
pub(crate) fn noted_at<F: ZoneFiles>(alloc: Global, path: &str, files: &mut F) -> Noted
    ensures { ReadsStamp F.reads path.now files.old result files.new }
{
    match files.read(alloc, path) {
        Ok(bytes) => match read_stamp(bytes.as_slice()) {
            Some(fire) => Noted::Fire(fire),
            None => Noted::Broken,
        },
        Err(error) if error.kind() == ErrorKind::NotFound => Noted::Nothing,
        Err(_) => Noted::Unread,
    }
}
