//! Where a text's zone is found: in the text itself, or in a file that the caller reads.

ghost use Rattle.std.specs.Prelude.{◌≡◌, MatchResult, length, option_map};
ghost use Rattle.cron_c.specs.Buffers.{laid_over};
ghost use Rattle.cron_c.specs.Calls.{Answers};
ghost use Rattle.cron_c.specs.ZoneSources.{FindsSource, IsText, IsUtcOrRule, TellsSource, tz_told};

use crate::buffer::put;
use crate::status::Status;
use crate::zone::{CronZone, struct_of_zone};
use cron_zones::source::{Source, source_of};

const STATED: u32 = 0;

const IN_FOLDER: u32 = 1;

const AT_PATH: u32 = 2;

const OF_MACHINE: u32 = 3;

// The error of a TZ that isn't UTF-8.
#[derive(Clone, Copy)]
struct NoText;

// The content of TZ, or `None` if it isn't set (`is_set` is 0). An error if it isn't UTF-8.
fn told(tz: &[u8], is_set: u32) -> Result<Option<&str>, NoText>
    ensures { MatchResult result
        (λ text. (option_map (λ s. s.now) text ≡ tz_told is_set tz.now)
        × IsText (tz_told is_set tz.now))
        (λ e. IsText (tz_told is_set tz.now) → ⊥) }
{
    if is_set == 0 {
        return Ok(None);
    }
    match str::from_utf8(tz) {
        Ok(text) => Ok(Some(text)),
        Err(_) => Err(NoText),
    }
}

// Writes a file's name or path to `path` as far as it fits, and its whole length.
fn write_path(told: &str, path: &mut [u8], path_length: &mut usize)
    ensures path { path.new ≡ laid_over 0 told.now path.old }
    ensures size { path_length.new ≡ length told.now }
{
    put(path, 0, told.as_bytes());
    *path_length = told.len();
}

fn write_source(
    source: Option<Source<'_>>,
    zone: &mut CronZone,
    place: &mut u32,
    path: &mut [u8],
    path_length: &mut usize,
) -> Status
    requires known { IsUtcOrRule source }
    requires none { path_length.old ≡ 0 }
    ensures { TellsSource source.entry zone.old zone.new place.old place.new path.old path.new
        path_length.new result }
{
    let Some(source) = source else {
        return Status::BadZone;
    };
    *place = match source {
        Source::Stated(stated) => {
            let Some(read) = struct_of_zone(&stated) else {
                return Status::BadZone;
            };
            *zone = read;
            STATED
        }
        Source::Named(name) => {
            write_path(name, path, path_length);
            IN_FOLDER
        }
        Source::At(at) => {
            write_path(at, path, path_length);
            AT_PATH
        }
        Source::Machine => OF_MACHINE,
    };
    Status::Done
}

fn find_source(
    text: &[u8],
    tz: &[u8],
    is_set: u32,
    zone: &mut CronZone,
    place: &mut u32,
    path: &mut [u8],
    path_length: &mut usize,
) -> Status
    ensures { FindsSource text.now (tz_told is_set tz.now) zone.old zone.new place.old place.new
        path.old path.new path_length.new result }
{
    *path_length = 0;
    let Ok(text) = str::from_utf8(text) else {
        return Status::NotUtf8;
    };
    let Ok(tz) = told(tz, is_set) else {
        return Status::NotUtf8;
    };
    write_source(source_of(text, tz), zone, place, path, path_length)
}

/// Writes where a text's zone is found to `place`. 0 means in the text, and then `zone` is written.
/// 1 means in the folder of zone files, 2 at a path: the name or the path is written to `path`. 3
/// means in the machine's own file. The content of TZ counts if `is_set` isn't 0. Returns the
/// number of a `Status`.
#[unsafe(no_mangle)]
pub extern "C" fn cron_c_zone_source(
    text: &[u8],
    tz: &[u8],
    is_set: u32,
    zone: &mut CronZone,
    place: &mut u32,
    path: &mut [u8],
    path_length: &mut usize,
) -> u32
    ensures { Answers (FindsSource text.now (tz_told is_set tz.now) zone.old zone.new
        place.old place.new path.old path.new path_length.new) result }
{
    find_source(text, tz, is_set, zone, place, path, path_length).code()
}
