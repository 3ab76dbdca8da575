//! Names of zones, as the file `zone.tab` of a folder of zone files lists them.

ghost use Rattle.std.specs.Prelude.{◌≡◌, IfOk, map, string_bytes};
ghost use Rattle.std.specs.Option.{option_map};
ghost use Rattle.cron_tips.specs.ZoneNames.{Finds, IsNearAt, IsNearest, last_part, name_in, names_in};

use crate::nearness::{nearest, text_at};
use cron_crontab::cut_at;
use cron_zones::files::ZoneFiles;
use std::alloc::{AllocError, Global};

/// The file that lists names of zones, in the folder of their files.
const LIST: &str = "/zone.tab";

// The name in a line of the list, its third field. A comment has none.
fn name_of(line: &str) -> Option<&str>
    ensures { option_map (λ name. name.now) result ≡ name_in line.now }
{
    if let [b'#', ..] = line.as_bytes() {
        return None;
    }
    let (_, behind) = cut_at(line, b'\t');
    let (_, behind) = cut_at(behind?, b'\t');
    let (name, _) = cut_at(behind?, b'\t');
    Some(name)
}

// The names of a list.
fn names_of<'a>(alloc: Global, list: &'a str) -> Result<Vec<&'a str>, AllocError>
    ensures { IfOk result (λ names. map (λ name. name.now) names.items ≡ names_in list.now) }
{
    let mut names = Vec::new(alloc);
    let mut left = Some(list);
    while let Some(text) = left {
        let (line, behind) = cut_at(text, b'\n');
        if let Some(name) = name_of(line) {
            names.push(name)?;
        }
        left = behind;
    }
    Ok(names)
}

// A name behind its last slash.
fn last_part(name: &str) -> &str
    ensures { result.now ≡ last_part name.now }
{
    let mut last = name;
    while let Some(behind) = cut_at(last, b'/').1 {
        last = behind;
    }
    last
}

// The last part of each name.
fn last_parts<'a>(alloc: Global, names: &[&'a str]) -> Result<Vec<&'a str>, AllocError>
    ensures { IfOk result (λ parts. map (λ part. part.now) parts.items
        ≡ map last_part (map (λ name. name.now) names.now)) }
{
    let mut parts = Vec::new(alloc);
    for name in names {
        parts.push(last_part(*name))?;
    }
    Ok(parts)
}

// The place of the name that is nearest to `word`, or of the one whose last part is, if none is near
// as a whole.
fn place_near(alloc: Global, word: &str, names: &[&str]) -> Result<Option<usize>, AllocError>
    ensures { IfOk result (λ at. IsNearAt word.now (map (λ name. name.now) names.now) at) }
{
    match nearest(alloc, word, names)? {
        Some(at) => Ok(Some(at)),
        None => nearest(alloc, word, last_parts(alloc, names)?.as_slice()),
    }
}

// The name of `names` that is nearest to `word`, as a whole or else by its last part.
fn near_of<'a>(alloc: Global, word: &str, names: &[&'a str]) -> Result<Option<&'a str>, AllocError>
    ensures { IfOk result (λ name. IsNearest word.now (map (λ name. name.now) names.now)
        (option_map (λ name. name.now) name)) }
{
    let at = place_near(alloc, word, names)?;
    Ok(text_at(names, at))
}

/// The name of a zone that `word` most likely means, of those that the folder's list has: the one
/// that is nearest, as a whole or else by its last part. `None` if none is near, or the list can't
/// be read.
pub fn zone_near<F: ZoneFiles>(
    alloc: Global,
    word: &str,
    folder: &str,
    files: &mut F,
) -> Result<Option<String>, AllocError>
    ensures { IfOk result (λ name. Finds F.reads word.now folder.now files.old
        (option_map string_bytes name) files.new) }
{
    let mut path = String::from_str(alloc, folder)?;
    path.push_str(LIST)?;
    let Ok(bytes) = files.read(alloc, path.as_str()) else {
        return Ok(None);
    };
    let Ok(list) = str::from_utf8(bytes.as_slice()) else {
        return Ok(None);
    };
    match near_of(alloc, word, names_of(alloc, list)?.as_slice())? {
        Some(name) => Ok(Some(String::from_str(alloc, name)?)),
        None => Ok(None),
    }
}
