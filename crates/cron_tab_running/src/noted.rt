//! The note of a run: the instant up to which everything due was run, and the entries that this
//! holds for. It is kept in a file, so that a later run goes on from there.

ghost use Rattle.std.specs.Prelude.{◌≡◌, ◌++◌, ◌∷◌, ◌-◌, ℕ, ℤ, List, [], All, IfOk, IfSome, IsSomeAnd, OnOk, Some, if◌then◌else◌, map, nat_lt, option_map};
ghost use Rattle.std.specs.Fmt.{signed_decimal};
ghost use Rattle.std.specs.List.{flat_map};
ghost use Rattle.std.specs.Str.{bytes_eq};
ghost use Rattle.jiff_core.specs.Timestamp.{IsTimestampNanos, nanos_of_seconds};
ghost use Rattle.cron_tab_lines.specs.Files.{without_feed};
ghost use Rattle.cron_tab_running.specs.Noted as notes;
ghost use Rattle.cron_tab_running.specs.Noted.{AreLeft, CanBeNoted, IsEntry, IsNote, count_of, in_seconds, later, least_instant, left_of, note_text, noted_view, zone_name};

use cron_tab_lines::NamedZone;
use itoa::Buffer;
use jiff::Timestamp;
use std::alloc::{AllocError, Global};
use std::collections::BTreeMap;

const HEAD: &[u8] = b"crontool state 1\n";

const END: &[u8] = b".\n";

/// The note of a run: the instant up to which everything due was run, and the entries that this
/// holds for.
#[derive(Drop)]
pub struct Noted {
    /// Everything due up to and with this instant was run.
    pub until: Timestamp,
    /// The key of each entry: its zone as `CRON_TZ` names it, a tab, and its line.
    pub entries: Vec<Vec<u8>>,
}

/// The later of two instants.
pub(crate) fn later(instant: Timestamp, other: Timestamp) -> Timestamp
    ensures { result ≡ later instant other }
{
    if instant.as_nanosecond() < other.as_nanosecond() {
        other
    } else {
        instant
    }
}

// The name of the zone with the number `zone`, or an empty text if it has none.
fn zone_name<'a>(names: &[NamedZone<'a>], zone: usize) -> &'a [u8]
    ensures { result.now ≡ zone_name names.now zone }
{
    for named in names {
        if named.zone == zone {
            return named.name;
        }
    }
    &[]
}

fn without_feed(bytes: &[u8]) -> &[u8]
    ensures { result.now ≡ without_feed bytes.now }
{
    match bytes.last() {
        Some(byte) if *byte == b'\n' => &bytes[..bytes.len() - 1],
        _ => bytes,
    }
}

/// The key of an entry: its zone's name, a tab, and its line without the line feed.
pub fn entry_of(
    alloc: Global,
    names: &[NamedZone<'_>],
    zone: usize,
    line: &[u8],
) -> Result<Vec<u8>, AllocError>
    ensures { IfOk result (λ entry. entry.items
        ≡ zone_name names.now zone ++ 9 ∷ without_feed line.now) }
{
    let mut entry = Vec::new(alloc);
    entry.extend_from_slice(zone_name(names, zone))?;
    entry.push(b'\t')?;
    entry.extend_from_slice(without_feed(line))?;
    Ok(entry)
}

/// How many times each entry occurs in a list. The entries are borrowed.
pub type Counts<'n> = BTreeMap<&'n [u8], usize>;

// How many times each entry occurs in `entries`.
fn counts_of<'n>(alloc: Global, entries: &'n [Vec<u8>]) -> Result<Counts<'n>, AllocError>
    ensures { IfOk result (λ m. (e : List ℕ)
        → left_of m e ≡ count_of e (map (λ e. e.items) entries.now)) }
{
    let mut counts = BTreeMap::new(alloc);
    for entry in entries {
        let count = counts.get(entry.as_slice()).copied().unwrap_or(0);
        counts.insert(entry.as_slice(), count + 1)?;
    }
    Ok(counts)
}

/// Lowers the count of `entry` by one if it isn't 0, and returns true if so.
pub fn take_one(counts: &mut Counts<'_>, entry: &[u8]) -> bool
    ensures was { result ≡ nat_lt 0 (left_of counts.old entry.now) }
    ensures now { (e : List ℕ) → left_of counts.new e
        ≡ (if bytes_eq entry.now e then left_of counts.old e - 1 else left_of counts.old e) }
{
    let Some(count) = counts.get_mut(entry) else {
        return false;
    };
    if *count == 0 {
        return false;
    }
    *count -= 1;
    true
}

impl Noted {
    /// An empty note: it has the least instant and no entries.
    pub fn nothing(alloc: Global) -> Noted
        ensures until { result.until.nanosecond ≡ least_instant }
        ensures entries { (noted_view result).entries ≡ [] }
    {
        Noted {
            until: Timestamp::MIN,
            entries: Vec::new(alloc),
        }
    }

    /// How many times each entry is noted.
    pub fn counts(&self, alloc: Global) -> Result<Counts<'_>, AllocError>
        ensures { IfOk result (λ m. AreLeft (noted_view self.now).entries [] m) }
    {
        counts_of(alloc, self.entries.as_slice())
    }

    /// The text of the note: a line with the version, one with the instant in whole seconds since
    /// 1970, one for each entry, and a last line `.`.
    pub fn text(&self, alloc: Global) -> Result<Vec<u8>, AllocError>
        ensures { IfOk result (λ text. text.items ≡ note_text (noted_view self.now)) }
    {
        let mut text = Vec::from_slice(alloc, HEAD)?;
        text.extend_from_slice(
            Buffer::new()
                .format(self.until.to_plain().floor_second())
                .as_bytes(),
        )?;
        text.push(b'\n')?;
        push_entries(&mut text, self.entries.as_slice())?;
        text.extend_from_slice(END)?;
        Ok(text)
    }
}

// Appends a line for each entry.
fn push_entries(text: &mut Vec<u8>, entries: &[Vec<u8>]) -> Result<(), AllocError>
    ensures { OnOk result (text.new.items ≡ text.old.items
        ++ flat_map (λ e. e ++ 10 ∷ []) (map (λ e. e.items) entries.now)) }
{
    for entry in entries {
        text.extend_from_slice(entry.as_slice())?;
        text.push(b'\n')?;
    }
    Ok(())
}

// The instant of the second since 1970 that `text` writes in decimal digits, or `None` if it writes
// none.
fn instant_of(text: &[u8]) -> Option<Timestamp>
    ensures { (s : ℤ) → IsTimestampNanos (nanos_of_seconds s) → text.now ≡ signed_decimal s
        → IsSomeAnd result (λ t. t.nanosecond ≡ nanos_of_seconds s) }
{
    let second = str::from_utf8(text).ok()?.parse::<i64>().ok()?;
    Timestamp::from_second(second).ok()
}

// The instant before the first line feed, and the bytes after the line feed. `None` if there is no
// line feed, or no instant before it.
fn cut_instant(bytes: &[u8]) -> Option<(Timestamp, &[u8])>
    ensures { (s : ℤ) (rest : List ℕ) → IsTimestampNanos (nanos_of_seconds s)
        → bytes.now ≡ signed_decimal s ++ 10 ∷ rest
        → IsSomeAnd result (λ r. (r.0.nanosecond ≡ nanos_of_seconds s) × (r.1.now ≡ rest)) }
{
    let end = bytes.iter().position(|byte| *byte == b'\n')?;
    Some((instant_of(&bytes[..end])?, &bytes[end + 1..]))
}

// The entries of lines, or `None` if one of the lines is no entry, that is, has no tab. Empty lines
// are skipped.
fn read_entries(alloc: Global, lines: &[u8]) -> Result<Option<Vec<Vec<u8>>>, AllocError>
    ensures entries { IfOk result (λ read. IfSome read
        (λ entries. All IsEntry (map (λ e. e.items) entries.items))) }
    ensures only { (es : List (List ℕ)) → All IsEntry es
        → lines.now ≡ flat_map (λ e. e ++ 10 ∷ []) es
        → IfOk result (λ read. IsSomeAnd read (λ entries. map (λ e. e.items) entries.items ≡ es)) }
{
    let mut entries = Vec::new(alloc);
    for line in lines.split(|byte| *byte == b'\n') {
        if line.contains(&b'\t') {
            entries.push(Vec::from_slice(alloc, line)?)?;
        } else if !line.is_empty() {
            return Ok(None);
        }
    }
    Ok(Some(entries))
}

// The note whose text is `bytes`, if they are the text of a note. For other bytes it is some note
// or `None`.
fn guess(alloc: Global, bytes: &[u8]) -> Result<Option<Noted>, AllocError>
    ensures can { IfOk result (λ note. IfSome note (λ n. CanBeNoted (noted_view n))) }
    ensures only { (n : notes.Noted) → IsNote bytes.now n
        → IfOk result (λ note. option_map noted_view note ≡ Some (in_seconds n)) }
{
    let Some(rest) = bytes.strip_prefix(HEAD) else {
        return Ok(None);
    };
    let Some(cut) = cut_instant(rest) else {
        return Ok(None);
    };
    let (until, rest) = cut;
    let Some(lines) = rest.strip_suffix(END) else {
        return Ok(None);
    };
    match read_entries(alloc, lines)? {
        Some(entries) => Ok(Some(Noted { until, entries })),
        None => Ok(None),
    }
}

/// Reads a note. `None` for other bytes, also for a note that is cut short or followed by more.
pub fn read_note(alloc: Global, bytes: &[u8]) -> Result<Option<Noted>, AllocError>
    ensures text { IfOk result (λ note. IfSome note (λ n. IsNote bytes.now (noted_view n))) }
    ensures only { (n : notes.Noted) → IsNote bytes.now n
        → IfOk result (λ note. option_map noted_view note ≡ Some (in_seconds n)) }
{
    let Some(noted) = guess(alloc, bytes)? else {
        return Ok(None);
    };
    if noted.text(alloc)?.as_slice() == bytes {
        Ok(Some(noted))
    } else {
        Ok(None)
    }
}
