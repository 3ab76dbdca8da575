//! Where a finding stands in its line, in characters, and the line as a terminal shows it.

ghost use Rattle.std.specs.Prelude.{◌≡◌, ◌+◌, ◌≤◌, ◌<◌, drop, length, take};
ghost use Rattle.std.specs.Str.{is_utf8};
ghost use Rattle.cron_findings.specs.Findings.{view};
ghost use Rattle.cron_findings.specs.Places as places;
ghost use Rattle.cron_findings.specs.Places.{before, begins_with_text, characters, first_of, front_len, left_behind, span};

use crate::finding::Finding;

fn is_text(bytes: &[u8]) -> bool
    ensures { result ≡ is_utf8 bytes.now }
{
    match str::from_utf8(bytes) {
        Ok(_) => true,
        Err(_) => false,
    }
}

// Returns true if `bytes` has `count` bytes or more, and the first `count` are UTF-8.
fn begins_with_text(count: usize, bytes: &[u8]) -> bool
    ensures { result ≡ begins_with_text count bytes.now }
{
    count <= bytes.len() && is_text(&bytes[..count])
}

// The number of bytes of the character at the front. It is 1 if no character is there.
fn front_len(bytes: &[u8]) -> usize
    ensures value { result ≡ front_len bytes.now }
    ensures some { 0 < result }
{
    if begins_with_text(1, bytes) {
        1
    } else if begins_with_text(2, bytes) {
        2
    } else if begins_with_text(3, bytes) {
        3
    } else if begins_with_text(4, bytes) {
        4
    } else {
        1
    }
}

// How many bytes of a character are left behind the first of `bytes`, where `left` were left in
// front of it.
pub(crate) fn left_behind(left: usize, bytes: &[u8]) -> usize
    ensures { result ≡ left_behind left bytes.now }
{
    if left == 0 {
        front_len(bytes) - 1
    } else {
        left - 1
    }
}

// 1 for the first byte of a character: no byte of the one before is left there.
fn first_of(left: usize) -> usize
    ensures value { result ≡ first_of left }
    ensures within { result ≤ 1 }
{
    if left == 0 { 1 } else { 0 }
}

/// The number of characters of `bytes`. Each byte that isn't of UTF-8 counts as one.
pub fn characters(bytes: &[u8]) -> usize
    ensures value { result ≡ characters bytes.now }
    ensures within { result ≤ length bytes.now }
{
    let mut count = 0;
    let mut left = 0;
    for at in 0..bytes.len() {
        count += first_of(left);
        left = left_behind(left, &bytes[at..]);
    }
    count
}

// The first `count` bytes, or all if there are fewer.
fn front(bytes: &[u8], count: usize) -> &[u8]
    ensures { result.now ≡ take count bytes.now }
{
    if count < bytes.len() {
        &bytes[..count]
    } else {
        bytes
    }
}

// The bytes behind the first `count`.
pub(crate) fn rest(bytes: &[u8], count: usize) -> &[u8]
    ensures { result.now ≡ drop count bytes.now }
{
    if count < bytes.len() {
        &bytes[count..]
    } else {
        &[]
    }
}

// The bytes of the line before the span.
pub(crate) fn before<'a>(finding: &Finding<'a>) -> &'a [u8]
    ensures { result.now ≡ before (view finding.now) }
{
    front(finding.bytes, finding.start)
}

// The bytes of the span.
pub(crate) fn span<'a>(finding: &Finding<'a>) -> &'a [u8]
    ensures { result.now ≡ span (view finding.now) }
{
    rest(front(finding.bytes, finding.end), finding.start)
}

/// The column of the span's first character, in characters. The first column of a line is 1.
pub fn column(finding: &Finding<'_>) -> usize
    ensures value { result ≡ places.column (view finding.now) }
    ensures within { result ≤ length (before (view finding.now)) + 1 }
{
    characters(before(finding)) + 1
}

/// The column behind the span's last character.
pub fn end_column(finding: &Finding<'_>) -> usize
    ensures { result ≡ places.end_column (view finding.now) }
{
    column(finding) + characters(span(finding))
}

/// The column of the span's last character. If the span is empty it is the column of the first.
pub fn last_column(finding: &Finding<'_>) -> usize
    ensures { result ≡ places.last_column (view finding.now) }
{
    column(finding) + characters(span(finding)).saturating_sub(1)
}
