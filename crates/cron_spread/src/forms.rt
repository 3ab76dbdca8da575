//! Items whose number a name decides.

ghost use Rattle.std.specs.Prelude.{◌≡◌, ◌+◌, ◌<◌, ◌≤◌, IfSome, option_map};
ghost use Rattle.cron_crontab.specs.Fields.{greatest, least};
ghost use Rattle.cron_spread.specs.Forms as forms;
ghost use Rattle.cron_spread.specs.Forms.{bracketed, cut, form_by, hashed, most, number_in, position, range_by, range_of, stepped};

use cron_crontab::Field;

/// A range, and the step if there is one.
#[derive(Clone, Copy)]
pub(crate) struct Form {
    pub(crate) first: u32,
    pub(crate) last: u32,
    pub(crate) step: Option<u32>,
}

fn least(field: Field) -> u32
    ensures { result ≡ least field }
{
    match field {
        Field::Minute | Field::Hour | Field::DayOfWeek => 0,
        Field::DayOfMonth | Field::Month => 1,
    }
}

fn greatest(field: Field) -> u32
    ensures value { result ≡ greatest field }
    ensures within { result < 100 }
{
    match field {
        Field::Minute => 59,
        Field::Hour => 23,
        Field::DayOfMonth => 31,
        Field::Month => 12,
        Field::DayOfWeek => 7,
    }
}

// The greatest number that `H` alone stands for.
fn most(field: Field) -> u32
    ensures value { result ≡ most field }
    ensures within { (least field ≤ result) × (result < 100) }
{
    match field {
        Field::Minute => 59,
        Field::Hour => 23,
        Field::DayOfMonth => 28,
        Field::Month => 12,
        Field::DayOfWeek => 6,
    }
}

// The first place of `sign`, or the length if there is none.
fn position(sign: u8, text: &[u8]) -> usize
    ensures { result ≡ position sign text.now }
{
    let mut at = 0;
    for byte in text {
        if *byte == sign {
            return at;
        }
        at += 1;
    }
    at
}

// The bytes before the first place of `sign`, and those behind it.
fn cut(sign: u8, text: &[u8]) -> Option<(&[u8], &[u8])>
    ensures { option_map (λ p. (p.0.now, p.1.now)) result ≡ cut sign text.now }
{
    let at = position(sign, text);
    if at < text.len() {
        Some((&text[..at], &text[at + 1..]))
    } else {
        None
    }
}

// The number that one or two digits are.
fn number_in(text: &[u8]) -> Option<u32>
    ensures { result ≡ number_in text.now }
{
    match text {
        [c] if c.is_ascii_digit() => Some(u32::from(*c - b'0')),
        [c, d] if c.is_ascii_digit() && d.is_ascii_digit() => {
            Some(u32::from(*c - b'0') * 10 + u32::from(*d - b'0'))
        }
        _ => None,
    }
}

fn range_by(field: Field, first: Option<u32>, last: Option<u32>) -> Option<(u32, u32)>
    ensures value { result ≡ range_by field first last }
    ensures within { IfSome result (λ r. (r.0 ≤ r.1) × (r.1 < 100)) }
{
    match (first, last) {
        (Some(a), Some(b)) if least(field) <= a && a <= b && b <= greatest(field) => Some((a, b)),
        _ => None,
    }
}

// Two numbers of a field with `sign` between them, in order.
fn range_of(field: Field, sign: u8, text: &[u8]) -> Option<(u32, u32)>
    ensures value { result ≡ range_of field sign text.now }
    ensures within { IfSome result (λ r. (r.0 ≤ r.1) × (r.1 < 100)) }
{
    match cut(sign, text) {
        Some((first, last)) => range_by(field, number_in(first), number_in(last)),
        None => None,
    }
}

// A range in front of a closing bracket, behind which nothing follows.
fn bracketed(field: Field, text: &[u8]) -> Option<(u32, u32)>
    ensures value { result ≡ bracketed field (cut 41 text.now) }
    ensures within { IfSome result (λ r. (r.0 ≤ r.1) × (r.1 < 100)) }
{
    match cut(b')', text) {
        Some((range, [])) => range_of(field, b'-', range),
        _ => None,
    }
}

// The range of `H` and of `H(0-29)`.
fn hashed(field: Field, text: &[u8]) -> Option<(u32, u32)>
    ensures value { result ≡ hashed field text.now }
    ensures within { IfSome result (λ r. (r.0 ≤ r.1) × (r.1 < 100)) }
{
    match text {
        [c] if *c == b'H' => Some((least(field), most(field))),
        [c, d, rest @ ..] if *c == b'H' && *d == b'(' => bracketed(field, rest),
        _ => None,
    }
}

fn alone(range: Option<(u32, u32)>) -> Option<Form>
    requires { IfSome range (λ r. (r.0 ≤ r.1) × (r.1 < 100)) }
    ensures value { result ≡ forms.alone range }
    ensures within { IfSome result (λ f. (f.first ≤ f.last) × (f.last < 100) × IfSome f.step (λ s. (0 < s) × (s < 102))) }
{
    match range {
        Some((first, last)) => Some(Form {
            first,
            last,
            step: None,
        }),
        None => None,
    }
}

// A range with a step, if the range has room for the step.
fn stepped(range: Option<(u32, u32)>, step: Option<u32>) -> Option<Form>
    requires { IfSome range (λ r. (r.0 ≤ r.1) × (r.1 < 100)) }
    ensures value { result ≡ stepped range step }
    ensures within { IfSome result (λ f. (f.first ≤ f.last) × (f.last < 100) × IfSome f.step (λ s. (0 < s) × (s < 102))) }
{
    match (range, step) {
        (Some((first, last)), Some(step)) if 0 < step && step < last - first + 2 => Some(Form {
            first,
            last,
            step: Some(step),
        }),
        _ => None,
    }
}

/// The form of an item: `H`, `H(0-29)` and `0~29`, and `H/15` and `H(0-29)/10`.
pub(crate) fn form_of(field: Field, item: &[u8]) -> Option<Form>
    ensures value { result ≡ forms.form_of field item.now }
    ensures within { IfSome result (λ f. (f.first ≤ f.last) × (f.last < 100) × IfSome f.step (λ s. (0 < s) × (s < 102))) }
{
    if let Some((base, step)) = cut(b'/', item) {
        return stepped(hashed(field, base), number_in(step));
    }
    match hashed(field, item) {
        Some(range) => alone(Some(range)),
        None => alone(range_of(field, b'~', item)),
    }
}
