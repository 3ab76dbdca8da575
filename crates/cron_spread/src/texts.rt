//! Texts of crontabs where a name decides numbers.

ghost use Rattle.std.specs.Prelude.{◌≡◌, ◌++◌, ◌≤◌, ◌<◌, IfOk, IfSome, OnOk, Some, drop, length, take};
ghost use Rattle.std.specs.Fmt.{decimal};
ghost use Rattle.cron_spread.specs.Texts.{blanks_len, field_text, fields_text, five, form_text, front_text, is_nickname, item_text, rest_of, spread_text, word_len};

use crate::forms::{Form, form_of};
use crate::places::place;
use cron_crontab::Field;
use cron_text::is_space;
use itoa::Buffer;
use std::alloc::{AllocError, Global};

/// What decides the numbers of items: a name, as of a job and its machine. With the same name a field
/// has the same numbers on each machine and in each version.
#[derive(Clone, Copy, Debug, PartialEq, Eq)]
pub struct Spread<'a> {
    pub name: &'a [u8],
}

// Appends a number in decimal digits.
fn push_number(made: &mut Vec<u8>, number: u32) -> Result<(), AllocError>
    ensures { OnOk result (made.new.items ≡ made.old.items ++ decimal number) }
{
    made.extend_from_slice(Buffer::new().format(number).as_bytes())
}

// Appends the number of a form, or the range from it with the step.
fn push_form(
    alloc: Global,
    made: &mut Vec<u8>,
    name: &[u8],
    field: Field,
    form: Form,
) -> Result<(), AllocError>
    requires { (form.first ≤ form.last) × (form.last < 100) × IfSome form.step (λ s. (0 < s) × (s < 102)) }
    ensures { OnOk result (made.new.items
        ≡ made.old.items ++ form_text name.now field form.first form.last form.step) }
{
    let Some(step) = form.step else {
        let place = place(alloc, name, field, form.last - form.first + 1)?;
        return push_number(made, form.first + place);
    };
    push_stepped(alloc, made, name, field, form, step)
}

// Appends the first number that fires with a step, the end of the range and the step.
fn push_stepped(
    alloc: Global,
    made: &mut Vec<u8>,
    name: &[u8],
    field: Field,
    form: Form,
    step: u32,
) -> Result<(), AllocError>
    requires { (form.first ≤ form.last) × (form.last < 100) × (0 < step) × (step < 102) }
    ensures { OnOk result (made.new.items
        ≡ made.old.items ++ form_text name.now field form.first form.last (Some step)) }
{
    let place = place(alloc, name, field, step)?;
    push_number(made, form.first + place)?;
    made.push(b'-')?;
    push_number(made, form.last)?;
    made.push(b'/')?;
    push_number(made, step)
}

// Appends an item of a field, with its number if a name decides it.
fn push_item(
    alloc: Global,
    made: &mut Vec<u8>,
    name: &[u8],
    field: Field,
    item: &[u8],
) -> Result<(), AllocError>
    ensures { OnOk result
        (made.new.items ≡ made.old.items ++ item_text name.now field item.now) }
{
    match form_of(field, item) {
        Some(form) => push_form(alloc, made, name, field, form),
        None => made.extend_from_slice(item),
    }
}

// Appends a field, whose items have commas between them.
fn push_field(
    alloc: Global,
    made: &mut Vec<u8>,
    name: &[u8],
    field: Field,
    word: &[u8],
) -> Result<(), AllocError>
    ensures { OnOk result
        (made.new.items ≡ made.old.items ++ field_text name.now field word.now) }
{
    let mut item = Vec::new(alloc);
    for byte in word {
        if *byte == b',' {
            push_item(alloc, made, name, field, item.as_slice())?;
            made.push(b',')?;
            item.clear();
        } else {
            item.push(*byte)?;
        }
    }
    push_item(alloc, made, name, field, item.as_slice())
}

// The number of blanks at the front.
fn blanks_len(text: &[u8]) -> usize
    ensures value { result ≡ blanks_len text.now }
    ensures within { result ≤ length text.now }
{
    let mut at = 0;
    for byte in text {
        if !is_space(*byte) {
            return at;
        }
        at += 1;
    }
    at
}

// The number of bytes of the word at the front.
fn word_len(text: &[u8]) -> usize
    ensures value { result ≡ word_len text.now }
    ensures within { result ≤ length text.now }
{
    let mut at = 0;
    for byte in text {
        if is_space(*byte) {
            return at;
        }
        at += 1;
    }
    at
}

// The first `count` bytes.
fn front(text: &[u8], count: usize) -> &[u8]
    requires { count ≤ length text.now }
    ensures { result.now ≡ take count text.now }
{
    &text[..count]
}

// The bytes behind the first `count`.
fn behind(text: &[u8], count: usize) -> &[u8]
    requires { count ≤ length text.now }
    ensures { result.now ≡ drop count text.now }
{
    &text[count..]
}

// Appends the blanks and the word at the front of a text, as a field, and returns what follows.
fn push_next<'t>(
    alloc: Global,
    made: &mut Vec<u8>,
    name: &[u8],
    field: Field,
    text: &'t [u8],
) -> Result<&'t [u8], AllocError>
    ensures made { OnOk result
        (made.new.items ≡ made.old.items ++ front_text name.now field text.now) }
    ensures rest { IfOk result (λ rest. rest.now ≡ rest_of text.now) }
{
    let count = blanks_len(text);
    made.extend_from_slice(front(text, count))?;
    let words = behind(text, count);
    let length = word_len(words);
    push_field(alloc, made, name, field, front(words, length))?;
    Ok(behind(words, length))
}

// Whether the first word of a text is a nickname: it begins with `@`.
fn is_nickname(text: &[u8]) -> bool
    ensures { result ≡ is_nickname text.now }
{
    match behind(text, blanks_len(text)).first() {
        Some(byte) => *byte == b'@',
        None => false,
    }
}

// The text with the numbers of its first five words.
fn spread_fields(alloc: Global, text: &[u8], name: &[u8]) -> Result<Vec<u8>, AllocError>
    ensures { IfOk result (λ made. made.items ≡ fields_text name.now five text.now) }
{
    let mut made = Vec::new(alloc);
    let hours = push_next(alloc, &mut made, name, Field::Minute, text)?;
    let days = push_next(alloc, &mut made, name, Field::Hour, hours)?;
    let months = push_next(alloc, &mut made, name, Field::DayOfMonth, days)?;
    let weekdays = push_next(alloc, &mut made, name, Field::Month, months)?;
    let rest = push_next(alloc, &mut made, name, Field::DayOfWeek, weekdays)?;
    made.extend_from_slice(rest)?;
    Ok(made)
}

/// The text of one expression, or of a crontab's entry, with its numbers: the items of its first five
/// words that a name decides become numbers, `H/15` a range with that step. What is none of these
/// items stays unchanged, and so does what follows the fifth word, or a text that begins with a
/// nickname.
///
/// ```text
/// spread_items(alloc, b"H H(0-5) * * *", &Spread { name: b"backup" })?; // 16 1 * * *
/// ```
pub fn spread_items(alloc: Global, text: &[u8], by: &Spread<'_>) -> Result<Vec<u8>, AllocError>
    ensures { IfOk result (λ made. made.items ≡ spread_text by.now.name.now text.now) }
{
    if is_nickname(text) {
        return Vec::from_slice(alloc, text);
    }
    spread_fields(alloc, text, by.name)
}
