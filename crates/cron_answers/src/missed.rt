//! A fire that was missed, and the sentence that says so.

ghost use Rattle.std.specs.Prelude.{◌≡◌, ◌≤◌, ◌+◌, ◌++◌, ◌∷◌, int_le, length, neg_ℤ, pos, false};
ghost use Rattle.std.specs.Fmt.{signed_decimal};
ghost use Rattle.jiff_core.specs.Calendar.{IsBetween};
ghost use Rattle.arrayvec.specs.ArrayVec.{array_vec_len};
ghost use Rattle.cron_writer.specs.Calls.{AreWritesFlushed};
ghost use Rattle.cron_writer.specs.Watching.{has_failed, writer_of};
ghost use Rattle.cron_answers.specs.Lateness.{IsSentence, IsSinceText, Says, in_time_object, in_time_sentence, in_time_text, late_object, late_sentence, late_status, late_text, missed_of, nanos, since_of};
ghost use Rattle.cron_replies.specs.Statuses.{is_write_failure};

use crate::row::Told;
use arrayvec::ArrayVec;
use cron_dues::text::Text;
use cron_moments::parts::moment_at;
use cron_replies::form::Form;
use cron_replies::status::{Status, finish};
use cron_writer::watchable::Watchable;
use cron_writer::watched::{Watched, send};
use itoa::Buffer;
use jiff::Timestamp;
use jiff::tz::Offset;

/// The length of the longest object of JSON, which has two texts of 53 bytes and two numbers of 20.
const LONGEST: usize = 208;

type Sentence = ArrayVec<u8, LONGEST>;

const NANOS: i128 = 1_000_000_000;

/// A fire without a run after it, and since when it is late, in seconds since 1970.
#[derive(Clone, Copy)]
pub struct Missed<F> {
    pub fire: F,
    pub since: i64,
}

// Whether the instant `second`, in seconds since 1970, is at or before `now`.
fn has_come(second: i64, now: Timestamp) -> bool
    ensures { result ≡ int_le (nanos second) now.nanosecond }
{
    i128::from(second) * NANOS <= now.as_nanosecond()
}

// The end of a fire's grace, in seconds since 1970: a fire at `second` is late from then on. `None`
// if the grace isn't over at `now`.
fn since_of(second: i64, grace: u32, now: Timestamp) -> Option<i64>
    requires bound { IsBetween (neg_ℤ (pos 93_599)) (pos 8_590_028_189) second }
    ensures { result ≡ since_of second grace now.nanosecond }
{
    let since = second + i64::from(grace);
    if has_come(since, now) {
        Some(since)
    } else {
        None
    }
}

/// `first`, the first fire after the last run, as a missed one. `None` if there is no such fire, or
/// its `grace`, in seconds, isn't over.
pub(crate) fn missed_of<F: Told>(first: Option<F>, grace: u32, now: Timestamp) -> Option<Missed<F>>
    ensures { result ≡ missed_of F.second grace now.nanosecond first }
{
    let fire = first?;
    let since = since_of(fire.second(), grace, now)?;
    Some(Missed { fire, since })
}

// Appends bytes, which must fit in.
fn push_bytes(sentence: &mut Sentence, bytes: &[u8])
    requires { array_vec_len sentence.old + length bytes.now ≤ 208 }
    ensures items { sentence.new.items ≡ sentence.old.items ++ bytes.now }
    ensures len { array_vec_len sentence.new ≡ array_vec_len sentence.old + length bytes.now }
{
    sentence.try_extend_from_slice(bytes).unwrap();
}

// An instant as `@` and its seconds since 1970.
fn counted_text(second: i64) -> Text
    ensures { result.items ≡ 64 ∷ signed_decimal second }
{
    let mut text = Text::new();
    text.try_extend_from_slice(b"@").unwrap();
    let mut buffer = Buffer::new();
    text.try_extend_from_slice(buffer.format(second).as_bytes())
        .unwrap();
    text
}

// What a clock at `offset` shows at the instant `second`, in seconds since 1970. Outside of 1970 to
// 2100 it is `@` and the seconds.
fn since_text(second: i64, offset: Offset) -> Text
    ensures { IsSinceText second offset result.items }
{
    match moment_at(second, offset) {
        Some(moment) => moment.text(),
        None => counted_text(second),
    }
}

fn in_time_sentence() -> Sentence
    ensures { result.items ≡ in_time_sentence }
{
    let mut sentence = Sentence::new();
    push_bytes(&mut sentence, b"in time: no fire was missed\n");
    sentence
}

fn late_sentence(since: &[u8], text: &[u8]) -> Sentence
    requires since { length since.now ≤ 53 }
    requires text { length text.now ≤ 53 }
    ensures { result.items ≡ late_sentence since.now text.now }
{
    let mut sentence = Sentence::new();
    push_bytes(&mut sentence, b"late since ");
    push_bytes(&mut sentence, since);
    push_bytes(&mut sentence, b": ");
    push_bytes(&mut sentence, text);
    push_bytes(&mut sentence, b" was missed\n");
    sentence
}

// Appends a number in digits.
fn push_number(sentence: &mut Sentence, number: i64)
    requires { array_vec_len sentence.old + 20 ≤ 208 }
    ensures items { sentence.new.items ≡ sentence.old.items ++ signed_decimal number }
    ensures len { array_vec_len sentence.new ≤ array_vec_len sentence.old + 20 }
{
    let mut buffer = Buffer::new();
    push_bytes(sentence, buffer.format(number).as_bytes());
}

fn in_time_object() -> Sentence
    ensures { result.items ≡ in_time_object }
{
    let mut object = Sentence::new();
    push_bytes(&mut object, b"{\"late\":false}\n");
    object
}

fn late_object(since: &[u8], since_second: i64, text: &[u8], second: i64) -> Sentence
    requires since { length since.now ≤ 53 }
    requires text { length text.now ≤ 53 }
    ensures { result.items ≡ late_object since.now since_second text.now second }
{
    let mut object = Sentence::new();
    push_bytes(&mut object, b"{\"late\":true,\"fire\":\"");
    push_bytes(&mut object, text);
    push_bytes(&mut object, b"\",\"epoch\":");
    push_number(&mut object, second);
    push_bytes(&mut object, b",\"since\":\"");
    push_bytes(&mut object, since);
    push_bytes(&mut object, b"\",\"since_epoch\":");
    push_number(&mut object, since_second);
    push_bytes(&mut object, b"}\n");
    object
}

fn in_time_text(form: Form) -> Sentence
    ensures { result.items ≡ in_time_text form }
{
    match form {
        Form::Text => in_time_sentence(),
        Form::Json => in_time_object(),
    }
}

fn late_text(form: Form, since: &[u8], since_second: i64, text: &[u8], second: i64) -> Sentence
    requires since { length since.now ≤ 53 }
    requires text { length text.now ≤ 53 }
    ensures { result.items ≡ late_text form since.now since_second text.now second }
{
    match form {
        Form::Text => late_sentence(since, text),
        Form::Json => late_object(since, since_second, text, second),
    }
}

fn sentence_of<F: Told>(form: Form, missed: &Option<Missed<F>>) -> Sentence
    ensures { IsSentence form F.text F.second F.offset missed.now result.items }
{
    match missed {
        Some(missed) => {
            let since = since_text(missed.since, missed.fire.offset());
            let text = missed.fire.text();
            let second = missed.fire.second();
            late_text(
                form,
                since.as_slice(),
                missed.since,
                text.as_slice(),
                second,
            )
        }
        None => in_time_text(form),
    }
}

fn status_of<F: Told>(missed: &Option<Missed<F>>) -> Status
    ensures { result ≡ late_status missed.now }
{
    match missed {
        Some(_) => Status::No,
        None => Status::Done,
    }
}

/// Writes whether a fire was missed, as a sentence or as JSON, and flushes. The status is `No` if
/// one was. No call of the writer may have failed before.
pub(crate) fn say<F: Told, W: Watchable>(
    missed: &Option<Missed<F>>,
    form: Form,
    out: &mut Watched<W>,
) -> Status
    requires { has_failed out.old ≡ false }
    ensures says { Says form F.text F.second F.offset missed.now
        (W.contents (writer_of out.old)) (W.contents (writer_of out.new)) result }
    ensures mark { has_failed out.new ≡ is_write_failure result }
    ensures calls { AreWritesFlushed W.writes W.flushes
        (writer_of out.old) (has_failed out.old) (writer_of out.new) (has_failed out.new) }
{
    send(out, sentence_of(form, missed).as_slice());
    finish(out, status_of(missed))
}
