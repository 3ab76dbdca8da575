//! A caller's buffer, which may be too short.

ghost use Rattle.std.specs.Prelude.{◌≡◌, IfSome, MatchOption, length};
ghost use Rattle.cron_c.specs.Buffers.{TellsRefusal, laid_over};

use crate::status::Status;
use std::fmt::{self, Write};

// Writes `bytes` to the front of `buffer` as far as they fit.
fn put_first(buffer: &mut [u8], bytes: &[u8])
    ensures { buffer.new ≡ laid_over 0 bytes.now buffer.old }
{
    let count = buffer.len().min(bytes.len());
    let (front, _) = buffer.split_at_mut(count);
    front.copy_from_slice(&bytes[..count]);
}

/// Writes `bytes` over `buffer` from place `at` on as far as they fit.
pub fn put(buffer: &mut [u8], at: usize, bytes: &[u8])
    ensures { buffer.new ≡ laid_over at bytes.now buffer.old }
{
    if at < buffer.len() {
        let (_, rest) = buffer.split_at_mut(at);
        put_first(rest, bytes);
    }
}

/// A buffer that holds the front of a text as far as it fits, with the length of the whole text.
#[derive(Drop)]
pub struct Sink<'a> {
    pub buffer: &'a mut [u8],
    pub length: usize,
}

impl<'a> fmt::Write for Sink<'a> {
    ghost use Rattle.cron_c.specs.Buffers.{Takes};

    ghost write_str_gives = { Takes };

    fn write_str(&mut self, s: &str) -> fmt::Result {
        let Some(length) = self.length.checked_add(s.len()) else {
            return Err(fmt::Error);
        };
        put(self.buffer, self.length, s.as_bytes());
        self.length = length;
        Ok(())
    }
}

/// Writes the text of `message` to `buffer` as far as it fits, and returns its whole length. `None`
/// if the message can't be formatted.
pub fn tell<M: fmt::Display>(message: &M, buffer: &mut [u8]) -> Option<usize>
    ensures { IfSome (M.output message.now) (λ text. MatchOption result (Unit {0})
        (λ size. (buffer.new ≡ laid_over 0 text buffer.old) × (size ≡ length text))) }
{
    let mut sink = Sink { buffer, length: 0 };
    let written = write!(sink, "{message}");
    let Sink { buffer, length } = sink;
    // No effect at run time. The proof needs this use to know what the buffer holds.
    let _ = &*buffer;
    match written {
        Ok(()) => Some(length),
        Err(_) => None,
    }
}

/// Writes the message of `fault`, which refuses a text, to `message` as far as it fits, and its
/// whole length. It returns `Refused`, or `Untold` if the message can't be formatted.
pub fn refuse<M: fmt::Display>(fault: &M, message: &mut [u8], message_length: &mut usize) -> Status
    ensures { IfSome (M.output fault.now)
        (λ told. TellsRefusal told message.old message.new message_length.new result) }
{
    *message_length = 0;
    match tell(fault, message) {
        Some(length) => {
            *message_length = length;
            Status::Refused
        }
        None => Status::Untold,
    }
}
