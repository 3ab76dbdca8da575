//! The number that a name has in a field.

ghost use Rattle.std.specs.Prelude.{◌≡◌, ◌%◌, ◌<◌, IfOk};
ghost use Rattle.sha2.specs.Sha256.{sha256};
ghost use Rattle.cron_spread.specs.Places as places;
ghost use Rattle.cron_spread.specs.Places.{key, number_of};

use cron_crontab::Field;
use sha2::{Digest, Sha256};
use std::alloc::{AllocError, Global};

// The remainder of `bytes` as a number, the greatest digit first, modulo `count`.
fn remainder(bytes: &[u8], count: u32) -> u32
    requires { 0 < count }
    ensures { result ≡ number_of bytes.now % count }
{
    let mut left: u32 = 0;
    for byte in bytes {
        left = ((u64::from(left) * 256 + u64::from(*byte)) % u64::from(count)) as u32;
    }
    left
}

// What is hashed: the name, a NUL, and the title of the field.
fn key(alloc: Global, name: &[u8], field: Field) -> Result<Vec<u8>, AllocError>
    ensures { IfOk result (λ made. made.items ≡ key name.now field) }
{
    let mut made = Vec::from_slice(alloc, name)?;
    made.push(0)?;
    made.extend_from_slice(field.title().as_bytes())?;
    Ok(made)
}

/// The place of a name among `count` numbers of a field, from 0 on.
pub(crate) fn place(alloc: Global, name: &[u8], field: Field, count: u32) -> Result<u32, AllocError>
    requires { 0 < count }
    ensures value { IfOk result (λ n. n ≡ places.place name.now field count) }
    ensures within { IfOk result (λ n. n < count) }
{
    let key = key(alloc, name, field)?;
    let digest = Sha256::digest(key.as_slice());
    Ok(remainder(&digest, count))
}
