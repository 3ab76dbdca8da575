//! Replaces a file whole.

ghost use Rattle.std.specs.Prelude.{◌≡◌, IfOk, string_bytes};
ghost use Rattle.cron_notes.specs.Changes.{AreMade};
ghost use Rattle.cron_notes.specs.Replacing.{IsFolder, Replaces, draft_of, replacing};

use crate::store::Store;
use std::alloc::{AllocError, Global};
use std::io::{self, ErrorKind};

// The path of the draft, the file that is written first.
fn draft_of(alloc: Global, path: &str) -> Result<String, AllocError>
    ensures { IfOk result (λ draft. string_bytes draft ≡ draft_of path.now) }
{
    let mut draft = String::from_str(alloc, path)?;
    draft.push_str(".new")?;
    Ok(draft)
}

// The folder of a path, with a slash at its end, or `.` if the path has no slash.
fn folder_of(path: &str) -> &str
    ensures { IsFolder path.now result.now }
{
    match path.rfind('/') {
        Some(at) => &path[..at + 1],
        None => ".",
    }
}

// Makes the four calls of the replacement in their order, until one fails.
fn make_changes<S: Store>(
    path: &str,
    draft: &str,
    folder: &str,
    bytes: &[u8],
    store: &mut S,
) -> io::Result<()>
    requires { draft.now ≡ draft_of path.now }
    ensures { AreMade S.does (replacing path.now bytes.now folder.now)
        store.old result store.new }
{
    store.write(draft, bytes)?;
    store.sync(draft)?;
    store.rename(draft, path)?;
    store.sync_folder(folder)
}

/// Replaces the file at `path` by one with these bytes, or makes it if there is none. It is written
/// and synced as `PATH.new` first, and then gets the path. So a reader of the path, even after a
/// crash, reads the old bytes or the new ones. The error is the one of the call that failed, after
/// which no other call is made. If memory runs out no call is made.
pub fn replace<S: Store>(alloc: Global, path: &str, bytes: &[u8], store: &mut S) -> io::Result<()>
    ensures { Replaces S.does path.now bytes.now store.old result store.new }
{
    match draft_of(alloc, path) {
        Ok(draft) => make_changes(path, draft.as_str(), folder_of(path), bytes, store),
        Err(AllocError) => Err(io::Error::from(ErrorKind::OutOfMemory)),
    }
}
