//! The notes of runs.

use crate::machine::no_memory;
use cron_replies::status::Status;
use cron_tab_running::{Noted, read_note};

fn say_broken(rt: &HostRuntime, path: &str) -> Status {
    let told = eprintln!(rt;
        "error: {path} is no note of a run, or one that is cut short, and is kept"
    );
    match told {
        Ok(()) => Status::Unreadable,
        Err(_) => Status::WriteFailed,
    }
}

/// Reads the note of a run, which was read from the file `path`. If the bytes are no note, that is
/// written, and `Err` has the status of the subcommand.
pub fn noted_in(rt: &HostRuntime, path: &str, bytes: &[u8]) -> Result<Noted, Status> {
    match read_note(rt.alloc(), bytes) {
        Ok(Some(noted)) => Ok(noted),
        Ok(None) => Err(say_broken(rt, path)),
        Err(_) => Err(no_memory(rt)),
    }
}

/// The path of the note in the folder of `--state`. If memory runs out, that is written, and `Err`
/// has the status of the subcommand.
pub fn note_path(rt: &HostRuntime, folder: &str) -> Result<String, Status> {
    match format!(in rt.alloc(); "{folder}/state") {
        Ok(path) => Ok(path),
        Err(_) => Err(no_memory(rt)),
    }
}
