//! The folder with the note of how far a run has come.

use cron_replies::status::Status;
use cron_tab_running::Noted;
use crontool_machine::machine::{complain, no_memory, read_file, say_unread};
use crontool_machine::notes::{note_path, noted_in};
use std::fs::{File, OpenOptions, TryLockError};
use std::io::{self, ErrorKind};

/// The folder of `--state`, which is locked against other runs.
#[derive(Drop)]
pub(crate) struct State {
    /// The path of the note of how far a run has come.
    pub(crate) path: String,
    // The system frees the lock when the file is closed, however the program ends.
    _lock: File,
}

fn open_lock(rt: &HostRuntime, path: &str) -> io::Result<File> {
    OpenOptions::new().create(true).write(true).open(rt, path)
}

// Locks a file. If it can't, the reason is written, and `Err` has the status of the subcommand.
fn lock(rt: &HostRuntime, path: &str) -> Result<File, Status> {
    let file = match open_lock(rt, path) {
        Ok(file) => file,
        Err(error) => return Err(say_unread(rt, path, &error)),
    };
    match file.try_lock() {
        Ok(()) => Ok(file),
        Err(TryLockError::WouldBlock) => {
            Err(complain(rt, "another run has this --state", Status::Unreadable))
        }
        Err(TryLockError::Error(error)) => Err(say_unread(rt, path, &error)),
    }
}

impl State {
    /// Locks a folder. If another run has it, or it can't be locked, the reason is written, and
    /// `Err` has the status of the subcommand.
    pub(crate) fn open(rt: &HostRuntime, folder: &str) -> Result<State, Status> {
        let path = note_path(rt, folder)?;
        let Ok(lock_path) = format!(in rt.alloc(); "{folder}/lock") else {
            return Err(no_memory(rt));
        };
        Ok(State {
            path,
            _lock: lock(rt, lock_path.as_str())?,
        })
    }

    /// Reads the note of how far a run has come. It is empty if there is no file. If the file can't
    /// be read or is no note, that is written, and `Err` has the status of the subcommand.
    pub(crate) fn read(&self, rt: &HostRuntime) -> Result<Noted, Status> {
        let path = self.path.as_str();
        let bytes = match read_file(rt, path) {
            Ok(bytes) => bytes,
            Err(error) if error.kind() == ErrorKind::NotFound => {
                return Ok(Noted::nothing(rt.alloc()));
            }
            Err(error) => return Err(say_unread(rt, path, &error)),
        };
        noted_in(rt, path, bytes.as_slice())
    }
}
