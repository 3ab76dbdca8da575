//! The files of units, which are written only where none is there.

use cron_replies::status::Status;
use cron_tab_systemd::{LineMade, Made};
use crontool_machine::machine::{complain, no_memory, say_unread};
use std::alloc::{AllocError, Global};
use std::fs::{File, remove_file, symlink_metadata};
use std::io::{ErrorKind, Write};

/// A file that is to be written.
#[derive(Drop)]
pub(crate) struct Planned<'a> {
    path: String,
    text: &'a [u8],
}

fn push_file<'a>(
    alloc: Global,
    files: &mut Vec<Planned<'a>>,
    front: &str,
    (line, ending): (usize, &str),
    text: &'a [u8],
) -> Result<(), AllocError> {
    let path = format!(in alloc; "{front}-{line}.{ending}")?;
    files.push(Planned { path, text })?;
    Ok(())
}

/// The files of what was made, a timer and a service for each entry. `front` is the folder, and the
/// front of their names.
pub(crate) fn files_of<'a>(
    alloc: Global,
    front: &str,
    made: &'a [LineMade],
) -> Result<Vec<Planned<'a>>, AllocError> {
    let mut files = Vec::new(alloc);
    for one in made {
        if let Made::Units(units) = &one.made {
            let (timer, service) = (units.timer.as_slice(), units.service.as_slice());
            push_file(alloc, &mut files, front, (one.line, "timer"), timer)?;
            push_file(alloc, &mut files, front, (one.line, "service"), service)?;
        }
    }
    Ok(files)
}

// Writes that a file is already there.
fn say_there(rt: &HostRuntime, path: &str) -> Status {
    match format!(in rt.alloc(); "{path} is already there, and is kept") {
        Ok(why) => complain(rt, why.as_str(), Status::Unreadable),
        Err(_) => no_memory(rt),
    }
}

// Finds that no file is at `path`. Else that is written, and `Err` has the status of the
// subcommand.
fn find_none(rt: &HostRuntime, path: &str) -> Result<(), Status> {
    match symlink_metadata(rt, path) {
        Ok(_) => Err(say_there(rt, path)),
        Err(error) if error.kind() == ErrorKind::NotFound => Ok(()),
        Err(error) => Err(say_unread(rt, path, &error)),
    }
}

// Creates a file. If one is there by now, or it can't be created, that is written, and `Err` has the
// status of the subcommand.
fn create_new(rt: &HostRuntime, path: &str) -> Result<File, Status> {
    match File::create_new(rt, path) {
        Ok(file) => Ok(file),
        Err(error) if error.kind() == ErrorKind::AlreadyExists => Err(say_there(rt, path)),
        Err(error) => Err(say_unread(rt, path, &error)),
    }
}

// Writes one file. If that fails, the reason is written, what was written is removed, and `Err` has
// the status of the subcommand.
fn write_one(rt: &HostRuntime, planned: &Planned<'_>) -> Result<(), Status> {
    let path = planned.path.as_str();
    let mut file = create_new(rt, path)?;
    match file.write_all(planned.text) {
        Ok(()) => Ok(()),
        Err(error) => {
            let _told = say_unread(rt, path, &error);
            let _removed = remove_file(rt, path);
            Err(Status::WriteFailed)
        }
    }
}

/// Writes files, none of which is there. If one is, none is written. If that is so, or one can't be
/// written, the reason is written, and `Err` has the status of the subcommand.
pub(crate) fn write_files(rt: &HostRuntime, files: &[Planned<'_>]) -> Result<(), Status> {
    for file in files {
        find_none(rt, file.path.as_str())?;
    }
    for file in files {
        write_one(rt, file)?;
    }
    Ok(())
}
