//! The domain that names a calendar's writer.

use crate::machine::{complain, no_memory, read_file};
use clap::ArgMatches;
use cron_ics::domain::Domain;
use cron_replies::status::Status;

/// The file that holds the machine's name.
const HOST_FILE: &str = "/etc/hostname";

// The machine's name: the first line of its file that is neither empty nor a comment. `None` if
// that is no domain.
fn host_of(file: &[u8]) -> Option<Domain<'_>> {
    for line in file.split(|byte| *byte == b'\n') {
        let name = line.trim_ascii();
        if !name.is_empty() && !name.starts_with(b"#") {
            return Domain::new(name);
        }
    }
    None
}

/// The text of the domain that UIDs end with: the value of `--uid-domain`, or else the contents of
/// the file with the host's name. It is empty if that file can't be read.
pub fn domain_text(rt: &HostRuntime, words: &ArgMatches<'_>) -> Result<Vec<u8>, Status> {
    let Some(word) = words.get_str("uid-domain") else {
        return Ok(read_file(rt, HOST_FILE).unwrap_or(Vec::new(rt.alloc())));
    };
    match Vec::from_slice(rt.alloc(), word.as_bytes()) {
        Ok(text) => Ok(text),
        Err(_) => Err(no_memory(rt)),
    }
}

/// The domain that UIDs end with, read from `text`, which is the value of `--uid-domain` if
/// `is_word`. If that value is wrong, a message says so, and `Err` has the status of the subcommand.
pub fn domain_of<'a>(
    rt: &HostRuntime,
    text: &'a [u8],
    is_word: bool,
) -> Result<Domain<'a>, Status> {
    if !is_word {
        return Ok(host_of(text).unwrap_or(Domain::of_program()));
    }
    match Domain::new(text) {
        Some(domain) => Ok(domain),
        None => Err(complain(
            rt,
            "--uid-domain has letters, digits, '-', '.' and '_' alone",
            Status::WrongWords,
        )),
    }
}
