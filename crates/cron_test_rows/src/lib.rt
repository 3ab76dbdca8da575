//! Rows of files, with questions and their answers. A program computes each answer, and prints it
//! if it differs from its row.
#![tactic(auto)]

mod tables;

use anyhow::{Context, Result};
use std::alloc::{AllocError, Global};
use std::fmt::{Display, Write};
use std::fs;
pub use tables::{sets_of, zone_file, zone_named};

/// A row of a file, which has cells. The last cell is the wanted answer.
#[derive(Drop)]
pub struct Row<'r> {
    /// The runtime that prints and opens files.
    pub rt: &'r HostRuntime,
    file: &'r str,
    line: usize,
    separator: &'static str,
    rest: &'r str,
    answer: String,
}

impl<'r> Row<'r> {
    /// The row's allocator.
    pub fn alloc(&self) -> Global {
        self.rt.alloc()
    }

    /// Removes the first cell that is left and returns it. Without a further separator it is all
    /// that is left.
    pub fn cell(&mut self) -> &'r str {
        let (cell, rest) = self
            .rest
            .split_once(self.separator)
            .unwrap_or((self.rest, ""));
        self.rest = rest;
        cell
    }

    /// The cells that are left: the wanted answer, once all other cells were removed.
    pub fn wanted(&self) -> &'r str {
        self.rest
    }

    /// Adds an item to the computed answer, after `separator` unless the answer is empty.
    pub fn add<D: Display>(&mut self, separator: &str, item: &D) -> Result<(), AllocError> {
        if !self.answer.is_empty() {
            self.answer.push_str(separator)?;
        }
        write!(self.answer, "{item}")
    }

    /// The computed answer.
    pub fn answer(&self) -> &str {
        self.answer.as_str()
    }

    /// Prints `answer` if it isn't `wanted`, with the question `asked`.
    pub fn compare(&self, asked: &str, wanted: &str, answer: &str) -> Result<()> {
        if answer != wanted {
            let (file, line) = (self.file, self.line);
            println!(self.rt; "{file}:{line}: {asked}: {wanted:?} is wanted, and not {answer:?}")?;
        }
        Ok(())
    }

    /// Compares the outcome `read` of a text with the row's answer, which is the message of the
    /// refusal, or `read` for an accepted text.
    pub fn check_refusal<T, E: Display>(&mut self, read: &Result<T, E>) -> Result<()> {
        match read {
            Ok(_) => self.add("", &"read")?,
            Err(fault) => self.add("", fault)?,
        }
        self.check("its refusal")
    }

    /// Compares the computed answer, or `none` if it is empty, with the wanted one. Then it begins
    /// a new answer.
    pub fn check(&mut self, asked: &str) -> Result<()> {
        if self.answer.is_empty() {
            self.answer.push_str("none")?;
        }
        self.compare(asked, self.rest, self.answer.as_str())?;
        self.answer.clear();
        Ok(())
    }
}

/// A kind of rows, with the question that each of them asks.
pub trait Ask {
    /// Computes the answers of a row, and compares them. It fails if a cell can't be read.
    fn ask(&self, row: &mut Row<'_>) -> Result<()>;
}

// Compares the rows of a file, and prints their number. A first line that begins with `# ` says
// what the rows hold. The cells of a `.tsv` file are separated by tabs, those of other files by
// ` | `.
fn ask_file<K: Ask>(rt: &HostRuntime, kind: &K, file: &str) -> Result<()> {
    let text = fs::read_to_string(rt, file).context(file)?;
    let separator = if file.ends_with(".tsv") { "\t" } else { " | " };
    let (mut line, mut count) = (0_usize, 0_usize);
    for rest in text.as_str().lines() {
        line = line.saturating_add(1);
        if line > 1 || !rest.starts_with("# ") {
            count = count.saturating_add(1);
            let answer = String::new(rt.alloc());
            let mut row = Row {
                rt,
                file,
                line,
                separator,
                rest,
                answer,
            };
            kind.ask(&mut row).context(rest)?;
        }
    }
    println!(rt; "{file}: {count}")?;
    Ok(())
}

/// Compares the rows of files, each with its kind. It prints each answer that differs from its row,
/// and the number of rows of each file.
pub fn ask_files<K: Ask>(rt: &HostRuntime, files: &[(K, &str)]) -> Result<()> {
    for (kind, file) in files {
        ask_file(rt, kind, file)?;
    }
    Ok(())
}
