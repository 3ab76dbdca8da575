//! Findings of a check, and the formats that they are written in.

/// How grave a finding is.
#[derive(Clone, Copy, Debug, PartialEq, Eq)]
pub enum Severity {
    /// What is checked is refused.
    Error,
    /// It is read, and may yet not be meant.
    Warning,
    /// It is reported without a judgement.
    Note,
}

/// What is probably meant in place of what is found.
#[derive(Clone, Copy, Debug, PartialEq, Eq)]
pub struct Hint<'a> {
    /// What the hint tells, in words.
    pub told: &'a str,
    /// The text that may be written in place of the one that is found.
    pub text: Option<&'a str>,
}

/// What a check finds in a line.
#[derive(Clone, Copy, Debug, PartialEq, Eq)]
pub struct Finding<'a> {
    /// The name of the file.
    pub file: &'a str,
    /// The number of the line, from 1 on.
    pub line: usize,
    /// The line, without the line feed at its end. It need not be UTF-8.
    pub bytes: &'a [u8],
    /// The first byte of the span that the finding is about, from 0 on. Past the line's end it
    /// counts as the end.
    pub start: usize,
    /// The byte behind the span. Past the line's end it counts as the end, and a span that ends
    /// before it starts is empty.
    pub end: usize,
    pub severity: Severity,
    /// The code of what is found: a short word that stays the same.
    pub code: &'a str,
    pub message: &'a str,
    pub hint: Option<Hint<'a>>,
}

/// What a code stands for.
#[derive(Clone, Copy, Debug, PartialEq, Eq)]
pub struct Rule<'a> {
    pub code: &'a str,
    /// What is found, in a few words.
    pub title: &'a str,
    /// What helps.
    pub help: &'a str,
}

/// The format of a report.
#[derive(Clone, Copy, Debug, PartialEq, Eq)]
pub enum Format {
    /// `FILE:LINE: MESSAGE`, or `LINE: MESSAGE` where the file isn't named. Neither the hint nor the
    /// code is written. Control characters stay as they are.
    Text {
        /// Whether the file is named.
        named: bool,
    },
    /// The same for a terminal, with control characters shown as `\x1b`. The line follows with its
    /// span underlined, and then the hint.
    Underlined {
        /// Whether the file is named.
        named: bool,
        /// Whether the marks have a colour.
        colored: bool,
    },
    /// `FILE:LINE:COLUMN: error: MESSAGE [code]`, as compilers write it.
    Gcc,
    /// An object of JSON, in a line, for each finding.
    Json,
    /// A command for a workflow of GitHub, which makes an annotation of it.
    Github,
    /// A log of SARIF 2.1.0, where a finding is a result.
    Sarif,
}
