//! Inputs that are made here, since they are long: lines at the limit of a line, and the most jobs that there may be.

use crate::judge::judge;
use std::alloc::{AllocError, Global};
use std::io;

/// A line, filled with blanks to a number of bytes, and how many of it there are: one for each number from 0 on, whose four digits replace
/// a `#`.
type Lines = (&'static str, usize, u32);

const TOP: &str = "{\"up\":0,\"wall\":1700000000,\"zone\":\"UTC0\"}";

const HEADER: Lines = (TOP, 0, 1);

const LIST: &str = "{\"ev\":\"list\"}";

const NO_JOB: Lines = (
    "{\"code\":0,\"orders\":[],\"text\":\"PID\\tStatus\\tLabel\\n\"}",
    0,
    1,
);

const BAD: Lines = (
    "{\"code\":2,\"orders\":[],\"text\":\"bad request\\n\"}",
    0,
    1,
);

const LOAD: &str =
    "{\"def\":\"{\\\"Label\\\":\\\"j#\\\",\\\"Program\\\":\\\"/bin/x\\\"}\",\"ev\":\"load\"}";

/// A name, the lines, what is written for them, and the expected exit status.
type Row = (&'static str, &'static [Lines], &'static [Lines], u8);

static ROWS: &[Row] = &[
    ("longest_line", &[HEADER, (LIST, 262_144, 1)], &[NO_JOB], 0),
    (
        "line_that_is_too_long",
        &[HEADER, (LIST, 0, 1), (LIST, 262_145, 1), (LIST, 0, 1)],
        &[NO_JOB],
        4,
    ),
    (
        "long_lines_and_a_longer_one",
        &[
            HEADER,
            (LIST, 262_144, 1),
            ("ab", 0, 1),
            (LIST, 262_145, 1),
            (LIST, 0, 1),
        ],
        &[NO_JOB, BAD],
        4,
    ),
    ("longest_header", &[(TOP, 262_144, 1)], &[], 0),
    ("header_that_is_too_long", &[(TOP, 262_145, 1)], &[], 2),
    // A load of each of 1,024 jobs, of one more, and of the first again.
    (
        "a_thousand_and_twenty_four_jobs_at_most",
        &[HEADER, (LOAD, 0, 1_025), (LOAD, 0, 1)],
        &[
            ("{\"code\":0,\"orders\":[],\"text\":\"\"}", 0, 1_024),
            (
                "{\"code\":10,\"orders\":[],\"text\":\"too many jobs\\n\"}",
                0,
                1,
            ),
            (
                "{\"code\":4,\"orders\":[],\"text\":\"already loaded\\n\"}",
                0,
                1,
            ),
        ],
        0,
    ),
];

/// Adds the line of this number, filled with blanks to that many bytes, and a newline.
fn add_line(
    alloc: Global,
    text: &mut String,
    line: &str,
    bytes: usize,
    number: u32,
) -> Result<(), AllocError> {
    match line.split_once('#') {
        Some((front, back)) => {
            let digits = format!(in alloc; "{number:04}")?;
            text.push_str(front)?;
            text.push_str(digits.as_str())?;
            text.push_str(back)?;
        }
        None => text.push_str(line)?,
    }
    for _ in line.len()..bytes {
        text.push_str(" ")?;
    }
    text.push_str("\n")
}

/// Adds all lines of the kind.
fn add_lines(alloc: Global, text: &mut String, lines: Lines) -> Result<(), AllocError> {
    let (line, bytes, count) = lines;
    for number in 0..count {
        add_line(alloc, text, line, bytes, number)?;
    }
    Ok(())
}

/// All lines, one after another.
fn text_of(alloc: Global, all: &[Lines]) -> Result<String, AllocError> {
    let mut text = String::new(alloc);
    for lines in all {
        add_lines(alloc, &mut text, *lines)?;
    }
    Ok(text)
}

/// Judges each of them.
pub fn judge_all(rt: &HostRuntime) -> io::Result<()> {
    for (name, lines, wanted, status) in ROWS {
        let input = text_of(rt.alloc(), lines)?;
        let wanted = text_of(rt.alloc(), wanted)?;
        judge(rt, name, input.as_bytes(), wanted.as_bytes(), *status)?;
    }
    Ok(())
}
