//! The lines of a crontab in the arguments or on standard input.

use history_model::Text;
use run_times::telling::{tell_error, tell_of};
use std::alloc::{AllocError, Global};
use std::io::Read;

/// The longest crontab that is read from standard input, in bytes.
const LONGEST: u64 = 1_048_576;

/// How faults name standard input.
const INPUT: &str = "standard input";

/// The lines of standard input. If it can't be read, is not UTF-8 or is too long, this is reported, and it returns None.
pub fn lines_of(host: &HostRuntime, alloc: Global) -> Result<Option<Vec<Text>>, AllocError> {
    let Some(text) = input_of(host, alloc)? else {
        return Ok(None);
    };
    let lines = cut(alloc, text.as_str());
    drop(text);
    match lines {
        Ok(lines) => Ok(Some(lines)),
        Err(error) => Err(error),
    }
}

fn cut(alloc: Global, text: &str) -> Result<Vec<Text>, AllocError> {
    let mut lines = Vec::new(alloc);
    for line in text.lines() {
        lines.push(Text::copy_of(alloc, line)?)?;
    }
    Ok(lines)
}

fn input_of(host: &HostRuntime, alloc: Global) -> Result<Option<String>, AllocError> {
    let mut bytes = Vec::new(alloc);
    let most = LONGEST.saturating_add(1);
    if let Err(error) = host.stdin().take(most).read_to_end(&mut bytes) {
        tell_error(host, INPUT, &error)?;
        return Ok(None);
    }
    if bytes.len() as u64 > LONGEST {
        tell_of(host, INPUT, &"longer than 1048576 bytes");
        return Ok(None);
    }
    match String::from_utf8(bytes) {
        Ok(text) => Ok(Some(text)),
        Err(_) => {
            tell_of(host, INPUT, &"not UTF-8");
            Ok(None)
        }
    }
}
