//! How wide a terminal is, and whether it is written to in colour.

use std::alloc::Global;
use std::env;
use std::io::IsTerminal;
use std::process::{Command, Stdio};

/// How many columns there are if nothing says it.
const COLUMNS: u16 = 80;

/// How many columns are written: as `COLUMNS` says, else as the terminal has, if standard output is one, else 80.
pub fn width_of(host: &HostRuntime, alloc: Global) -> u16 {
    let named = match env::var(host, "COLUMNS") {
        Ok(text) => text.as_str().parse::<u16>().ok(),
        Err(_) => None,
    };
    let width = match named {
        Some(columns) if columns > 0 => Some(columns),
        _ if host.stdout().is_terminal() => asked(host, alloc),
        _ => None,
    };
    match width {
        Some(columns) if columns > 0 => columns,
        _ => COLUMNS,
    }
}

// The second number that stty(1) writes of this process' terminal.
fn asked(host: &HostRuntime, alloc: Global) -> Option<u16> {
    let mut command = Command::new(alloc, "stty").ok()?;
    let mut has_words = true;
    for word in ["-F", "/dev/tty", "size"] {
        has_words = command.arg(word).is_ok() && has_words;
    }
    command.stdin(Stdio::null());
    let output = command.output(host);
    drop(command);
    let Ok(output) = output else {
        return None;
    };
    let text = std::str::from_utf8(output.stdout.as_slice()).unwrap_or("");
    let columns = second_number(text);
    drop(output);
    if has_words { columns } else { None }
}

fn second_number(text: &str) -> Option<u16> {
    text.split_whitespace().nth(1)?.parse::<u16>().ok()
}

/// Whether standard output is a terminal, and `NO_COLOR` is absent or empty.
pub fn has_colour(host: &HostRuntime) -> bool {
    let is_refused = match env::var(host, "NO_COLOR") {
        Ok(text) => !text.is_empty(),
        Err(_) => false,
    };
    !is_refused && host.stdout().is_terminal()
}
