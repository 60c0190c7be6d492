//! The inputs in `data/`: `rows.txt` lists them, each with the expected exit status.

use crate::judge::judge;
use std::{fs, io};

fn read_stored(rt: &HostRuntime, name: &str, kind: &str) -> io::Result<Vec<u8>> {
    fs::read(rt, format!(in rt.alloc(); "{name}.{kind}")?)
}

fn judge_one(rt: &HostRuntime, name: &str, status: &str) -> io::Result<()> {
    let input = read_stored(rt, name, "in")?;
    let wanted = read_stored(rt, name, "out")?;
    match status.parse::<u8>() {
        Ok(status) => judge(rt, name, input.as_slice(), wanted.as_slice(), status),
        Err(_) => println!(rt; "{name}: no status is wanted"),
    }
}

/// Judges each input that the list names.
pub fn judge_all(rt: &HostRuntime) -> io::Result<()> {
    let list = fs::read_to_string(rt, "rows.txt")?;
    for line in list.lines() {
        if let Some((status, name)) = line.split_once(' ') {
            judge_one(rt, name, status)?;
        }
    }
    Ok(())
}
