//! Definitions that a journal has.

use crate::loaded::{ReportedJob, index_of_job};
use definition_digest::digest_of_value;
use json_kinds::json_value;
use serde_json::Value;
use std::alloc::{AllocError, Global};
use std::fs::{File, metadata};
use std::io::{BufRead, BufReader};
use std::{io, str};

/// A longer journal is not looked through.
const LONGEST: u64 = 268_435_456;

/// What the line of a load has.
const LOAD: &str = "\"ev\":\"load\"";

/// Gives each job whose definition is needed and not known the text that the journal has with its digest. If the journal can't be read, it gives
/// none.
pub(crate) fn add_recorded(
    host: &HostRuntime,
    alloc: Global,
    journal: &str,
    jobs: &mut [ReportedJob],
) -> Result<(), AllocError> {
    match metadata(host, journal) {
        Ok(data) if data.is_file() && data.len() <= LONGEST => {}
        _ => return Ok(()),
    }
    match read_all(host, alloc, journal, jobs) {
        Err(error) if error.kind() == io::ErrorKind::OutOfMemory => Err(AllocError),
        _ => Ok(()),
    }
}

fn read_all(
    host: &HostRuntime,
    alloc: Global,
    journal: &str,
    jobs: &mut [ReportedJob],
) -> io::Result<()> {
    let file = File::open(host, journal)?;
    let mut reader = BufReader::new(alloc, file)?;
    let mut line = Vec::new(alloc);
    for _ in 0..u64::MAX {
        line.clear();
        if reader.read_until(b'\n', &mut line)? == 0 {
            break;
        }
        take_line(alloc, line.as_slice(), jobs)?;
    }
    Ok(())
}

// Takes the definition of a line, if the line is a load.
fn take_line(alloc: Global, line: &[u8], jobs: &mut [ReportedJob]) -> Result<(), AllocError> {
    let Ok(text) = str::from_utf8(line) else {
        return Ok(());
    };
    if !text.contains(LOAD) {
        return Ok(());
    }
    let Some(value) = json_value(alloc, line)? else {
        return Ok(());
    };
    let taken = match value.get("def") {
        Some(Value::String(def)) => take_definition(alloc, def.as_str(), jobs),
        _ => Ok(()),
    };
    drop(value);
    taken
}

fn take_definition(alloc: Global, def: &str, jobs: &mut [ReportedJob]) -> Result<(), AllocError> {
    let Some(value) = json_value(alloc, def.as_bytes())? else {
        return Ok(());
    };
    let place = match value.get("Label") {
        Some(Value::String(label)) => index_of_job(jobs, label.as_str()),
        _ => None,
    };
    let taken = match place {
        Some(place) => give(alloc, def, &value, place, jobs),
        None => Ok(()),
    };
    drop(value);
    taken
}

fn give(
    alloc: Global,
    def: &str,
    value: &Value,
    place: usize,
    jobs: &mut [ReportedJob],
) -> Result<(), AllocError> {
    let Some(job) = jobs.get_mut(place) else {
        return Ok(());
    };
    if !job.wants_before || job.before.is_some() {
        return Ok(());
    }
    let digest = digest_of_value(alloc, value)?;
    if digest.as_str() == job.digest.as_str() {
        job.before = Some(String::from_str(alloc, def)?);
    }
    Ok(())
}
