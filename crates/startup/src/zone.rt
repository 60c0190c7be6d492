//! The zone that the arguments name, as the header of a journal has it.

use crate::reporting::{Level, refuse, report};
use calendar_due::{Zone, ZoneFault};
use ctl_protocol::{ZoneFile, ZoneText};
use exit_status::{NO_MEMORY, ZONE};
use files_and_process::path_files::read_file;
use history_model::Text;
use launchctl_words::ZoneWords;
use std::alloc::Global;
use std::fs::{File, Files};

/// How many bytes a zone file has at most.
const MOST_BYTES: u64 = 65_536;

/// The zone of calendar entries. Status 7 for a rule or a file that does not describe a zone, and for a file that can't
/// be read or is not a plain file. It does not wait at a FIFO.
pub fn zone_of<R: Files<File = File> + Eprint>(
    rt: &R,
    alloc: Global,
    level: Level,
    zone: ZoneWords,
) -> Result<ZoneText, u8> {
    match zone {
        ZoneWords::Default => universal(alloc),
        ZoneWords::Rule(rule) => by_rule(rt, level, rule),
        ZoneWords::File(path) => by_file(rt, alloc, level, path.as_str()),
    }
}

fn universal(alloc: Global) -> Result<ZoneText, u8> {
    match Text::copy_of(alloc, "UTC0") {
        Ok(rule) => Ok(ZoneText::Posix(rule)),
        Err(_) => Err(NO_MEMORY),
    }
}

fn by_rule(rt: &impl Eprint, level: Level, rule: Text) -> Result<ZoneText, u8> {
    match Zone::posix(rule.as_str()) {
        Ok(_) => Ok(ZoneText::Posix(rule)),
        Err(_) => {
            report(rt, level, "zone", rule.as_str(), &"not a POSIX TZ string");
            Err(ZONE)
        }
    }
}

fn by_file<R: Files<File = File> + Eprint>(
    rt: &R,
    alloc: Global,
    level: Level,
    path: &str,
) -> Result<ZoneText, u8> {
    match read_file(rt, alloc, path, MOST_BYTES as usize) {
        Ok(Some(bytes)) => by_bytes(rt, alloc, level, path, bytes),
        Ok(None) => Err(bad_file(rt, level, path)),
        Err(error) => Err(refuse(rt, level, ZONE, "zone file", path, &error)),
    }
}

fn by_bytes(
    rt: &impl Eprint,
    alloc: Global,
    level: Level,
    path: &str,
    bytes: Vec<u8>,
) -> Result<ZoneText, u8> {
    match Zone::tzif(alloc, bytes.as_slice()) {
        Ok(_) => Ok(ZoneText::File(ZoneFile::new(bytes))),
        Err(ZoneFault::NoMemory) => Err(NO_MEMORY),
        Err(ZoneFault::BadZone) => Err(bad_file(rt, level, path)),
    }
}

fn bad_file(rt: &impl Eprint, level: Level, path: &str) -> u8 {
    let why = "not a zone file of at most 65536 bytes";
    report(rt, level, "zone file", path, &why);
    ZONE
}
