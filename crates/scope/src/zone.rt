//! The zone that the arguments name, or else that of the machine.

use calendar_due::{LONGEST_FILE, Zone, ZoneFault};
use files_and_process::path_files::read_file;
use launchctl_words::ZoneWords;
use run_times::telling::{tell_error, tell_of};
use run_times::utc;
use std::alloc::{AllocError, Global};
use std::fs::metadata;

/// Where the zone of this machine is.
const LOCAL: &str = "/etc/localtime";

/// The zone in which calendar entries are looked at, and the line that names it. The line is empty if the arguments choose the zone.
pub(crate) struct Named {
    pub(crate) zone: Zone,
    pub(crate) line: &'static str,
}

// for the proof: whoever drops it calls this, in place of dropping each part
impl Drop for Named {
    fn drop(self) {
        let Named { zone: _, line: _ } = self;
    }
}

/// The zone that the arguments name. If they name none, UTC with `is_utc`, else that of the machine. If the rule or the file does not give
/// a zone, it reports that and returns None.
pub(crate) fn zone_of(
    host: &HostRuntime,
    alloc: Global,
    zone: &ZoneWords,
    is_utc: bool,
) -> Result<Option<Named>, AllocError> {
    let named = match zone {
        ZoneWords::Default if is_utc => Ok(Some(utc())),
        ZoneWords::Default => return local(host, alloc),
        ZoneWords::Rule(rule) => zone_made(host, rule.as_str(), Zone::posix(rule.as_str())),
        ZoneWords::File(path) => zone_in(host, alloc, path.as_str()),
    };
    with_line(named, "")
}

fn with_line(
    zone: Result<Option<Zone>, AllocError>,
    line: &'static str,
) -> Result<Option<Named>, AllocError> {
    match zone {
        Ok(Some(zone)) => Ok(Some(Named { zone, line })),
        Ok(None) => Ok(None),
        Err(error) => Err(error),
    }
}

// The zone of the machine: that of its file, or UTC if it has none that can be read.
fn local(host: &HostRuntime, alloc: Global) -> Result<Option<Named>, AllocError> {
    match metadata(host, LOCAL) {
        Ok(_) => with_line(
            zone_in(host, alloc, LOCAL),
            "The zone is that of /etc/localtime.\n",
        ),
        Err(_) => with_line(
            Ok(Some(utc())),
            "The zone is UTC: there is no /etc/localtime.\n",
        ),
    }
}

fn zone_in(host: &HostRuntime, alloc: Global, path: &str) -> Result<Option<Zone>, AllocError> {
    match read_file(host, alloc, path, LONGEST_FILE) {
        Ok(Some(bytes)) => zone_made(host, path, Zone::tzif(alloc, bytes.as_slice())),
        Ok(None) => zone_made(host, path, Err(ZoneFault::BadZone)),
        Err(error) => {
            tell_error(host, path, &error)?;
            Ok(None)
        }
    }
}

fn zone_made(
    host: &HostRuntime,
    named: &str,
    made: Result<Zone, ZoneFault>,
) -> Result<Option<Zone>, AllocError> {
    match made {
        Ok(zone) => Ok(Some(zone)),
        Err(ZoneFault::NoMemory) => Err(AllocError),
        Err(ZoneFault::BadZone) => {
            tell_of(host, named, &"no zone");
            Ok(None)
        }
    }
}
