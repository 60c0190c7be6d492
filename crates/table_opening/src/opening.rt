//! The zone of a header, and its table.
ghost use Rattle.std.specs.Prelude.{IfOk};
ghost use Rattle.table_opening.specs.Openings.{IsTold, IsZoneOf, Describes, OpensAs};
ghost use Rattle.calendar_due.specs.ZoneRules.{offsets};

use calendar_due::{Zone, ZoneFault};
use ctl_protocol::{Header, ZoneText};
use history_model::Refusal;
use job_table::JobTable;
use std::alloc::{AllocError, Global};

/// Why a header opens no table.
#[derive(Clone, Copy)]
pub enum OpeningFault {
    /// Memory was refused.
    NoMemory,
    /// Its zone is none.
    BadZone,
    /// A name among its settings is not a label.
    BadLabel,
    /// Its clock reading is past a limit.
    BadReading,
}

/// The zone that a header names, or why there is none.
fn told(alloc: Global, zone: &ZoneText) -> Result<Zone, ZoneFault>
    ensures { IsTold zone.now result }
{
    match zone {
        ZoneText::Posix(text) => Zone::posix(text.as_str()),
        ZoneText::Offset(seconds) => match i32::try_from(*seconds) {
            Ok(seconds) => Zone::fixed(seconds),
            Err(_) => Err(ZoneFault::BadZone),
        },
        ZoneText::File(file) => Zone::tzif(alloc, file.as_slice()),
    }
}

/// The zone that a header names, or `None` if it names none.
pub fn zone_of(alloc: Global, zone: &ZoneText) -> Result<Option<Zone>, AllocError>
    ensures { IfOk result (IsZoneOf zone.now) }
{
    match told(alloc, zone) {
        Ok(zone) => Ok(Some(zone)),
        Err(ZoneFault::NoMemory) => Err(AllocError),
        Err(ZoneFault::BadZone) => Ok(None),
    }
}

/// The table of a header that names this zone.
#[tactic(auto, using(crate::proofs::OpeningsLemmas::opened_in, crate::proofs::OpeningsLemmas::bad_label, crate::proofs::OpeningsLemmas::bad_reading))]
fn table_in(alloc: Global, header: Header, zone: Zone) -> Result<JobTable, OpeningFault>
    requires { Describes header.zone (offsets zone) }
    ensures { OpensAs header result }
{
    match JobTable::new(alloc, header.reading, zone, header.overrides.into_vec()) {
        Ok(table) => Ok(table),
        Err(Refusal::BadRequest) => Err(OpeningFault::BadLabel),
        Err(_) => Err(OpeningFault::BadReading),
    }
}

/// The table with no job that a header opens: with its clock reading, in its zone, with its settings, oldest first. Refused as
/// `OpeningFault` says, the zone before the names and these before the clock reading.
pub fn table_of(alloc: Global, header: Header) -> Result<JobTable, OpeningFault>
    ensures { OpensAs header result }
{
    match told(alloc, &header.zone) {
        Ok(zone) => table_in(alloc, header, zone),
        Err(ZoneFault::NoMemory) => Err(OpeningFault::NoMemory),
        Err(ZoneFault::BadZone) => Err(OpeningFault::BadZone),
    }
}
