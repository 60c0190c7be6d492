//! What a launcher is made of, as the header of its journal describes it.

ghost use Rattle.std.specs.Prelude.{◌≡◌, IfErr, IfOk, is_some};
ghost use Rattle.ctl_protocol.specs.HeaderLines.{header_line};
ghost use Rattle.launcher.specs.Journals.{Grows, fresh, held};
ghost use Rattle.table_opening.specs.Openings.{StandsOpened};
ghost use Rattle.launcher.specs.Hosts.{with_overrides};
ghost use Rattle.launcher.specs.TurnFaults.{FaultOf, IsFaultWith, fault_of_store};
ghost use Rattle.launcher.specs.Writable.{IsWritableHeader};

use crate::answer_queue::AnswerQueue;
use crate::host::HostFault;
use crate::journal::Journal;
use crate::lent_facts::lend_zone;
use crate::settings::are_in_order;
use ctl_protocol::{Header, HeaderSettings, LineRoom};
use history_model::Setting;
use job_table::JobTable;
use outside::StoreFault;
use std::alloc::{AllocError, Global};
use std::io::Write;
use table_opening::{OpeningFault, table_of};

/// What a launcher has besides its store and the outside.
#[derive(Drop)]
pub(crate) struct Inside<W: Write> {
    pub(crate) table: JobTable,
    pub(crate) journal: Journal<W>,
    pub(crate) answers: AnswerQueue,
    pub(crate) room: LineRoom,
}

/// The fault that the store's is.
pub(crate) fn store_fault(fault: StoreFault) -> HostFault
    ensures { result ≡ fault_of_store fault }
{
    match fault {
        StoreFault::NoMemory => HostFault::NoMemory,
        StoreFault::Refused => HostFault::Store,
    }
}

/// The header with these settings in place of its own.
pub(crate) fn with_settings(header: Header, settings: Vec<Setting>) -> Header
    ensures { result ≡ with_overrides header settings.items }
{
    let Header { reading, zone, .. } = header;
    Header {
        reading,
        zone,
        overrides: HeaderSettings::new(settings),
    }
}

/// The journal with the header's line, if there is one.
fn begun<W: Write>(alloc: Global, journal: Option<W>, header: &Header) -> Journal<W>
    ensures { Grows (fresh (held W.contents journal) (is_some journal)) result
        (header_line header.now) }
{
    match journal {
        Some(writer) => Journal::begin(alloc, writer, header),
        None => Journal::none(),
    }
}

/// The queue of answers with all its room, and the room for lines.
fn reserved(alloc: Global) -> Result<(AnswerQueue, LineRoom), AllocError> {
    let answers = AnswerQueue::new(alloc)?;
    let room = LineRoom::new(alloc)?;
    Ok((answers, room))
}

/// The launcher inside, as the header describes it. Its journal begins with the header's line. Refused as `HostFault`
/// says.
pub(crate) fn make_inside<W: Write + Drop>(
    alloc: Global,
    header: Header,
    journal: Option<W>,
) -> Result<Inside<W>, HostFault>
    ensures opened { IfOk result (λ made. StandsOpened header made.table) }
    ensures noted { IfOk result (λ made.
        Grows (fresh (held W.contents journal) (is_some journal)) made.journal
        (header_line header)) }
    ensures writable { IfOk result (λ _. IsWritableHeader header) }
    ensures faults { FaultOf header result }
    ensures fault { IfErr result (IsFaultWith header) }
{
    if !are_in_order(header.overrides.as_slice()) {
        return Err(HostFault::Store);
    }
    lend_zone(&header.zone); // for the proof
    let Ok((answers, room)) = reserved(alloc) else {
        return Err(HostFault::NoMemory);
    };
    let journal = begun(alloc, journal, &header);
    match table_of(alloc, header) {
        Ok(table) => Ok(Inside {
            table,
            journal,
            answers,
            room,
        }),
        Err(OpeningFault::NoMemory) => Err(HostFault::NoMemory),
        Err(OpeningFault::BadZone) => Err(HostFault::Header),
        Err(OpeningFault::BadLabel) => Err(HostFault::Store),
        Err(OpeningFault::BadReading) => Err(HostFault::Header),
    }
}
