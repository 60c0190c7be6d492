//! A journal that is open: the table, the zone of civil time, and what is kept of the past.
ghost use Rattle.std.specs.Prelude.{◌≡◌, OnOk, IfOk};
ghost use Rattle.loaded_jobs.specs.TableOutcomes.{IsNextTable};
ghost use Rattle.job_table.specs.Taking.{machine_event};
ghost use Rattle.table_opening.specs.JournalEvents.{event_in};
ghost use Rattle.scope.specs.Journals.{IsOpenedAt, IsOpenedBy};

use crate::journal::fault::JournalFault;
use crate::journal::labels::DisabledBy;
use crate::journal::past::Past;
use crate::journal::waiting::{Wait, wait_in};
use calendar_due::Zone;
use ctl_protocol::{Header, LineRoom, ReadFault, read_event, read_header};
use history_model::{Event, Reading, Refusal, Wants};
use job_table::{JobTable, Taken};
use std::alloc::{AllocError, Global};
use table_opening::{OpeningFault, table_of, zone_of};

/// A journal whose header was read, and what its lines gave so far.
#[derive(Drop)]
pub struct OpenJournal {
    pub(crate) table: JobTable,
    /// The zone of the header.
    pub(crate) zone: Zone,
    pub(crate) past: Past,
    /// The clock reading of the header.
    pub(crate) begun: Reading,
    room: LineRoom,
}

/// The journal that a header opens.
pub fn open(alloc: Global, line: &[u8]) -> Result<OpenJournal, JournalFault>
    ensures { IfOk result (λ journal. IsOpenedAt line.now journal.table) }
{
    match read_header(alloc, line) {
        Ok(header) => opened_by(alloc, header),
        Err(ReadFault::NoMemory) => Err(JournalFault::NoMemory),
        Err(ReadFault::BadRequest) => Err(JournalFault::BadHeader),
    }
}

fn opened_by(alloc: Global, header: Header) -> Result<OpenJournal, JournalFault>
    ensures { IfOk result (λ journal. IsOpenedBy header journal.table) }
{
    let zone = zone_of(alloc, &header.zone);
    let past = past_of(alloc, &header);
    let begun = header.reading;
    match (zone, table_of(alloc, header), LineRoom::new(alloc), past) {
        (Ok(Some(zone)), Ok(table), Ok(room), Ok(past)) => Ok(OpenJournal {
            table,
            zone,
            past,
            begun,
            room,
        }),
        (zone, table, room, past) => {
            let fault = match (&zone, &table) {
                (Ok(None), _) | (_, Err(OpeningFault::BadZone)) => JournalFault::BadZone,
                (_, Err(OpeningFault::BadLabel | OpeningFault::BadReading)) => {
                    JournalFault::BadSettings
                }
                _ => JournalFault::NoMemory,
            };
            drop(zone);
            drop(table);
            drop(room);
            drop(past);
            Err(fault)
        }
    }
}

// What the header says of the past: its settings, of which the last of a label decides.
fn past_of(alloc: Global, header: &Header) -> Result<Past, AllocError> {
    let mut past = Past::new(alloc);
    for setting in header.overrides.as_slice() {
        let by = if setting.disabled {
            Some(DisabledBy::Header)
        } else {
            None
        };
        if past.labels.set(alloc, setting.label.as_str(), by).is_err() {
            drop(past);
            return Err(AllocError);
        }
    }
    Ok(past)
}

impl OpenJournal {
    /// Whether its last lines are those of a shutdown that is over: no job is left.
    pub(crate) fn has_ended(&self) -> bool {
        self.table.is_shutting_down() && self.table.is_empty()
    }

    /// Applies a line after the header. It returns whether the line is an event; what it gave is the past's `news`. After it the table
    /// keeps the machine's next state.
    pub fn take(&mut self, alloc: Global, line: &[u8]) -> Result<bool, AllocError>
        ensures { OnOk result (IsNextTable (event_in line.now) self.old.table self.new.table) }
    {
        self.past.news.clear();
        match read_event(alloc, line, &mut self.room) {
            Ok(event) => {
                let noted = apply(alloc, &mut self.table, &mut self.past, &event);
                drop(event);
                match noted {
                    Ok(()) => Ok(true),
                    Err(error) => Err(error),
                }
            }
            Err(ReadFault::NoMemory) => Err(AllocError),
            Err(ReadFault::BadRequest) => Ok(false),
        }
    }
}

// Applies an event to the table, and notes what it gave.
fn apply(
    alloc: Global,
    table: &mut JobTable,
    past: &mut Past,
    event: &Event<'_>,
) -> Result<(), AllocError>
    ensures { OnOk result (IsNextTable (machine_event event.now) table.old table.new) }
{
    if table.is_question(event) {
        return Ok(());
    }
    let last = table.reading();
    let made = match table.take(alloc, event) {
        Ok(_) => Ok(table.reading()),
        Err(Refusal::NoMemory) => return Err(AllocError),
        Err(refusal) => Err(refusal),
    };
    let wait = wait_after(table, past, event);
    let now = table.reading();
    past.reach(last, now);
    match (past.note(alloc, event, made, wait, now), made) {
        (Ok(()), Ok(at)) => note_orders(alloc, table, past, at),
        (noted, _) => noted,
    }
}

// The wait of the job that the event was of, as the table has it. Only news tells it.
fn wait_after(table: &JobTable, past: &Past, event: &Event<'_>) -> Wait {
    match event {
        Event::OfJob { job, .. } if past.has_news => wait_in(table, job.as_str()),
        _ => Wait::Leaves,
    }
}

// What wants the job, as news tells it.
fn wants_told(table: &JobTable, past: &Past, label: &str) -> Option<Wants> {
    if !past.has_news {
        return None;
    }
    match table.reasons(label) {
        Some(reasons) => Some(reasons.wants),
        None => None,
    }
}

// The orders of the last step.
fn note_orders(
    alloc: Global,
    table: &JobTable,
    past: &mut Past,
    at: Reading,
) -> Result<(), AllocError> {
    let step = table.last_step();
    for order in step.orders {
        let label = step.label(order.job);
        let demand = table.latest_demand(label);
        let wants = wants_told(table, past, label);
        past.note_order(alloc, label, order.act, demand, wants, at)?;
    }
    Ok(())
}
