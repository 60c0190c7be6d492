//! The launcher as a machine that reads lines: a header opens the table of jobs, and each later line is an event.
ghost use Rattle.std.specs.Prelude.{IfOk};
ghost use Rattle.replay.specs.Answers.{IsReplied, WillWrite};
ghost use Rattle.table_opening.specs.JournalEvents.{event_in};
ghost use Rattle.table_opening.specs.Output.{IsOutput};

use crate::lines::{accepted_line, refused_line};
use crate::opening;
use ctl_protocol::{LineRoom, ReadFault, read_event};
use history_model::Refusal;
use job_table::JobTable;
use replay_loop::LineMachine;
use std::alloc::{AllocError, Global};

/// The table of jobs, driven by the lines of a journal.
#[derive(Drop)]
pub(crate) struct JournalMachine {
    table: JobTable,
    room: LineRoom,
}

/// The line that answers a line of a journal, which is an event or unreadable.
fn answer(
    alloc: Global,
    table: &mut JobTable,
    room: &mut LineRoom,
    line: &[u8],
) -> Result<Vec<u8>, AllocError>
    ensures { IfOk result (λ text. IsReplied (event_in line.now) table.old table.new text.items) }
{
    match read_event(alloc, line, room) {
        Ok(event) => match table.take(alloc, &event) {
            Ok(taken) => accepted_line(alloc, table, taken),
            Err(Refusal::NoMemory) => Err(AllocError),
            Err(refusal) => refused_line(alloc, refusal),
        },
        Err(ReadFault::NoMemory) => Err(AllocError),
        Err(ReadFault::BadRequest) => refused_line(alloc, Refusal::BadRequest),
    }
}

impl LineMachine for JournalMachine {
    ghost output = { IsOutput };

    ghost will_write = { λ launcher future. WillWrite launcher.table future };

    fn open(alloc: Global, header: &[u8]) -> Result<Option<JournalMachine>, AllocError> {
        match opening::open(alloc, header) {
            Ok(Some(table)) => Ok(Some(JournalMachine {
                table,
                room: LineRoom::new(alloc)?,
            })),
            Ok(None) => Ok(None),
            Err(e) => Err(e),
        }
    }

    fn handle(&mut self, alloc: Global, line: &[u8]) -> Result<Vec<u8>, AllocError> {
        match answer(alloc, &mut self.table, &mut self.room, line) {
            Ok(text) => Ok(text),
            Err(e) => Err(e),
        }
    }

    ghost no_header = { tt };
}
