//! Opens the table of jobs for a header's line.
ghost use Rattle.std.specs.Prelude.{IfOk};
ghost use Rattle.replay.specs.Answers.{IsOpenedFrom, IsOpened};

use ctl_protocol::{Header, ReadFault, read_header};
use job_table::JobTable;
use std::alloc::{AllocError, Global};
use table_opening::{OpeningFault, table_of};

/// The table of a header that was read, whose names are labels and whose reading is within its limits.
fn opened(alloc: Global, header: Header) -> Result<Option<JobTable>, AllocError>
    ensures { IfOk result (IsOpenedFrom header) }
{
    match table_of(alloc, header) {
        Ok(table) => Ok(Some(table)),
        Err(OpeningFault::BadZone) => Ok(None),
        Err(_) => Err(AllocError),
    }
}

/// The table that a header's line opens, or `None`, if the line is not a readable header.
pub(crate) fn open(alloc: Global, line: &[u8]) -> Result<Option<JobTable>, AllocError>
    ensures { IfOk result (IsOpened line.now) }
{
    match read_header(alloc, line) {
        Ok(header) => opened(alloc, header),
        Err(ReadFault::NoMemory) => Err(AllocError),
        Err(ReadFault::BadRequest) => Ok(None),
    }
}
