//! Facts that a proof needs, and that a type or the table says: texts are UTF-8, numbers have 64 bits, each number of a
//! job stands for its definition. Nothing is done.

ghost use Rattle.std.specs.Prelude.{◌≡◌, ◌<◌, ◌≤◌, ◌^◌, IsUtf8, nat_lt, true};
ghost use Rattle.std.specs.List.{list_all};
ghost use Rattle.ctl_protocol.specs.Objects.{whole};
ghost use Rattle.history_model.specs.declared.TheConstants.{MAX_UP};
ghost use Rattle.loaded_jobs.specs.Numbers.{IsNumbered};
ghost use Rattle.ctl_protocol.specs.Requests.{event_with, unasked};
ghost use Rattle.launcher.specs.Writable.{IsFit, IsFitZone, IsWritableInput, SaysFit};

use crate::input::Input;
use ctl_protocol::{Request, ZoneText};
use history_model::{Ended, TextRef};
use job_table::JobTable;

/// The numbers of the table's jobs stand for their definitions, and its clock reading is within its limit. Nothing is
/// done.
pub(crate) fn lend_table(table: &JobTable)
    ensures numbered { IsNumbered table.now }
    ensures range { table.now.reading.up ≤ MAX_UP }
{
    let _step = table.last_step();
    let _at = table.reading();
}

/// A text is UTF-8.
pub(crate) fn lend_text(text: &str)
    ensures { IsUtf8 text.now }
{
    let _ = text;
}

/// A text that an event borrows is UTF-8.
fn lend_borrowed(text: &TextRef<'_>)
    ensures { IsUtf8 text.now }
{
    lend_text(text.as_str());
}

/// All texts of what a client asks are UTF-8.
#[tactic(auto, using(crate::proofs::WritableLemmas::ask_fits))]
pub(crate) fn lend_request(request: &Request<'_>)
    ensures { SaysFit (event_with unasked request.now) }
{
    match request {
        Request::Load(load) => lend_borrowed(&load.def),
        Request::Unload { job, .. } | Request::Set { job, .. } | Request::Print { job } => {
            lend_borrowed(job)
        }
        Request::Ask { job, .. } => lend_borrowed(job),
        Request::List | Request::Shutdown => {}
    }
}

/// A number has 64 bits.
fn lend_number(number: u64)
    ensures { number < 2 ^ 64 }
{
    let _ = number;
}

/// A label is UTF-8, and the number of what happened to its job has 64 bits.
fn lend_item(job: &str, number: u64)
    ensures text { IsUtf8 job.now }
    ensures number { number < 2 ^ 64 }
{
    let _ = job;
    let _ = number;
}

/// A code or a signal has 8 bits.
fn lend_byte(byte: u8)
    ensures { byte < 2 ^ 8 }
{
    let _ = byte;
}

/// What an input says, unless it is a line, can be written.
#[tactic(auto, using(crate::proofs::WritableLemmas::clock_writable, crate::proofs::WritableLemmas::saw_writable, crate::proofs::WritableLemmas::came_writable, crate::proofs::WritableLemmas::left_writable, crate::proofs::WritableLemmas::code_writable, crate::proofs::WritableLemmas::signal_writable, crate::proofs::WritableLemmas::refused_writable))]
pub(crate) fn lend_input(input: Input<'_>)
    ensures { IsWritableInput input.entry }
{
    match input {
        Input::Line(_) => {}
        Input::Clock(at) => {
            lend_number(at.up);
            lend_number(at.wall);
        }
        Input::Saw(path, obs) => {
            lend_text(path);
            lend_number(obs.stamp);
        }
        Input::Came(job, conn) => lend_item(job, conn),
        Input::Left(job, conn) => lend_item(job, conn),
        Input::WaitRefused(job, run) => lend_item(job, run),
        Input::Ended(job, run, Ended::Code(code)) => {
            lend_item(job, run);
            lend_byte(code);
        }
        Input::Ended(job, run, Ended::Signal(signal)) => {
            lend_item(job, run);
            lend_byte(signal);
        }
    }
}

/// A number with a sign has 64 bits.
fn lend_whole(number: i64)
    ensures { IsFit (whole number) }
{
    let _ = number;
}

/// Bytes are below 256.
fn lend_bytes(bytes: &[u8])
    ensures { list_all (λ byte. nat_lt byte 256) bytes.now ≡ true }
{
    let _ = bytes;
}

/// What names a zone can be written.
#[tactic(auto, using(crate::proofs::HeaderLemmas::rule_fits, crate::proofs::HeaderLemmas::offset_fits, crate::proofs::HeaderLemmas::file_fits))]
pub(crate) fn lend_zone(zone: &ZoneText)
    ensures { IsFitZone zone.now }
{
    match zone {
        ZoneText::Posix(rule) => lend_text(rule.as_str()),
        ZoneText::Offset(seconds) => lend_whole(*seconds),
        ZoneText::File(file) => lend_bytes(file.as_slice()),
    }
}
