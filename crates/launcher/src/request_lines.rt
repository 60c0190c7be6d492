//! The line of a load, and of a setting, with what the outside answered.

ghost use Rattle.std.specs.Prelude.{◌≡◌, Some, true, false};
ghost use Rattle.ctl_protocol.specs.Requests.{unasked};
ghost use Rattle.launcher.specs.Journals.{Grows};
ghost use Rattle.launcher.specs.JournaledLines.{load_line, set_line, setting_asked};
ghost use Rattle.launcher.specs.LoadTurns.{is_memory};

use crate::journal::Journal;
use crate::replies::is_want;
use ctl_protocol::{LoadRequest, Outside, Request};
use history_model::{Refusal, TextRef};
use std::alloc::Global;
use std::io::Write;

/// Writes the line of a load with these answers.
pub(crate) fn note_load<W: Write>(
    journal: &mut Journal<W>,
    alloc: Global,
    load: &LoadRequest<'_>,
    outside: Outside,
)
    ensures { Grows journal.old journal.new (load_line load.now outside) }
{
    journal.note(alloc, &load.with(outside));
}

/// The request of a setting; with `unload`, of an unload that disables the label.
fn setting_request(label: &str, disabled: bool, unload: bool) -> Request<'_>
    ensures { result ≡ setting_asked label.now disabled unload }
{
    let job = TextRef::new(label);
    if unload {
        Request::Unload {
            job,
            writes_setting: true,
        }
    } else {
        Request::Set { job, disabled }
    }
}

/// Writes the line of a setting with this answer of the store.
pub(crate) fn note_set<W: Write>(
    journal: &mut Journal<W>,
    alloc: Global,
    label: &str,
    disabled: bool,
    unload: bool,
    store: bool,
)
    ensures { Grows journal.old journal.new (set_line label.now disabled unload store) }
{
    let request = setting_request(label, disabled, unload);
    journal.note(alloc, &request.with(Outside { bind: true, store }));
}

/// Writes the line of a load that was refused before the outside was asked. One that found no memory is not an event
/// and gets no line.
pub(crate) fn note_load_refused<W: Write>(
    journal: &mut Journal<W>,
    alloc: Global,
    load: &LoadRequest<'_>,
    refusal: Refusal,
)
    ensures noted { is_memory (Some refusal) ≡ false →
        Grows journal.old journal.new (load_line load.now unasked) }
    ensures silent { is_memory (Some refusal) ≡ true → journal.new ≡ journal.old }
{
    if is_want(Some(refusal)) {
        return;
    }
    note_load(journal, alloc, load, Outside::unasked());
}

/// Writes the line of a setting that was refused before the store was asked. One that found no memory is not an event
/// and gets no line.
pub(crate) fn note_set_refused<W: Write>(
    journal: &mut Journal<W>,
    alloc: Global,
    label: &str,
    disabled: bool,
    unload: bool,
    refusal: Refusal,
)
    ensures noted { is_memory (Some refusal) ≡ false →
        Grows journal.old journal.new (set_line label.now disabled unload true) }
    ensures silent { is_memory (Some refusal) ≡ true → journal.new ≡ journal.old }
{
    if is_want(Some(refusal)) {
        return;
    }
    note_set(journal, alloc, label, disabled, unload, true);
}
