//! What a pass of the loop logs on standard error. It is what was refused to the edge of the system, the control
//! socket, the journal and the jobs' sockets, and what became of runs.

ghost use Rattle.std.specs.Prelude.{◌≡◌};
ghost use Rattle.live_loop.specs.Rounds.{Asks};
ghost use Rattle.live_loop.specs.Kept.{IsKeptBy};

use crate::live::Live;
use crate::loop_host::LoopHost;
use child_edge::{Notice, NoticeKind};
use history_model::Text;
use std::alloc::Global;
use std::mem;

/// How many lines a pass logs at most.
const LINES: usize = 256;

/// Logs what there is to log, in a line each. Where standard error would wait, the rest is left for a later pass.
pub(crate) fn tell<R: Eprint, H: LoopHost>(rt: &R, alloc: Global, live: &mut Live<H>)
    ensures asks { Asks H.Asked live.old.host live.new.host }
    ensures kept { IsKeptBy live.old live.new }
    ensures ended { live.new.ended_at ≡ live.old.ended_at }
{
    live.rooms.standard_error.begin();
    if !live.rooms.standard_error.go_on(rt) {
        return;
    }
    for _ in 0..LINES {
        let Some(notice) = next_notice(alloc, live) else {
            return;
        };
        if !live.rooms.standard_error.tell(rt, &notice) {
            drop(mem::replace(&mut live.untold, Some(notice)));
            return;
        }
        drop(notice);
    }
}

fn next_notice<H: LoopHost>(alloc: Global, live: &mut Live<H>) -> Option<Notice>
    ensures asks { Asks H.Asked live.old.host live.new.host }
    ensures kept { IsKeptBy live.old live.new }
    ensures ended { live.new.ended_at ≡ live.old.ended_at }
{
    if let Some(notice) = live.untold.take() {
        return Some(notice);
    }
    if let Some(notice) = live.host.next_notice() {
        return Some(notice);
    }
    live.has_journal_closed = live.has_journal_closed | live.host.report_journal_closing();
    next_refusal(alloc, live)
}

fn next_refusal<H: LoopHost>(alloc: Global, live: &mut Live<H>) -> Option<Notice>
    ensures host { live.new.host ≡ live.old.host }
    ensures kept { IsKeptBy live.old live.new }
    ensures ended { live.new.ended_at ≡ live.old.ended_at }
{
    let text = if live.has_journal_closed {
        let text = Text::copy_of(alloc, "journal refused").ok()?;
        live.has_journal_closed = false;
        text
    } else {
        match live.control.next_notice() {
            Some(text) => text,
            None => live.rooms.sockets.drop_notices.next()?,
        }
    };
    Some(Notice {
        kind: NoticeKind::Refusal,
        text,
    })
}
