//! The passes of the live loop: what each does, one after the other.

ghost use Rattle.std.specs.Prelude.{◌≡◌, ◌≤◌, ◌<◌, OnOk, IfOk, true};
ghost use Rattle.control_socket.specs.Serving.{Serves};
ghost use Rattle.live_loop.specs.Rounds.{Asks, IsRound, ServesAll};
ghost use Rattle.live_loop.specs.Ending.{Ends};
ghost use Rattle.live_loop.specs.Kept.{IsKeptBy, IsLookKeptBy, desk_in, ended_in, left_in};

use crate::children::poll_children;
use crate::fault::ServeFault;
use crate::job_sockets::JobSockets;
use crate::live::Live;
use crate::loop_host::LoopHost;
use crate::round_time::RoundTime;
use crate::telling::tell;
use crate::waiting::{LONGEST, next_pause, quick_rounds, round_wait};
use child_edge::System;
use control_socket::{ControlSocket, Limit};
use history_model::SECOND;
use mio::Events;
use std::alloc::Global;
use std::sync::Wait;
use std::thread;
use std::time::Duration;

/// How long a launcher with no job left waits, in milliseconds of `up`. It waits for clients that don't take their
/// reply, or ask on and on, and for a standard error that takes nothing.
const PATIENCE: u64 = SECOND;

/// How many microseconds a quick pass sleeps.
const QUICK_WAIT: u64 = 200;

/// One pass of the event loop. It waits at most a tenth of a second. After a pass in which a client's request came
/// whole, the next four wait 200 microseconds, unless the exit of a child wakes the poll.
///
/// Then it reads the clock and asks about each child. Once in 1,000 milliseconds of `up` it asks what is at the listed
/// paths. It checks those whose answer is known by now. It takes new control clients and serves all of them, and does
/// the same for the clients of jobs' sockets. It delivers what it finds to the launcher, one by one. In the end it logs
/// what was refused, and what became of runs, in a line each on standard error.
///
/// Children are polled for 5 milliseconds at most, and one child longer. Control clients are served for as long, and a
/// line longer; then clients of jobs' sockets. What is left is for the next pass, which does not wait. If clients of
/// jobs' sockets took their whole time, control clients are served once more, so that who asks for one thing waits for
/// few others.
///
/// True: a shutdown was accepted, no job is left, and the control clients have their replies, or a second has passed
/// since. Poll, if the system refuses to wait; nothing was done then.
pub fn round<R: System, H: LoopHost>(
    rt: &R,
    alloc: Global,
    live: &mut Live<H>,
) -> Result<bool, ServeFault>
    ensures ends { IfOk result (λ is_last. Ends H.Says live.new.host (H.round_up live.new.host)
        (ended_in live.old) (ended_in live.new) is_last) }
    ensures passes { OnOk result (IsRound (record {
      round_up = H.round_up;
      IsNext = H.IsNext;
      Did = H.Did;
      Answered = H.Answered;
      Begun = H.Begun;
      Polled = H.Polled;
      Asked = H.Asked;
      Taken = H.Taken;
      Came = H.Came;
    })
        (left_in live.old) (left_in live.new)) }
{
    wait(rt, live)?;
    live.host.begin(alloc);
    let mut time = RoundTime::begin(rt, live.host.up());
    live.next_child = poll_children(
        alloc,
        &mut live.host,
        &mut live.rooms.label,
        live.next_child,
        &mut time,
    );
    let is_time = live.rooms.observations.look(alloc, &mut live.host);
    live.rooms.sockets.may_have_come = live.rooms.sockets.may_have_come | is_time;
    serve_clients(rt, alloc, live);
    tell(rt, alloc, live);
    Ok(ends(live))
}

/// Passes, until one says that it was the last, or the system refuses to wait. In each case the control socket's file
/// is then removed, and the connections of jobs are dropped with their files; the children keep running. Only `waits`
/// may wait for ever. It is a parameter of its own, so that who puts the launcher together can name the runtime without
/// the leave to wait.
pub fn serve<L: Wait, R: System, H: LoopHost + Drop>(
    waits: &L,
    rt: &R,
    alloc: Global,
    live: Live<H>,
) -> Result<(), ServeFault> {
    let mut live = live;
    for _ in waits.forever() {
        let end = match round(rt, alloc, &mut live) {
            Ok(false) => None,
            Ok(true) => Some(Ok(())),
            Err(fault) => Some(Err(fault)),
        };
        if let Some(answer) = end {
            live.control.remove(rt);
            live.host.release_all();
            tell(rt, alloc, &mut live);
            drop(live);
            return answer;
        }
    }
    unreachable!()
}

// Waits for readiness, no longer than until the next time of the table and the next path check. The poll knows whole
// milliseconds alone, so a quick pass may sleep before it.
fn wait<R: System, H: LoopHost>(rt: &R, live: &mut Live<H>) -> Result<(), ServeFault>
    ensures asks { Asks H.Asked live.old.host live.new.host }
    ensures kept { IsKeptBy live.old live.new }
    ensures ended { live.new.ended_at ≡ live.old.ended_at }
{
    let mut wait = next_wait(live);
    let is_nap = must_nap(live, wait);
    if is_nap {
        thread::sleep(rt, Duration::from_micros(QUICK_WAIT));
        wait = 0;
    }
    live.poll.wait(&mut live.rooms.events, wait)?;
    wake(
        &live.rooms.events,
        &mut live.rooms.sockets,
        &mut live.control,
    );
    Ok(())
}

// Reports to the sockets of jobs, and to the control socket, what woke the poll.
fn wake(events: &Events, sockets: &mut JobSockets, control: &mut ControlSocket)
    ensures { desk_in sockets.new ≡ desk_in sockets.old }
{
    for event in events.iter() {
        let token = event.token();
        sockets.wake_by(token);
        control.wake_by(token);
    }
}

// Whether a quick pass sleeps: no exit wakes the poll.
fn must_nap<H: LoopHost>(live: &mut Live<H>, wait: u64) -> bool
    ensures quick { result ≡ true → (0 < live.old.quick) × (0 < wait) }
    ensures asks { Asks H.Asked live.old.host live.new.host }
    ensures kept { IsKeptBy live.old live.new }
    ensures ended { live.new.ended_at ≡ live.old.ended_at }
{
    if live.quick == 0 {
        return false;
    }
    if wait == 0 {
        return false;
    }
    !live.host.is_woken_by_exits()
}

fn next_wait<H: LoopHost>(live: &mut Live<H>) -> u64
    ensures within { result ≤ 100 }
    ensures asks { Asks H.Asked live.old.host live.new.host }
    ensures kept { IsKeptBy live.old live.new }
    ensures ended { live.new.ended_at ≡ live.old.ended_at }
{
    if live.is_busy {
        return 0;
    }
    let up = live.host.up_now();
    let look = live.rooms.observations.next_look(&live.host);
    let pause = live.pause.min(LONGEST);
    round_wait(pause, up, live.host.standing().next_moment, look)
}

fn serve_clients<R: System, H: LoopHost>(rt: &R, alloc: Global, live: &mut Live<H>)
    ensures serves { ServesAll H.Answered H.Asked H.Taken H.Came
        (desk_in live.old.rooms.sockets) (desk_in live.new.rooms.sockets) live.old.host live.new.host }
    ensures kept { IsLookKeptBy live.old live.new }
    ensures ended { live.new.ended_at ≡ live.old.ended_at }
{
    let was_asking = serve_control(rt, alloc, live);
    let mut time = RoundTime::begin(rt, live.host.up());
    live.rooms
        .sockets
        .accept(live.poll.registry(), &mut live.host, &mut time);
    live.control.set_room(live.rooms.sockets.room);
    let is_sending = live
        .rooms
        .sockets
        .gather(alloc, &mut live.host, &mut live.rooms.label, &mut time);
    let is_asking = serve_again(rt, alloc, live, time.has_time(), was_asking);
    let is_taking = forward(live);
    live.is_busy = is_asking || is_sending || is_taking || live.next_child > 0;
}

// Sends on what goes out, the status file too. Before it asks whether the journal was closed in this pass, so that the file says it.
fn forward<H: LoopHost>(live: &mut Live<H>) -> bool
    ensures asks { Asks H.Asked live.old.host live.new.host }
    ensures kept { IsKeptBy live.old live.new }
    ensures ended { live.new.ended_at ≡ live.old.ended_at }
{
    live.has_journal_closed = live.has_journal_closed | live.host.report_journal_closing();
    live.host.forward()
}

// Serves control clients once more, if there was no time for the others.
fn serve_again<R: System, H: LoopHost>(
    rt: &R,
    alloc: Global,
    live: &mut Live<H>,
    had_time: bool,
    was_asking: bool,
) -> bool
    ensures serves { Serves H.Answered live.old.host live.new.host }
    ensures kept { IsKeptBy live.old live.new }
    ensures ended { live.new.ended_at ≡ live.old.ended_at }
{
    if had_time {
        was_asking
    } else {
        serve_control(rt, alloc, live)
    }
}

// Takes new control clients and serves all. True: one of them may go on at once.
fn serve_control<R: System, H: LoopHost>(rt: &R, alloc: Global, live: &mut Live<H>) -> bool
    ensures serves { Serves H.Answered live.old.host live.new.host }
    ensures kept { IsKeptBy live.old live.new }
    ensures ended { live.new.ended_at ≡ live.old.ended_at }
{
    live.control.accept(rt, live.poll.registry());
    let mut time = RoundTime::begin(rt, live.host.up());
    live.control.serve(alloc, &mut live.host, &mut time)
}

// Says how the next passes wait, and whether this was the last. A quick pass does not count as a quiet one: the pauses
// begin after it.
fn ends<H: LoopHost>(live: &mut Live<H>) -> bool
    ensures host { live.new.host ≡ live.old.host }
    ensures kept { IsKeptBy live.old live.new }
    ensures ends { Ends H.Says live.old.host (H.round_up live.old.host) live.old.ended_at live.new.ended_at result }
{
    let standing = live.host.standing();
    let is_active = standing.is_active || live.rooms.sockets.is_stirred || live.quick > 0;
    live.pause = next_pause(is_active, live.pause);
    live.quick = quick_rounds(live.rooms.sockets.is_whole, live.quick);
    live.rooms.sockets.is_stirred = false;
    live.rooms.sockets.is_whole = false;
    if !standing.has_ended {
        return false;
    }
    let up = live.host.up();
    let ended_at = live.ended_at.unwrap_or(up);
    live.ended_at = Some(ended_at);
    let is_told = live.untold.is_none() && live.rooms.standard_error.is_done();
    let is_quiet = !live.is_busy && is_told && live.control.is_quiet();
    is_quiet || ended_at.saturating_add(PATIENCE) <= up
}
