//! The edge of the real system, by what only a call can see. Each case has a folder of its own, a port, and an edge that spools into the
//! folder.

use crate::edges::calls::{Jobs, are_answered, jobs_of};
use crate::edges::places::{
    Watch, address, edge_over, free_port, is_woken, new_folder, new_watch, pause,
};
use child_edge::{Client, EdgeCall, OsEdge, Scripted, System};
use history_model::JobNo;
use mio::Token;
use socket_demand::Exchange;
use std::alloc::{AllocError, Global};
use std::net::{Shutdown, TcpStream};
use std::os::unix::net::UnixStream;
use std::{fs, mem};

/// What is done, and what is expected of it.
pub enum Step {
    /// The call is answered so.
    Answers(EdgeCall, Scripted),
    /// A poll comes to be answered so.
    Ends(EdgeCall, Scripted),
    /// The first child that is over, from this job's number on, comes to be this one.
    IsOver(JobNo, (JobNo, u64)),
    /// No child is over from this job's number on.
    NoneIsOver(JobNo),
    /// Job 0 has sockets, by another bind than at the last such step; or it has none.
    HasSockets(bool),
    /// No client waits at job 0.
    NobodyCalls,
    /// Somebody calls the port, and half-closes.
    CallPort,
    /// Somebody calls the path.
    CallPath,
    /// A client comes to wait, and the edge holds it under number 1, or refuses to.
    IsTaken(bool),
    /// The files of connection 1 are in the spool.
    IsSpooled(bool),
    /// The sockets are registered with a poll.
    Registers,
    /// The poll is woken, or is not.
    IsWoken(bool),
}

/// Its name is that of its folder. Run 1 runs the first script in a shell, and run 2 the second.
pub struct Scene {
    pub name: &'static str,
    pub scripts: [&'static str; 2],
    pub steps: &'static [Step],
}

/// Where a case is played, and with which jobs.
#[derive(Clone, Copy)]
struct Place<'a> {
    folder: &'a str,
    port: u16,
    jobs: &'a Jobs,
}

/// Under this token the edge's sockets wake a poll.
const CALLED: Token = Token(7);

/// The text of a job of a shell that runs the script in the folder, with a socket at `s` in it, and one at the port.
fn job_text(alloc: Global, folder: &str, port: u16, script: &str) -> Result<String, AllocError> {
    format!(in alloc;
        "{{\"Label\":\"a\",\"ProgramArguments\":[\"/bin/sh\",\"-c\",\"{script}\"],\"WorkingDirectory\":\"{folder}\",\"inetdCompatibility\":{{\"Wait\":false}},\"Sockets\":{{\"s\":{{\"SockPathName\":\"{folder}/s\"}},\"t\":{{\"SockNodeName\":\"localhost\",\"SockServiceName\":{port}}}}}}}"
    )
}

/// Whether the edge takes the client under number 1, for job 0.
fn takes<R: System>(alloc: Global, edge: &mut OsEdge<R>, client: Client) -> Option<bool> {
    match Exchange::new(alloc) {
        Ok(exchange) => Some(edge.take(0, 1, client, exchange).is_ok()),
        Err(_) => {
            drop(client);
            None
        }
    }
}

/// Whether job 0 has sockets by another bind than at the last such step, or has none.
fn has_sockets(edge: &OsEdge<HostRuntime>, last: &mut Option<u64>, has_some: bool) -> bool {
    let bind = edge.bind_of(0);
    let is_other = bind.is_none() || bind != *last;
    *last = bind.or(*last);
    is_other && bind.is_some() == has_some
}

/// Whether the step is as it says. A step that waits is asked again while it is not.
fn is_so(
    rt: &HostRuntime,
    place: Place<'_>,
    edge: &mut OsEdge<HostRuntime>,
    watch: &mut Watch,
    last: &mut Option<u64>,
    step: &Step,
) -> bool {
    match *step {
        Step::Answers(call, wanted) | Step::Ends(call, wanted) => {
            are_answered(edge, place.jobs, &[(call, wanted)])
        }
        Step::IsOver(job, run) => edge.over_from(job) == Some(run),
        Step::NoneIsOver(job) => edge.over_from(job).is_none(),
        Step::NobodyCalls => edge.accept(0).is_none(),
        Step::IsTaken(wanted) => match edge.accept(0) {
            Some(client) => takes(rt.alloc(), edge, client) == Some(wanted),
            None => false,
        },
        Step::HasSockets(has_some) => has_sockets(edge, last, has_some),
        Step::Registers => edge.register(watch.poll.registry(), CALLED).is_ok(),
        Step::IsWoken(wanted) => is_woken(watch, CALLED, wanted),
        Step::CallPort => calls_port(rt, place.port),
        Step::CallPath => calls_path(rt, place.folder).is_some(),
        Step::IsSpooled(is_spooled) => {
            let has_request = lies_in(rt, place.folder, "0-1.request");
            let has_reply = lies_in(rt, place.folder, "0-1.reply");
            has_request == Some(is_spooled) && has_reply == Some(is_spooled)
        }
    }
}

/// Somebody calls the port, and half-closes. The caller's end stays open.
fn calls_port(rt: &HostRuntime, port: u16) -> bool {
    match TcpStream::connect(rt, address(port)) {
        Ok(caller) => {
            let is_shut = caller.shutdown(Shutdown::Write).is_ok();
            mem::forget(caller);
            is_shut
        }
        Err(_) => false,
    }
}

/// Somebody calls the path. The caller's end stays open.
fn calls_path(rt: &HostRuntime, folder: &str) -> Option<()> {
    let path = format!(in rt.alloc(); "{folder}/s").ok()?;
    mem::forget(UnixStream::connect(rt, path.as_str()).ok()?);
    Some(())
}

fn lies_in(rt: &HostRuntime, folder: &str, name: &str) -> Option<bool> {
    let path = format!(in rt.alloc(); "{folder}/{name}").ok()?;
    Some(fs::symlink_metadata(rt, path.as_str()).is_ok())
}

/// Whether the step comes to be as it says, in five seconds if it is one that waits.
fn comes(
    rt: &HostRuntime,
    place: Place<'_>,
    edge: &mut OsEdge<HostRuntime>,
    watch: &mut Watch,
    last: &mut Option<u64>,
    step: &Step,
) -> bool {
    let tries = match *step {
        Step::Ends(..) | Step::IsOver(..) | Step::IsTaken(_) => 500u32,
        _ => 1,
    };
    for _ in 0..tries {
        if is_so(rt, place, edge, watch, last, step) {
            return true;
        }
        pause(rt);
    }
    false
}

/// Whether each step succeeds, over an edge and a poll of its own.
fn all_come(rt: &HostRuntime, place: Place<'_>, steps: &[Step]) -> Option<bool> {
    let own = rt.clone().ok()?;
    let mut watch = new_watch(rt)?;
    let Some(mut edge) = edge_over(own, place.folder) else {
        drop(watch);
        return None;
    };
    let mut last = None;
    let mut all_come = true;
    for step in steps {
        all_come = all_come && comes(rt, place, &mut edge, &mut watch, &mut last, step);
    }
    drop(edge);
    drop(watch);
    Some(all_come)
}

/// The same, with the scene's jobs, if its folder could then be removed.
pub fn is_played(rt: &HostRuntime, scene: &Scene) -> Option<bool> {
    let alloc = rt.alloc();
    let port = free_port(rt)?;
    let folder = new_folder(rt, scene.name)?;
    let folder = folder.as_str();
    let [first, second] = scene.scripts;
    let first = job_text(alloc, folder, port, first).ok()?;
    let second = job_text(alloc, folder, port, second).ok()?;
    let jobs = jobs_of(alloc, first.as_str(), second.as_str())?;
    let place = Place {
        folder,
        port,
        jobs: &jobs,
    };
    let all_come = all_come(rt, place, scene.steps);
    drop(jobs);
    let is_left = fs::remove_dir_all(rt, folder).is_ok();
    Some(is_left && all_come == Some(true))
}
