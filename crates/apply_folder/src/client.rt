//! What is asked of the launcher.

use control_client::{Connection, Fault, Replied, request_of};
use ctl_protocol::{LoadRequest, Request};
use history_model::{Refusal, Text, TextRef};
use load_plan::JobSeen;
use std::alloc::Global;

/// What the launcher prints of a job.
#[derive(Clone, Copy)]
pub(crate) struct PrintedJob {
    pub(crate) seen: JobSeen,
    /// The setting of its label disables it, or without one its definition.
    pub(crate) is_disabled: bool,
}

/// The launcher at a socket, over one connection that is made when it is needed.
#[derive(Drop)]
pub(crate) struct Client {
    pub(crate) socket: Text,
    patience: u32,
    connection: Option<Connection>,
}

impl Client {
    /// An answer is waited for this many seconds, or for ever if they are 0.
    pub(crate) fn new(socket: Text, patience: u32) -> Client {
        Client {
            socket,
            patience,
            connection: None,
        }
    }

    /// Asks this once.
    pub(crate) fn ask(
        &mut self,
        host: &HostRuntime,
        alloc: Global,
        request: &Request<'_>,
    ) -> Result<Replied, Fault> {
        let line = request_of(alloc, request)?;
        let replied = self.exchange(host, alloc, line.as_slice());
        drop(line);
        if replied.is_err() {
            self.connection = None;
        }
        replied
    }

    fn exchange(
        &mut self,
        host: &HostRuntime,
        alloc: Global,
        line: &[u8],
    ) -> Result<Replied, Fault> {
        if self.connection.is_none() {
            let opened = Connection::open(host, alloc, self.socket.as_str(), self.patience)?;
            self.connection = Some(opened);
        }
        match &mut self.connection {
            Some(connection) => connection.ask(alloc, line),
            None => Err(Fault::NoReply),
        }
    }

    /// Asks what changes nothing: over a new connection once more, if the one that was there has ended, as one on which nothing was asked for long.
    fn look(
        &mut self,
        host: &HostRuntime,
        alloc: Global,
        request: &Request<'_>,
    ) -> Result<Replied, Fault> {
        let was_open = self.connection.is_some();
        match self.ask(host, alloc, request) {
            Err(Fault::Connection(_) | Fault::NoReply) if was_open => {
                self.ask(host, alloc, request)
            }
            replied => replied,
        }
    }

    /// The labels that are loaded, each at the end of a line.
    pub(crate) fn list(&mut self, host: &HostRuntime, alloc: Global) -> Result<Replied, Fault> {
        self.look(host, alloc, &Request::List)
    }

    /// What the launcher prints of the job of this label.
    pub(crate) fn printed(
        &mut self,
        host: &HostRuntime,
        alloc: Global,
        label: &str,
    ) -> Result<PrintedJob, Fault> {
        let request = Request::Print {
            job: TextRef::new(label),
        };
        let replied = self.look(host, alloc, &request)?;
        let seen = seen_of(replied.code, replied.text.as_str());
        let is_disabled = has_line(replied.text.as_str(), "\tdisabled = true");
        drop(replied);
        match seen {
            Some(seen) => Ok(PrintedJob { seen, is_disabled }),
            None => Err(Fault::BadReply),
        }
    }

    /// The present state of the job of this label.
    pub(crate) fn seen(
        &mut self,
        host: &HostRuntime,
        alloc: Global,
        label: &str,
    ) -> Result<JobSeen, Fault> {
        let printed = self.printed(host, alloc, label)?;
        Ok(printed.seen)
    }

    pub(crate) fn load(
        &mut self,
        host: &HostRuntime,
        alloc: Global,
        def: &str,
    ) -> Result<Replied, Fault> {
        let request = Request::Load(LoadRequest {
            def: TextRef::new(def),
            writes_setting: false,
            force: false,
        });
        self.ask(host, alloc, &request)
    }

    pub(crate) fn unload(
        &mut self,
        host: &HostRuntime,
        alloc: Global,
        label: &str,
    ) -> Result<Replied, Fault> {
        let request = Request::Unload {
            job: TextRef::new(label),
            writes_setting: false,
        };
        self.ask(host, alloc, &request)
    }
}

/// The state of a job by the reply to `print`. None: the reply does not say it.
pub(crate) fn seen_of(code: u8, text: &str) -> Option<JobSeen> {
    if code == Refusal::NoSuchJob.code() {
        return Some(JobSeen::Gone);
    }
    if code != 0 {
        return None;
    }
    state_in(text)
}

fn has_line(text: &str, wanted: &str) -> bool {
    for line in text.lines() {
        if line == wanted {
            return true;
        }
    }
    false
}

fn state_in(text: &str) -> Option<JobSeen> {
    for line in text.lines() {
        if let Some(state) = line.strip_prefix("\tstate = ") {
            return state_named(state);
        }
    }
    None
}

// What may end by an unload counts as running: so does what is being started or stopped.
fn state_named(state: &str) -> Option<JobSeen> {
    match state {
        "removing" => Some(JobSeen::Removing),
        "idle" => Some(JobSeen::Idle),
        "running" | "spawning" | "stopping" => Some(JobSeen::Running),
        _ => None,
    }
}
