//! What a control client asks of the launcher, and the event that it is with what the outside answers to it.

ghost use Rattle.std.specs.Prelude.{◌≡◌};
ghost use Rattle.ctl_protocol.specs.declared.request.Request.TheVariants as requests;
ghost use Rattle.ctl_protocol.specs.Requests.{event_with, unasked};

use history_model::{Ask, Event, JobItem, TextRef};

/// What the outside answered to a request: `bind` and `store` of a journal's line. What it was not asked counts as true.
#[derive(Clone, Copy)]
pub struct Outside {
    /// The job's sockets are bound.
    pub bind: bool,
    /// The setting of its label is stored.
    pub store: bool,
}

impl Outside {
    /// The answers of an outside that was asked nothing.
    pub fn unasked() -> Outside
        ensures { result ≡ unasked }
    {
        Outside {
            bind: true,
            store: true,
        }
    }
}

/// What a client asks by `load` of launchctl(1).
#[derive(Drop)]
pub struct LoadRequest<'a> {
    /// The definition's JSON text.
    pub def: TextRef<'a>,
    /// With `-w`: the label is enabled too.
    pub writes_setting: bool,
    /// With `-F`: a disabled label is loaded too.
    pub force: bool,
}

impl<'a> LoadRequest<'a> {
    /// The event that the load is, if the outside answers so. Takes no memory.
    pub fn with(&self, outside: Outside) -> Event<'a>
        ensures { result ≡ event_with outside (requests.Load self.now) }
    {
        Event::Load {
            def: TextRef::new(self.def.as_str()),
            writes_setting: self.writes_setting,
            force: self.force,
            bind: outside.bind,
            store: outside.store,
        }
    }
}

/// What a control client asks (launchctl(1)). Its texts are borrowed of the line that was read, or of whoever asks.
#[derive(Drop)]
pub enum Request<'a> {
    /// A definition is to be loaded.
    Load(LoadRequest<'a>),
    /// The job is to be removed; with `writes_setting` its label is also disabled.
    Unload {
        job: TextRef<'a>,
        writes_setting: bool,
    },
    /// From now on the label is to be loaded whatever its definition says (`enable`), or is not to be loaded (`disable`).
    Set {
        job: TextRef<'a>,
        disabled: bool,
    },
    /// What is asked of one job. No line asks an unload or a shutdown so, which are requests of their own.
    Ask {
        job: TextRef<'a>,
        ask: Ask,
    },
    /// A line for each loaded job is asked for.
    List,
    /// What is known of one job is asked for.
    Print {
        job: TextRef<'a>,
    },
    /// Every job is to be removed, and no further one loaded.
    Shutdown,
}

impl<'a> Request<'a> {
    /// The event that the request is, if the outside answers so. An answer to what it is not asked has no say. Takes no memory.
    pub fn with(&self, outside: Outside) -> Event<'a>
        ensures { result ≡ event_with outside self.now }
    {
        match self {
            Request::Load(load) => load.with(outside),
            Request::Unload {
                job,
                writes_setting,
            } => Event::Unload {
                job: TextRef::new(job.as_str()),
                writes_setting: *writes_setting,
                store: outside.store,
            },
            Request::Set { job, disabled } => Event::Set {
                job: TextRef::new(job.as_str()),
                disabled: *disabled,
                store: outside.store,
            },
            Request::Ask { job, ask } => Event::OfJob {
                job: TextRef::new(job.as_str()),
                item: JobItem::Asked(*ask),
            },
            Request::List => Event::List,
            Request::Print { job } => Event::Print {
                job: TextRef::new(job.as_str()),
            },
            Request::Shutdown => Event::Shutdown,
        }
    }
}
