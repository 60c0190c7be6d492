//! Keeps what an event of the journal says, and makes the news of it for the log.

use crate::journal::job::JobRequest;
use crate::journal::labels::DisabledBy;
use crate::journal::news::{News, What};
use crate::journal::past::Past;
use crate::journal::waiting::Wait;
use history_model::{
    Act, Ask, DemandKind, Event, JobItem, KeyName, Reading, Refusal, Wants, is_label,
};
use job_defs::read_def;
use json_kinds::{json_value, key_name};
use pace::Signal;
use serde_json::Value;
use std::alloc::{AllocError, Global};

impl Past {
    /// Notes an event that came at the clock reading `now`. `made` has the clock reading at which it was accepted, or the refusal. `wait` is
    /// that of its job, if it is of one. Of refused events, only loads and requests of clients become news; refused answers do not.
    pub(crate) fn note(
        &mut self,
        alloc: Global,
        event: &Event<'_>,
        made: Result<Reading, Refusal>,
        wait: Wait,
        now: Reading,
    ) -> Result<(), AllocError> {
        if let Some((label, asked)) = asked_in(event) {
            let what = match made {
                Ok(at) => {
                    self.ask(label, asked, at);
                    self.note_setting(alloc, label, asked, at)?;
                    What::Asked(asked)
                }
                Err(refusal) => What::Declined(asked, refusal),
            };
            return self.add_news(alloc, label, what);
        }
        match (event, made) {
            (
                Event::Load {
                    def,
                    writes_setting,
                    ..
                },
                made,
            ) => self.note_load(alloc, def.as_str(), *writes_setting, made, now),
            (Event::OfJob { job, item }, Ok(at)) => {
                self.note_item(alloc, job.as_str(), *item, wait, at)
            }
            _ => Ok(()),
        }
    }

    // Adds to the news what an event gave.
    fn add_news(&mut self, alloc: Global, label: &str, what: What) -> Result<(), AllocError> {
        let serial = match self.jobs.get(label) {
            Some(job) => Some(job.record.serial),
            None => None,
        };
        match String::from_str(alloc, label) {
            Ok(label) => Ok(
                self.news.push(News {
                    label,
                    serial,
                    what,
                })?,
            ),
            Err(error) => Err(error),
        }
    }

    // What a client asked disables the label, or enables it.
    fn note_setting(
        &mut self,
        alloc: Global,
        label: &str,
        asked: JobRequest,
        at: Reading,
    ) -> Result<(), AllocError> {
        match asked {
            JobRequest::Disable | JobRequest::UnloadForGood => {
                let by = DisabledBy::Client(asked, at);
                self.labels.set(alloc, label, Some(by))
            }
            JobRequest::Enable => self.labels.set(alloc, label, None),
            _ => Ok(()),
        }
    }

    // A load that was made, or refused, at this clock reading.
    fn note_load(
        &mut self,
        alloc: Global,
        def: &str,
        writes_setting: bool,
        made: Result<Reading, Refusal>,
        at: Reading,
    ) -> Result<(), AllocError> {
        match made {
            Ok(at) => self.note_loaded(alloc, def, writes_setting, at),
            Err(refusal) => self.note_refused(alloc, def, refusal, at),
        }
    }

    fn note_loaded(
        &mut self,
        alloc: Global,
        def: &str,
        writes_setting: bool,
        at: Reading,
    ) -> Result<(), AllocError> {
        let text = def;
        let Ok(def) = read_def(alloc, text.as_bytes()) else {
            return Err(AllocError);
        };
        let told = self.add_news(alloc, def.label(), What::Loaded);
        let known = self.labels.load(alloc, def.label(), None, false);
        let enabled = if writes_setting {
            self.labels.set(alloc, def.label(), None)
        } else {
            Ok(())
        };
        let kept = self.load(alloc, def, text, at);
        match (told, known, enabled) {
            (Ok(()), Ok(()), Ok(())) => kept,
            _ => Err(AllocError),
        }
    }

    // Takes the label from the text, even if that is not a definition. Without one, the label is unknown.
    fn note_refused(
        &mut self,
        alloc: Global,
        def: &str,
        refusal: Refusal,
        at: Reading,
    ) -> Result<(), AllocError> {
        let what = What::LoadRefused(refusal);
        let Some(value) = json_value(alloc, def.as_bytes())? else {
            return self.add_news(alloc, "", what);
        };
        let label = label_in(&value);
        let told = self.add_news(alloc, label, what);
        let known = if label.is_empty() {
            Ok(())
        } else {
            let is_same = self.is_loaded_so(label, def);
            self.labels.load(alloc, label, Some((refusal, at)), is_same)
        };
        drop(value);
        match told {
            Ok(()) => known,
            Err(error) => Err(error),
        }
    }

    // Whether the label is loaded by this text.
    fn is_loaded_so(&self, label: &str, def: &str) -> bool {
        match self.jobs.get(label) {
            Some(job) => match &job.text {
                Some(text) => text.as_str() == def,
                None => false,
            },
            None => false,
        }
    }

    // What came to a job's sockets, an answer, or an end. A run that is over is kept.
    fn note_item(
        &mut self,
        alloc: Global,
        label: &str,
        item: JobItem,
        wait: Wait,
        at: Reading,
    ) -> Result<(), AllocError> {
        let (what, over) = match self.jobs.get_mut(label) {
            Some(job) => job.record.note(item, wait, at),
            None => (None, None),
        };
        let kept = match over {
            Some(run) => self.keep(run),
            None => Ok(()),
        };
        match (what, kept) {
            (Some(what), Ok(())) if self.has_news => self.add_news(alloc, label, what),
            (_, kept) => kept,
        }
    }

    /// Notes an order of the last step. `demand` is the pending start request of its job, and `wants` are what wants that job.
    pub(crate) fn note_order(
        &mut self,
        alloc: Global,
        label: &str,
        act: Act,
        demand: Option<DemandKind>,
        wants: Option<Wants>,
        at: Reading,
    ) -> Result<(), AllocError> {
        let Some(job) = self.jobs.get_mut(label) else {
            return Ok(());
        };
        let what = match act {
            Act::Spawn { run, conn } => {
                job.record.order(run, demand, at);
                match wants {
                    Some(wants) => What::Ordered {
                        run,
                        connection: conn,
                        demand,
                        wants,
                    },
                    None => return Ok(()),
                }
            }
            Act::Term { run } => {
                job.record.tell(Signal::Term, at);
                What::Told {
                    run,
                    signal: Signal::Term,
                }
            }
            Act::Kill { run } => {
                job.record.tell(Signal::Kill, at);
                What::Told {
                    run,
                    signal: Signal::Kill,
                }
            }
            Act::Close { .. } => return Ok(()),
            Act::Gone => {
                job.record.leave(at);
                drop(job.def.take());
                drop(job.text.take());
                What::Gone
            }
        };
        if self.has_news {
            self.add_news(alloc, label, what)
        } else {
            Ok(())
        }
    }
}

// The label in the definition, or the empty text.
fn label_in(def: &Value) -> &str {
    match def.get(key_name(KeyName::Label)) {
        Some(label) => match label.as_str() {
            Some(label) if is_label(label) => label,
            _ => "",
        },
        None => "",
    }
}

// What a client asks of one job.
fn asked_by(ask: Ask) -> JobRequest {
    match ask {
        Ask::Start => JobRequest::Start,
        Ask::Stop => JobRequest::Stop,
        Ask::Kickstart(false) => JobRequest::Kickstart,
        Ask::Kickstart(true) => JobRequest::Strike,
        Ask::Unload => JobRequest::Unload,
        Ask::Shutdown => JobRequest::Shutdown,
    }
}

// What a client asked, and of which label; an empty label for all jobs.
fn asked_in<'a>(event: &Event<'a>) -> Option<(&'a str, JobRequest)> {
    match event {
        Event::OfJob {
            job,
            item: JobItem::Asked(ask),
        } => Some((job.as_str(), asked_by(*ask))),
        Event::Unload {
            job,
            writes_setting: false,
            ..
        } => Some((job.as_str(), JobRequest::Unload)),
        Event::Unload { job, .. } => Some((job.as_str(), JobRequest::UnloadForGood)),
        Event::Set {
            job,
            disabled: false,
            ..
        } => Some((job.as_str(), JobRequest::Enable)),
        Event::Set { job, .. } => Some((job.as_str(), JobRequest::Disable)),
        Event::Shutdown => Some(("", JobRequest::Shutdown)),
        _ => None,
    }
}
