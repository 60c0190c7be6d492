//! What a control client's line asks.

ghost use Rattle.std.specs.Prelude.{◌≡◌, Some, true};
ghost use Rattle.ctl_protocol.specs.declared.request.Request.TheVariants as requests;
ghost use Rattle.launcher.specs.JournaledLines.{setting_asked};
ghost use Rattle.launcher.specs.AtOnce.{is_prompt};
ghost use Rattle.launcher.specs.Inputs.{asked, asked_by};
ghost use Rattle.launcher.specs.TakenTurns.{TakesTurn};
ghost use Rattle.launcher.specs.Writable.{WritesWhat};

use crate::host::Host;
use crate::lent_facts::lend_request;
use crate::replies::{done, refused, told};
use child_edge::{ChildEdge, SocketEdge};
use ctl_protocol::{LoadRequest, Outside, ReadFault, Request, read_request};
use history_model::{Refusal, Reply};
use outside::SettingStore;
use std::alloc::Global;
use std::io::Write;

impl<T: SettingStore, E: ChildEdge + SocketEdge, W: Write> Host<T, E, W> {
    /// A client's line, the newline left out.
    #[tactic(auto, using(crate::proofs::HostsLemmas::not_received, crate::proofs::HostsLemmas::unread, crate::proofs::StampsLemmas::refused_stamps, crate::proofs::WritableLemmas::no_line_writable, crate::proofs::AcceptingLemmas::refused_load))]
    pub(crate) fn line(&mut self, alloc: Global, line: &[u8]) -> Reply
        ensures turn { TakesTurn E.told T.told T.holds T.stamped (asked_by line.now)
            result.refusal result.text self.old self.new }
        ensures writable { WritesWhat result.refusal (asked_by line.now) }
    {
        self.has_loaded = false;
        let mut room = self.room.take();
        match read_request(alloc, line, &mut room) {
            Ok(request) => {
                lend_request(&request); // for the proof
                let reply = self.ask(alloc, &request);
                drop(request);
                self.room = room;
                reply
            }
            Err(ReadFault::NoMemory) => {
                self.room = room;
                refused(alloc, Refusal::NoMemory)
            }
            Err(ReadFault::BadRequest) => {
                self.room = room;
                refused(alloc, Refusal::BadRequest)
            }
        }
    }

    /// What a client asks. The outside is asked first where it has a say.
    fn ask(&mut self, alloc: Global, request: &Request<'_>) -> Reply
        ensures turn { TakesTurn E.told T.told T.holds T.stamped (Some (asked request.now))
            result.refusal result.text self.old self.new }
    {
        match request {
            Request::Load(load) => self.ask_load(alloc, load),
            Request::Unload {
                job,
                writes_setting: true,
            } => self.ask_set(alloc, job.as_str(), true, true),
            Request::Set { job, disabled } => self.ask_set(alloc, job.as_str(), *disabled, false),
            Request::Unload {
                job: _,
                writes_setting: false,
            } => self.ask_at_once(alloc, request),
            Request::Ask { job: _, ask: _ } => self.ask_at_once(alloc, request),
            Request::List => self.ask_at_once(alloc, request),
            Request::Print { job: _ } => self.ask_at_once(alloc, request),
            Request::Shutdown => self.ask_at_once(alloc, request),
        }
    }

    /// A load.
    fn ask_load(&mut self, alloc: Global, load: &LoadRequest<'_>) -> Reply
        ensures turn { TakesTurn E.told T.told T.holds T.stamped (Some (asked (requests.Load load.now)))
            result.refusal result.text self.old self.new }
    {
        let loaded = self.load(alloc, load);
        let reply = told(alloc, loaded.reply);
        self.has_loaded = reply.refusal.is_none();
        reply
    }

    /// A setting; with `unload` also an unload.
    fn ask_set(&mut self, alloc: Global, job: &str, disabled: bool, unload: bool) -> Reply
        ensures turn { TakesTurn E.told T.told T.holds T.stamped (Some (asked (setting_asked job.now disabled unload)))
            result.refusal result.text self.old self.new }
    {
        let changed = self.set(alloc, job, disabled, unload);
        self.has_loaded = false;
        done(alloc, changed.reply)
    }

    /// What is asked at once: it is an event, and nothing outside is first asked for it.
    fn ask_at_once(&mut self, alloc: Global, request: &Request<'_>) -> Reply
        requires { is_prompt request.now ≡ true }
        ensures turn { TakesTurn E.told T.told T.holds T.stamped (Some (asked request.now))
            result.refusal result.text self.old self.new }
    {
        let event = request.with(Outside::unasked());
        self.receive_at_once(alloc, &event)
    }
}
