//! The clients of jobs' sockets, from their coming to the end of their request. Then the edge of the system has them.

ghost use Rattle.std.specs.Prelude.{◌≡◌, IfOk};
ghost use Rattle.job_clients.specs.Callers.{MayComeIn, coming_in};
ghost use Rattle.live_loop.specs.Kept.{desk_in};
ghost use Rattle.live_loop.specs.Rounds.{Asks, Gathers, IsNew, Disconnects, MayGrow, Welcomes};

use crate::label_room::LabelRoom;
use crate::loop_host::{Delivered, LoopHost};
use child_edge::Client;
use control_socket::Limit;
use history_model::{JobNo, MAX_JOBS};
use job_clients::{CALLERS, CallerPlace, Callers, DropNotices, Gathered, Loss, Origin};
use mio::{Registry, Token};
use std::alloc::{AllocError, Global};

/// Under this token clients that come wake the poll.
const COMING: Token = Token(1);

/// How many clients of a job are taken in a pass of the loop.
const TAKEN: usize = 128;

/// The clients whose request still comes, and the number of the next whole one. The numbers rise through all loads of all
/// jobs, so none is used twice.
#[derive(Drop)]
pub(crate) struct JobSockets {
    pub(crate) callers: Callers,
    pub(crate) drop_notices: DropNotices,
    conn: u64,
    // How many clients there was room for when the sockets were tried last.
    pub(crate) room: usize,
    // Clients may have come since all sockets were tried: the next pass of the loop tries them.
    pub(crate) may_have_come: bool,
    // The next pass of the loop tries the sockets of this job first, or of the next above it.
    first_job: JobNo,
    // The next pass of the loop reads from the client of this key first, or the next above it.
    first_key: usize,
    // A client or some bytes came in this pass of the loop.
    pub(crate) is_stirred: bool,
    // A request came whole in this pass of the loop.
    pub(crate) is_whole: bool,
}

impl JobSockets {
    pub(crate) fn new(alloc: Global) -> Result<JobSockets, AllocError>
        ensures { IfOk result (λ sockets. IsNew (desk_in sockets)) }
    {
        let callers = Callers::new(alloc)?;
        Ok(JobSockets {
            callers,
            drop_notices: DropNotices::new(alloc),
            conn: 1,
            room: CALLERS,
            may_have_come: true,
            first_job: 0,
            first_key: 0,
            is_stirred: false,
            is_whole: false,
        })
    }

    /// The poll was woken under this token.
    pub(crate) fn wake_by(&mut self, token: Token)
        ensures { desk_in self.new ≡ desk_in self.old }
    {
        if token == COMING {
            self.may_have_come = true;
        } else {
            self.callers.wake(token);
        }
    }

    /// Takes the clients that wait at the sockets, if some may have come. The room for clients is what the sockets that
    /// jobs have now leave. That is how many are heard at a time, and a third of them, at most 64, of one job. Where no
    /// time is left, the clients of the other jobs are left for the next pass of the loop.
    pub(crate) fn accept<H: LoopHost, L: Limit>(
        &mut self,
        registry: &Registry,
        host: &mut H,
        time: &mut L,
    )
        ensures gathers { Gathers H.Asked H.Taken H.Came (desk_in self.old) host.old (desk_in self.new) host.new }
        ensures conn { self.new.conn ≡ self.old.conn }
    {
        let room = host.room();
        self.room = room;
        self.callers.set_room(room);
        // Sockets that the poll refuses are tried in each pass of the loop.
        let is_registered = host.register(registry, COMING);
        self.may_have_come = self.may_have_come | !is_registered;
        if !self.may_have_come {
            return;
        }
        self.begin_pass();
        // A pass of the loop that does not begin with the first job is followed by one that does.
        self.may_have_come = self.first_job > 0;
        let mut next = self.first_job;
        self.first_job = 0;
        for _ in 0..MAX_JOBS {
            let Some(origin) = host.listener_from(next) else {
                return;
            };
            next = origin.job.saturating_add(1);
            if self.accept_for(registry, host, origin) && !time.has_time() {
                self.first_job = next;
                self.may_have_come = true;
                return;
            }
        }
    }

    // A pass over all sockets begins with the first job.
    fn begin_pass(&mut self)
        ensures desk { desk_in self.new ≡ desk_in self.old }
        ensures conn { self.new.conn ≡ self.old.conn }
    {
        if self.first_job == 0 {
            self.callers.begin_pass();
        }
    }

    // Whether a client with this place is left for a later pass: it has none yet, or one of the job's came that was not
    // read.
    fn is_put_off(&self, place: CallerPlace, bind: u64) -> bool {
        match place {
            CallerPlace::Free => false,
            CallerPlace::Nowhere | CallerPlace::Next | CallerPlace::Later => true,
            CallerPlace::Of(_) => self.callers.has_new(bind),
        }
    }

    // Takes the clients of one job. Some are left for the next pass of the loop: if they are many, or if there is no
    // room for all before the first are read. Clients that have to wait for a place are left too, and the system holds
    // them. It says whether one came, or may wait.
    fn accept_for<H: LoopHost>(&mut self, registry: &Registry, host: &mut H, origin: Origin) -> bool
        ensures gathers { Gathers H.Asked H.Taken H.Came (desk_in self.old) host.old (desk_in self.new) host.new }
        ensures conn { self.new.conn ≡ self.old.conn }
    {
        for count in 0..TAKEN {
            let place = self.callers.place(origin.bind, host.up());
            if self.is_put_off(place, origin.bind) {
                break;
            }
            let Some(client) = host.accept(origin.job) else {
                return count > 0;
            };
            self.is_stirred = true;
            self.welcome(registry, host, origin, client, place);
        }
        self.may_have_come = true;
        true
    }

    // Why the client of the key is disconnected for another one.
    fn loss_of(&self, key: usize) -> Loss {
        if self.callers.is_waiting(key) {
            Loss::Outwaited
        } else {
            Loss::Displaced
        }
    }

    fn welcome<H: LoopHost>(
        &mut self,
        registry: &Registry,
        host: &mut H,
        origin: Origin,
        client: Client,
        place: CallerPlace,
    )
        ensures asks { Asks H.Asked host.old host.new }
        ensures conn { self.new.conn ≡ self.old.conn }
        ensures welcomes { Welcomes origin (coming_in self.old.callers) (coming_in self.new.callers) }
    {
        match place {
            CallerPlace::Free => self.admit(registry, host, origin, client),
            CallerPlace::Of(key) => {
                let loss = self.loss_of(key);
                self.disconnect(host, key, Some(loss));
                self.admit(registry, host, origin, client);
            }
            CallerPlace::Nowhere | CallerPlace::Next | CallerPlace::Later => {
                drop(client);
                self.tell(host, origin, Loss::Crowded);
            }
        }
    }

    // Takes a client in, for which there is a place.
    fn admit<H: LoopHost>(
        &mut self,
        registry: &Registry,
        host: &mut H,
        origin: Origin,
        client: Client,
    )
        ensures asks { Asks H.Asked host.old host.new }
        ensures conn { self.new.conn ≡ self.old.conn }
        ensures comes { MayComeIn origin (coming_in self.old.callers) (coming_in self.new.callers) }
    {
        let up = host.up();
        match self.callers.welcome(registry, origin, client, up) {
            Ok(()) => {}
            Err(loss) => self.tell(host, origin, loss),
        }
    }

    fn disconnect<H: LoopHost>(&mut self, host: &mut H, key: usize, loss: Option<Loss>)
        ensures asks { Asks H.Asked host.old host.new }
        ensures conn { self.new.conn ≡ self.old.conn }
        ensures gone { Disconnects (coming_in self.old.callers) (coming_in self.new.callers) }
    {
        let Some(caller) = self.callers.remove(key) else {
            return;
        };
        let origin = caller.origin;
        drop(caller);
        match loss {
            Some(loss) => self.tell(host, origin, loss),
            None => {}
        }
    }

    // A loss is logged of a job that has its sockets still.
    fn tell<H: LoopHost>(&mut self, host: &mut H, origin: Origin, loss: Loss)
        ensures asks { Asks H.Asked host.old host.new }
        ensures conn { self.new.conn ≡ self.old.conn }
        ensures callers { self.new.callers ≡ self.old.callers }
    {
        if host.listens_at(origin) {
            let up = host.up();
            self.drop_notices
                .note(origin, host.label(origin.job), loss, up);
        }
    }

    /// Takes what the clients have sent, and delivers those whose request is whole, as far as there are places. Where
    /// no time is left the other clients are left for the next pass. It says whether one may go on at once.
    pub(crate) fn gather<H: LoopHost, L: Limit>(
        &mut self,
        alloc: Global,
        host: &mut H,
        label: &mut LabelRoom,
        time: &mut L,
    ) -> bool
        ensures { Gathers H.Asked H.Taken H.Came (desk_in self.old) host.old (desk_in self.new) host.new }
    {
        if self.callers.is_empty() {
            return false;
        }
        let is_busy = self.receive_all(host, time);
        let is_late = self.deliver_line(alloc, host, label, time);
        is_busy | is_late
    }

    // Takes what the clients have sent. It says whether one may go on at once.
    fn receive_all<H: LoopHost, L: Limit>(&mut self, host: &mut H, time: &mut L) -> bool
        ensures { Gathers H.Asked H.Taken H.Came (desk_in self.old) host.old (desk_in self.new) host.new }
    {
        let first = self.first_key;
        let mut is_busy = false;
        for step in 0..CALLERS {
            let key = first.wrapping_add(step) % CALLERS;
            let what = self.gathered(host, key);
            if matches!(what, Gathered::Waits) {
                continue;
            }
            let goes_on = self.settle(host, key, what);
            is_busy = is_busy | goes_on;
            if !time.has_time() {
                self.first_key = key.wrapping_add(1) % CALLERS;
                return true;
            }
        }
        is_busy
    }

    // Has a client wait for its turn whose request is whole, and closes one that is lost. It says whether it may go on
    // at once.
    fn settle<H: LoopHost>(&mut self, host: &mut H, key: usize, gathered: Gathered) -> bool
        ensures { Gathers H.Asked H.Taken H.Came (desk_in self.old) host.old (desk_in self.new) host.new }
    {
        match gathered {
            Gathered::Waits => false,
            Gathered::MayGoOn => true,
            Gathered::Whole => {
                self.callers.line_up(key, host.up());
                false
            }
            Gathered::Lost(loss) => {
                self.disconnect(host, key, loss);
                false
            }
        }
    }

    // Delivers those whose request is whole, in the order in which the requests became whole, but those for whose job
    // there is no place. Where no time is left, the others are left for the next pass. True then.
    fn deliver_line<H: LoopHost, L: Limit>(
        &mut self,
        alloc: Global,
        host: &mut H,
        label: &mut LabelRoom,
        time: &mut L,
    ) -> bool
        ensures { Gathers H.Asked H.Taken H.Came (desk_in self.old) host.old (desk_in self.new) host.new }
    {
        let mut last = 0;
        for _ in 0..CALLERS {
            let Some((turn, key)) = self.callers.next_in_line(last) else {
                return false;
            };
            last = turn;
            if self.deliver_if_placed(alloc, host, label, key) && !time.has_time() {
                return true;
            }
        }
        false
    }

    // Delivers a client whose request is whole, unless it has to wait for a place. It says whether it did.
    fn deliver_if_placed<H: LoopHost>(
        &mut self,
        alloc: Global,
        host: &mut H,
        label: &mut LabelRoom,
        key: usize,
    ) -> bool
        ensures { Gathers H.Asked H.Taken H.Came (desk_in self.old) host.old (desk_in self.new) host.new }
    {
        let Some(origin) = self.callers.origin_of(key) else {
            return false;
        };
        if host.must_wait(origin.job) {
            return false;
        }
        self.deliver(alloc, host, label, key);
        true
    }

    // What became of one client. One that came to sockets which were given up since is disconnected, also if the number
    // has new ones.
    fn gathered<H: LoopHost>(&mut self, host: &mut H, key: usize) -> Gathered
        ensures asks { Asks H.Asked host.old host.new }
        ensures conn { self.new.conn ≡ self.old.conn }
        ensures grows { MayGrow (coming_in self.old.callers) (coming_in self.new.callers) }
    {
        let Some(origin) = self.callers.origin_of(key) else {
            return Gathered::Waits;
        };
        if !host.listens_at(origin) {
            return Gathered::Lost(None);
        }
        let up = host.up();
        let gathered = self.callers.gather(key, up);
        self.is_stirred = self.is_stirred | self.callers.was_received_at(key, up);
        gathered
    }

    // Delivers a client, under its number. It logs why a client is closed that the launcher refused. If there were no
    // further number, the client would be disconnected.
    fn deliver<H: LoopHost>(
        &mut self,
        alloc: Global,
        host: &mut H,
        label: &mut LabelRoom,
        key: usize,
    )
        ensures { Gathers H.Asked H.Taken H.Came (desk_in self.old) host.old (desk_in self.new) host.new }
    {
        let conn = self.conn;
        let Some(next) = conn.checked_add(1) else {
            self.disconnect(host, key, None);
            return;
        };
        let Some(caller) = self.callers.remove(key) else {
            return;
        };
        let origin = caller.origin;
        self.is_whole = true;
        self.conn = next;
        match host.deliver(alloc, label, conn, caller) {
            Delivered::Dropped => {}
            Delivered::Received => self.drop_notices.came_through(origin.job, host.up()),
            Delivered::Refused(refusal) => match Loss::of_refusal(refusal) {
                Some(loss) => self.tell(host, origin, loss),
                None => {}
            },
        }
    }
}
