//! One connection of a job's socket, from the end of its request to the end of its reply.

ghost use Rattle.std.specs.Prelude.{◌≡◌, ◌≤◌, ◌-◌, ◌/◌, drop, false, length, true, []};
ghost use Rattle.socket_demand.specs.declared.exchange.TheConstants.{MAX_UNSENT};
ghost use Rattle.std.specs.Time.{instant_nanos};
ghost use Rattle.child_edge.specs.Replies.{Ends, Forwards, ForwardsIf, IsOpen, Rests, SendsPiece, WaitsIf, WaitsOrLost};
ghost use Rattle.child_edge.specs.Places.{IsSpent};

use crate::Client;
use crate::notices::Disconnection;
use crate::spool::Spooled;
use history_model::Text;
use socket_demand::{Exchange, MAX_UNSENT};
use std::fs::File;
use std::io;
use std::io::{ErrorKind, Read, Write};
use std::time::Instant;

/// What is still to be done for a connection.
#[derive(Clone, Copy)]
pub(crate) enum Progress {
    /// The run, or the client, has to go on first.
    Waits,
    /// There may be more to send at once.
    MayGoOn,
    /// All was sent.
    Ended,
    /// The client can't be sent the rest.
    Lost(Disconnection),
}

/// How many pieces of a reply are sent at a time, each of them as long as what of a reply may wait.
const PIECES: u32 = 16;

/// After how many seconds a client is disconnected that takes nothing of its reply.
const STILL: u64 = 60;

/// After how many seconds a client that takes nothing of the reply of a run which is over may be disconnected for a
/// further one.
const PATIENCE: u64 = 5;

/// The first and the last write of which the client took nothing, with none between them of which it took something.
#[derive(Clone, Copy)]
pub(crate) struct Refused {
    pub(crate) first: Instant,
    pub(crate) last: Instant,
}

/// A client, with the file to which its run writes the reply. The sending is over any client and any reply.
pub(crate) struct Connection<C = Client, F = File> {
    pub(crate) client: C,
    pub(crate) exchange: Exchange,
    pub(crate) files: Spooled,
    pub(crate) reply: F,
    // Its job's label, if it was known and there was memory for it.
    pub(crate) label: Option<Text>,
    // The run that it was served by has exited.
    pub(crate) is_over: bool,
    // What the client took nothing of, since it took something last.
    pub(crate) refused: Option<Refused>,
}

// for the proof: who drops it calls this, in place of dropping each part
impl<C: Drop, F: Drop> Drop for Connection<C, F> {
    fn drop(self) {
        let Connection {
            client: _,
            exchange: _,
            files: _,
            reply: _,
            label: _,
            is_over: _,
            refused: _,
        } = self;
    }
}

impl Refused {
    // For how many seconds it took nothing of what it was offered.
    fn seconds(&self) -> u64
        ensures { result ≡ (instant_nanos self.now.last - instant_nanos self.now.first) / 1_000_000_000 }
    {
        self.last.saturating_duration_since(self.first).as_secs()
    }
}

impl<C, F> Connection<C, F> {
    /// Whether the run that it was served by is over, and the client was offered the reply for 5 seconds and took
    /// nothing of it. No other client may be disconnected for a further one.
    pub(crate) fn is_spent(&self) -> bool
        ensures { result ≡ true → IsSpent self.now }
    {
        match self.refused {
            Some(refused) => self.is_over && refused.seconds() >= PATIENCE,
            None => false,
        }
    }

    /// Since when its client takes nothing, if it is spent.
    pub(crate) fn spent_since(&self) -> Option<Instant> {
        match self.refused {
            Some(refused) if self.is_spent() => Some(refused.first),
            _ => None,
        }
    }
}

impl<C: Write, F: Read> Connection<C, F> {
    pub(crate) fn label(&self) -> Option<&str> {
        let label = self.label.as_ref()?;
        Some(label.as_str())
    }

    /// Sends the client what its run has written since, as much as it takes at once.
    pub(crate) fn forward(&mut self, now: Instant) -> Progress
        ensures { IsOpen self.old.exchange →
            Forwards C.contents F.remaining result self.old self.new }
    {
        for _ in 0..PIECES {
            if let Some(progress) = self.send_next(now) {
                return progress;
            }
        }
        Progress::MayGoOn
    }

    // Sends what waits, or else the next piece. None: it may go on.
    fn send_next(&mut self, now: Instant) -> Option<Progress>
        ensures { IsOpen self.old.exchange →
            ForwardsIf C.contents F.remaining result self.old self.new }
    {
        if self.exchange.to_send().is_empty() {
            self.pass_on()
        } else {
            self.send_rest(now)
        }
    }

    // Sends the next piece of the reply, if there is one, and keeps what the client does not take. None: it may go on.
    fn pass_on(&mut self) -> Option<Progress>
        requires { self.old.exchange.unsent ≡ [] }
        ensures { IsOpen self.old.exchange →
            ForwardsIf C.contents F.remaining result self.old self.new }
    {
        let mut piece = [0u8; MAX_UNSENT];
        match self.reply.read(&mut piece) {
            Ok(0) => Some(self.end()),
            Ok(count) => self.send_piece(&piece[..count]),
            Err(error) if error.kind() == ErrorKind::Interrupted => None,
            Err(error) => Some(Progress::Lost(Disconnection::Read(error))),
        }
    }

    fn send_piece(&mut self, piece: &[u8]) -> Option<Progress>
        requires nothing { self.old.exchange.unsent ≡ [] }
        requires short { length piece.now ≤ MAX_UNSENT }
        ensures reply { self.new.reply ≡ self.old.reply }
        ensures sends { IsOpen self.old.exchange →
            SendsPiece C.contents piece.now result self.old self.new }
    {
        match self.client.write(piece) {
            Ok(count) => {
                self.refused = None;
                keep_rest(&mut self.exchange, piece, count);
                None
            }
            Err(error) => self.put_off(piece, error),
        }
    }

    // The client took nothing of the piece, for this reason.
    fn put_off(&mut self, piece: &[u8], error: io::Error) -> Option<Progress>
        requires nothing { self.old.exchange.unsent ≡ [] }
        requires short { length piece.now ≤ MAX_UNSENT }
        ensures reply { self.new.reply ≡ self.old.reply }
        ensures client { self.new.client ≡ self.old.client }
        ensures waits { IsOpen self.old.exchange → WaitsIf result piece.now self.new.exchange }
    {
        match error.kind() {
            ErrorKind::WouldBlock | ErrorKind::Interrupted => {
                keep_rest(&mut self.exchange, piece, 0);
                None
            }
            _ => Some(Progress::Lost(Disconnection::Write(error))),
        }
    }

    // Sends what was kept of the last piece.
    fn send_rest(&mut self, now: Instant) -> Option<Progress>
        ensures { IsOpen self.old.exchange →
            ForwardsIf C.contents F.remaining result self.old self.new }
    {
        match self.client.write(self.exchange.to_send()) {
            Ok(count) => {
                self.refused = None;
                self.exchange.sent(count);
                None
            }
            Err(error) if error.kind() == ErrorKind::WouldBlock => Some(self.wait(now)),
            Err(error) if error.kind() == ErrorKind::Interrupted => None,
            Err(error) => Some(Progress::Lost(Disconnection::Write(error))),
        }
    }

    // The run has written no more yet, or nothing more comes.
    fn end(&mut self) -> Progress
        requires { self.old.exchange.unsent ≡ [] }
        ensures { Ends result self.old self.new }
    {
        if self.is_over {
            self.exchange.reply_end();
        }
        self.rest()
    }

    // There is nothing to send now.
    fn rest(&mut self) -> Progress
        ensures exchange { self.new.exchange ≡ self.old.exchange }
        ensures rests { Rests result self.old.exchange }
        ensures client { self.new.client ≡ self.old.client }
        ensures reply { self.new.reply ≡ self.old.reply }
    {
        if self.exchange.done() {
            return Progress::Ended;
        }
        self.refused = None;
        Progress::Waits
    }

    // The client takes nothing now of what it is offered.
    fn wait(&mut self, now: Instant) -> Progress
        ensures either { WaitsOrLost result }
        ensures exchange { self.new.exchange ≡ self.old.exchange }
        ensures client { self.new.client ≡ self.old.client }
        ensures reply { self.new.reply ≡ self.old.reply }
    {
        let first = match self.refused {
            Some(refused) => refused.first,
            None => now,
        };
        let refused = Refused { first, last: now };
        self.refused = Some(refused);
        if refused.seconds() >= STILL {
            Progress::Lost(Disconnection::Still)
        } else {
            Progress::Waits
        }
    }
}

// `sent` of the piece's bytes were sent, and nothing waited before it: the others wait now, in their order.
fn keep_rest(exchange: &mut Exchange, piece: &[u8], sent: usize)
    ensures { exchange.old.unsent ≡ [] → exchange.old.is_reply_whole ≡ false →
        length piece.now ≤ MAX_UNSENT →
        exchange.new ≡ record exchange.old { unsent = drop sent piece.now } }
{
    if let Some(rest) = piece.get(sent..) {
        let _all = exchange.reply(rest);
    }
}
