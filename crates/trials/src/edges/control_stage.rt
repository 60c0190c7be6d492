//! Plays the steps of a test on a socket in the folder for temporary files. Clients go by their numbers, in the order in which they connect,
//! from 0.

use crate::edges::echo::{Budget, Echo};
use crate::edges::places::{Watch, folder_name, is_woken, new_watch};
use control_socket::ControlSocket;
use mio::Token;
use std::alloc::Global;
use std::io::{ErrorKind, Read, Write};
use std::net::Shutdown;
use std::os::unix::net::UnixStream;

/// What is done, and what is expected of it.
pub enum Step {
    /// This many clients connect.
    Connect(usize),
    /// The client sends the text, which is taken whole.
    Sends(usize, &'static str),
    /// The client sends the text this many times, which is taken whole.
    SendsTimes(usize, &'static str, usize),
    /// Each client that is left sends the text, but for the one of this number.
    OthersSend(usize, &'static str),
    /// The client sends this many blocks of 4,096 letters, which are taken whole.
    SendsBlocks(usize, usize),
    /// The client half-closes, and goes on reading.
    HalfCloses(usize),
    /// The client goes away.
    Leaves(usize),
    /// In each further pass there is time for this many lines.
    Time(u32),
    /// The clock goes on by this many milliseconds.
    Later(u64),
    /// This many passes: the clients are served, and then those that wait are taken.
    Rounds(usize),
    /// Those that wait are taken, and no client is served before.
    Accepts,
    /// A pass, and whether it says that the next one may begin at once.
    Busy(bool),
    /// These lines were asked since the last such step, each followed by a newline.
    Asked(&'static str),
    /// The client has got this since the last such step, and no end.
    Receives(usize, &'static str),
    /// The client has got this since the last such step, and then the end.
    ReceivesLast(usize, &'static str),
    /// The client gets the end, whatever comes before it.
    IsDisconnected(usize),
    /// Whether no reply waits to be sent.
    Quiet(bool),
    /// A poll is woken under the socket's token, or is not.
    Woken(bool),
}

/// The socket with its poll, who answers and for how long, and the clients.
#[derive(Drop)]
struct Stage {
    path: String,
    watch: Watch,
    socket: ControlSocket,
    echo: Echo,
    budget: Budget,
    clients: Vec<Option<UnixStream>>,
}

/// Under this token the socket wakes the poll.
const ASKED: Token = Token(3);

/// A stage with no client, whose socket is registered with the poll.
fn new_stage(rt: &HostRuntime, name: &str) -> Option<Stage> {
    let path = folder_name(rt, name)?;
    let watch = new_watch(rt)?;
    let Ok(mut socket) = ControlSocket::open(rt, rt.alloc(), path.as_str()) else {
        drop(watch);
        return None;
    };
    let is_registered = socket.register(watch.poll.registry(), ASKED).is_ok();
    let stage = Stage {
        path,
        watch,
        socket,
        echo: Echo {
            asked: Vec::new(rt.alloc()),
        },
        budget: Budget {
            lines: u32::MAX,
            up: 0,
            left: 0,
        },
        clients: Vec::new(rt.alloc()),
    };
    if is_registered {
        Some(stage)
    } else {
        drop(stage);
        None
    }
}

/// Whether each step goes as it says. None if the socket can't be opened.
pub fn all_go(rt: &HostRuntime, name: &str, steps: &[Step]) -> Option<bool> {
    let mut stage = new_stage(rt, name)?;
    let mut all_go = true;
    for step in steps {
        all_go = all_go && stage.play(rt, step);
    }
    stage.socket.remove(rt);
    drop(stage);
    Some(all_go)
}

impl Stage {
    fn play(&mut self, rt: &HostRuntime, step: &Step) -> bool {
        match *step {
            Step::Connect(count) => self.connect(rt, count).is_some(),
            Step::Sends(number, text) => send(&mut self.clients, number, true, text.as_bytes(), 1),
            Step::SendsTimes(number, text, count) => {
                send(&mut self.clients, number, true, text.as_bytes(), count)
            }
            Step::OthersSend(number, text) => send(
                &mut self.clients,
                number,
                false,
                text.as_bytes(),
                1,
            ),
            Step::SendsBlocks(number, count) => send(
                &mut self.clients,
                number,
                true,
                &[b'n'; 4096],
                count,
            ),
            Step::Receives(number, text) => receives(
                rt.alloc(),
                &mut self.clients,
                number,
                Some(text),
                false,
            ),
            Step::ReceivesLast(number, text) => receives(
                rt.alloc(),
                &mut self.clients,
                number,
                Some(text),
                true,
            ),
            Step::IsDisconnected(number) => receives(
                rt.alloc(),
                &mut self.clients,
                number,
                None,
                true,
            ),
            Step::Rounds(count) => {
                let _is_busy = self.rounds(rt, count);
                true
            }
            Step::Accepts => {
                self.socket.accept(rt, self.watch.poll.registry());
                true
            }
            Step::Busy(is_busy) => self.rounds(rt, 1) == is_busy,
            _ => self.play_plain(step),
        }
    }

    fn play_plain(&mut self, step: &Step) -> bool {
        match *step {
            Step::HalfCloses(number) => match self.clients.get_mut(number) {
                Some(Some(client)) => client.shutdown(Shutdown::Write).is_ok(),
                _ => false,
            },
            Step::Leaves(number) => match self.clients.get_mut(number) {
                Some(client) => client.take().is_some(),
                None => false,
            },
            Step::Time(lines) => {
                self.budget.lines = lines;
                true
            }
            Step::Later(time) => {
                self.budget.up = self.budget.up.saturating_add(time);
                true
            }
            Step::Asked(lines) => {
                let is_same = self.echo.asked.as_slice() == lines.as_bytes();
                self.echo.asked.clear();
                is_same
            }
            Step::Quiet(is_quiet) => self.socket.is_quiet() == is_quiet,
            Step::Woken(wanted) => is_woken(&mut self.watch, ASKED, wanted),
            _ => false,
        }
    }

    // Passes of a loop: whether a client may go on at once after the last.
    fn rounds(&mut self, rt: &HostRuntime, count: usize) -> bool {
        let mut is_busy = false;
        for _ in 0..count {
            is_busy = self
                .socket
                .serve(rt.alloc(), &mut self.echo, &mut self.budget);
            self.socket.accept(rt, self.watch.poll.registry());
        }
        is_busy
    }

    fn connect(&mut self, rt: &HostRuntime, count: usize) -> Option<()> {
        for _ in 0..count {
            let client = UnixStream::connect(rt, self.path.as_str()).ok()?;
            client.set_nonblocking(true).ok()?;
            self.clients.push(Some(client)).ok()?;
        }
        // as the loop does once the poll is woken
        self.socket.wake_by(ASKED);
        Some(())
    }
}

/// Sends the piece this many times, and returns whether all is taken whole.
fn sends(client: &mut UnixStream, piece: &[u8], count: usize) -> bool {
    let mut is_whole = true;
    for _ in 0..count {
        is_whole &= matches!(client.write(piece), Ok(taken) if taken == piece.len());
    }
    is_whole
}

/// The client of the number, or each of the others, sends the piece this many times. It returns whether there is one, and all is taken whole.
fn send(
    clients: &mut [Option<UnixStream>],
    number: usize,
    is_itself: bool,
    piece: &[u8],
    count: usize,
) -> bool {
    let mut is_sent = false;
    let mut is_whole = true;
    for (other, client) in clients.iter_mut().enumerate() {
        if (other == number) == is_itself {
            if let Some(client) = client {
                is_sent = true;
                is_whole &= sends(client, piece, count);
            }
        }
    }
    is_sent && is_whole
}

/// Takes what is there for the client to be read, and returns whether the end came after it. None if that can't be known.
pub fn received(client: &mut UnixStream, received: &mut Vec<u8>) -> Option<bool> {
    let mut piece = [0u8; 4096];
    for _ in 0..1_000u32 {
        match client.read(&mut piece) {
            Ok(0) => return Some(true),
            Ok(count) => received.extend_from_slice(&piece[..count.min(4096)]).ok()?,
            Err(error) if error.kind() == ErrorKind::WouldBlock => return Some(false),
            Err(_) => return None,
        }
    }
    Some(false)
}

/// Whether what is there for the client to be read is this text, and the end came after it or did not.
fn receives(
    alloc: Global,
    clients: &mut [Option<UnixStream>],
    number: usize,
    text: Option<&str>,
    is_last: bool,
) -> bool {
    let Some(Some(client)) = clients.get_mut(number) else {
        return false;
    };
    let mut bytes = Vec::new(alloc);
    let is_end = received(client, &mut bytes);
    let is_text = match text {
        Some(text) => bytes.as_slice() == text.as_bytes(),
        None => true,
    };
    is_text && is_end == Some(is_last)
}
