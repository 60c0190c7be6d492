//! The making of a live loop where memory is short. What drops a launcher is proved for its whole type, so all but its making is generic over it.

use crate::edges::places::new_folder;
use crate::little_memory::memory_hog::MemoryHog;
use crate::little_memory::trial::{Answer, Trial, tried};
use crate::memory_stage::{MemoryStore, Sink};
use crate::rounds::refusals::launcher_over;
use anyhow::{Result, bail};
use child_edge::OsEdge;
use control_socket::ControlSocket;
use jobd::RoundLauncher;
use live_loop::{Live, LoopHost, ServeFault, System};
use std::alloc::Global;
use std::{fs, mem};

/// Makes launchers, and the control sockets that they are asked over.
trait Makes<H> {
    fn given(&self) -> Option<(H, ControlSocket)>;
}

/// Where the loop's control socket is, and the spool of its launcher.
#[derive(Clone, Copy)]
struct Folder<'r, 'p> {
    rt: &'r HostRuntime,
    path: &'p str,
}

impl Makes<RoundLauncher<MemoryStore, OsEdge<HostRuntime>, Sink>> for Folder<'_, '_> {
    fn given(
        &self,
    ) -> Option<
        (
            RoundLauncher<MemoryStore, OsEdge<HostRuntime>, Sink>,
            ControlSocket,
        ),
    > {
        let path = self.path;
        let socket = format!(in self.rt.alloc(); "{path}/socket").ok()?;
        let own = self.rt.clone().ok()?;
        let control = ControlSocket::open(self.rt, self.rt.alloc(), socket.as_str()).ok()?;
        match launcher_over(own, path) {
            Some(host) => Some((RoundLauncher::new(host, 0), control)),
            None => {
                drop(control);
                None
            }
        }
    }
}

/// The call, and what it takes.
#[derive(Drop)]
struct Looping<'a, R, H, M> {
    rt: &'a R,
    maker: M,
    given: Option<(H, ControlSocket)>,
}

impl<R: System, H: LoopHost + Drop, M: Makes<H>> Trial for Looping<'_, R, H, M> {
    fn prepare(&mut self, _alloc: Global) -> bool {
        drop(mem::replace(&mut self.given, None));
        let given = self.maker.given();
        drop(mem::replace(&mut self.given, given));
        self.given.is_some()
    }

    // Want of memory in a call of the system is reported as a failed poll.
    fn call(&mut self, alloc: Global) -> Answer {
        match self.given.take() {
            Some((host, control)) => match Live::new(self.rt, alloc, host, control) {
                Ok(live) => {
                    drop(live);
                    Answer::Made
                }
                Err(ServeFault::NoMemory) => Answer::NoMemory,
                Err(ServeFault::Poll) => Answer::NoMemory,
            },
            None => Answer::Other,
        }
    }

    // What the call took is released: the socket's lock can be taken again.
    fn is_right(&mut self, alloc: Global, _answer: Answer) -> bool {
        let is_prepared = self.prepare(alloc);
        is_prepared && self.call(alloc) == Answer::Made
    }
}

fn try_with<R: System, H: LoopHost + Drop, M: Makes<H> + Drop>(
    own: &HostRuntime,
    rt: &R,
    memory_hog: &mut MemoryHog,
    maker: M,
) -> Result<()> {
    let trial = Looping {
        rt,
        maker,
        given: None,
    };
    tried(own, memory_hog, "Live::new", trial)
}

/// Tries the call in a folder of its own.
pub fn try_making(rt: &HostRuntime, memory_hog: &mut MemoryHog) -> Result<()> {
    let Some(folder) = new_folder(rt, "looping") else {
        bail!("the folder of the loop was refused");
    };
    let path = folder.as_str();
    let done = try_with(rt, rt, memory_hog, Folder { rt, path });
    if fs::remove_dir_all(rt, path).is_err() {
        bail!("the folder of the loop stays");
    }
    done
}
