//! The sockets that one job has.

use crate::listener::Listener;
use crate::notices::{Notices, SystemRequest};
use crate::words::Hole::Error;
use history_model::{JobNo, Text};
use mio::{Registry, Token};
use std::io;

/// The sockets of a job, its label, by which bind it has them, and how many of them a poll knows.
#[derive(Drop)]
pub(crate) struct Bound {
    pub(crate) label: Text,
    pub(crate) listeners: Vec<Listener>,
    pub(crate) bind: u64,
    pub(crate) registered: usize,
}

impl Bound {
    /// The call for the job's sockets was refused, as the form says, whose hole is the error.
    pub(crate) fn refused(
        &self,
        notices: &mut Notices,
        job: JobNo,
        asked: SystemRequest,
        form: &str,
        error: io::Error,
    ) {
        let label = Some(self.label.as_str());
        notices.refused(job, asked, label, None, form, &[Error(error)]);
    }

    /// Registers each socket that is not yet, up to the first that is refused, which is logged.
    pub(crate) fn register(
        &mut self,
        notices: &mut Notices,
        registry: &Registry,
        token: Token,
        job: JobNo,
    ) -> io::Result<()> {
        let answer = self.register_all(registry, token);
        match answer {
            Ok(()) => notices.done(job, SystemRequest::Watch),
            Err(error) => {
                let form = "cannot wait for clients: $";
                self.refused(notices, job, SystemRequest::Watch, form, error);
            }
        }
        answer
    }

    fn register_all(&mut self, registry: &Registry, token: Token) -> io::Result<()> {
        for place in self.registered..self.listeners.len() {
            if let Some(listener) = self.listeners.get_mut(place) {
                match listener.register(registry, token) {
                    Ok(()) => self.registered = place.saturating_add(1),
                    Err(error) => return Err(error),
                }
            }
        }
        Ok(())
    }
}
