//! The loads that were refused since a socket could not be bound: of which label, when and why.

use crate::status::BindStatus;
use history_model::{Reading, Text};
use std::alloc::{AllocError, Global};

/// Of how many labels they are kept.
pub const MOST_BINDS: usize = 64;

#[derive(Drop)]
struct RefusedBind {
    label: Text,
    // What could not be done, with the system's reason.
    reason: Text,
    at: Reading,
}

/// The last such load of each label, the oldest first, of 64 labels at most.
#[derive(Drop)]
pub struct RefusedBinds {
    alloc: Global,
    items: Vec<RefusedBind>,
}

impl RefusedBinds {
    /// No load was refused yet.
    pub fn new(alloc: Global) -> RefusedBinds {
        RefusedBinds {
            alloc,
            items: Vec::new(alloc),
        }
    }

    /// A load of this label was refused for this reason. If 64 labels are kept, the one that was refused first goes. Want of memory leaves it out.
    pub fn note(&mut self, label: &str, reason: &str, at: Reading) {
        self.forget(label);
        if self.items.len() >= MOST_BINDS {
            drop(self.items.remove(0));
        }
        if let Ok(bind) = refused_bind(self.alloc, label, reason, at) {
            match self.items.push(bind) {
                Ok(()) => {}
                Err(_) => {}
            }
        }
    }

    /// A load of this label was accepted.
    pub fn forget(&mut self, label: &str) {
        self.items.retain(|bind| bind.label.as_str() != label);
    }

    /// All of them, the oldest first. Want of memory leaves the later ones out.
    pub fn list(&self) -> Vec<BindStatus<'_>> {
        let mut binds = Vec::new(self.alloc);
        for bind in &self.items {
            let seen = BindStatus {
                label: bind.label.as_str(),
                reason: bind.reason.as_str(),
                at: bind.at,
            };
            if binds.push(seen).is_err() {
                return binds;
            }
        }
        binds
    }
}

fn refused_bind(
    alloc: Global,
    label: &str,
    reason: &str,
    at: Reading,
) -> Result<RefusedBind, AllocError> {
    let label = Text::copy_of(alloc, label)?;
    match Text::copy_of(alloc, reason) {
        Ok(reason) => Ok(RefusedBind { label, reason, at }),
        Err(error) => {
            drop(label);
            Err(error)
        }
    }
}
