//! What is known of labels besides their jobs: since when they are disabled, and their last refused load.

ghost use Rattle.std.specs.Prelude.{◌≡◌};
ghost use Rattle.scope.specs.Joined.{setting_kept};

use crate::journal::job::JobRequest;
use crate::journal::past::MOST_LABELS;
use history_model::{Reading, Refusal};
use std::alloc::{AllocError, Global};
use std::collections::BTreeMap;

/// By what a label is disabled.
#[derive(Clone, Copy)]
pub(crate) enum DisabledBy {
    /// By a setting that the journal begins with.
    Header,
    /// A client disabled it by this request, at this clock reading.
    Client(JobRequest, Reading),
}

/// What is known of a label.
#[derive(Clone, Copy)]
pub(crate) struct KnownLabel {
    /// By what it is disabled, if it is.
    pub(crate) disabled: Option<DisabledBy>,
    /// Why its last load was refused, and when, if it was.
    pub(crate) refused: Option<(Refusal, Reading)>,
    /// Whether that load had the text of the definition that was loaded then.
    pub(crate) is_same: bool,
}

impl KnownLabel {
    /// When a client disabled it, if that is known.
    pub(crate) fn since(&self) -> Option<Reading> {
        match self.disabled {
            Some(DisabledBy::Client(_, at)) => Some(at),
            Some(DisabledBy::Header) | None => None,
        }
    }
}

const NOTHING: KnownLabel = KnownLabel {
    disabled: None,
    refused: None,
    is_same: false,
};

// By what a label is disabled after a request that disables it by `by`, or enables it. A label that is disabled stays so by the first request.
fn setting_kept(before: Option<DisabledBy>, by: Option<DisabledBy>) -> Option<DisabledBy>
    ensures { result ≡ setting_kept before by }
{
    match (before, by) {
        (Some(first), Some(_)) => Some(first),
        (_, by) => by,
    }
}

// By what a label is disabled, if it was disabled by `before` at the end of an earlier launcher.
fn disabled_by(now: Option<DisabledBy>, before: Option<DisabledBy>) -> Option<DisabledBy> {
    match now {
        Some(DisabledBy::Header) => before.or(now),
        now => now,
    }
}

/// The labels of which something is known, at most `MOST_LABELS`. Beyond that, each new one takes the place of the first.
#[derive(Drop)]
pub(crate) struct KnownLabels {
    pub(crate) items: BTreeMap<String, KnownLabel>,
}

impl KnownLabels {
    pub(crate) fn new(alloc: Global) -> KnownLabels {
        KnownLabels {
            items: BTreeMap::new(alloc),
        }
    }

    /// What is known of the label.
    pub(crate) fn of(&self, label: &str) -> KnownLabel {
        match self.items.get(label) {
            Some(known) => *known,
            None => NOTHING,
        }
    }

    /// The label is disabled by this, if it is not disabled yet; or enabled by None.
    pub(crate) fn set(
        &mut self,
        alloc: Global,
        label: &str,
        disabled: Option<DisabledBy>,
    ) -> Result<(), AllocError> {
        let mut known = self.of(label);
        known.disabled = setting_kept(known.disabled, disabled);
        self.keep(alloc, label, known)
    }

    /// The label's last load was refused so, or accepted by None. `is_same`: it had the text of the definition that is loaded.
    pub(crate) fn load(
        &mut self,
        alloc: Global,
        label: &str,
        refused: Option<(Refusal, Reading)>,
        is_same: bool,
    ) -> Result<(), AllocError> {
        let mut known = self.of(label);
        known.refused = refused;
        known.is_same = is_same;
        self.keep(alloc, label, known)
    }

    /// Goes on from what was known of an earlier launcher: by what a label was disabled that this one found disabled.
    pub(crate) fn follow(&mut self, before: &KnownLabels) {
        for (label, known) in &mut self.items {
            known.disabled = disabled_by(known.disabled, before.of(label.as_str()).disabled);
        }
    }

    fn keep(&mut self, alloc: Global, label: &str, known: KnownLabel) -> Result<(), AllocError> {
        drop(self.items.remove(label));
        if known.disabled.is_none() && known.refused.is_none() {
            return Ok(());
        }
        self.make_room(alloc)?;
        let label = String::from_str(alloc, label)?;
        match self.items.insert(label, known) {
            Ok(_) => Ok(()),
            Err(refused) => {
                drop(refused);
                Err(AllocError)
            }
        }
    }

    fn make_room(&mut self, alloc: Global) -> Result<(), AllocError> {
        if self.items.len() < MOST_LABELS {
            return Ok(());
        }
        let first = match self.first() {
            Some(first) => String::from_str(alloc, first)?,
            None => return Ok(()),
        };
        drop(self.items.remove(first.as_str()));
        drop(first);
        Ok(())
    }

    fn first(&self) -> Option<&str> {
        for (label, _) in &self.items {
            return Some(label.as_str());
        }
        None
    }
}
