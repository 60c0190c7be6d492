//! A place that hung: the file system as a whole if it is of a kind that may hang, and else the path alone.

use crate::mounts::{Mount, is_below};

#[derive(Drop)]
pub(crate) struct HungPlace {
    pub(crate) mount: Mount,
    // The path that the way had come to, without a link in the part that it had followed; and the text that was asked
    // about.
    pub(crate) path: String,
    pub(crate) asked: String,
    // The helper that was killed there, and whether it checked a path, and opened nothing.
    pub(crate) number: u64,
    pub(crate) is_look: bool,
    // From this `up` on it is asked again.
    pub(crate) again: u64,
    // How many milliseconds the next start there waits.
    pub(crate) patience: u64,
}

impl HungPlace {
    /// Whether the path is there, or is the text that was asked about and led there.
    pub(crate) fn covers(&self, path: &str) -> bool {
        path == self.asked.as_str() || self.holds(path)
    }

    /// Whether the path is there.
    pub(crate) fn holds(&self, path: &str) -> bool {
        if self.mount.may_hang {
            is_below(path, self.mount.text.as_str())
        } else {
            path == self.path.as_str()
        }
    }

    /// Whether it is the other place too.
    pub(crate) fn is_same(&self, other: &HungPlace) -> bool {
        if self.mount.may_hang {
            other.mount.may_hang && self.mount.text.as_str() == other.mount.text.as_str()
        } else {
            !other.mount.may_hang && self.path.as_str() == other.path.as_str()
        }
    }
}
