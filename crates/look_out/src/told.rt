//! What a helper has learned of places where nothing is asked now.

use crate::mounts::{is_below, mount_of};
use std::alloc::{AllocError, Global};
use std::fs::Files;

#[derive(Drop)]
pub(crate) struct Told {
    alloc: Global,
    mounts: Vec<String>,
    paths: Vec<String>,
    // Nothing is asked on a file system of a kind that may hang.
    is_closed: bool,
}

impl Told {
    pub(crate) fn new(alloc: Global) -> Told {
        Told {
            alloc,
            mounts: Vec::new(alloc),
            paths: Vec::new(alloc),
            is_closed: false,
        }
    }

    /// What was said before holds no longer.
    pub(crate) fn clear(&mut self) {
        self.mounts.clear();
        self.paths.clear();
        self.is_closed = false;
    }

    pub(crate) fn close(&mut self) {
        self.is_closed = true;
    }

    /// Nothing is asked of what is mounted there.
    pub(crate) fn add_mount(&mut self, text: &str) -> Result<(), AllocError> {
        let text = String::from_str(self.alloc, text)?;
        self.mounts.push(text).map_err(AllocError::from)
    }

    /// Nothing is asked about this path.
    pub(crate) fn add_path(&mut self, text: &str) -> Result<(), AllocError> {
        let text = String::from_str(self.alloc, text)?;
        self.paths.push(text).map_err(AllocError::from)
    }

    /// Whether nothing is asked about the path, in which no link is.
    pub(crate) fn is_shut<R: AllocGlobal + Files>(&self, rt: &R, path: &str) -> bool {
        if has(&self.paths, path) {
            return true;
        }
        if !self.is_closed && !self.is_near(path) {
            return false;
        }
        match mount_of(rt, self.alloc, path) {
            Ok(mount) => {
                let is_shut = (self.is_closed && mount.may_hang)
                    || has(&self.mounts, mount.text.as_str());
                drop(mount);
                is_shut
            }
            Err(_) => true,
        }
    }

    // Whether it lies below one of the mount points.
    fn is_near(&self, path: &str) -> bool {
        for mount in self.mounts.iter() {
            if is_below(path, mount.as_str()) {
                return true;
            }
        }
        false
    }
}

fn has(texts: &Vec<String>, text: &str) -> bool {
    for one in texts.iter() {
        if one.as_str() == text {
            return true;
        }
    }
    false
}
