//! One kind of file for a database, of the system or a copy in memory. So the program has SQLite once, not once for each of the two.

ghost use Rattle.startup.specs.Medium.{told, Says, of_each};

use sqlite_disk::{Disk, Tally};
use std::io;

/// A database's file, or its log: a file of the system, or a copy of one in memory.
#[derive(Drop)]
pub(crate) enum Medium<F: Disk, C: Disk> {
    /// A file of the system.
    Plain(F),
    /// A copy in memory.
    Copied(C),
}

impl<F: Disk, C: Disk> Disk for Medium<F, C> {
    ghost seen = { told F.Disk.seen C.Disk.seen };

    ghost may_leave = { λ medium left. Says (λ file. F.Disk.may_leave file left)
        (λ copy. C.Disk.may_leave copy left) medium };

    ghost is_usable = { told F.Disk.is_usable C.Disk.is_usable };

    ghost faults = { told F.Disk.faults C.Disk.faults };

    ghost tally_of = { told F.Disk.tally_of C.Disk.tally_of };

    ghost is_clean = { told F.Disk.is_clean C.Disk.is_clean };

    ghost key_of = { told F.Disk.key_of C.Disk.key_of };

    ghost is_fair = { told F.Disk.is_fair C.Disk.is_fair };

    ghost is_frozen = { told F.Disk.is_frozen C.Disk.is_frozen };

    ghost is_rotten = { told F.Disk.is_rotten C.Disk.is_rotten };

    ghost is_mixing = { told F.Disk.is_mixing C.Disk.is_mixing };

    ghost seen_may_stay = { of_each _ F.Disk.seen_may_stay C.Disk.seen_may_stay };

    ghost fair_if_clean = { of_each _ F.Disk.fair_if_clean C.Disk.fair_if_clean };

    fn mixes(&self) -> bool {
        match self {
            Medium::Plain(file) => file.mixes(),
            Medium::Copied(copy) => copy.mixes(),
        }
    }

    fn key(&self) -> u64 {
        match self {
            Medium::Plain(file) => file.key(),
            Medium::Copied(copy) => copy.key(),
        }
    }

    fn tally(&self) -> Tally {
        match self {
            Medium::Plain(file) => file.tally(),
            Medium::Copied(copy) => copy.tally(),
        }
    }

    fn may_be_used(&self) -> bool {
        match self {
            Medium::Plain(file) => file.may_be_used(),
            Medium::Copied(copy) => copy.may_be_used(),
        }
    }

    fn len(&mut self) -> io::Result<usize> {
        match self {
            Medium::Plain(file) => file.len(),
            Medium::Copied(copy) => copy.len(),
        }
    }

    fn read_at(&mut self, at: usize, buf: &mut [u8]) -> io::Result<()> {
        match self {
            Medium::Plain(file) => file.read_at(at, buf),
            Medium::Copied(copy) => copy.read_at(at, buf),
        }
    }

    fn read_checked(&mut self, key: u64, want: u64, at: usize, buf: &mut [u8]) -> io::Result<()> {
        match self {
            Medium::Plain(file) => file.read_checked(key, want, at, buf),
            Medium::Copied(copy) => copy.read_checked(key, want, at, buf),
        }
    }

    fn write_at(&mut self, at: usize, bytes: &[u8]) -> io::Result<()> {
        match self {
            Medium::Plain(file) => file.write_at(at, bytes),
            Medium::Copied(copy) => copy.write_at(at, bytes),
        }
    }

    fn set_len(&mut self, len: usize) -> io::Result<()> {
        match self {
            Medium::Plain(file) => file.set_len(len),
            Medium::Copied(copy) => copy.set_len(len),
        }
    }

    fn sync(&mut self) -> io::Result<()> {
        match self {
            Medium::Plain(file) => file.sync(),
            Medium::Copied(copy) => copy.sync(),
        }
    }
}
