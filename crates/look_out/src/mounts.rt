//! Where a path's file system is mounted, and whether it is of a kind that may hang. The system lists all mounts in a
//! text, and asks no file system for it. A link in the path may cheat.

use std::alloc::{AllocError, Global};
use std::fs;
use std::fs::Files;

const MOUNTS: &str = "/proc/self/mountinfo";

/// File systems of a disk or of the memory: these do not hang. The kinds of all others may.
const STEADY: &[&str] = &[
    "bcachefs",
    "bpf",
    "btrfs",
    "cgroup",
    "cgroup2",
    "configfs",
    "debugfs",
    "devpts",
    "devtmpfs",
    "erofs",
    "exfat",
    "ext2",
    "ext3",
    "ext4",
    "f2fs",
    "hugetlbfs",
    "iso9660",
    "jfs",
    "mqueue",
    "ntfs3",
    "overlay",
    "proc",
    "pstore",
    "ramfs",
    "rootfs",
    "securityfs",
    "squashfs",
    "sysfs",
    "tmpfs",
    "tracefs",
    "udf",
    "vfat",
    "xfs",
    "zfs",
];

/// Where a path's file system is mounted, and whether it is of a kind that may hang.
#[derive(Drop)]
pub(crate) struct Mount {
    pub(crate) text: String,
    pub(crate) may_hang: bool,
}

/// Whether the path is this folder, or in it or below it.
pub(crate) fn is_below(path: &str, folder: &str) -> bool {
    match path.strip_prefix(folder) {
        Some(rest) => rest.is_empty() || rest.starts_with('/') || folder.ends_with('/'),
        None => false,
    }
}

/// The mount of the path. An error without memory. A mount without a name if the system lists no mounts, or the path
/// does not begin with a slash.
pub(crate) fn mount_of<R: AllocGlobal + Files>(
    rt: &R,
    alloc: Global,
    path: &str,
) -> Result<Mount, AllocError> {
    match fs::read_to_string(rt, MOUNTS) {
        Ok(mounts) => {
            let mount = mount_among(alloc, mounts.as_str(), path);
            drop(mounts);
            mount
        }
        Err(_) => Ok(Mount {
            text: String::new(alloc),
            may_hang: false,
        }),
    }
}

// The longest mount point that begins the path counts, and of equal ones the last.
fn mount_among(alloc: Global, mounts: &str, path: &str) -> Result<Mount, AllocError> {
    let mut best = String::new(alloc);
    let mut may_hang = false;
    let mut point = String::new(alloc);
    for line in mounts.lines() {
        if let Some((told, kind)) = mount_in(line) {
            point.clear();
            put_plain(&mut point, told)?;
            if is_below(path, point.as_str()) && point.len() >= best.len() {
                best.clear();
                best.push_str(point.as_str())?;
                may_hang = !STEADY.contains(&kind);
            }
        }
    }
    Ok(Mount {
        text: best,
        may_hang,
    })
}

// The fifth field is the mount point, and the kind comes after the lone stroke (proc(5)).
fn mount_in(line: &str) -> Option<(&str, &str)> {
    let (head, tail) = line.split_once(" - ")?;
    let point = head.split(' ').nth(4)?;
    let kind = tail.split(' ').next()?;
    Some((point, kind))
}

// A space, a tab, a newline and a backslash are written as a backslash and three octal digits.
fn put_plain(point: &mut String, told: &str) -> Result<(), AllocError> {
    let mut rest = told;
    for _ in 0..told.len() {
        let Some((before, behind)) = rest.split_once('\\') else {
            break;
        };
        point.push_str(before)?;
        let (letter, left) = letter_in(behind);
        point.push_str(letter)?;
        rest = left;
    }
    point.push_str(rest)
}

fn letter_in(behind: &str) -> (&str, &str) {
    for (digits, letter) in [("040", " "), ("011", "\t"), ("012", "\n"), ("134", "\\")] {
        if let Some(left) = behind.strip_prefix(digits) {
            return (letter, left);
        }
    }
    ("\\", behind)
}
