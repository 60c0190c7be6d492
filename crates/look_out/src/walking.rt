//! The way to a path, link by link. Each path that a link leads to is named to who asked before anything there is
//! checked. So if no answer comes, it is known where it would have to come from.

use crate::inbox::name;
use crate::told::Told;
use std::alloc::{AllocError, Global};
use std::fs::Files;
use std::io::{ErrorKind, Write};
use std::rt::Env;
use std::{env, io};

/// How many links are followed at most, as the system does (path_resolution(7)).
const LINKS: u32 = 40;

/// How many steps a way has at most.
const STEPS: u32 = 8_192;

/// A way: the part that was followed, in which no link is; and what lies before it.
#[derive(Drop)]
struct Way {
    alloc: Global,
    gone: String,
    rest: String,
    links: u32,
}

/// What a step came to.
#[derive(Clone, Copy, PartialEq, Eq)]
enum WalkStep {
    /// It is made.
    Made,
    /// It leads over a link.
    Linked,
    /// There is nothing after it.
    Over,
    /// It leads to where nothing is asked now.
    Shut,
}

/// Whether the path may be asked about: false if the way there leads to where nothing is asked now. The path is named first if it is not the one that
/// was asked about.
pub(crate) fn may_go<R: AllocGlobal + Env + Files, S: Write>(
    rt: &R,
    alloc: Global,
    told: &Told,
    socket: &mut S,
    path: &str,
    is_asked: bool,
) -> io::Result<bool> {
    let mut way = begin(rt, alloc, path)?;
    let answer = go(
        rt,
        told,
        socket,
        &mut way,
        is_asked && path.starts_with('/'),
    );
    drop(way);
    answer
}

fn begin<R: AllocGlobal + Env>(rt: &R, alloc: Global, path: &str) -> io::Result<Way> {
    let mut gone = String::new(alloc);
    if !path.starts_with('/') {
        match env::current_dir(rt) {
            Ok(folder) => {
                let is_put = gone.push_str(folder.as_path().as_str().trim_end_matches('/'));
                drop(folder);
                is_put?;
            }
            Err(error) => {
                drop(gone);
                return Err(error);
            }
        }
    }
    let rest = String::from_str(alloc, path)?;
    Ok(Way {
        alloc,
        gone,
        rest,
        links: 0,
    })
}

fn go<R: AllocGlobal + Files, S: Write>(
    rt: &R,
    told: &Told,
    socket: &mut S,
    way: &mut Way,
    is_asked: bool,
) -> io::Result<bool> {
    if !is_asked {
        name_way(socket, way)?;
    }
    for _ in 0..STEPS {
        match make_step(rt, told, way)? {
            WalkStep::Made => {}
            WalkStep::Linked => name_way(socket, way)?,
            WalkStep::Over => return Ok(true),
            WalkStep::Shut => return Ok(false),
        }
    }
    Ok(true)
}

fn name_way<S: Write>(socket: &mut S, way: &Way) -> io::Result<()> {
    let text = match format!(in way.alloc;
        "{}/{}",
        way.gone.as_str(),
        way.rest.as_str().trim_start_matches('/')
    ) {
        Ok(text) => text,
        Err(error) => return Err(io::Error::from(error)),
    };
    let answer = name(way.alloc, socket, text.as_str());
    drop(text);
    answer
}

/// The next part of what lies before: where it leads to, if it is not a link, and what comes after it.
#[derive(Drop)]
struct Next {
    to: String,
    behind: String,
    is_name: bool,
}

fn next_of(way: &Way) -> Result<Option<Next>, AllocError> {
    let rest = way.rest.as_str().trim_start_matches('/');
    if rest.is_empty() {
        return Ok(None);
    }
    let (part, behind) = first_part(rest);
    let is_name = !matches!(part, "." | "..");
    let behind = String::from_str(way.alloc, behind)?;
    match place_at(way.alloc, way.gone.as_str(), part) {
        Ok(to) => Ok(Some(Next {
            to,
            behind,
            is_name,
        })),
        Err(error) => {
            drop(behind);
            Err(error)
        }
    }
}

// What is before the first slash, and what after it.
fn first_part(rest: &str) -> (&str, &str) {
    if let Some(parts) = rest.split_once('/') {
        return parts;
    }
    (rest, "")
}

// Goes to the next part of what lies before.
fn make_step<R: AllocGlobal + Files>(rt: &R, told: &Told, way: &mut Way) -> io::Result<WalkStep> {
    let Some(next) = next_of(way)? else {
        return Ok(WalkStep::Over);
    };
    let Next {
        to,
        behind,
        is_name,
    } = next;
    way.rest = behind;
    if !is_name {
        way.gone = to;
        return Ok(WalkStep::Made);
    }
    if told.is_shut(rt, to.as_str()) {
        drop(to);
        return Ok(WalkStep::Shut);
    }
    match rt.read_link(way.alloc, to.as_str()) {
        Ok(target) => {
            drop(to);
            let target = target.into_string();
            let answer = follow(way, target.as_str());
            drop(target);
            answer?;
            Ok(WalkStep::Linked)
        }
        Err(error) => {
            way.gone = to;
            Ok(step_without_link(&error))
        }
    }
}

// That a part is not a link is an error of its own.
fn step_without_link(error: &io::Error) -> WalkStep {
    match error.kind() {
        ErrorKind::InvalidInput => WalkStep::Made,
        _ => WalkStep::Over,
    }
}

// Where the part of a path leads to from a folder.
fn place_at(alloc: Global, folder: &str, part: &str) -> Result<String, AllocError> {
    match part {
        "." => String::from_str(alloc, folder),
        ".." => match folder.rsplit_once('/') {
            Some((above, _)) => String::from_str(alloc, above),
            None => Ok(String::new(alloc)),
        },
        _ => format!(in alloc; "{folder}/{part}"),
    }
}

// A link's text takes the place of its part.
fn follow(way: &mut Way, target: &str) -> io::Result<()> {
    way.links = way.links.saturating_add(1);
    if way.links > LINKS {
        way.rest.clear();
        return Ok(());
    }
    let rest = format!(in way.alloc; "{target}/{}", way.rest.as_str())?;
    way.rest = rest;
    if target.starts_with('/') {
        way.gone.clear();
    }
    Ok(())
}
