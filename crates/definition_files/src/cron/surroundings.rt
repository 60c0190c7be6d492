//! What is around the lines of a crontab: who runs them, and the users of the machine.

use files_and_process::path_files::read_file;
use std::alloc::{AllocError, Global};
use std::env::VarError;
use std::io::ErrorKind;
use std::{env, io};

/// The users of the machine, as passwd(5) has them.
const USERS: &str = "/etc/passwd";

/// The longest file of users that is read, in bytes.
const LONGEST_USERS: usize = 1_048_576;

/// What is around the lines.
#[derive(Drop)]
pub struct Surroundings {
    /// A user's field comes before each command, as in `/etc/crontab`.
    pub has_user: bool,
    /// The home folder of who asks, if the environment names one.
    pub home: Option<String>,
    /// The name of who asks, if the environment has it.
    pub name: Option<String>,
    /// The folder in which the output of each job is kept.
    pub logs: Option<String>,
    /// The lines of the file of users; none if it can't be read.
    pub users: String,
}

/// A user of the machine: the number of the own group, and the home folder.
#[derive(Clone, Copy)]
pub(crate) struct User<'a> {
    pub(crate) group: &'a str,
    pub(crate) home: &'a str,
}

impl Surroundings {
    /// The name of who asks: that of the environment, else that of the first user whose home folder it is.
    pub(crate) fn asker(&self) -> Option<&str> {
        let Some(home) = self.home.as_deref() else {
            return self.name.as_deref();
        };
        if self.name.is_some() {
            return self.name.as_deref();
        }
        for line in self.users.as_str().lines() {
            if let Some(name) = name_at(line, home) {
                return Some(name);
            }
        }
        None
    }

    /// The user of this name, if the file of users has one.
    pub(crate) fn user_named(&self, name: &str) -> Option<User<'_>> {
        for line in self.users.as_str().lines() {
            let mut fields = line.split(':');
            let is_name = fields.next() == Some(name);
            if is_name {
                let _password = fields.next();
                let _number = fields.next();
                let group = fields.next()?;
                let _told = fields.next();
                let home = fields.next()?;
                return Some(User { group, home });
            }
        }
        None
    }
}

// The name of the user whose line it is, if this is the home folder.
fn name_at<'a>(line: &'a str, home: &str) -> Option<&'a str> {
    let (front, _shell) = line.rsplit_once(':')?;
    let (_rest, own) = front.rsplit_once(':')?;
    let (name, _behind) = line.split_once(':')?;
    if own == home { Some(name) } else { None }
}

/// What is around the lines now, by `HOME`, `LOGNAME` and the file of users. `AllocError` if memory ran out.
pub fn surroundings_of(
    host: &HostRuntime,
    alloc: Global,
    has_user: bool,
    logs: Option<&str>,
) -> Result<Surroundings, AllocError> {
    let mut found = Surroundings {
        has_user,
        home: None,
        name: None,
        logs: None,
        users: String::new(alloc),
    };
    match look(host, alloc, logs, &mut found) {
        Ok(()) => Ok(found),
        Err(error) => {
            drop(found);
            Err(error)
        }
    }
}

fn look(
    host: &HostRuntime,
    alloc: Global,
    logs: Option<&str>,
    found: &mut Surroundings,
) -> Result<(), AllocError> {
    found.users = users_of(host, alloc)?;
    found.home = match set_in(host, "HOME")? {
        Some(home) if home.starts_with('/') => Some(home),
        home => {
            drop(home);
            None
        }
    };
    found.name = set_in(host, "LOGNAME")?;
    if let Some(folder) = logs {
        found.logs = Some(String::from_str(alloc, folder)?);
    }
    Ok(())
}

// The value of a variable of the environment, if it has one.
fn set_in(host: &HostRuntime, name: &str) -> Result<Option<String>, AllocError> {
    match env::var(host, name) {
        Ok(value) if value.is_empty() => Ok(None),
        Ok(value) => Ok(Some(value)),
        Err(VarError::OutOfMemory) => Err(AllocError),
        Err(_) => Ok(None),
    }
}

fn users_of(host: &HostRuntime, alloc: Global) -> Result<String, AllocError> {
    match read_file(host, alloc, USERS, LONGEST_USERS) {
        Ok(Some(bytes)) => match String::from_utf8(bytes) {
            Ok(text) => Ok(text),
            Err(_) => Ok(String::new(alloc)),
        },
        Err(error) if is_of_memory(&error) => Err(AllocError),
        _ => Ok(String::new(alloc)),
    }
}

fn is_of_memory(error: &io::Error) -> bool {
    error.kind() == ErrorKind::OutOfMemory
}
