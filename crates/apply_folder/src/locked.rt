//! One apply at a time for a launcher.

use crate::stop::Stop;
use exit_status::NO_ANSWER;
use files_and_process::own_files::LockFile;
use files_and_process::own_process::ProcessState;
use std::alloc::Global;
use std::io::ErrorKind;
use std::thread;
use std::time::Duration;

/// What the path of the lock has after that of the socket.
const BEHIND: &str = ".apply";

/// How many milliseconds are between two tries.
const BETWEEN: u64 = 50;

/// How often it is tried at most for a launcher of another user, who may hold the lock for any time: a minute.
const FOREIGN_TRIES: u64 = 1_200;

/// The lock, once nobody else has it. If it can't be taken, it reports that, waits for nobody and returns None. `user` is the launcher's user. If
/// that is not this process's user, the wait ends after a minute, with status 69.
pub(crate) fn lock_beside(
    host: &HostRuntime,
    alloc: Global,
    socket: &str,
    user: u32,
) -> Result<Option<LockFile>, Stop> {
    let is_foreign = ProcessState::read(host).user != Some(user);
    let tries = if is_foreign { FOREIGN_TRIES } else { u64::MAX };
    for turn in 0..tries {
        let path = format!(in alloc; "{socket}{BEHIND}")?;
        match LockFile::take(host, path) {
            Ok(lock) => return Ok(Some(lock)),
            Err(error) if error.kind() == ErrorKind::OutOfMemory => return Err(Stop::NoMemory),
            Err(error) if error.kind() == ErrorKind::ResourceBusy => {
                if turn == 0 {
                    let _written = eprintln!(host; "jobctl: apply: waits for another apply");
                }
                thread::sleep(host, Duration::from_millis(BETWEEN));
            }
            Err(error) => {
                let _written = eprintln!(host;
                    "jobctl: apply: {socket}{BEHIND}: {error}: it does not wait for another apply"
                );
                return Ok(None);
            }
        }
    }
    let _written = eprintln!(host;
        "jobctl: apply: {socket}{BEHIND}: another apply has held it for a minute"
    );
    Err(Stop::Told(NO_ANSWER))
}
