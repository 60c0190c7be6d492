//! What the environment says of a run.

use std::env;
use std::env::VarError;
use std::rt::Env;

/// The seconds for which an answer is waited if nothing is said.
const PATIENCE: u32 = 30;

/// What the environment says.
#[derive(Drop)]
pub struct Environment {
    /// `JOBD_SOCKET`: the launcher's control socket, if the arguments name none.
    pub socket: Option<String>,
    /// `JOBCTL_TIMEOUT`: the longest wait for a part of an answer, in seconds; 0 means no limit.
    pub patience: u32,
}

/// What keeps the environment from being read.
#[derive(Clone, Copy, Drop)]
pub enum SettingFault {
    NoMemory,
    /// `JOBD_SOCKET` is not UTF-8.
    Socket,
    /// `JOBCTL_TIMEOUT` is not a number from 0 to 4,294,967,295.
    Patience,
}

/// What the environment says. A variable that is empty says nothing.
pub fn settings_of<R: Env + AllocGlobal>(rt: &R) -> Result<Environment, SettingFault> {
    let socket = match said(rt, "JOBD_SOCKET") {
        Ok(socket) => socket,
        Err(VarError::OutOfMemory) => return Err(SettingFault::NoMemory),
        Err(_) => return Err(SettingFault::Socket),
    };
    let patience = match said(rt, "JOBCTL_TIMEOUT") {
        Ok(None) => PATIENCE,
        Ok(Some(text)) => match text.as_str().parse::<u32>() {
            Ok(seconds) => seconds,
            Err(_) => return Err(SettingFault::Patience),
        },
        Err(VarError::OutOfMemory) => return Err(SettingFault::NoMemory),
        Err(_) => return Err(SettingFault::Patience),
    };
    Ok(Environment { socket, patience })
}

fn said<R: Env + AllocGlobal>(rt: &R, name: &str) -> Result<Option<String>, VarError> {
    match env::var(rt, name) {
        Ok(text) if text.is_empty() => Ok(None),
        Ok(text) => Ok(Some(text)),
        Err(VarError::NotPresent) => Ok(None),
        Err(fault) => Err(fault),
    }
}
