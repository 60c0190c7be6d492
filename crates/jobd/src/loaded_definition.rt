//! What a client's line asked for: the label and the digest of a definition to be loaded, or a setting.

use ctl_protocol::{LineRoom, Request, read_request};
use definition_digest::{DefinitionDigest, digest_of_value};
use history_model::{KeyName, Text};
use json_kinds::{json_value, key_name};
use serde_json::Value;
use std::alloc::{AllocError, Global};

/// What is loaded.
#[derive(Drop)]
pub(crate) struct LoadedDefinition {
    pub(crate) label: Text,
    pub(crate) digest: DefinitionDigest,
}

/// That of the line, if it asks for a load. None: it asks for something else.
pub(crate) fn load_in(alloc: Global, line: &[u8]) -> Result<Option<LoadedDefinition>, AllocError> {
    let mut room = LineRoom::new(alloc)?;
    let found = match read_request(alloc, line, &mut room) {
        Ok(request) => {
            let found = load_of(alloc, &request);
            drop(request);
            found
        }
        Err(_) => Err(AllocError),
    };
    drop(room);
    found
}

/// Whether the line asks for a setting, alone or with a load or an unload. False also if there was no memory to read it.
pub(crate) fn writes_setting(alloc: Global, line: &[u8]) -> bool {
    let Ok(mut room) = LineRoom::new(alloc) else {
        return false;
    };
    let is_setting = match read_request(alloc, line, &mut room) {
        Ok(request) => {
            let is_setting = asks_setting(&request);
            drop(request);
            is_setting
        }
        Err(_) => false,
    };
    drop(room);
    is_setting
}

fn asks_setting(request: &Request<'_>) -> bool {
    match request {
        Request::Load(load) => load.writes_setting,
        Request::Unload { writes_setting, .. } => *writes_setting,
        Request::Set { .. } => true,
        _ => false,
    }
}

fn load_of(alloc: Global, request: &Request<'_>) -> Result<Option<LoadedDefinition>, AllocError> {
    let Request::Load(load) = request else {
        return Ok(None);
    };
    match json_value(alloc, load.def.as_str().as_bytes())? {
        Some(value) => {
            let found = definition_of(alloc, &value);
            drop(value);
            found
        }
        None => Ok(None),
    }
}

fn definition_of(alloc: Global, value: &Value) -> Result<Option<LoadedDefinition>, AllocError> {
    let digest = digest_of_value(alloc, value)?;
    match value.get(key_name(KeyName::Label)) {
        Some(label) => Ok(Some(LoadedDefinition {
            label: Text::copy_of(alloc, label.as_str().unwrap_or(""))?,
            digest,
        })),
        None => Ok(None),
    }
}
