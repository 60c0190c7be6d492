//! The ports of services by their names (services(5)).

use files_and_process::path_files::read_file;
use std::alloc::{AllocError, Global};
use std::io;
use std::io::ErrorKind;

/// The services of the machine.
const SERVICES: &str = "/etc/services";

/// The longest file of services that is read, in bytes.
const LONGEST: usize = 1_048_576;

/// The lines of the file of services; none if it can't be read. `AllocError` if memory ran out.
pub(crate) fn services_of(host: &HostRuntime, alloc: Global) -> Result<String, AllocError> {
    match read_file(host, alloc, SERVICES, LONGEST) {
        Ok(Some(bytes)) => match String::from_utf8(bytes) {
            Ok(text) => Ok(text),
            Err(_) => Ok(String::new(alloc)),
        },
        Err(error) if is_of_memory(&error) => Err(AllocError),
        _ => Ok(String::new(alloc)),
    }
}

fn is_of_memory(error: &io::Error) -> bool {
    error.kind() == ErrorKind::OutOfMemory
}

/// The port of TCP of the service that has this name, or it as another name, by the lines; the name itself if none has it.
pub(crate) fn port_of<'a>(services: &'a str, name: &'a str) -> &'a str {
    for line in services.lines() {
        if let Some(port) = port_in(line, name) {
            return port;
        }
    }
    name
}

// A line has a name, the port and its protocol, and other names, up to a comment.
fn port_in<'a>(line: &'a str, name: &str) -> Option<&'a str> {
    let front = match line.split_once('#') {
        Some((front, _comment)) => front,
        None => line,
    };
    let mut port = None;
    let mut is_named = false;
    for word in front.split([' ', '\t']) {
        if let Some(number) = word.strip_suffix("/tcp") {
            port = Some(number);
        } else if word == name {
            is_named = !name.is_empty();
        }
    }
    if is_named { port } else { None }
}
