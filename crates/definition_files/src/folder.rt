//! A folder in which each definition becomes a file of its own.

use crate::services::port_of;
use json::{Pretty, Reader, Scratch, Token};
use run_times::TextWriter;
use run_times::telling::tell_error;
use std::alloc::{AllocError, Global};
use std::fs::OpenOptions;
use std::io;
use std::io::{ErrorKind, Write};

/// The key whose text may name a service.
const SERVICE_NAME: &str = "SockServiceName";

/// The text of JSON with a line for each member and item, and a newline. The keys stay in their order.
pub fn laid_out(alloc: Global, text: &str) -> Result<Vec<u8>, AllocError> {
    laid_out_with(alloc, text, "")
}

/// As `laid_out`, and a text of `SockServiceName` that names a service of these lines, which are as those of services(5), becomes its port of TCP.
pub(crate) fn laid_out_with(
    alloc: Global,
    text: &str,
    services: &str,
) -> Result<Vec<u8>, AllocError> {
    let mut scratch = Scratch::new(alloc);
    let mut pretty = Pretty::new(alloc);
    let put = match Reader::new(text, &mut scratch) {
        Ok(mut reader) => {
            let put = put_each(&mut reader, text.len(), &mut pretty, services);
            drop(reader);
            put
        }
        Err(_) => Err(AllocError),
    };
    drop(scratch);
    let mut bytes = pretty.into_inner();
    let ended = bytes.push(b'\n');
    if put.is_err() || ended.is_err() {
        drop(bytes);
        return Err(AllocError);
    }
    Ok(bytes)
}

// Adds the tokens that are left, of which there are `most` at most.
fn put_each(
    reader: &mut Reader<'_>,
    most: usize,
    pretty: &mut Pretty,
    services: &str,
) -> Result<(), AllocError> {
    let mut is_service = false;
    for _ in 0..most {
        match reader.next() {
            Some(Token::Bad) => break,
            Some(Token::String(name)) if is_service => {
                is_service = false;
                pretty.token(Token::String(port_of(services, name)))?;
            }
            Some(token) => {
                is_service = names_service(token);
                pretty.token(token)?;
            }
            None => break,
        }
    }
    Ok(())
}

fn names_service(token: Token<'_>) -> bool {
    match token {
        Token::Key(key) => key == SERVICE_NAME,
        _ => false,
    }
}

/// Writes the bytes as a file of this name, followed by `.json`, in the folder: a new one, and never over what is there. It returns whether it
/// did. If not, it reported that with the system's reason, and changed nothing else. If a file could not be written whole, it reports that too,
/// and the file stays.
pub(crate) fn put_new(
    host: &HostRuntime,
    alloc: Global,
    folder: &str,
    name: &str,
    bytes: &[u8],
) -> Result<bool, AllocError> {
    let mut writer = TextWriter::new(alloc);
    writer.put(folder);
    writer.put("/");
    writer.put(name);
    writer.put(".json");
    let path = writer.into_text()?;
    let written = write_new(host, path.as_str(), bytes);
    let told = match written {
        Ok(()) => Ok(true),
        Err(error) => match tell_error(host, path.as_str(), &error) {
            Ok(()) => Ok(false),
            Err(error) => Err(error),
        },
    };
    drop(path);
    told
}

fn write_new(host: &HostRuntime, path: &str, bytes: &[u8]) -> io::Result<()> {
    let mut options = OpenOptions::new();
    options.write(true).create_new(true);
    let mut file = options.open(host, path)?;
    let written = file.write_all(bytes);
    drop(file);
    written
}
