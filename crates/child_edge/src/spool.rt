//! The spool: for each connection a file with the client's request, which its run reads, and one for the reply, which
//! its run writes.
//!
//! Both are new files. Where something lies at the name already, be it a file, a link or a FIFO, it is left as it is,
//! and the connection is refused. The number of a connection is used once, so the next one has another name. What a
//! launcher left that was killed is cleared at the start. When the run is started, each file is opened again, if it is
//! still the one that was made; nothing else is opened.

ghost use Rattle.std.specs.Prelude.{◌≡◌, IfOk, IsOkAnd, string_bytes};
ghost use Rattle.child_edge.specs.Spool.{IsNamed, file_name};

use history_model::JobNo;
use std::alloc::{AllocError, Global};
use std::fs::{File, Files, Metadata, OpenOptions};
use std::io::{ErrorKind, Write};
use std::os::unix::fs::{MetadataExt, OpenOptionsExt};
use std::{fs, io};

/// A connection's two files.
#[derive(Drop)]
pub(crate) struct Spooled {
    request: SpoolFile,
    reply: SpoolFile,
}

/// A file that was made: its name, the number of its device, and its own number on it.
#[derive(Drop)]
struct SpoolFile {
    path: String,
    device: u64,
    inode: u64,
}

impl Spooled {
    /// Makes both files, the request with these bytes and the reply empty, which is open to be read from its beginning. After
    /// an `Err` neither is left.
    pub(crate) fn make<R: Files<File = File>>(
        rt: &R,
        alloc: Global,
        folder: &str,
        key: (JobNo, u64),
        bytes: &[u8],
    ) -> io::Result<(Spooled, File)>
        ensures { IfOk result (λ made. IsNamed folder.now key made.0) }
    {
        let request = match written(rt, name_of(alloc, folder, key, "request"), bytes) {
            Ok(request) => request,
            Err(error) => return Err(error),
        };
        match make(rt, name_of(alloc, folder, key, "reply")) {
            Ok((reply, file)) => Ok((Spooled { request, reply }, file)),
            Err(error) => {
                request.remove(rt);
                drop(request);
                Err(error)
            }
        }
    }

    /// Opens the request to be read from its beginning. `NotFound` if it was removed, or another file is at its name.
    pub(crate) fn read_request<R: Files<File = File>>(&self, rt: &R) -> io::Result<File> {
        let mut how = OpenOptions::new();
        how.read(true);
        self.request.open(rt, &how)
    }

    /// Opens the reply to be written at its end. `NotFound` if it was removed, or another file is at its name.
    pub(crate) fn write_reply<R: Files<File = File>>(&self, rt: &R) -> io::Result<File> {
        let mut how = OpenOptions::new();
        how.append(true);
        self.reply.open(rt, &how)
    }

    /// Removes both files, as far as they are there.
    pub(crate) fn remove<R: Files>(&self, rt: &R) {
        self.request.remove(rt);
        self.reply.remove(rt);
    }
}

impl SpoolFile {
    fn open<R: Files<File = File>>(&self, rt: &R, how: &OpenOptions) -> io::Result<File> {
        match self.allow(fs::symlink_metadata(rt, self.path.as_str())) {
            Ok(()) => {}
            Err(error) => return Err(error),
        }
        match how.open(rt, self.path.as_str()) {
            Ok(file) => match self.allow(file.metadata()) {
                Ok(()) => Ok(file),
                Err(error) => {
                    drop(file);
                    Err(error)
                }
            },
            Err(error) => Err(error),
        }
    }

    // An error if this is another file than the one that was made.
    fn allow(&self, data: io::Result<Metadata>) -> io::Result<()> {
        match data {
            Ok(data) if data.is_file() && data.dev() == self.device && data.ino() == self.inode => {
                Ok(())
            }
            Ok(_) => Err(io::Error::new(ErrorKind::NotFound, "another file is at its name")),
            Err(error) => Err(error),
        }
    }

    fn remove<R: Files>(&self, rt: &R) {
        let _ = fs::remove_file(rt, self.path.as_str());
    }
}

fn name_of(alloc: Global, folder: &str, key: (JobNo, u64), end: &str) -> Result<String, AllocError>
    ensures { IfOk result (λ name. string_bytes name ≡ file_name folder.now key end.now) }
{
    let (job, conn) = key;
    format!(in alloc; "{folder}/{job}-{conn}.{end}")
}

// A file with these bytes. After an `Err` it is not left.
fn written<R: Files<File = File>>(
    rt: &R,
    path: Result<String, AllocError>,
    bytes: &[u8],
) -> io::Result<SpoolFile>
    ensures { IfOk result (λ spooled. IsOkAnd path (λ path. spooled.path ≡ path)) }
{
    match make(rt, path) {
        Ok((spooled, file)) => {
            let mut file = file;
            let written = file.write_all(bytes);
            drop(file);
            match written {
                Ok(()) => Ok(spooled),
                Err(error) => {
                    spooled.remove(rt);
                    drop(spooled);
                    Err(error)
                }
            }
        }
        Err(error) => Err(error),
    }
}

// An empty file, which this user alone may read. Where something is at the path already, it is refused and left as it is.
fn make<R: Files<File = File>>(
    rt: &R,
    path: Result<String, AllocError>,
) -> io::Result<(SpoolFile, File)>
    ensures { IfOk result (λ made. IsOkAnd path (λ path. made.0.path ≡ path)) }
{
    let path = match path {
        Ok(path) => path,
        Err(error) => return Err(io::Error::from(error)),
    };
    let mut how = OpenOptions::new();
    how.read(true).write(true).create_new(true).mode(0o600);
    match how.open(rt, path.as_str()) {
        Ok(file) => match file.metadata() {
            Ok(data) => {
                let (device, inode) = (data.dev(), data.ino());
                let spooled = SpoolFile {
                    path,
                    device,
                    inode,
                };
                Ok((spooled, file))
            }
            Err(error) => {
                let _ = fs::remove_file(rt, path.as_str());
                drop(path);
                drop(file);
                Err(error)
            }
        },
        Err(error) => {
            drop(path);
            Err(error)
        }
    }
}
