//! The two files of a journal in a folder, as a command opens them.

use dur_outside::FileDisk;
use std::fs::{File, OpenOptions};
use std::io;
use std::path::Path;

/// The names of the two files.
const NAMES: [&str; 2] = ["journal.0", "journal.1"];

/// A file without octets, which is read in the place of a missing one.
const EMPTY: &str = "/dev/null";

/// The two files of a folder, for reading alone. A missing one is empty, and is not made; so both
/// are where the folder is missing.
pub fn files_to_read(rt: &HostRuntime, dir: &str) -> io::Result<FileDisk> {
    let zero = file_to_read(rt, dir, NAMES[0])?;
    let one = file_to_read(rt, dir, NAMES[1])?;
    Ok(FileDisk::new(zero, one))
}

/// The two files of a folder, for reading and writing. A missing one is made, without octets, and stands in the folder for
/// good once this returns. The folder is not made.
pub fn files_to_store(rt: &HostRuntime, dir: &str) -> io::Result<FileDisk> {
    let zero = file_to_store(rt, dir, NAMES[0])?;
    let one = file_to_store(rt, dir, NAMES[1])?;
    // Also where both were there: a run before this one may have ended between making them and this.
    File::open(rt, dir)?.sync_all()?;
    Ok(FileDisk::new(zero, one))
}

fn file_to_store(rt: &HostRuntime, dir: &str, name: &str) -> io::Result<File> {
    let path = Path::new(dir).join(rt.alloc(), name)?;
    let mut options = OpenOptions::new();
    options.read(true).write(true).create(true);
    options.open(rt, &path)
}

fn file_to_read(rt: &HostRuntime, dir: &str, name: &str) -> io::Result<File> {
    let path = Path::new(dir).join(rt.alloc(), name)?;
    match File::open(rt, &path) {
        Ok(file) => Ok(file),
        Err(error) => match error.kind() {
            io::ErrorKind::NotFound => File::open(rt, EMPTY),
            _ => Err(error),
        },
    }
}
