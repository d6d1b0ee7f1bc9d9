// Marks: small files beside a disk that make a death last.
//
// `DISK.dead` says that the disk is dead, `DISK.alone` that the other one is and this one goes on alone.
// That a mark is there is what counts; what it says is for people. A mark is never removed or changed by the
// register.
use crate::identity::of_name;
use crate::names::sync_folder;
use files::descriptor::Descriptor;
use files::errors::{ENOENT, FileError};
use std::alloc::AllocError;
use std::fmt;
use std::fs::File;
use std::io::{Error, ErrorKind, Read};
use std::str::from_utf8;

#[derive(Clone, Copy, PartialEq, Eq, Debug)]
pub enum Mark {
    Dead,
    Alone,
}

impl Mark {
    // Each of the two.
    pub const BOTH: [Mark; 2] = [Mark::Dead, Mark::Alone];
}

// As a mark's name ends.
impl fmt::Display for Mark {
    fn fmt<W: fmt::Write>(&self, f: &mut fmt::Formatter<W>) -> fmt::Result {
        f.pad(match self {
            Mark::Dead => "dead",
            Mark::Alone => "alone",
        })
    }
}

// The most bytes of a mark that are read.
const MOST: usize = 200;

// The name of a disk's mark.
pub fn mark_name(rt: &HostRuntime, disk: &str, mark: Mark) -> Result<String, AllocError> {
    format!(in rt.alloc(); "{disk}.{mark}")
}

// Whether a mark's text may be shown: it has no control character.
fn is_shown(text: &str) -> bool {
    text.bytes().all(|byte| !byte.is_ascii_control())
}

// The first line of a mark, if it can be shown.
fn first_line(bytes: &[u8]) -> Option<&str> {
    let line = from_utf8(bytes).ok()?.lines().next();
    line.filter(|line| is_shown(line))
}

// What a mark says, shortened, or that it says nothing that can be shown.
fn text_of(rt: &HostRuntime, name: &str) -> Result<String, AllocError> {
    let mut bytes = [0; MOST];
    let read = File::open(rt, name).and_then(|mut file| file.read(&mut bytes));
    let n = read.unwrap_or(0);
    let said = first_line(&bytes[0..n]).unwrap_or("since an unknown moment");
    String::from_str(rt.alloc(), said)
}

// What a mark beside a disk says, if one is there. An error: that can't be told.
pub fn find(rt: &HostRuntime, disk: &str, mark: Mark) -> Result<Option<String>, FileError> {
    let name = mark_name(rt, disk, mark)?;
    match of_name(rt, name.as_bytes()) {
        Ok(_) => Ok(Some(text_of(rt, name.as_str())?)),
        Err(FileError::System(error)) if error.kind() == ErrorKind::NotFound => Ok(None),
        Err(error) => Err(error),
    }
}

// Opens a mark that is there, or makes it.
fn have(rt: &HostRuntime, name: &str, text: &str) -> Result<Descriptor, FileError> {
    match Descriptor::create(rt, name) {
        Ok(file) => {
            // The mark counts even where its text finds no room.
            let _ = file.write_at(text.as_bytes(), 0);
            Ok(file)
        }
        Err(FileError::System(error)) if error.kind() == ErrorKind::AlreadyExists => {
            Descriptor::open_to_read(rt, name)
        }
        Err(error) => Err(error),
    }
}

// Sets a mark beside a disk, to last. One that is there stays as it is, and is made to last too.
pub fn set(rt: &HostRuntime, disk: &str, mark: Mark, text: &str) -> Result<(), FileError> {
    let name = mark_name(rt, disk, mark)?;
    let line = format!(in rt.alloc(); "{text}\n")?;
    // The mark stays open until its folder is synced too.
    let file = have(rt, name.as_str(), line.as_str())?;
    file.sync()?;
    sync_folder(rt, name.as_str())
}

// Notes a death, to last: beside the disk that goes on, and beside the dead one where that can be done. An
// error: it could not be noted beside the one that goes on.
pub fn note_death(
    rt: &HostRuntime,
    living: Option<&str>,
    dead: Option<&str>,
    text: &str,
) -> Result<(), FileError> {
    // By its number, and not by a kind of error: the text that is printed is the system's own, which it has for its
    // numbers alone.
    let living = living.ok_or(Error::from_raw_os_error(ENOENT))?;
    set(rt, living, Mark::Alone, text)?;
    if let Some(dead) = dead {
        let _ = set(rt, dead, Mark::Dead, text);
    }
    Ok(())
}
