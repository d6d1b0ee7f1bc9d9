// Whether another process of this machine has a disk open to be written.
//
// There are no locks on files here. A process that serves a register keeps both disks open, so the system's
// table of open files shows it, whatever name it opened them by, and a process that is gone leaves nothing.
// Each process opens its disks first and looks only then: of two that start at once at least one sees the
// other. Processes of other users, of other containers and of other machines are not seen.
use crate::identity::{Identity, of_name};
use std::process::id;
use std::{fs, io};

// Whether an open file may be written, by what the system tells of its flags: a number in base 8, whose
// lowest two bits say how it is open, 0 for reading alone.
fn may_write(told: &str) -> bool {
    told.lines()
        .find_map(|line| line.strip_prefix("flags:"))
        .is_none_or(|flags| !flags.trim().ends_with(['0', '4']))
}

// Whether a process has one of the files open to be written under this number.
fn writes_one(
    rt: &HostRuntime,
    process: i32,
    number: &str,
    files: &[Identity],
) -> io::Result<bool> {
    let name = format!(in rt.alloc(); "/proc/{process}/fd/{number}")?;
    let Ok(known) = of_name(rt, name.as_bytes()) else {
        return Ok(false);
    };
    if !files.contains(&known.identity) {
        return Ok(false);
    }
    let about = format!(in rt.alloc(); "/proc/{process}/fdinfo/{number}")?;
    let told = fs::read_to_string(rt, about.as_str());
    Ok(told.map_or(true, |told| may_write(told.as_str())))
}

// Whether a process has one of the files open to be written. One that may not be looked at, or is gone by
// now, counts as having none.
fn writes(rt: &HostRuntime, process: i32, files: &[Identity]) -> io::Result<bool> {
    let folder = format!(in rt.alloc(); "/proc/{process}/fd")?;
    let Ok(entries) = fs::read_dir(rt, folder.as_str()) else {
        return Ok(false);
    };
    for entry in entries {
        let Ok(entry) = entry else {
            return Ok(false);
        };
        if writes_one(rt, process, entry.file_name(), files)? {
            return Ok(true);
        }
    }
    Ok(false)
}

// Another process that has one of the files open to be written, by its number. An error: the system's table
// can't be read.
pub fn another_writer(rt: &HostRuntime, files: &[Identity]) -> io::Result<Option<i32>> {
    let own = id(rt.process());
    for entry in fs::read_dir(rt, "/proc")? {
        let entry = entry?;
        let Ok(process) = entry.file_name().parse::<i32>() else {
            continue;
        };
        if process.unsigned_abs() != own && writes(rt, process, files)? {
            return Ok(Some(process));
        }
    }
    Ok(None)
}
