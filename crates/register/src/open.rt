// Opening the two disks: everything that is looked at before a block is read.
//
// A file that is missing or has the wrong size is more likely a slip than a death, so it is refused; that a
// disk is dead is said by `-` in place of its name.
use crate::order::Paths;
use crate::stop::{Stop, refuse};
use device::mirror::Mirror;
use files::descriptor::Descriptor;
use guard::identity::{Identity, Known, of_open};
use guard::names::true_name;
use guard::others::another_writer;
use layout::places::Layout;
use octets::BLOCK;

// A disk's file, open.
#[derive(Drop)]
pub struct Opened {
    pub file: Descriptor,
    // As it was given, and with all links gone through.
    pub path: String,
    pub name: String,
    pub blocks: u64,
    identity: Identity,
}

// Both files, None for a disk that was said to be dead; and how many pages they hold.
#[derive(Drop)]
pub struct Files {
    pub disks: Mirror<Option<Opened>>,
    pub pages: u32,
}

// What stands in place of the name of a disk that is dead.
pub const DEAD: &str = "-";

// What can be done about a disk that is none, and about one that was not made to its end.
const IF_DEAD: &str = "if this disk is dead, give - in its place";

const IF_CUT: &str = "if its making was cut short, remove both disks";

// Refuses a disk that is named like a mark: its death and another disk's name would be one.
pub fn refuse_mark_name(rt: &HostRuntime, path: &str, name: &str) -> Result<(), Stop> {
    // The ends in full: `Mark` writes a word, and to build a text of it takes memory, which may be refused.
    if name.ends_with(".dead") || name.ends_with(".alone") {
        return Err(refuse(
            rt,
            format_args!("{path} is named like a mark of a death; a disk's name may not end so"),
        ));
    }
    Ok(())
}

fn open_file(rt: &HostRuntime, path: &str) -> Result<Descriptor, Stop> {
    Descriptor::open(rt, path).map_err(|error| refuse(
        rt,
        format_args!("{path} can't be opened: {error}; {IF_DEAD}"),
    ))
}

// What is known of a file, which has to be a plain one.
fn look_at_file(rt: &HostRuntime, path: &str, file: &Descriptor) -> Result<Known, Stop> {
    let known = of_open(file).map_err(|error| refuse(rt, format_args!("{path}: {error}")))?;
    if !known.is_plain {
        return Err(refuse(rt, format_args!("{path} is no plain file; {IF_DEAD}")));
    }
    Ok(known)
}

// How many blocks a file of so many bytes has.
fn whole_blocks(rt: &HostRuntime, path: &str, size: u64) -> Result<u64, Stop> {
    if size % BLOCK as u64 != 0 {
        return Err(refuse(
            rt,
            format_args!("{path} has {size} bytes, which are no whole blocks; {IF_CUT}; {IF_DEAD}"),
        ));
    }
    Ok(size / BLOCK as u64)
}

fn open_one(rt: &HostRuntime, path: &str) -> Result<Opened, Stop> {
    let file = open_file(rt, path)?;
    let known = look_at_file(rt, path, &file)?;
    let blocks = whole_blocks(rt, path, known.size)?;
    let name = true_name(rt, &file).ok_or_else(|| {
        refuse(
            rt,
            format_args!("{path} has no full name that the system tells, or none in UTF-8"),
        )
    })?;
    refuse_mark_name(rt, path, name.as_str())?;
    Ok(Opened {
        file,
        path: String::from_str(rt.alloc(), path)?,
        name,
        blocks,
        identity: known.identity,
    })
}

// Opens a disk, unless it was said to be dead.
fn open_given(rt: &HostRuntime, path: &str) -> Result<Option<Opened>, Stop> {
    if path == DEAD {
        return Ok(None);
    }
    Ok(Some(open_one(rt, path)?))
}

// Refuses two names of one file, and disks of unequal size.
fn fit_together(rt: &HostRuntime, first: &Opened, second: &Opened) -> Result<(), Stop> {
    let a = first.path.as_str();
    let b = second.path.as_str();
    if first.identity == second.identity {
        return Err(refuse(
            rt,
            format_args!("{a} and {b} are one file; a register has two disks"),
        ));
    }
    if first.blocks != second.blocks {
        let m = first.blocks;
        let n = second.blocks;
        return Err(refuse(
            rt,
            format_args!(
                "{a} has {m} blocks and {b} has {n}: they are not disks of one register; if one of them is dead, give - in its place"
            ),
        ));
    }
    Ok(())
}

// How many pages a disk has.
fn count_pages(rt: &HostRuntime, disk: &Opened) -> Result<u32, Stop> {
    let path = disk.path.as_str();
    let blocks = disk.blocks;
    Layout::pages(blocks).ok_or_else(|| {
        refuse(
            rt,
            format_args!(
                "{path} has {blocks} blocks, and a register's disk 259 to 16777474; {IF_CUT}; {IF_DEAD}"
            ),
        )
    })
}

// Refuses disks that another process has open to be written.
fn alone_with(rt: &HostRuntime, files: &[Identity]) -> Result<(), Stop> {
    let other = another_writer(rt, files).map_err(|error| {
        refuse(
            rt,
            format_args!("whether another process has the disks open can't be told: {error}"),
        )
    })?;
    match other {
        None => Ok(()),
        Some(process) => Err(refuse(
            rt,
            format_args!("process {process} has one of the disks open; one at a time"),
        )),
    }
}

// Looks at two disks from outside.
fn look_at_both(rt: &HostRuntime, first: &Opened, second: &Opened) -> Result<u32, Stop> {
    fit_together(rt, first, second)?;
    let pages = count_pages(rt, first)?;
    alone_with(rt, &[first.identity, second.identity])?;
    Ok(pages)
}

// Looks at one disk from outside; the other is dead.
fn look_at_one(rt: &HostRuntime, disk: &Opened) -> Result<u32, Stop> {
    let pages = count_pages(rt, disk)?;
    alone_with(rt, &[disk.identity])?;
    Ok(pages)
}

// Looks at the disks that live, from outside: how many pages they have.
fn look_at(rt: &HostRuntime, disks: &Mirror<Option<Opened>>) -> Result<u32, Stop> {
    match (&disks.first, &disks.second) {
        (Some(first), Some(second)) => look_at_both(rt, first, second),
        (Some(disk), None) | (None, Some(disk)) => look_at_one(rt, disk),
        (None, None) => Err(refuse(rt, "one of the two disks has to live")),
    }
}

// Opens the disks that are named and looks at them from outside. Nothing is changed.
pub fn open_files(rt: &HostRuntime, paths: &Paths) -> Result<Files, Stop> {
    let disks = Mirror {
        first: open_given(rt, paths.first.as_str())?,
        second: open_given(rt, paths.second.as_str())?,
    };
    let pages = look_at(rt, &disks)?;
    Ok(Files { disks, pages })
}
