// Changing some pages at once: all of them, or none.
use crate::calls::{close, write_page};
use crate::order::Change;
use crate::start::Register;
use crate::stop::{Stop, refuse};
use octets::{BLOCK, Block, EMPTY};
use std::fs::File;
use std::io;
use std::io::Read;

// A page and the bytes that it is to have.
#[derive(Clone, Copy)]
pub struct NewPage {
    page: u32,
    bytes: Block,
}

// Reads the front of a file: all its bytes, up to one more than a page has. There is room for all of them before the
// first is read, so that a page is asked for at once: a pipe may drop what a smaller read leaves.
fn read_front(rt: &HostRuntime, name: &str, front: &mut Vec<u8>) -> io::Result<usize> {
    File::open(rt, name)?
        .take(BLOCK as u64 + 1)
        .read_to_end(front)
}

// The bytes of a page, from its file.
fn read_file(rt: &HostRuntime, change: &Change, pad: bool) -> Result<NewPage, Stop> {
    let name = change.file.as_str();
    let mut front = Vec::with_capacity(rt.alloc(), BLOCK + 1)?;
    read_front(rt, name, &mut front).map_err(|error| refuse(
        rt,
        format_args!("{name} can't be read: {error}"),
    ))?;
    let n = front.len();
    if n > BLOCK {
        return Err(refuse(
            rt,
            format_args!("{name} is longer than a page, which has 1024 bytes"),
        ));
    }
    if n < BLOCK && !pad {
        return Err(refuse(
            rt,
            format_args!("{name} has {n} bytes and a page has 1024; --pad fills it with zeros"),
        ));
    }
    let mut bytes = EMPTY;
    bytes[..n].copy_from_slice(front.as_slice());
    Ok(NewPage {
        page: change.page,
        bytes,
    })
}

// Reads all the files, before anything is written.
pub fn read_files(rt: &HostRuntime, changes: &[Change], pad: bool) -> Result<Vec<NewPage>, Stop> {
    changes
        .iter()
        .map(|change| read_file(rt, change, pad))
        .try_collect(rt.alloc())
}

// Refuses a change of a page that is not there.
pub fn refuse_outside(rt: &HostRuntime, changes: &[Change], pages: u32) -> Result<(), Stop> {
    let Some(outside) = changes.iter().find(|change| change.page >= pages) else {
        return Ok(());
    };
    let page = outside.page;
    Err(refuse(
        rt,
        format_args!("there is no page {page}; the register has {pages}, from 0 on"),
    ))
}

// Writes the pages and closes.
pub fn change_pages(
    rt: &HostRuntime,
    register: &mut Register,
    pages: &[NewPage],
) -> Result<(), Stop> {
    for new in pages {
        write_page(rt, register, new.page, &new.bytes)?;
    }
    close(rt, register)?;
    let count = pages.len();
    println!(rt; "done: {count} pages changed").map_err(|error| refuse(
        rt,
        format_args!("the pages are changed, but that can't be told: {error}"),
    ))
}
