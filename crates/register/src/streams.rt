// Standard input, output and error.
//
// A file that is opened takes the lowest number that is free. Where a standard stream is closed that would
// be the stream's own, and answers would be written into a disk. So the null device takes these numbers
// first; it is opened the wrong way round, so that to read the one or to write the others is an error.
use std::fs::{File, OpenOptions};
use std::io;
use std::os::fd::{AsRawFd, IntoRawFd};

const NULL: &str = "/dev/null";

// The numbers of the first standard stream and of the last.
const STDIN: i32 = 0;

const STDERR: i32 = 2;

// Keeps a file open to the end where its number is this one at most; any other is closed. Whether it is kept.
fn keep_to(last: i32, file: File) -> bool {
    if file.as_raw_fd() > last {
        return false;
    }
    let _number = file.into_raw_fd();
    true
}

// Takes every number below 3 that is free. An error: the null device can't be opened.
pub fn hold(rt: &HostRuntime) -> io::Result<()> {
    keep_to(STDIN, OpenOptions::new().append(true).open(rt, NULL)?);
    for _ in STDIN..=STDERR {
        if !keep_to(STDERR, File::open(rt, NULL)?) {
            return Ok(());
        }
    }
    Ok(())
}
