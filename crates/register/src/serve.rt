// Serving: framed calls on standard input, framed answers on standard output.
use crate::calls::{call_bytes, waiting};
use crate::start::{Register, Writes};
use crate::stop::{Stop, refuse};
use frames::{KEPT, read_frame, write_frame};
use octets::EMPTY;
use std::io;
use std::io::{BufReader, ErrorKind, Read};

// Says why no call could be read.
fn unread(rt: &HostRuntime, error: io::Error) -> Stop {
    if error.kind() == ErrorKind::UnexpectedEof {
        return refuse(rt, "the input ends within a call");
    }
    refuse(rt, format_args!("the input can't be read: {error}"))
}

// Makes a call and tells its answer.
fn serve_call(rt: &HostRuntime, register: &mut Register, call: &[u8]) -> Result<(), Stop> {
    let mut page = EMPTY;
    let reply = call_bytes(register, call, &mut page)?;
    write_frame(&mut rt.stdout(), reply.with_page(&page)).map_err(|error| refuse(
        rt,
        format_args!("the answer can't be told: {error}"),
    ))
}

// Serves calls until the input ends.
fn serve_all<R: Read>(
    rt: &HostRuntime,
    register: &mut Register,
    input: &mut R,
) -> Result<(), Stop> {
    let mut kept = [0; KEPT];
    // Only the input's end ends it: no input has so many calls. No `rt.forever()`, since with it the function might
    // not return, and that every function returns is promised.
    for _ in 0..u64::MAX {
        let Some(call) = read_frame(input, &mut kept).map_err(|error| unread(rt, error))? else {
            return Ok(());
        };
        serve_call(rt, register, call)?;
    }
    Ok(())
}

// Says how many writes were not closed, which are dropped at the next start.
fn say_dropped(rt: &HostRuntime, register: &mut Register) -> Result<(), Stop> {
    let left = waiting(register)?;
    if left > 0 {
        let writes = Writes(left);
        let _ = eprintln!(rt; "register: {writes}");
    }
    Ok(())
}

// Answers calls until the input ends. Writes that were not closed by then are dropped, which is said.
pub fn serve(rt: &HostRuntime, register: &mut Register) -> Result<(), Stop> {
    let mut input = BufReader::new(rt.alloc(), rt.stdin()).map_err(|_error| Stop::NoMemory)?;
    let served = serve_all(rt, register, &mut input);
    served.and(say_dropped(rt, register))
}
