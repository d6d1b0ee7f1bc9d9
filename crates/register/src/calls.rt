// Calls of a register that was started, each by its bytes.
ghost use Rattle.std.specs.Prelude.{◌≡◌, ◌≤◌, length};
ghost use Rattle.wire.specs.Calls.{meant, call_bytes as bytes_of};

use crate::start::Register;
use crate::stop::{Stop, refuse};
use device::Dead;
use engine::call::{Reply, answer};
use guard::inspect::read_front;
use octets::{Block, EMPTY};
use wire::call;
use wire::call::Call;

// Bytes in the longest call, which is a write.
const LONGEST: usize = 1029;

// Makes a call by its bytes, unless both disks are dead. A page that is read is put into `page`.
pub fn call_bytes(register: &mut Register, bytes: &[u8], page: &mut Block) -> Result<Reply, Dead> {
    answer(&mut register.disks, register.pages, bytes, page)
}

// Puts a call's bytes at the front of what is lent, and lends that front.
fn encoded<'a>(call: Call<'_>, bytes: &'a mut [u8; LONGEST]) -> &'a [u8]
    ensures len { length result.now ≤ LONGEST }
    ensures value { length (bytes_of (meant call.entry)) ≤ LONGEST → result.now ≡ bytes_of (meant call.entry) }
{
    let n = call::encode(call, bytes).unwrap_or(0);
    &bytes[..n]
}

// Makes a call that has this answer, or is refused.
fn ask(
    rt: &HostRuntime,
    register: &mut Register,
    call: Call<'_>,
    wanted: Reply,
    page: &mut Block,
) -> Result<(), Stop> {
    let mut bytes = [0; LONGEST];
    match call_bytes(register, encoded(call, &mut bytes), page)? {
        Reply::Refused(refusal) => Err(refuse(rt, refusal)),
        reply if reply == wanted => Ok(()),
        _ => Err(refuse(rt, "the register gave an answer to another call")),
    }
}

// Reads a page.
pub fn read_page(
    rt: &HostRuntime,
    register: &mut Register,
    number: u32,
    page: &mut Block,
) -> Result<(), Stop> {
    ask(
        rt,
        register,
        Call::Read { page: number },
        Reply::Page(()),
        page,
    )
}

pub fn write_page(
    rt: &HostRuntime,
    register: &mut Register,
    page: u32,
    bytes: &Block,
) -> Result<(), Stop> {
    let mut unread = EMPTY;
    ask(
        rt,
        register,
        Call::Write { page, bytes },
        Reply::Done,
        &mut unread,
    )
}

pub fn close(rt: &HostRuntime, register: &mut Register) -> Result<(), Stop> {
    let mut unread = EMPTY;
    ask(rt, register, Call::Close, Reply::Done, &mut unread)
}

// How many writes wait for a close, unless both disks are dead.
pub fn waiting(register: &mut Register) -> Result<u32, Dead> {
    let front = read_front(&mut register.disks)?;
    Ok(front.log(register.pages).count.writes)
}
