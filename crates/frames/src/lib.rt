// Calls and answers over a stream: each behind its length in four bytes, low byte first.
//
// A call may claim any length. Only its first 1,030 bytes are kept, since they decide: a write that is
// longer has no page of 1,024 bytes, and any other call ceases to be one within its first six. So a frame
// of any length is answered in fixed memory.
#![tactic(auto)]

ghost use Rattle.std.specs.Prelude.{◌≡◌, min, length, IfOk, OnOk};
ghost use Rattle.wire.specs.Answers.{answered, answer_bytes};
ghost use Rattle.frames.specs.Kept.{Decide};
ghost use Rattle.frames.specs.Framed.{Room, Framed, Told, Heard, LengthRead, BeginsWith};

use octets::put_u32;
use std::io;
use std::io::{ErrorKind, Read, Write};
use wire::answer;
use wire::answer::Answer;

// How many bytes of a call are kept.
pub const KEPT: usize = 1030;

// Bytes in the longest frame: a length, and an answer with a page.
const LONGEST: usize = 1029;

// The first bytes of a call decide: whatever a call's bytes are, those that are kept have its answer, and
// leave the book that it leaves.
pub fn first_bytes_decide()
    ensures { Decide KEPT }
{}

// Reads past so many bytes, with the memory of one small buffer. Most calls have nothing behind them, and clear
// no buffer for it.
fn skip<R: Read>(input: &mut R, n: u64) -> io::Result<()> {
    if n == 0 {
        return Ok(());
    }
    if io::copy(&mut input.take(n), &mut io::sink())? < n {
        return Err(ErrorKind::UnexpectedEof.into());
    }
    Ok(())
}

// Reads the call behind a length that was read, and lends what is kept of it: its first bytes.
fn read_call<'a, R: Read>(input: &mut R, len: u32, kept: &'a mut [u8; KEPT]) -> io::Result<&'a [u8]>
    ensures len { IfOk result (λ call. length call.now ≡ min len KEPT) }
    ensures bytes { IfOk result (λ call. BeginsWith (R.remaining input.old) call.now) }
{
    let n = (len as usize).min(KEPT);
    input.read_exact(&mut kept[..n])?;
    skip(input, u64::from(len) - n as u64)?;
    Ok(&kept[..n])
}

// Reads a length, or None where the input ends before it.
fn read_len<R: Read>(input: &mut R) -> io::Result<Option<u32>>
    ensures { IfOk result (LengthRead (R.remaining input.old) (R.remaining input.new)) }
{
    let mut bytes = [0; 4];
    if input.read(&mut bytes[..1])? == 0 {
        return Ok(None);
    }
    input.read_exact(&mut bytes[1..])?;
    Ok(Some(u32::from_le_bytes(bytes)))
}

// Reads the next call, and lends what is kept of it; None where the input ends between two frames. Where it
// ends within one, that is an error of the kind UnexpectedEof. Where a reader's bytes are known, what is lent is
// the front of what stands behind a length; of standard input they are not.
pub fn read_frame<'a, R: Read>(
    input: &mut R,
    kept: &'a mut [u8; KEPT],
) -> io::Result<Option<&'a [u8]>>
    ensures room { IfOk result Room }
    ensures bytes { IfOk result (Heard (R.remaining input.old)) }
{
    let Some(len) = read_len(input)? else {
        return Ok(None);
    };
    Ok(Some(read_call(input, len, kept)?))
}

// Puts an answer as a frame at the front of what is lent, and lends that front. An answer with more than a
// page, which no register gives, is a frame of no bytes.
fn make_frame<'a>(answer: Answer<&[u8]>, frame: &'a mut [u8; LONGEST]) -> &'a [u8]
    ensures { Framed (answer_bytes (answered answer.entry)) result.now }
{
    let n = answer::encode(answer, &mut frame[4..]).unwrap_or(0);
    put_u32(frame, 0, n as u32);
    &frame[..4 + n]
}

// Tells an answer, by one write of its frame. Where it is known what a writer holds, the frame was put behind it;
// of standard output it is not.
pub fn write_frame<W: Write>(out: &mut W, answer: Answer<&[u8]>) -> io::Result<()>
    ensures { OnOk result (Told (answer_bytes (answered answer.entry)) (W.contents out.old) (W.contents out.new)) }
{
    out.write_all(make_frame(answer, &mut [0; LONGEST]))
}
