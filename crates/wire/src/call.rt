// What a clerk asks, as bytes.
//
// The first byte is the call's number. A read and a write go on with the page's number in four bytes, low
// byte first; a write ends with the page's bytes, as many as follow. Whether those are a whole page, and
// whether there is such a page, is for the register to say: here they are only told apart.
ghost use Rattle.std.specs.Prelude.{◌≡◌};
ghost use Rattle.wire.specs.Encoded.{Encoded};
ghost use Rattle.wire.specs.Calls.{call_of, call_bytes, meant, decoded, RoundTrip, OwnBytes, Ceases, Numbered};

use crate::write;

// The calls' numbers are constants, and no enum: a byte is matched by them where bytes are read.
const READ: u8 = 0;

const WRITE: u8 = 1;

const CLOSE: u8 = 2;

const SIZE: u8 = 3;

#[derive(Clone, Copy, Debug, PartialEq, Eq)]
pub enum Call<'a> {
    Read { page: u32 },
    // Holds when it is closed.
    Write { page: u32, bytes: &'a [u8] },
    // All that was written holds from now on, or nothing of it.
    Close,
    // How many pages there are.
    Size,
}

// Bytes that are no call: the place of the first byte that cannot belong to a call after those before it, or
// their length where more had to follow.
#[derive(Clone, Copy, Debug, PartialEq, Eq)]
pub struct NotACall {
    pub place: u32,
}

// The call that the bytes are.
pub fn decode(bytes: &[u8]) -> Result<Call<'_>, NotACall>
    ensures { decoded result ≡ call_of bytes.now }
{
    match bytes {
        [READ, a, b, c, d] => Ok(Call::Read {
            page: u32::from_le_bytes([*a, *b, *c, *d]),
        }),
        [READ, _, _, _, _, ..] => Err(NotACall { place: 5 }),
        [WRITE, a, b, c, d, bytes @ ..] => Ok(Call::Write {
            page: u32::from_le_bytes([*a, *b, *c, *d]),
            bytes,
        }),
        [READ | WRITE, ..] => Err(NotACall {
            place: bytes.len() as u32,
        }),
        [CLOSE] => Ok(Call::Close),
        [SIZE] => Ok(Call::Size),
        [CLOSE | SIZE, ..] => Err(NotACall { place: 1 }),
        _ => Err(NotACall { place: 0 }),
    }
}

// Writes the call's bytes at the front of what is lent and tells how many they are; writes nothing where
// they don't fit.
pub fn encode(call: Call<'_>, out: &mut [u8]) -> Option<usize>
    ensures { Encoded result (call_bytes (meant call.entry)) out.old out.new }
{
    match call {
        Call::Read { page } => {
            let [a, b, c, d] = page.to_le_bytes();
            write(out, &[READ, a, b, c, d], &[])
        }
        Call::Write { page, bytes } => {
            let [a, b, c, d] = page.to_le_bytes();
            write(out, &[WRITE, a, b, c, d], bytes)
        }
        Call::Close => write(out, &[CLOSE], &[]),
        Call::Size => write(out, &[SIZE], &[]),
    }
}

// Calls and bytes fit each other: what is written is read back, and bytes that are a call are that call's
// own. Of bytes that are none, those before the place begin some call, and those with one byte more begin no
// call. And the numbers are those by which the book knows the calls.
pub fn calls_stand()
    ensures back { RoundTrip }
    ensures own { OwnBytes }
    ensures place { Ceases }
    ensures number { Numbered }
{}
