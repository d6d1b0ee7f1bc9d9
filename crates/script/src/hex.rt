// Numbers and bytes as a script writes them.
ghost use Rattle.std.specs.Prelude.{◌≡◌, ◌≢◌, ◌⊎◌, Ok, Err, take, slice_index, MatchOption, IsSome, vec_len};

use crate::order::Wrong;
use std::str::FromStr;

// How often a byte is repeated at most; no call is so long.
const MOST_TIMES: usize = 10000;

// A number in decimal digits; None for any other word, and for a number that is too large. A sign, which
// `parse` takes, is no digit.
pub fn number<N: FromStr>(word: &str) -> Option<N>
where
    N::Err: Drop,
    ensures value { MatchOption result
        ((slice_index word.now 0 ≡ 43) ⊎ ((e : N.Err) × N.from_str_gives word.now (Err e)))
        (λ n. N.from_str_gives word.now (Ok n)) }
    ensures unsigned { IsSome result → slice_index word.now 0 ≢ 43 }
{
    if word.starts_with('+') {
        return None;
    }
    word.parse().ok()
}

// The byte that two hexadecimal digits are.
fn byte([high, low]: [u8; 2]) -> Option<u8> {
    let high = char::from(high).to_digit(16)?;
    let low = char::from(low).to_digit(16)?;
    Some((16 * high + low) as u8)
}

// Two digits for each byte, put behind what is there.
fn push_pairs(word: &str, out: &mut Vec<u8>) -> Result<(), Wrong>
    ensures { take (vec_len out.old) out.new.items ≡ out.old.items }
{
    let (pairs, []) = word.as_bytes().as_chunks::<2>() else {
        return Err(Wrong::Bytes);
    };
    for pair in pairs {
        out.push(byte(*pair).ok_or(Wrong::Bytes)?)?;
    }
    Ok(())
}

// A byte so many times, as `41*1024`.
fn push_many(pair: &str, times: &str, out: &mut Vec<u8>) -> Result<(), Wrong>
    ensures { take (vec_len out.old) out.new.items ≡ out.old.items }
{
    let [high, low] = pair.as_bytes() else {
        return Err(Wrong::Bytes);
    };
    let byte = byte([*high, *low]).ok_or(Wrong::Bytes)?;
    let times = number::<usize>(times)
        .filter(|n| *n <= MOST_TIMES)
        .ok_or(Wrong::Bytes)?;
    out.resize(out.len() + times, byte)?;
    Ok(())
}

// A word of bytes, put behind what is there.
pub fn push_bytes(word: &str, out: &mut Vec<u8>) -> Result<(), Wrong>
    ensures { take (vec_len out.old) out.new.items ≡ out.old.items }
{
    match word.split_once('*') {
        Some((pair, times)) => push_many(pair, times, out),
        None => push_pairs(word, out),
    }
}
