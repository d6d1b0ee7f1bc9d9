// Reading a script.
ghost use Rattle.std.specs.Prelude.{◌≤◌, length};

use crate::hex::{number, push_bytes};
use crate::order::{Command, Fault, Moment, Order, Script, Wrong};
use device::mirror::Side;
use octets::BLOCK;
use std::alloc::{AllocError, Global};
use wire::call;
use wire::call::Call;
use world::history::Asked;
use world::world::World;

// The most plays of one call in a line.
const MOST_TIMES: u32 = 10000;

// The words of a line, up to a comment.
fn words_of<'a>(heap: Global, line: &'a str) -> Result<Vec<&'a str>, AllocError> {
    let code = line.split_once('#').map_or(line, |(code, _)| code);
    code.split_whitespace().collect(heap)
}

// The moment of this word and this number.
fn moment(word: &str, number: u64) -> Option<Moment> {
    match word {
        "power" => Some(Moment::Power { after: number }),
        "first" => Some(Moment::Death {
            side: Side::First,
            after: number,
        }),
        "second" => Some(Moment::Death {
            side: Side::Second,
            after: number,
        }),
        "first-read" => Some(Moment::Reading {
            side: Side::First,
            read: number,
        }),
        "second-read" => Some(Moment::Reading {
            side: Side::Second,
            read: number,
        }),
        _ => None,
    }
}

// Whether the second of two words begins a moment: behind `die` it names the disk that dies.
fn begins_moment(words: &[&str]) -> bool {
    let [before, word] = words else {
        return false;
    };
    moment(word, 0).is_some() && *before != "die"
}

// Where the moments of a line begin: at the first word of theirs behind the line's own first word.
fn moments_at(words: &[&str]) -> usize
    ensures { result ≤ length words.now }
{
    words
        .windows(2)
        .position(|pair| begins_moment(pair))
        .map_or(words.len(), |before| before + 1)
}

// The moment that a word and a number are.
fn moment_of([word, n]: [&str; 2]) -> Option<Moment> {
    moment(word, number(n)?)
}

// Moments: each a word and a number.
fn moments(heap: Global, words: &[&str]) -> Result<Vec<Moment>, Wrong> {
    let (pairs, []) = words.as_chunks::<2>() else {
        return Err(Wrong::Moment);
    };
    pairs
        .iter()
        .map(|pair| moment_of(*pair).ok_or(Wrong::Moment))
        .try_collect(heap)
}

// A call, as its bytes.
fn asked(call: Call<'_>) -> Result<Asked, Wrong> {
    let mut bytes = [0; Asked::MOST];
    let n = call::encode(call, &mut bytes).ok_or(Wrong::TooLong)?;
    Asked::new(&bytes[..n]).ok_or(Wrong::TooLong)
}

// The character that fills a page: one that is printed, and no space.
fn filling(word: &str) -> Option<u8> {
    match word.as_bytes() {
        [byte] if byte.is_ascii_graphic() => Some(*byte),
        _ => None,
    }
}

fn read_call(page: &str) -> Result<Asked, Wrong> {
    let page = number(page).ok_or(Wrong::Read)?;
    asked(Call::Read { page })
}

fn write_call(page: &str, filled: &str) -> Result<Asked, Wrong> {
    let page = number(page).ok_or(Wrong::Write)?;
    let bytes = [filling(filled).ok_or(Wrong::Write)?; BLOCK];
    asked(Call::Write {
        page,
        bytes: &bytes,
    })
}

// Bytes as they stand.
fn raw(heap: Global, words: &[&str]) -> Result<Asked, Wrong> {
    let mut bytes = Vec::new(heap);
    for word in words {
        push_bytes(word, &mut bytes)?;
    }
    Asked::new(bytes.as_slice()).ok_or(Wrong::TooLong)
}

// The call that words say.
fn call_of(heap: Global, words: &[&str]) -> Result<Asked, Wrong> {
    match words {
        ["read", page] => read_call(page),
        ["read", ..] => Err(Wrong::Read),
        ["write", page, filled] => write_call(page, filled),
        ["write", ..] => Err(Wrong::Write),
        ["close"] => asked(Call::Close),
        ["close", ..] => Err(Wrong::Close),
        ["size"] => asked(Call::Size),
        ["size", ..] => Err(Wrong::Size),
        ["bytes", rest @ ..] => raw(heap, rest),
        _ => Err(Wrong::NoSuchLine),
    }
}

fn times(heap: Global, words: &[&str]) -> Result<Order, Wrong> {
    let (n, call) = words.split_first().ok_or(Wrong::Times)?;
    let n = number(n).ok_or(Wrong::Times)?;
    if call.is_empty() {
        return Err(Wrong::Times);
    }
    if !(1..=MOST_TIMES).contains(&n) {
        return Err(Wrong::TimesOutside);
    }
    Ok(Order::Times(n, call_of(heap, call)?))
}

fn set(heap: Global, words: &[&str]) -> Result<Order, Wrong> {
    let (block, bytes) = words.split_first().ok_or(Wrong::Set)?;
    Ok(Order::Set {
        block: number(block).ok_or(Wrong::Set)?,
        bytes: raw(heap, bytes)?,
    })
}

// What a line asks for, without its moments.
fn order(heap: Global, words: &[&str]) -> Result<Order, Wrong> {
    match words {
        ["recover"] => Ok(Order::Recover),
        ["power"] => Ok(Order::Power),
        ["die", "first"] => Ok(Order::Die(Side::First)),
        ["die", "second"] => Ok(Order::Die(Side::Second)),
        ["quiet"] => Ok(Order::Quiet),
        ["loud"] => Ok(Order::Loud),
        ["times", rest @ ..] => times(heap, rest),
        ["set", rest @ ..] => set(heap, rest),
        _ => Ok(Order::Call(call_of(heap, words)?)),
    }
}

// Whether a line of this kind may have moments.
fn has_moments(order: Order) -> bool {
    matches!(order, Order::Call(_) | Order::Recover)
}

fn command(heap: Global, line: usize, words: &[&str]) -> Result<Command, Wrong> {
    let (own, rest) = words.split_at(moments_at(words));
    let order = order(heap, own)?;
    if !rest.is_empty() && !has_moments(order) {
        return Err(Wrong::NoMoments);
    }
    Ok(Command {
        line,
        text: own.join(heap, " ")?,
        order,
        moments: moments(heap, rest)?,
    })
}

// The number of pages, which the first line says.
fn pages_of(words: &[&str]) -> Result<u32, Wrong> {
    let ["pages", n] = words else {
        return Err(Wrong::NoPages);
    };
    number(n)
        .filter(|n| (1..=World::MOST_PAGES).contains(n))
        .ok_or(Wrong::PagesOutside)
}

// Takes one line into the script, which the first line that has words begins.
fn take_line(
    heap: Global,
    script: &mut Option<Script>,
    line: usize,
    text: &str,
) -> Result<(), Wrong> {
    let words = words_of(heap, text)?;
    let words = words.as_slice();
    match script {
        _ if words.is_empty() => {}
        Some(script) => script.commands.push(command(heap, line, words)?)?,
        None => {
            *script = Some(Script {
                pages: pages_of(words)?,
                commands: Vec::new(heap),
            })
        }
    }
    Ok(())
}

// The script that a text is.
pub fn script(heap: Global, text: &str) -> Result<Script, Fault> {
    let mut script = None;
    for (before, each) in text.lines().enumerate() {
        let line = before.saturating_add(1);
        take_line(heap, &mut script, line, each).map_err(|wrong| Fault { line, wrong })?;
    }
    script.ok_or_else(|| Fault {
        line: text.lines().count().saturating_add(1),
        wrong: Wrong::NoPages,
    })
}
