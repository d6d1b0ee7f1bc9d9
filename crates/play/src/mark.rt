// What is seen of a play: a mark for each thing that happens, in order.
use device::mirror::Side;
use engine::write::Write;
use std::fmt;
use wire::answer::{Answer, Refusal};
use world::history::Told;

// A page, as far as a line can show it.
#[derive(Clone, Copy, PartialEq, Eq, Debug)]
pub enum Look {
    Empty,
    // Filled with one byte.
    Filled(u8),
    // A sum of the bytes, by which two pages can be told apart.
    Mixed(u32),
}

// Where the sum of no bytes begins, and what it is multiplied by at each byte (FNV-1a).
const BASIS: u32 = 2166136261;

const PRIME: u32 = 16777619;

// Sums the bytes so that each counts at its place.
fn sum_of(page: &[u8]) -> u32 {
    page.iter().fold(
        BASIS,
        |sum, byte| (sum ^ u32::from(*byte)).wrapping_mul(PRIME),
    )
}

impl Look {
    pub fn of(page: &[u8]) -> Look {
        match page {
            [] => Look::Empty,
            _ if octets::is_empty(page) => Look::Empty,
            [first, rest @ ..] if rest.iter().all(|byte| byte == first) => Look::Filled(*first),
            _ => Look::Mixed(sum_of(page)),
        }
    }
}

impl fmt::Display for Look {
    fn fmt<W: fmt::Write>(&self, f: &mut fmt::Formatter<W>) -> fmt::Result {
        match *self {
            Look::Empty => f.write_str("empty"),
            Look::Filled(byte) if byte.is_ascii_graphic() => f.write_char(char::from(byte)),
            Look::Filled(byte) => write!(f, "all {byte:02x}"),
            Look::Mixed(sum) => write!(f, "mixed {sum:08x}"),
        }
    }
}

// An answer, as far as a line can show it.
pub type Seen = Answer<Look>;

// What is seen of an answer.
pub fn seen(told: &Told) -> Seen {
    let look = match told {
        Answer::Page(page) => Look::of(page),
        _ => Look::Empty,
    };
    told.with_page(look)
}

// So many writes. The register's program has words of its own for them: the two have no crate in common that
// prints.
#[derive(Clone, Copy, PartialEq, Eq, Debug)]
pub struct Writes(pub u64);

impl fmt::Display for Writes {
    fn fmt<W: fmt::Write>(&self, f: &mut fmt::Formatter<W>) -> fmt::Result {
        match self.0 {
            1 => f.write_str("1 write"),
            n => write!(f, "{n} writes"),
        }
    }
}

// An answer in words.
#[derive(Clone, Copy, PartialEq, Eq, Debug)]
pub struct AnswerShown(pub Seen);

// What a call was answered, and by how many writes.
#[derive(Clone, Copy, PartialEq, Eq, Debug)]
pub struct Answered {
    pub answer: Seen,
    pub writes: Writes,
}

// Why a call is refused: the number, and a word or two.
fn show_refusal<W: fmt::Write>(f: &mut fmt::Formatter<W>, refusal: Refusal) -> fmt::Result {
    let number = refusal.number();
    write!(f, "refused {number}")?;
    match refusal {
        Refusal::NotACall { place } => write!(f, " at {place}, no call"),
        Refusal::Unfit => f.write_str(", unfit"),
        Refusal::NoSuchPage => f.write_str(", no such page"),
        Refusal::LogFull => f.write_str(", log full"),
    }
}

impl fmt::Display for AnswerShown {
    fn fmt<W: fmt::Write>(&self, f: &mut fmt::Formatter<W>) -> fmt::Result {
        match self.0 {
            Answer::Refused(refusal) => show_refusal(f, refusal),
            Answer::Done => f.write_str("done"),
            Answer::Page(look) => write!(f, "page {look}"),
            Answer::Number(n) => write!(f, "number {n}"),
        }
    }
}

impl fmt::Display for Answered {
    fn fmt<W: fmt::Write>(&self, f: &mut fmt::Formatter<W>) -> fmt::Result {
        let answer = AnswerShown(self.answer);
        let writes = self.writes;
        write!(f, "{answer}; {writes}")
    }
}

// Calls that were answered alike, one after the other.
#[derive(Clone, Copy, PartialEq, Eq, Debug)]
pub struct Alike {
    pub times: u32,
    pub each: Answered,
}

impl fmt::Display for Alike {
    fn fmt<W: fmt::Write>(&self, f: &mut fmt::Formatter<W>) -> fmt::Result {
        let Alike { times, each } = self;
        write!(f, "{times} times {each} each")
    }
}

#[derive(Clone, Copy, PartialEq, Eq, Debug)]
pub enum Mark {
    // Two new disks were made.
    Made(Writes),
    // A command of the script begins, by its place among them.
    Command(usize),
    // A write was done, by its number in the call or recovery. To a dead disk nothing was written.
    Wrote {
        number: u64,
        write: Write,
        alive: bool,
    },
    Answered(Answered),
    Repeated(Alike),
    // Power went when so many of the writes of a call or recovery were done.
    Cut {
        done: u64,
        count: Writes,
    },
    // Power went at rest.
    Power,
    Died(Side),
    Recovered(Writes),
    // Bytes were put into a block by no register.
    Set(u64),
}
