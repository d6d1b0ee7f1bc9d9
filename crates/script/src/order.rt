// What a line of a script asks for.
use device::mirror::Side;
use std::alloc::{AllocError, AllocFailed};
use std::error::Error;
use std::fmt;
use world::history::Asked;
use world::world::{NotTaken, Unmade};

// What strikes the disks while a call or recovery is under way.
#[derive(Clone, Copy, PartialEq, Eq, Debug)]
pub enum Moment {
    // Power goes after so many of its writes are done.
    Power { after: u64 },
    // A disk dies after so many of its writes are done.
    Death { side: Side, after: u64 },
    // A disk dies while what is needed is read, at the beginning: at its read of this number, from 1 on.
    Reading { side: Side, read: u64 },
}

#[derive(Clone, Copy)]
pub enum Order {
    Call(Asked),
    // The same call so many times, shown in a line.
    Times(u32, Asked),
    Recover,
    // Power goes at rest, or again.
    Power,
    Die(Side),
    // Bytes put at the start of a block of both disks, by no register.
    Set { block: u64, bytes: Asked },
    // Single writes are left out from here on, or shown again.
    Quiet,
    Loud,
}

#[derive(Drop)]
pub struct Command {
    // The line of the script, from 1 on.
    pub line: usize,
    // The line's words, without the moments.
    pub text: String,
    pub order: Order,
    pub moments: Vec<Moment>,
}

#[derive(Drop)]
pub struct Script {
    pub pages: u32,
    pub commands: Vec<Command>,
}

// What is wrong with a line.
#[derive(Clone, Copy, PartialEq, Eq, Debug)]
pub enum Wrong {
    NoPages,
    PagesOutside,
    NoSuchLine,
    Read,
    Write,
    Close,
    Size,
    Times,
    TimesOutside,
    Set,
    Bytes,
    TooLong,
    Moment,
    NoMoments,
    // What can't happen when the line is played.
    PowerGone,
    PowerThere,
    MomentLate,
    MomentAfterPower,
    LastDisk,
    DeadBefore,
    SetOutside,
    NotExplored,
    NoDisk,
    Memory,
}

impl fmt::Display for Wrong {
    fn fmt<W: fmt::Write>(&self, f: &mut fmt::Formatter<W>) -> fmt::Result {
        f.write_str(match self {
            Wrong::NoPages => "a script begins with `pages` and a number",
            Wrong::PagesOutside => "there are 1 to 16 pages",
            Wrong::NoSuchLine => "there is no such line",
            Wrong::Read => "a read is `read PAGE`",
            Wrong::Write => "a write is `write PAGE CHARACTER`",
            Wrong::Close => "a close is `close`",
            Wrong::Size => "a size is `size`",
            Wrong::Times => "a repetition is `times NUMBER CALL`",
            Wrong::TimesOutside => "a call is repeated 1 to 10,000 times",
            Wrong::Set => "setting bytes is `set BLOCK BYTES`",
            Wrong::Bytes => "bytes are pairs of hexadecimal digits, or a pair, `*` and how often",
            Wrong::TooLong => "there are more than 1,030 bytes",
            Wrong::Moment =>
                "a moment is `power`, `first` or `second` and a number of writes, or `first-read` or `second-read` and the number of a read",
            Wrong::NoMoments => "only a call and `recover` have moments",
            Wrong::PowerGone => "power is gone: only `recover`, `power` and `die` are possible",
            Wrong::PowerThere => "power is there, and there is nothing to recover",
            Wrong::MomentLate => "there are fewer writes, or reads, than a moment says",
            Wrong::MomentAfterPower => "a moment comes after power went",
            Wrong::LastDisk => "the other disk is dead, and one has to live",
            Wrong::DeadBefore => "the disk is dead already",
            Wrong::NotExplored => "`times` and `set` are only played, and not explored",
            Wrong::SetOutside => "there is no such block, or more bytes than a block has",
            Wrong::NoDisk => "no disk lives",
            Wrong::Memory => "there is not enough memory",
        })
    }
}

impl Error for Wrong {}

impl From<AllocError> for Wrong {
    fn from(_e: AllocError) -> Wrong {
        Wrong::Memory
    }
}

impl<T: Drop> From<AllocFailed<T>> for Wrong {
    fn from(_e: AllocFailed<T>) -> Wrong {
        Wrong::Memory
    }
}

impl From<Unmade> for Wrong {
    fn from(why: Unmade) -> Wrong {
        match why {
            Unmade::Pages => Wrong::PagesOutside,
            Unmade::Memory => Wrong::Memory,
        }
    }
}

// What is wrong with a line at which the world doesn't take a step.
impl From<NotTaken> for Wrong {
    fn from(why: NotTaken) -> Wrong {
        match why {
            // A play's calls and recoveries are whole or cut, so that between its lines only power can be gone.
            NotTaken::NotNow => Wrong::PowerGone,
            NotTaken::Outside => Wrong::SetOutside,
            NotTaken::NoDisk => Wrong::NoDisk,
            NotTaken::Memory => Wrong::Memory,
        }
    }
}

// Why a script can't be read or played: a line, and what is wrong with it.
#[derive(Clone, Copy, PartialEq, Eq, Debug)]
pub struct Fault {
    pub line: usize,
    pub wrong: Wrong,
}

impl fmt::Display for Fault {
    fn fmt<W: fmt::Write>(&self, f: &mut fmt::Formatter<W>) -> fmt::Result {
        let Fault { line, wrong } = self;
        write!(f, "line {line}: {wrong}")
    }
}

impl Error for Fault {}

impl fmt::Display for Moment {
    fn fmt<W: fmt::Write>(&self, f: &mut fmt::Formatter<W>) -> fmt::Result {
        match *self {
            Moment::Power { after } => write!(f, "power {after}"),
            Moment::Death { side, after } => write!(f, "{side} {after}"),
            Moment::Reading { side, read } => write!(f, "{side}-read {read}"),
        }
    }
}

// The command as a line of a script.
impl fmt::Display for Command {
    fn fmt<W: fmt::Write>(&self, f: &mut fmt::Formatter<W>) -> fmt::Result {
        let text = self.text.as_str();
        write!(f, "{text}")?;
        for moment in self.moments.iter() {
            write!(f, " {moment}")?;
        }
        Ok(())
    }
}
