// How much of the log stands: the header and the list read together.
//
// A register writes only headers of one kind: first byte 0 or 1, a count of at most 256, pages of the book
// in the list. Any other header is met by total code all the same: it is read as an empty one, so that
// every plan is bounded and stays within the disk, whatever the disks hold.
ghost use Rattle.std.specs.Prelude.{◌≡◌, true, false, length, MatchResult, Some};
ghost use Rattle.octets.specs.Words.{part};
ghost use Rattle.layout.specs.Reading.{sane, log_holds, log_count, strange_text};

use crate::count::Count;
use crate::header::{count_of, flag_of};
use crate::list::all_below;
use octets::{BLOCK, Block};
use std::fmt;

// A flag beside the count, and no enum: so many writes are there whether the log holds or not.
#[derive(Clone, Copy, PartialEq, Eq, Debug)]
pub struct Log {
    // A close was begun, and its pages are to be brought to their places.
    pub holds: bool,
    // How many writes are in the log.
    pub count: Count,
}

// Why no register wrote a header and a list.
#[derive(Clone, Copy, PartialEq, Eq, Debug)]
pub enum Strange {
    // The first byte is neither 0 nor 1.
    Flag,
    // More writes are counted than the log has room for.
    Count,
    // The list names a page that is not there.
    Page,
}

// In words that go on from 'the disk has a header that no register writes'.
impl fmt::Display for Strange {
    ghost output = { λ strange. Some (strange_text strange) };

    fn fmt<W: fmt::Write>(&self, f: &mut fmt::Formatter<W>) -> fmt::Result {
        f.write_str(match self {
            Strange::Flag => "its first byte is neither 0 nor 1",
            Strange::Count => "it counts more writes than the log has room for",
            Strange::Page => "the list names a page that is not there",
        })
    }
}

impl Log {
    // What a header and a list say together, or why no register with so many pages wrote them.
    pub fn read(header: &Block, list: &Block, pages: u32) -> Result<Log, Strange>
        ensures { MatchResult result
            (λ log. (sane header.now list.now pages ≡ true)
            × (log.holds ≡ log_holds header.now list.now pages) × (log.count.writes ≡ log_count header.now list.now pages))
            (λ _. sane header.now list.now pages ≡ false) }
    {
        let flag = flag_of(header);
        if flag > 1 {
            return Err(Strange::Flag);
        }
        let count = Count::new(count_of(header)).ok_or(Strange::Count)?;
        if !all_below(list, pages, count) {
            return Err(Strange::Page);
        }
        Ok(Log {
            holds: flag == 1,
            count,
        })
    }

    // What they say of the log; strange ones are read as an empty one.
    pub fn decode(header: &Block, list: &Block, pages: u32) -> Log
        ensures holds { result.holds ≡ log_holds header.now list.now pages }
        ensures count { result.count.writes ≡ log_count header.now list.now pages }
    {
        match Log::read(header, list, pages) {
            Ok(log) => log,
            Err(_) => Log {
                holds: false,
                count: Count::NONE,
            },
        }
    }
}

// The front of a disk: the header and the list, which say something only together.
#[derive(Clone, Copy, PartialEq, Eq, Debug)]
pub struct Front {
    pub header: Block,
    pub list: Block,
}

impl Front {
    // Bytes in the front, as it is read at once.
    pub const BYTES: usize = 2048;

    // The front that the first bytes of a disk are.
    pub fn of(bytes: &[u8; Front::BYTES]) -> Front
        ensures header { result.header ≡ part bytes.now 0 1024 }
        ensures list { result.list ≡ part bytes.now 1024 1024 }
    {
        Front {
            header: *octets::block_at(bytes, 0),
            list: *octets::block_at(bytes, BLOCK),
        }
    }

    // What it says of the log, or why no register with so many pages wrote it.
    pub fn decode(&self, pages: u32) -> Result<Log, Strange>
        ensures { MatchResult result
            (λ log. (sane self.now.header self.now.list pages ≡ true)
            × (log.holds ≡ log_holds self.now.header self.now.list pages) × (log.count.writes ≡ log_count self.now.header self.now.list pages))
            (λ _. sane self.now.header self.now.list pages ≡ false) }
    {
        Log::read(&self.header, &self.list, pages)
    }

    // Whether a register with so many pages may have written it.
    pub fn is_sane(&self, pages: u32) -> bool
        ensures { result ≡ sane self.now.header self.now.list pages }
    {
        self.decode(pages).is_ok()
    }

    // What it says of the log; a strange one is read as an empty one.
    pub fn log(&self, pages: u32) -> Log
        ensures holds { result.holds ≡ log_holds self.now.header self.now.list pages }
        ensures count { result.count.writes ≡ log_count self.now.header self.now.list pages }
    {
        Log::decode(&self.header, &self.list, pages)
    }
}
