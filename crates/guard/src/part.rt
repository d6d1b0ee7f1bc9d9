// What a block of a disk is, and what is put there, in words.
ghost use Rattle.guard.specs.Parts.{Stands};

use device::mirror::Side;
use layout::header::Header;
use layout::places::Layout;
use octets::Block;
use std::fmt;

#[derive(Clone, Copy, PartialEq, Eq, Debug)]
pub enum Part {
    // The journal's header.
    Header,
    // The list of the log's pages.
    List,
    // A write of the log.
    Entry(u32),
    // A page of the book.
    Page(u32),
    // No disk has such a block.
    Nothing,
}

// What the block of a number is.
pub fn part_of(block: u64) -> Part
    ensures { Stands block result }
{
    if block == Layout::HEADER {
        return Part::Header;
    }
    if block == Layout::LIST {
        return Part::List;
    }
    if block < Layout::PAGES {
        return Part::Entry((block - Layout::LOG) as u32);
    }
    if block < Layout::PAGES + Layout::MOST_PAGES as u64 {
        return Part::Page((block - Layout::PAGES) as u32);
    }
    Part::Nothing
}

// One block as it is written on one disk.
#[derive(Clone, Copy)]
pub struct Put<'a> {
    pub side: Side,
    pub block: u64,
    pub bytes: &'a Block,
}

// What a block's bytes are, in words.
fn show_content<W: fmt::Write>(
    f: &mut fmt::Formatter<W>,
    part: Part,
    bytes: &Block,
) -> fmt::Result {
    match part {
        Part::Header => {
            let header = Header::from(bytes);
            write!(f, "{header}")
        }
        Part::List => f.write_str("list"),
        Part::Entry(i) => write!(f, "log entry {i}"),
        Part::Page(page) => write!(f, "page {page}"),
        Part::Nothing => f.write_str("nothing"),
    }
}

impl fmt::Display for Put<'_> {
    fn fmt<W: fmt::Write>(&self, f: &mut fmt::Formatter<W>) -> fmt::Result {
        let side = self.side;
        let block = self.block;
        let bytes = self.bytes;
        write!(f, "{side:<6}  block {block}  ")?;
        show_content(f, part_of(block), bytes)
    }
}
