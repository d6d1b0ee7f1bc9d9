// The journal's header: block 0 of a disk.
//
// A close has two halves: first the header is written as holding, then the logged pages go to their
// places. That one block decides: before it is written nothing of the close holds, after it all does, and
// recovery finishes the second half. So the header is one block, and is written as a whole.
ghost use Rattle.std.specs.Prelude.{◌≡◌, Some};
ghost use Rattle.layout.specs.Header.{header_block, header_text, flag_in, holds_in, count_in};

use octets::Block;
use std::fmt;

#[derive(Clone, Copy, PartialEq, Eq, Debug)]
pub struct Header {
    // From a close's first write to its last.
    pub holds: bool,
    // How many writes are in the log. A plain number, and no `Count`: a header may be shown that no register wrote.
    pub count: u32,
}

impl Header {
    // Puts the header into a block; every other byte is zero.
    pub fn encode(self, block: &mut Block)
        ensures { block.new ≡ header_block self.holds self.count }
    {
        octets::clear(block);
        block[0] = u8::from(self.holds);
        octets::put_u32(block, 1, self.count);
    }
}

// What a header's bytes say, whatever they are.
impl From<&Block> for Header {
    ghost from_gives = { λ block header. (header.holds ≡ holds_in block.now) × (header.count ≡ count_in block.now) };

    fn from(block: &Block) -> Header {
        Header {
            holds: flag_of(block) == 1,
            count: count_of(block),
        }
    }
}

// A header in words, as both programs show it.
impl fmt::Display for Header {
    ghost output = { λ header. Some (header_text header.holds header.count) };

    fn fmt<W: fmt::Write>(&self, f: &mut fmt::Formatter<W>) -> fmt::Result {
        let count = self.count;
        if self.holds {
            return write!(f, "header: {count} logged, holding");
        }
        if count == 0 {
            return f.write_str("header: empty");
        }
        write!(f, "header: {count} logged")
    }
}

// The first byte of a header: 1 where the log holds, 0 where it doesn't, and anything on a strange disk.
pub fn flag_of(block: &Block) -> u8
    ensures { result ≡ flag_in block.now }
{
    block[0]
}

// The count in a header's bytes, whatever it is.
pub fn count_of(block: &Block) -> u32
    ensures { result ≡ count_in block.now }
{
    octets::get_u32(block, 1)
}
