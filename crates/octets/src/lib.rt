// Bytes in lent slices: numbers of four bytes, whole blocks, and whether two slices are the same.
//
// Every format of the register is built of these few moves. Their contracts say exactly which bytes stand
// where afterwards, as one equation of lists for each slice that is changed.
#![tactic(auto)]

ghost use Rattle.std.specs.Prelude.{◌≡◌, ◌+◌, ◌≤◌, length, Decides};
ghost use Rattle.model.specs.Book.{empty_page};
ghost use Rattle.octets.specs.Words.{le4, num4, overwritten, part, ReadsBack, KeepsOthers};

// Bytes in a block, and in a page.
pub const BLOCK: usize = 1024;

// A block of a disk, or a page of the book: that it has so many bytes is known of every one.
pub type Block = [u8; BLOCK];

// The empty block, as it is written and compared.
pub const EMPTY: Block = [0; BLOCK];

// The number in the four bytes from a place on, low byte first.
pub fn get_u32(src: &[u8], at: usize) -> u32
    requires { at + 4 ≤ length src.now }
    ensures { result ≡ num4 src.now at }
{
    u32::from_le_bytes([src[at], src[at + 1], src[at + 2], src[at + 3]])
}

// Writes a number into the four bytes from a place on, low byte first.
pub fn put_u32(dst: &mut [u8], at: usize, n: u32)
    requires { at + 4 ≤ length dst.old }
    ensures { dst.new ≡ overwritten dst.old at (le4 n) }
{
    dst[at..at + 4].copy_from_slice(&n.to_le_bytes());
}

// One block read from one slice and written in another.
pub fn copy_block(from: &[u8], to: &mut [u8])
    requires { (length from.now ≡ 1024) × (length to.old ≡ 1024) }
    ensures { to.new ≡ from.now }
{
    to.copy_from_slice(from);
}

// A block that stands in the middle of longer bytes, handed on as a part of them.
pub fn block_at(bytes: &[u8], at: usize) -> &Block
    requires { at + 1024 ≤ length bytes.now }
    ensures value { result.now ≡ part bytes.now at 1024 }
    ensures len { length result.now ≡ 1024 }
{
    bytes[at..at + BLOCK].as_array().unwrap()
}

// A block written into a part of longer bytes that starts in their middle.
pub fn put_block(bytes: &mut [u8], at: usize, block: &Block)
    requires { at + 1024 ≤ length bytes.old }
    ensures { bytes.new ≡ overwritten bytes.old at block.now }
{
    bytes[at..at + BLOCK].copy_from_slice(block);
}

// Makes a block empty.
pub fn clear(block: &mut Block)
    ensures { block.new ≡ empty_page }
{
    copy_block(&EMPTY, block);
}

// Whether a block is empty.
pub fn is_empty(block: &[u8]) -> bool
    ensures { Decides result (block.now ≡ empty_page) }
{
    same(block, &EMPTY)
}

// Whether two slices hold the same bytes. A start compares both disks whole by this, and recovery again.
pub fn same(a: &[u8], b: &[u8]) -> bool
    ensures { Decides result (a.now ≡ b.now) }
{
    a == b
}

// A number of four bytes is read back as it was written, and no other is disturbed.
pub fn numbers_stand()
    ensures same { ReadsBack }
    ensures others { KeepsOthers }
{}
