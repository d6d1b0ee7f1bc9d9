// Blocks of a whole disk that is lent as bytes. A block is a part of the disk that starts in its middle.
ghost use Rattle.std.specs.Prelude.{◌≡◌, ◌+◌, ◌*◌, ◌<◌, ◌≤◌, length};
ghost use Rattle.model.specs.Book.{nth, set_page};
ghost use Rattle.device.specs.Blocks.{whole, Shows};

use octets::{BLOCK, Block};

// How many blocks there are.
pub fn count(disk: &[u8]) -> u64
    ensures value { result ≡ length (whole disk.now) }
    ensures bound { result < 18014398509481984 }
{
    disk.len() as u64 / BLOCK as u64
}

// A block where it stands, an empty one past the end.
fn at(disk: &[u8], block: u64) -> &Block
    ensures value { result.now ≡ nth (whole disk.now) block }
    ensures len { length result.now ≡ 1024 }
{
    if block >= count(disk) {
        return &octets::EMPTY;
    }
    octets::block_at(disk, BLOCK * block as usize)
}

// Reads a block, an empty one past the end.
pub fn read_block(disk: &[u8], block: u64, out: &mut Block)
    ensures { out.new ≡ nth (whole disk.now) block }
{
    octets::copy_block(at(disk, block), out);
}

// Reads as many whole blocks as fit, from a block on.
pub fn read_blocks(disk: &[u8], from: u64, out: &mut [u8])
    ensures { Shows out.new (whole disk.now) from }
{
    // Past the disk's end one block is as empty as another.
    let start = from.min(count(disk));
    // By number: of a slice that was lent in chunks the library does not say what it holds afterwards.
    for i in 0..out.len() / BLOCK {
        octets::put_block(out, BLOCK * i, at(disk, start + i as u64));
    }
}

// Writes a block; nothing past the end.
pub fn write_block(disk: &mut [u8], block: u64, bytes: &Block)
    ensures { whole disk.new ≡ set_page (whole disk.old) block bytes.now }
{
    if block < count(disk) {
        octets::put_block(disk, BLOCK * block as usize, bytes);
    }
}
