// Which bytes of its file a disk's blocks are.
ghost use Rattle.std.specs.Prelude.{◌≡◌, ◌+◌, ◌-◌, ◌*◌, ◌/◌, ◌<◌, ◌≤◌, min, MatchOption};
ghost use Rattle.model.specs.Numbers.{first_page, most_pages, page_size};

use layout::places::{Extent, Layout};
use octets::BLOCK;

// So many blocks, or as many as a disk may have.
pub fn at_most(blocks: u64) -> Extent
    ensures { result.blocks ≡ min blocks (most_pages + first_page) }
{
    Extent {
        blocks: blocks.min(Layout::blocks(Layout::MOST_PAGES)),
    }
}

// Where a block begins in a disk's file; None past the disk's end.
pub fn place(disk: Extent, block: u64) -> Option<u64>
    ensures { MatchOption result (disk.blocks ≤ block) (λ n. (block < disk.blocks) × (n ≡ page_size * block)) }
{
    if block >= disk.blocks {
        return None;
    }
    Layout::offset(block)
}

// How long a disk's file is.
pub fn file_length(disk: Extent) -> u64
    ensures { result ≡ page_size * disk.blocks }
{
    BLOCK as u64 * disk.blocks
}

// How many of the bytes that a read asks for stand on a disk: whole blocks, up to its end.
pub fn on_disk(disk: Extent, from: u64, len: usize) -> usize
    ensures value { result ≡ page_size * min (disk.blocks - from) (len / page_size) }
    ensures within { result ≤ len }
{
    let left = disk.blocks.saturating_sub(from) as usize;
    BLOCK * left.min(len / BLOCK)
}
