// Recovery: what is done after power went, before any call.
//
// Power may have gone between the two writes of one block; then the disks differ in that block, and it is
// written on the second as it is on the first. After that they are the same, and the journal's own recovery
// goes on both. Power may go again at any moment, and recovery then begins anew.
ghost use Rattle.std.specs.Prelude.{◌≡◌, ◌+◌, ◌*◌, ◌<◌, ◌≤◌, length, is_ok, IfSome};
ghost use Rattle.std.specs.Result.{result_ok};
ghost use Rattle.device.specs.Blocks.{block_of};
ghost use Rattle.engine.specs.Living.{RecoveryLives};
ghost use Rattle.engine.specs.Recovering.{Highest, blocks_in, PieceRead, Scanned, WorksOut, RecoveryBegun, Recovered};

use crate::perform::finish;
use crate::work::Work;
use device::Dead;
use device::mirror::{PIECE_BLOCKS, PIECE_BYTES, Pair};
use journal::admit;
use layout::log::{Front, Log};
use layout::places::Layout;
use octets::{BLOCK, Block, EMPTY};

// The highest block of two pieces in which they differ.
fn highest_difference(first: &[u8], second: &[u8]) -> Option<usize>
    ensures bound { IfSome result (λ i. (1024 * i + 1024 ≤ length first.now) × (1024 * i + 1024 ≤ length second.now)) }
    ensures value { Highest (block_of first.now) (block_of second.now) 0 (blocks_in first.now second.now) result }
{
    if octets::same(first, second) {
        return None;
    }
    let blocks = first.len().min(second.len()) / BLOCK;
    // Not `rfind`: tried, and that its answer is the highest was not proved, since of a range that is read from its
    // end the library states single steps.
    for i in (0..blocks).rev() {
        if !octets::same(
            octets::block_at(first, BLOCK * i),
            octets::block_at(second, BLOCK * i),
        ) {
            return Some(i);
        }
    }
    None
}

// Reads a piece of both disks, unless one of them is dead: the highest block in which they differ, which is
// kept as it is on the first.
fn scan_piece<P: Pair>(
    disks: &mut P,
    from: u64,
    first: &mut [u8],
    second: &mut [u8],
    block: &mut Block,
) -> Result<Option<u64>, Dead>
    requires { from < 8589934592 }
    ensures { PieceRead (P.Pair.disks disks.old) (P.Pair.disks disks.new) from (blocks_in first.old second.old) result block.old block.new }
{
    disks.read_both(from, first, second)?;
    let Some(i) = highest_difference(first, second) else {
        return Ok(None);
    };
    octets::copy_block(octets::block_at(first, BLOCK * i), block);
    Ok(Some(from + i as u64))
}

// Reads both disks through: the highest block in which they differ, which is kept as it is on the first.
// None where they are the same, or one of them is dead.
pub fn scan<P: Pair>(disks: &mut P, pages: u32, block: &mut Block) -> Option<u64>
    ensures { Scanned (P.Pair.disks disks.old) (P.Pair.disks disks.new) pages result block.new }
{
    let blocks = Layout::blocks(pages);
    let mut first = [0; PIECE_BYTES];
    let mut second = [0; PIECE_BYTES];
    let mut highest = None;
    // By numbers: a disk is no slice that could be cut into pieces, and the last piece is a shorter one.
    for piece in 0..blocks.div_ceil(PIECE_BLOCKS) {
        let from = PIECE_BLOCKS * piece;
        let n = BLOCK * (blocks - from).min(PIECE_BLOCKS) as usize;
        let Ok(found) = scan_piece(disks, from, &mut first[0..n], &mut second[0..n], block) else {
            return None;
        };
        highest = found.or(highest);
    }
    highest
}

// What recovery writes, by the front of the disk that is gone by: the block to be copied, if there is
// one, and what the journal replays.
fn replaying(copy: Option<u64>, block: Block, bytes: &[u8; Front::BYTES], pages: u32) -> Work
    ensures keeps { (result.copy ≡ copy) × (result.block ≡ block) }
    ensures plan { WorksOut bytes.now pages result }
{
    let list = *octets::block_at(bytes, BLOCK);
    Work {
        copy,
        plan: admit::replay(Log::decode(octets::block_at(bytes, 0), &list, pages)),
        list,
        block,
    }
}

// Begins recovery of disks of so many pages, unless both are dead: works out all that it writes.
pub fn begin_recovery<P: Pair>(disks: &mut P, pages: u32) -> Result<Work, Dead>
    ensures { RecoveryBegun (P.Pair.disks disks.old) (P.Pair.disks disks.new) pages (result_ok result) }
{
    let mut block = EMPTY;
    let copy = scan(disks, pages, &mut block);
    let mut first = [0; Front::BYTES];
    let mut second = [0; Front::BYTES];
    // Where both live, the first is gone by, and what differs is still to be copied.
    if disks
        .read_both(Layout::HEADER, &mut first, &mut second)
        .is_ok()
    {
        return Ok(replaying(copy, block, &first, pages));
    }
    // Where one died by now, even while it was read, the other is gone by, and there is nothing to copy.
    disks.read(Layout::HEADER, &mut first)?;
    Ok(replaying(None, block, &first, pages))
}

// A whole recovery, unless both disks are dead: what it wrote, for a report.
//
// On disks of which all is known, after power went in a world that can be reached, it leads to disks at rest
// that are reachable, with the same past.
pub fn recover<P: Pair>(disks: &mut P, pages: u32) -> Result<Work, Dead>
    ensures done { Recovered (P.Pair.disks disks.old) (P.Pair.disks disks.new) pages (is_ok result) }
    ensures lives { RecoveryLives (P.Pair.disks disks.old) (P.Pair.disks disks.new) pages (is_ok result) }
{
    let work = begin_recovery(disks, pages)?;
    finish(disks, &work)?;
    Ok(work)
}
