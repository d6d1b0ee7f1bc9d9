// What two disks show before recovery, and whether a register can have left them so.
//
// Power leaves two living disks that differ in one block at most, and headers of one kind. Anything else was
// not left by this register: they are disks of two registers, or one of them is an old copy. Recovery would
// make something of them all the same, so they are looked at first.
use device::Dead;
use device::mirror::{PIECE_BLOCKS, PIECE_BYTES, Pair};
use layout::log::Front;
use layout::places::Layout;
use octets::BLOCK;

// The blocks in which two disks differ: how many, the first of them and the last.
#[derive(Clone, Copy, PartialEq, Eq, Debug)]
pub struct Differences {
    pub count: u64,
    pub first: u64,
    pub last: u64,
}

impl Differences {
    // These and a block after them; that block alone where there are none.
    fn with(found: Option<Differences>, block: u64) -> Differences {
        match found {
            None => Differences {
                count: 1,
                first: block,
                last: block,
            },
            Some(found) => Differences {
                count: found.count.saturating_add(1),
                first: found.first,
                last: block,
            },
        }
    }
}

// Adds the blocks in which two pieces differ, of which the first has this number.
fn compare_piece(first: &[u8], second: &[u8], from: u64, found: &mut Option<Differences>) {
    if octets::same(first, second) {
        return;
    }
    let blocks = first.chunks_exact(BLOCK).zip(second.chunks_exact(BLOCK));
    for (i, (a, b)) in blocks.enumerate() {
        if !octets::same(a, b) {
            *found = Some(Differences::with(*found, from.saturating_add(i as u64)));
        }
    }
}

// Reads both disks through and compares them, unless one of them is dead. None: they are the same.
pub fn compare_disks<P: Pair>(disks: &mut P, pages: u32) -> Result<Option<Differences>, Dead> {
    let blocks = Layout::blocks(pages);
    let mut first = [0; PIECE_BYTES];
    let mut second = [0; PIECE_BYTES];
    let mut found = None;
    // By numbers, as the engine reads them: a disk is no slice that could be cut into pieces. And not one function
    // with it: there nothing fails, and what is found is one block.
    for piece in 0..blocks.div_ceil(PIECE_BLOCKS) {
        let from = PIECE_BLOCKS * piece;
        let n = BLOCK * (blocks - from).min(PIECE_BLOCKS) as usize;
        disks.read_both(from, &mut first[..n], &mut second[..n])?;
        compare_piece(&first[..n], &second[..n], from, &mut found);
    }
    Ok(found)
}

// The front of the first disk that lives.
pub fn read_front<P: Pair>(disks: &mut P) -> Result<Front, Dead> {
    let mut bytes = [0; Front::BYTES];
    disks.read(Layout::HEADER, &mut bytes)?;
    Ok(Front::of(&bytes))
}

// The fronts of both disks, unless one of them is dead.
pub fn read_fronts<P: Pair>(disks: &mut P) -> Result<(Front, Front), Dead> {
    let mut first = [0; Front::BYTES];
    let mut second = [0; Front::BYTES];
    disks.read_both(Layout::HEADER, &mut first, &mut second)?;
    Ok((Front::of(&first), Front::of(&second)))
}
