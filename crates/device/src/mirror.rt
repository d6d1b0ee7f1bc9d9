// Two disks that are kept the same.
//
// Whatever is put goes on the first disk and then on the second, and is read off the first that lives. One
// of the two may be found dead at any call; the other goes on.
ghost use Rattle.std.specs.Prelude.{◌≡◌, [], ◌∷◌, Option, Some, is_ok};
ghost use Rattle.std.specs.Borrow.{sem};
ghost use Rattle.model.specs.Disks.{on};
ghost use Rattle.device.specs.Ran.{Both, Did, Fetched, FetchedBoth, TellsLife, TellsOne, side_number, together};
ghost use Rattle.device.specs.Sides.{side_name, other, disk_at, lends_disk};

use crate::{Dead, Device};
use octets::Block;
use std::fmt;

// Which of the two.
#[derive(Clone, Copy, PartialEq, Eq, Debug)]
pub enum Side {
    First,
    Second,
}

impl Side {
    // Each of the two, in their order.
    pub const BOTH: [Side; 2] = [Side::First, Side::Second];

    // The one that this is not.
    pub fn other(self) -> Side
        ensures { result ≡ other self }
    {
        match self {
            Side::First => Side::Second,
            Side::Second => Side::First,
        }
    }
}

impl fmt::Display for Side {
    ghost output = { λ side. Some (side_name side) };

    fn fmt<W: fmt::Write>(&self, f: &mut fmt::Formatter<W>) -> fmt::Result {
        f.pad(match self {
            Side::First => "first",
            Side::Second => "second",
        })
    }
}

// How many blocks are read off both disks at once, where these are read through; and how many bytes they are.
pub const PIECE_BLOCKS: u64 = 256;

pub const PIECE_BYTES: usize = 262144;

// Two disks, as the code above uses them.
pub trait Pair {
    // What both hold, and which of them live, where that is known.
    ghost disks: { Self → Option Both };

    // Writes a block on one of the two, unless that one is dead.
    fn write(&mut self, side: Side, block: u64, bytes: &Block) -> Result<(), Dead>
        ensures did { Did (disks self.old) (disks self.new) (on (side_number side) (record { block = block; content = bytes.now }) ∷ []) }
        ensures told { TellsOne (disks self.old) (disks self.new) side (is_ok result) };

    // Reads as many whole blocks as fit off one that lives, unless both are dead.
    fn read(&mut self, from: u64, out: &mut [u8]) -> Result<(), Dead>
        ensures { Fetched (disks self.old) (disks self.new) from out.new (is_ok result) };

    // Reads the same blocks off both, unless one of them is dead.
    fn read_both(&mut self, from: u64, first: &mut [u8], second: &mut [u8]) -> Result<(), Dead>
        ensures { FetchedBoth (disks self.old) (disks self.new) from first.new second.new (is_ok result) };

    // Whether one of them lives, as far as is known by now.
    fn is_alive(&self) -> bool
        ensures { TellsLife (disks self.now) result };
}

#[derive(Drop)]
pub struct Mirror<D: Drop> {
    pub first: D,
    pub second: D,
}

impl<D: Drop> Mirror<D> {
    // The disk of a side.
    pub fn disk(&self, side: Side) -> &D
        ensures { result.now ≡ disk_at side self.now }
    {
        match side {
            Side::First => &self.first,
            Side::Second => &self.second,
        }
    }

    // The disk of a side, to change it.
    pub fn disk_mut(&mut self, side: Side) -> &mut D
        ensures* writes_back { sem 𝓛 (lends_disk D.row self.entry side result) }
        ensures value { result.now ≡ disk_at side self.old }
    {
        match side {
            Side::First => &mut self.first,
            Side::Second => &mut self.second,
        }
    }
}

impl<D: Device + Drop> Pair for Mirror<D> {
    ghost disks = { λ s. together (D.Device.known s.first) (D.Device.known s.second) };

    fn write(&mut self, side: Side, block: u64, bytes: &Block) -> Result<(), Dead> {
        self.disk_mut(side).write(block, bytes)
    }

    fn read(&mut self, from: u64, out: &mut [u8]) -> Result<(), Dead> {
        // No `or_else`: of a closure that it drops uncalled, a proof does not learn that the second disk stayed.
        match self.first.read(from, out) {
            Ok(()) => Ok(()),
            Err(Dead) => self.second.read(from, out),
        }
    }

    fn read_both(&mut self, from: u64, first: &mut [u8], second: &mut [u8]) -> Result<(), Dead> {
        self.first.read(from, first)?;
        self.second.read(from, second)
    }

    fn is_alive(&self) -> bool {
        self.first.is_alive() | self.second.is_alive()
    }
}
