// Disks as programs meet them: blocks that are read and written, until the disk dies.
//
// The code above this crate is written once, for any device. What a device holds is a ghost: known for a
// disk in memory, so that all that is proved of the register can be said of it, and unknown for a file, of
// which no contract can speak. The same code then runs on files.
#![tactic(auto)]

pub mod blocks;
pub mod memory;
pub mod mirror;

ghost use Rattle.std.specs.Prelude.{List, Option, Some, is_ok, codes};
ghost use Rattle.device.specs.Known.{Known, Written, Shown, Lives};

use octets::Block;
use std::error::Error;
use std::fmt;

// A call found its disk dead, or all the disks that it asked. Dead they stay.
#[derive(Clone, Copy, PartialEq, Eq, Debug)]
pub struct Dead;

impl fmt::Display for Dead {
    ghost output = { λ _. Some (codes "the disk is dead") };

    fn fmt<W: fmt::Write>(&self, f: &mut fmt::Formatter<W>) -> fmt::Result {
        f.pad("the disk is dead")
    }
}

impl Error for Dead {}

// A disk of blocks.
pub trait Device {
    // Its blocks and whether it lives, where that is known.
    ghost known: { Self → Option Known };

    // Reads as many whole blocks as fit, from a block on. Past the disk's end blocks are empty.
    fn read(&mut self, from: u64, out: &mut [u8]) -> Result<(), Dead>
        ensures { Shown (known self.old) (known self.new) from out.new (is_ok result) };

    // Writes one block, to last. Past the disk's end nothing is written.
    fn write(&mut self, block: u64, bytes: &Block) -> Result<(), Dead>
        ensures { Written (known self.old) (known self.new) block bytes.now (is_ok result) };

    // Whether it lives, as far as is known by now.
    fn is_alive(&self) -> bool
        ensures { Lives (known self.now) result };
}
