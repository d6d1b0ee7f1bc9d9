// A disk in memory, which can be told when to die.
ghost use Rattle.std.specs.Prelude.{◌≡◌, ◌+◌, true, false, IfOk, IsOk, IsErr, is_ok, Some};
ghost use Rattle.device.specs.Blocks.{whole};

use crate::{Dead, Device, blocks};
use octets::Block;
use std::alloc::{AllocError, Global};

#[derive(Drop)]
pub struct MemDisk {
    bytes: Vec<u8>,
    alive: bool,
    // How many more reads and writes it serves before it dies. Not inside an `Option` that says whether it
    // lives: a dead disk keeps this number, has it set and hands it to its copy.
    left: u64,
}

impl MemDisk {
    // A disk of these bytes that dies after so many reads and writes.
    pub fn new(bytes: Vec<u8>, left: u64) -> MemDisk
        ensures { (result.bytes ≡ bytes) × ((result.alive ≡ true) × (result.left ≡ left)) }
    {
        MemDisk {
            bytes,
            alive: true,
            left,
        }
    }

    // Dies now.
    pub fn kill(&mut self)
        ensures bytes { self.new.bytes ≡ self.old.bytes }
        ensures alive { self.new.alive ≡ false }
        ensures left { self.new.left ≡ self.old.left }
    {
        self.alive = false;
    }

    // Dies after so many more reads and writes, if it lives.
    pub fn set_left(&mut self, left: u64)
        ensures bytes { self.new.bytes ≡ self.old.bytes }
        ensures alive { self.new.alive ≡ self.old.alive }
        ensures left { self.new.left ≡ left }
    {
        self.left = left;
    }

    // Another disk, as this one is now.
    pub fn copy(&self, heap: Global) -> Result<MemDisk, AllocError>
        ensures { IfOk result (λ d. (d.bytes.items ≡ self.now.bytes.items) × (d.alive ≡ self.now.alive) × (d.left ≡ self.now.left)) }
    {
        Ok(MemDisk {
            bytes: Vec::from_slice(heap, self.bytes.as_slice())?,
            alive: self.alive,
            left: self.left,
        })
    }

    // All its bytes, as it was when it died if it did.
    pub fn bytes(&self) -> &[u8]
        ensures { result.now ≡ self.now.bytes.items }
    {
        self.bytes.as_slice()
    }

    // Whether it serves one more call: it lives, and has one left.
    fn serves(&mut self) -> Result<(), Dead>
        ensures bytes { self.new.bytes ≡ self.old.bytes }
        ensures alive { self.new.alive ≡ is_ok result }
        ensures lived { IsOk result → self.old.alive ≡ true }
        ensures served { IsOk result → self.new.left + 1 ≡ self.old.left }
        ensures died { IsErr result → (self.new.left ≡ self.old.left) × (self.old.alive ≡ true → self.old.left ≡ 0) }
    {
        if !self.alive || self.left == 0 {
            self.alive = false;
            return Err(Dead);
        }
        self.left -= 1;
        Ok(())
    }
}

impl Device for MemDisk {
    ghost known = { λ d. Some (record { has = whole d.bytes.items; lives = d.alive }) };

    fn read(&mut self, from: u64, out: &mut [u8]) -> Result<(), Dead> {
        self.serves()?;
        blocks::read_blocks(self.bytes.as_slice(), from, out);
        Ok(())
    }

    fn write(&mut self, block: u64, bytes: &Block) -> Result<(), Dead> {
        self.serves()?;
        blocks::write_block(self.bytes.as_mut_slice(), block, bytes);
        Ok(())
    }

    fn is_alive(&self) -> bool {
        self.alive
    }
}
