// A disk that is a file: one read for all the blocks asked for, one write and one sync for a block.
//
// The first read, write or sync that fails is the disk's death. It is never asked again: after a failed
// sync the system may forget what it could not write, and report success at the next.
ghost use Rattle.std.specs.Prelude.{◌≡◌, ◌+◌, ◌-◌, ◌*◌, ◌/◌, min, true, false, is_ok, length, Some, None, IfErr, IsErr, IsOk, MatchResult};
ghost use Rattle.files.specs.Clearing.{EmptyFrom};
ghost use Rattle.files.specs.Life.{fault_of, lives};
ghost use Rattle.files.specs.declared.disk.Deed.TheVariants.{Read};
ghost use Rattle.files.specs.declared.disk.Life.TheVariants.{Alive, Failed, GivenUp};
ghost use Rattle.model.specs.Numbers.{first_page, most_pages, page_size};

use crate::descriptor::Descriptor;
use crate::errors::FileError;
use crate::span::{at_most, on_disk, place};
use device::{Dead, Device};
use layout::places::Extent;
use octets::Block;
use std::fmt;

// What a disk was asked when it died.
#[derive(Clone, Copy, PartialEq, Eq, Debug)]
pub enum Deed {
    Read,
    Write,
    Sync,
}

impl fmt::Display for Deed {
    fn fmt<W: fmt::Write>(&self, f: &mut fmt::Formatter<W>) -> fmt::Result {
        f.pad(match self {
            Deed::Read => "reading",
            Deed::Write => "writing",
            Deed::Sync => "syncing",
        })
    }
}

// Why a disk died.
#[derive(Clone, Copy, Debug)]
pub struct Fault {
    pub deed: Deed,
    pub block: u64,
    pub error: FileError,
}

impl fmt::Display for Fault {
    fn fmt<W: fmt::Write>(&self, f: &mut fmt::Formatter<W>) -> fmt::Result {
        let deed = self.deed;
        let block = self.block;
        let error = self.error;
        write!(f, "{deed} block {block}: {error}")
    }
}

// Whether a disk lives.
#[derive(Clone, Copy)]
enum Life {
    // Nothing that it was asked failed.
    Alive,
    // Dead from the start, or given up.
    GivenUp,
    // It died of this while it was used.
    Failed(Fault),
}

#[derive(Drop)]
pub struct FileDisk {
    file: Descriptor,
    extent: Extent,
    life: Life,
}

impl FileDisk {
    // A disk of so many blocks in a file that has them. No disk has more than the layout allows.
    pub fn new(file: Descriptor, blocks: u64) -> FileDisk
        ensures blocks { result.extent.blocks ≡ min blocks (most_pages + first_page) }
        ensures life { result.life ≡ Alive }
    {
        FileDisk {
            file,
            extent: at_most(blocks),
            life: Life::Alive,
        }
    }

    // A disk that is dead from the start.
    pub fn dead() -> FileDisk
        ensures { (result.life ≡ GivenUp) × (result.extent.blocks ≡ 0) }
    {
        FileDisk {
            file: Descriptor::none(),
            extent: at_most(0),
            life: Life::GivenUp,
        }
    }

    // Why it died, if it did while it was used.
    pub fn fault(&self) -> Option<Fault>
        ensures { result ≡ fault_of self.now.life }
    {
        match self.life {
            Life::Failed(fault) => Some(fault),
            Life::Alive | Life::GivenUp => None,
        }
    }

    // Dies now, or stays dead.
    pub fn kill(&mut self)
        ensures alive { lives self.new.life ≡ false }
        ensures extent { self.new.extent ≡ self.old.extent }
        ensures fault { fault_of self.new.life ≡ fault_of self.old.life }
    {
        if self.is_alive() {
            self.life = Life::GivenUp;
        }
    }

    // Dies of a fault, if there was one. No closure in a `map_err`: of one that changes the disk a proof does
    // not learn what stays.
    fn settle(&mut self, told: Result<(), Fault>) -> Result<(), Dead>
        ensures life { MatchResult told
            (λ _. (result ≡ Ok tt) × (self.new.life ≡ self.old.life))
            (λ fault. (IsErr result) × (self.new.life ≡ Failed fault)) }
        ensures extent { self.new.extent ≡ self.old.extent }
    {
        let Err(fault) = told else {
            return Ok(());
        };
        self.life = Life::Failed(fault);
        Err(Dead)
    }

    // Fills what is lent with the blocks from a number on; nothing past the disk's end.
    fn fetch(&self, from: u64, out: &mut [u8]) -> Result<(), Fault>
        ensures { IfErr result (λ fault. (fault.deed ≡ Read) × (fault.block ≡ from)) }
    {
        let Some(at) = place(self.extent, from) else {
            return Ok(());
        };
        self.file.read_at(out, at).map_err(|error| Fault {
            deed: Deed::Read,
            block: from,
            error,
        })
    }

    // Writes a block, to last; nothing past the disk's end.
    fn store(&self, block: u64, bytes: &Block) -> Result<(), Fault>
        ensures { IfErr result (λ fault. fault.block ≡ block) }
    {
        let Some(at) = place(self.extent, block) else {
            return Ok(());
        };
        self.file.write_at(bytes, at).map_err(|error| Fault {
            deed: Deed::Write,
            block,
            error,
        })?;
        self.file.sync_data().map_err(|error| Fault {
            deed: Deed::Sync,
            block,
            error,
        })
    }

    // Reads as many whole blocks as fit, from a block on. Past the disk's end blocks are empty.
    pub fn read_blocks(&mut self, from: u64, out: &mut [u8]) -> Result<(), Dead>
        ensures past { IsOk result → EmptyFrom (page_size * min (self.old.extent.blocks - from) (length out.old / page_size)) out.new }
        ensures alive { lives self.new.life ≡ is_ok result }
        ensures lived { IsOk result → self.old.life ≡ Alive }
        ensures extent { self.new.extent ≡ self.old.extent }
    {
        if !self.is_alive() {
            return Err(Dead);
        }
        let (stored, past) = out.split_at_mut(on_disk(self.extent, from, out.len()));
        past.fill(0);
        let got = self.fetch(from, stored);
        self.settle(got)
    }

    // Writes a block, to last. Past the disk's end nothing is written.
    pub fn write_block(&mut self, block: u64, bytes: &Block) -> Result<(), Dead>
        ensures alive { lives self.new.life ≡ is_ok result }
        ensures lived { IsOk result → self.old.life ≡ Alive }
        ensures extent { self.new.extent ≡ self.old.extent }
    {
        if !self.is_alive() {
            return Err(Dead);
        }
        let put = self.store(block, bytes);
        self.settle(put)
    }
}

impl Device for FileDisk {
    ghost known = { λ _. None };

    fn read(&mut self, from: u64, out: &mut [u8]) -> Result<(), Dead> {
        self.read_blocks(from, out)
    }

    fn write(&mut self, block: u64, bytes: &Block) -> Result<(), Dead> {
        self.write_block(block, bytes)
    }

    fn is_alive(&self) -> bool
        ensures { result ≡ lives self.now.life }
    {
        matches!(self.life, Life::Alive)
    }
}
