// A disk that is being made: blocks are gathered and written in long runs, and made to last at the end.
//
// Nothing is promised of disks that are half made, so no block is synced on its own. While a disk is made
// its file is one byte longer than whole blocks, and so is no disk: a making that was cut short leaves files
// that nothing takes for a register.
ghost use Rattle.std.specs.Prelude.{◌≡◌, ◌+◌, ◌*◌, ◌<◌, min, ◌++◌, IsOk, MatchResult, None, vec_len};
ghost use Rattle.model.specs.Numbers.{first_page, most_pages, page_size};

use crate::descriptor::Descriptor;
use crate::errors::FileError;
use crate::span::{at_most, file_length, place};
use device::{Dead, Device};
use layout::places::Extent;
use octets::Block;
use std::alloc::Global;

// Bytes in the longest run.
const RUN: usize = 1048576;

#[derive(Drop)]
pub struct NewDisk {
    file: Descriptor,
    // How many blocks it will have.
    extent: Extent,
    // The number of the first block that is gathered, and of the one that would follow. That one could be told by the
    // run's length, but each write asks for it, and the sum would have to be shown to have room.
    first: u64,
    next: u64,
    // Their bytes.
    run: Vec<u8>,
    // What failed, if something did. Nothing more is written then.
    state: Result<(), FileError>,
    ghost gathered: { vec_len run + page_size * first ≡ page_size * next },
}

impl NewDisk {
    // Begins a disk of so many blocks in a file that is empty. No disk has more than the layout allows.
    pub fn begin(heap: Global, file: Descriptor, blocks: u64) -> NewDisk
        ensures { result.extent.blocks ≡ min blocks (most_pages + first_page) }
    {
        let extent = at_most(blocks);
        let state = file.set_len(file_length(extent) + 1);
        NewDisk {
            file,
            extent,
            first: 0,
            next: 0,
            run: Vec::new(heap),
            state,
        }
    }

    // What failed, if something did.
    pub fn error(&self) -> Option<FileError>
        ensures { MatchResult self.now.state (λ _. result ≡ None) (λ error. result ≡ Some error) }
    {
        self.state.err()
    }

    // Writes what is gathered.
    fn flush(&mut self) -> Result<(), FileError>
        ensures run { vec_len self.new.run ≡ 0 }
        ensures extent { self.new.extent ≡ self.old.extent }
    {
        let written = match place(self.extent, self.first) {
            Some(at) => self.file.write_at(self.run.as_slice(), at),
            None => Ok(()),
        };
        self.run.clear();
        self.first = self.next;
        written
    }

    // Begins a run at a block, unless the block continues the run that is gathered.
    fn turn_to(&mut self, block: u64) -> Result<(), FileError>
        ensures next { IsOk result → self.new.next ≡ block }
        ensures extent { self.new.extent ≡ self.old.extent }
    {
        if block == self.next && self.run.len() < RUN {
            return Ok(());
        }
        self.flush()?;
        self.first = block;
        self.next = block;
        Ok(())
    }

    // Adds the next block to the run.
    fn gather(&mut self, bytes: &Block) -> Result<(), FileError>
        requires { self.old.next < self.old.extent.blocks }
        ensures { IsOk result → self.new.run.items ≡ self.old.run.items ++ bytes.now }
    {
        self.run.extend_from_slice(bytes)?;
        self.next += 1;
        Ok(())
    }

    // Gathers a block. Past the disk's end there is nothing to do.
    fn put(&mut self, block: u64, bytes: &Block) -> Result<(), FileError> {
        if block >= self.extent.blocks {
            return Ok(());
        }
        self.turn_to(block)?;
        self.gather(bytes)
    }

    // Writes what is left, makes all of it last, and takes the byte off by which the file is no disk.
    fn finish(&mut self) -> Result<(), FileError> {
        self.flush()?;
        self.file.sync()?;
        self.file.set_len(file_length(self.extent))?;
        self.file.sync()
    }

    // Takes a block. Past the disk's end nothing is written. An error: the making failed.
    pub fn write_block(&mut self, block: u64, bytes: &Block) -> Result<(), FileError>
        ensures state { self.new.state ≡ result }
        ensures lived { IsOk result → IsOk self.old.state }
    {
        self.state?;
        self.state = self.put(block, bytes);
        self.state
    }

    // Writes what is left and makes all of it last. An error: something failed, and there is no disk.
    pub fn end(&mut self) -> Result<(), FileError>
        ensures state { self.new.state ≡ result }
        ensures lived { IsOk result → IsOk self.old.state }
    {
        self.state?;
        self.state = self.finish();
        self.state
    }
}

impl Device for NewDisk {
    ghost known = { λ _. None };

    // Nothing is read of a disk that is not made yet: to try is its death.
    fn read(&mut self, _from: u64, _out: &mut [u8]) -> Result<(), Dead> {
        self.state = self.state.and(Err(FileError::Short));
        Err(Dead)
    }

    fn write(&mut self, block: u64, bytes: &Block) -> Result<(), Dead> {
        self.write_block(block, bytes).map_err(|_| Dead)
    }

    fn is_alive(&self) -> bool {
        self.state.is_ok()
    }
}
