// The world and its steps.
//
// A step that isn't possible now answers why, and changes nothing. So what may fail for want of memory, the
// note of what happened, is done first.
ghost use Rattle.std.specs.Prelude.{◌≡◌, ◌+◌, ◌≤◌, true, false, List, [], ◌∷◌, ◌++◌, length, IfOk, OnOk, OnErr, is_ok, nat_le};
ghost use Rattle.model.specs.Numbers.{first_page};
ghost use Rattle.model.specs.Book.{Page};
ghost use Rattle.model.specs.Disks.{Happening, cut};
ghost use Rattle.device.specs.Ran.{one_lives};
ghost use Rattle.device.specs.Sides.{disk_at};
ghost use Rattle.engine.specs.Works.{work_writes};
ghost use Rattle.device.specs.InMemory.{disk_of, both_of};
ghost use Rattle.world.specs.Means.{event_of, past_of, under_of};
ghost use Rattle.engine.specs.Living.{Explained};
ghost use Rattle.world.specs.declared.world.NotTaken.TheVariants.{NoDisk as NoDiskLeft, Memory as NoMemory};
ghost use Rattle.world.specs.declared.world.Unmade.TheVariants.{Memory as NoRoom};
ghost use Rattle.world.specs.Reached.{Reached};
ghost use Rattle.world.specs.Steps.{Asks, Tells, Cuts};

use crate::history::{Asked, Event, Under};
use device::memory::MemDisk;
use device::mirror::{Mirror, Pair, Side};
use device::{Dead, Device};
use engine::call;
use engine::make::{make, making};
use engine::perform::perform;
use engine::recover::begin_recovery;
use engine::work::Work;
use engine::write::Write;
use layout::places::Layout;
use octets::{BLOCK, Block, EMPTY};
use std::alloc::{AllocError, AllocFailed, Global};

// A work, and how far it is.
#[derive(Clone, Copy)]
struct Progress {
    work: Work,
    // How many of its writes are done.
    done: u64,
    // What the last write put: it goes on the second disk too.
    held: Block,
}

impl Progress {
    // A work begins in place of the one before. Where it copies a block, that is what goes on the second disk first.
    fn begin(&mut self, work: &Work)
        ensures { self.new ≡ record { work = work.now; done = 0; held = work.now.block } }
    {
        self.work = *work;
        self.done = 0;
        self.held = work.block;
    }
}

#[derive(Drop)]
pub struct World {
    disks: Mirror<MemDisk>,
    pages: u32,
    // False from when power went until recovery is done. Beside `under`, as the model's world has both.
    up: bool,
    // What is written, and how far it is.
    progress: Progress,
    under: Option<Under>,
    // The first first.
    past: Vec<Event>,
    // Bytes were put on the disks by hand: nothing is promised since.
    touched: bool,
    ghost reached: { touched ≡ false → ∥ Reached (both_of disks) pages up progress.work progress.done progress.held (under_of under) (past_of past.items []) ∥₁ },
}

// Why a world isn't made. The engine's `NotMade` beside it says of dead disks what no new world has, and nothing of
// memory, for want of which a world isn't made.
#[derive(Clone, Copy, PartialEq, Eq, Debug)]
pub enum Unmade {
    // No pages, or more than a world holds.
    Pages,
    Memory,
}

impl From<AllocError> for Unmade {
    ghost from_gives = { λ _ error. error ≡ NoRoom };

    fn from(_e: AllocError) -> Unmade {
        Unmade::Memory
    }
}

// Why a step isn't taken.
#[derive(Clone, Copy, PartialEq, Eq, Debug)]
pub enum NotTaken {
    // It has no place now: power is there or gone, or something is under way, or nothing is.
    NotNow,
    // Bytes that are more than a block, or a block that no disk has.
    Outside,
    // There is no disk that lives, or would be none.
    NoDisk,
    // What happened could not be noted.
    Memory,
}

impl From<Dead> for NotTaken {
    ghost from_gives = { λ _ error. error ≡ NoDiskLeft };

    fn from(_dead: Dead) -> NotTaken {
        NotTaken::NoDisk
    }
}

impl<T: Drop> From<AllocFailed<T>> for NotTaken {
    ghost from_gives = { λ _ error. error ≡ NoMemory };

    fn from(_failed: AllocFailed<T>) -> NotTaken {
        NotTaken::Memory
    }
}

// A disk before it is made new: a register writes every block of it.
fn raw_disk(heap: Global, pages: u32) -> Result<MemDisk, AllocError>
    requires { pages ≤ 16 }
    ensures { IfOk result (λ d. length (disk_of d).has ≡ pages + first_page) }
{
    let bytes = vec![in heap; 0; BLOCK * Layout::blocks(pages) as usize]?;
    Ok(MemDisk::new(bytes, u64::MAX))
}

// What is noted in the past when power goes.
fn cut_event(under: Option<Under>) -> Event
    ensures means { (hs : List Happening) → event_of result ∷ hs ≡ cut (under_of under) hs }
    ensures event { (es : List Event) → Cuts under es (es ++ (result ∷ [])) }
{
    match under {
        Some(under) => Event::Cut(under.call),
        None => Event::Power,
    }
}

impl World {
    // The most pages that a world holds.
    pub const MOST_PAGES: u32 = 16;

    // Two new disks for so many pages.
    pub fn new(heap: Global, pages: u32) -> Result<World, Unmade> {
        if pages > Self::MOST_PAGES {
            return Err(Unmade::Pages);
        }
        let work = making(pages).ok_or(Unmade::Pages)?;
        let mut disks = Mirror {
            first: raw_disk(heap, pages)?,
            second: raw_disk(heap, pages)?,
        };
        // It doesn't fail: these disks serve more calls than it makes. Nothing rests on that.
        let _ = make(&mut disks, pages);
        Ok(World {
            disks,
            pages,
            up: true,
            progress: Progress {
                work,
                done: work.len(),
                held: EMPTY,
            },
            under: None,
            past: Vec::new(heap),
            touched: false,
        })
    }

    // Whether all is written that is to be.
    pub fn is_idle(&self) -> bool
        ensures { (b : List Page) → result ≡ nat_le (length (work_writes self.now.progress.work b)) self.now.progress.done }
    {
        self.progress.done >= self.progress.work.len()
    }

    // Fails where no disk lives.
    fn need_disk(&self) -> Result<(), NotTaken>
        ensures { is_ok result ≡ one_lives (both_of self.now.disks) }
    {
        if self.disks.is_alive() {
            Ok(())
        } else {
            Err(NotTaken::NoDisk)
        }
    }

    // A call begins, if none is under way.
    pub fn begin(&mut self, asked: &Asked) -> Result<(), NotTaken>
        ensures begun { OnOk result ((self.new.progress.done ≡ 0) × Asks self.new.under asked.now) }
        ensures refused { OnErr result (self.new.under ≡ self.old.under) }
        ensures past { self.new.past ≡ self.old.past }
    {
        if !self.up || !self.is_idle() || self.under.is_some() {
            return Err(NotTaken::NotNow);
        }
        self.need_disk()?;
        let mut page = EMPTY;
        let turn = call::begin(&mut self.disks, self.pages, asked.as_slice(), &mut page)?;
        self.progress.begin(&turn.work);
        self.under = Some(Under {
            call: *asked,
            answer: turn.reply.with_page(page),
        });
        Ok(())
    }

    // The next block is written, if there is one.
    pub fn write_next(&mut self) -> Result<(), NotTaken>
        ensures written { OnOk result (self.new.progress.done ≡ self.old.progress.done + 1) }
        ensures refused { OnErr result (self.new.progress.done ≡ self.old.progress.done) }
        ensures past { self.new.past ≡ self.old.past }
    {
        if self.progress.done >= self.progress.work.len() {
            return Err(NotTaken::NotNow);
        }
        self.need_disk()?;
        let progress = &mut self.progress;
        let write = progress.work.write(progress.done).ok_or(NotTaken::NotNow)?;
        perform(&mut self.disks, &progress.work, write, &mut progress.held)?;
        progress.done += 1;
        Ok(())
    }

    // The call under way is answered, if all is written.
    pub fn tell(&mut self) -> Result<(), NotTaken>
        ensures told { OnOk result (Tells self.old.under self.old.past.items self.new.past.items) }
        ensures refused { OnErr result ((self.new.under ≡ self.old.under) × (self.new.past.items ≡ self.old.past.items)) }
        ensures disks { self.new.disks ≡ self.old.disks }
    {
        if !self.up || !self.is_idle() {
            return Err(NotTaken::NotNow);
        }
        self.need_disk()?;
        let Some(under) = self.under else {
            return Err(NotTaken::NotNow);
        };
        self.past.push(Event::Answered(under.call, under.answer))?;
        self.under = None;
        Ok(())
    }

    // A disk dies, if the other lives.
    pub fn kill(&mut self, side: Side) -> Result<(), NotTaken>
        ensures dead { OnOk result ((disk_at side self.new.disks).alive ≡ false) }
        ensures refused { OnErr result (self.new.disks ≡ self.old.disks) }
        ensures past { self.new.past ≡ self.old.past }
    {
        if !self.disks.disk(side.other()).is_alive() {
            return Err(NotTaken::NoDisk);
        }
        self.disks.disk_mut(side).kill();
        Ok(())
    }

    // Power goes: a call under way is cut, and recovery begins.
    pub fn power(&mut self) -> Result<(), NotTaken>
        ensures gone { OnOk result ((self.new.up ≡ false) × Cuts self.old.under self.old.past.items self.new.past.items) }
        ensures refused { OnErr result ((self.new.up ≡ self.old.up) × (self.new.past.items ≡ self.old.past.items)) }
    {
        if !self.up {
            return Err(NotTaken::NotNow);
        }
        self.need_disk()?;
        let work = begin_recovery(&mut self.disks, self.pages)?;
        self.past.push(cut_event(self.under))?;
        self.up = false;
        self.under = None;
        self.progress.begin(&work);
        Ok(())
    }

    // Power goes again while recovery is under way, and recovery begins anew.
    pub fn power_again(&mut self) -> Result<(), NotTaken>
        ensures gone { OnOk result (self.new.progress.done ≡ 0) }
        ensures up { self.new.up ≡ self.old.up }
        ensures past { self.new.past ≡ self.old.past }
    {
        if self.up {
            return Err(NotTaken::NotNow);
        }
        self.need_disk()?;
        let work = begin_recovery(&mut self.disks, self.pages)?;
        self.under = None;
        self.progress.begin(&work);
        Ok(())
    }

    // Power goes, whatever is under way.
    pub fn cut(&mut self) -> Result<(), NotTaken> {
        if self.up {
            self.power()
        } else {
            self.power_again()
        }
    }

    // Recovery is done, if all of it is written.
    pub fn recovered(&mut self) -> Result<(), NotTaken>
        ensures up { OnOk result (self.new.up ≡ true) }
        ensures refused { OnErr result (self.new.up ≡ self.old.up) }
        ensures past { self.new.past ≡ self.old.past }
    {
        if self.up || !self.is_idle() {
            return Err(NotTaken::NotNow);
        }
        self.up = true;
        self.under = None;
        Ok(())
    }

    // A disk dies after so many more reads and writes, if it lives: so it can die while it is read.
    pub fn set_left(&mut self, side: Side, left: u64) {
        self.disks.disk_mut(side).set_left(left);
    }

    // Another world, as this one is now.
    pub fn copy(&self, heap: Global) -> Result<World, AllocError> {
        Ok(World {
            disks: Mirror {
                first: self.disks.first.copy(heap)?,
                second: self.disks.second.copy(heap)?,
            },
            pages: self.pages,
            up: self.up,
            progress: self.progress,
            under: self.under,
            past: Vec::from_slice(heap, self.past.as_slice())?,
            touched: self.touched,
        })
    }

    // Puts bytes at the start of a block on both disks, at rest. No register does this, and nothing is
    // promised of a world after it: it is for a look at disks that no register wrote.
    pub fn overwrite(&mut self, block: u64, bytes: &[u8]) -> Result<(), NotTaken> {
        if !self.up || self.under.is_some() {
            return Err(NotTaken::NotNow);
        }
        if block >= Layout::blocks(self.pages) || bytes.len() > BLOCK {
            return Err(NotTaken::Outside);
        }
        let mut whole = EMPTY;
        self.disks.read(block, &mut whole)?;
        whole[0..bytes.len()].copy_from_slice(bytes);
        self.touched = true;
        let first = self.disks.write(Side::First, block, &whole);
        let second = self.disks.write(Side::Second, block, &whole);
        Ok(first.or(second)?)
    }

    pub fn is_up(&self) -> bool {
        self.up
    }

    pub fn is_alive(&self, side: Side) -> bool {
        self.disks.disk(side).is_alive()
    }

    pub fn pages(&self) -> u32 {
        self.pages
    }

    // The write that is next, if there is one.
    pub fn upcoming(&self) -> Option<Write> {
        self.progress.work.write(self.progress.done)
    }

    // How many writes of the work are done.
    pub fn done(&self) -> u64 {
        self.progress.done
    }

    // How many writes the work has.
    pub fn count(&self) -> u64 {
        self.progress.work.len()
    }

    pub fn under(&self) -> Option<Under> {
        self.under
    }

    // What happened.
    pub fn past(&self) -> &[Event]
        ensures { result.now ≡ self.now.past.items }
    {
        self.past.as_slice()
    }

    // Whether a book explains what happened. It does, whatever steps were taken, in every world but one on
    // whose disks bytes were put by hand; of that one nothing is known.
    pub fn is_explained(&self) -> bool
        ensures { result ≡ true → ∥ Explained self.now.pages (past_of self.now.past.items []) ∥₁ }
    {
        !self.touched
    }

    // A disk's bytes, as they were when it died if it did.
    pub fn disk(&self, side: Side) -> &[u8] {
        self.disks.disk(side).bytes()
    }
}
