// The two disks of a register that are files, with deaths that last.
//
// All reading and writing is the mirror's. Around each of its calls a disk that died of it is noticed, and
// its death is made to last at once: before another block is written, and before the call's answer is told.
// Where that can't be done both disks are given up, so that nothing more is written or answered.
ghost use Rattle.std.specs.Prelude.{◌≡◌, true, not, None, OnErr};
ghost use Rattle.files.specs.Life.{lives};
ghost use Rattle.guard.specs.Given.{GivenUp, IsGone};

use crate::marks::note_death;
use crate::part::Put;
use crate::progress::Progress;
use crate::when;
use device::mirror::{Mirror, Pair, Side};
use device::{Dead, Device};
use files::disk::{Fault, FileDisk};
use octets::Block;
use std::alloc::AllocError;

// One disk of a pair.
#[derive(Drop)]
pub struct Named {
    disk: FileDisk,
    // Beside which its marks stand; None for a disk that is not there.
    name: Option<String>,
    // It is known to be dead, and its death noted.
    gone: bool,
}

impl Named {
    // A disk and its name. One that is dead by now is known to be.
    pub fn new(disk: FileDisk, name: Option<String>) -> Named
        ensures disk { result.disk ≡ disk }
        ensures name { result.name ≡ name }
        ensures gone { result.gone ≡ not (lives disk.life) }
    {
        let gone = !disk.is_alive();
        Named { disk, name, gone }
    }

    // Whether it died since that was last asked.
    fn died(&mut self) -> bool {
        let died = !self.gone && !self.disk.is_alive();
        self.gone |= died;
        died
    }

    // Dies, if it lives, and is known to be dead.
    fn give_up(&mut self)
        ensures { IsGone self.new }
    {
        self.disk.kill();
        self.gone = true;
    }
}

impl Device for Named {
    ghost known = { λ _. None };

    fn read(&mut self, from: u64, out: &mut [u8]) -> Result<(), Dead> {
        self.disk.read(from, out)
    }

    fn write(&mut self, block: u64, bytes: &Block) -> Result<(), Dead> {
        self.disk.write(block, bytes)
    }

    fn is_alive(&self) -> bool {
        self.disk.is_alive()
    }
}

#[derive(Drop)]
pub struct FilePair {
    rt: HostRuntime,
    both: Mirror<Named>,
    trace: bool,
    // How far a reading of both disks is.
    progress: Option<Progress>,
}

// What a mark says of a disk that died of a fault.
fn death_text(rt: &HostRuntime, fault: Option<Fault>) -> Result<String, AllocError> {
    let moment = when::now(rt);
    match fault {
        None => format!(in rt.alloc(); "since {moment}"),
        Some(fault) => format!(in rt.alloc(); "since {moment}: {fault}"),
    }
}

impl FilePair {
    pub fn new(rt: HostRuntime, first: Named, second: Named, trace: bool) -> FilePair {
        FilePair {
            rt,
            both: Mirror { first, second },
            trace,
            progress: None,
        }
    }

    // Begins a reading of both disks, of so many blocks, whose progress is told.
    pub fn watch(&mut self, blocks: u64) {
        self.progress = Some(Progress::new(self.rt, "block", blocks));
    }

    // Whether a disk lives.
    pub fn lives(&self, side: Side) -> bool {
        self.both.disk(side).is_alive()
    }

    // Gives both disks up, so that nothing more is written or answered.
    fn give_up(&mut self)
        ensures { GivenUp self.new.both }
    {
        self.both.first.give_up();
        self.both.second.give_up();
    }

    // Notes the death of a disk beside the other. An error: that can't be done, and both are given up.
    pub fn note(&mut self, side: Side, text: &str) -> Result<(), Dead>
        ensures { OnErr result (GivenUp self.new.both) }
    {
        let living = self.both.disk(side.other()).name.as_deref();
        let dead = self.both.disk(side).name.as_deref();
        let Err(error) = note_death(&self.rt, living, dead, text) else {
            return Ok(());
        };
        let _ = eprintln!(self.rt;
            "register: this can't be noted beside the other disk: {error}; nothing more is done"
        );
        self.give_up();
        Err(Dead)
    }

    // A disk died: says so, and makes it last. An error: nothing more may be written or answered.
    fn bury(&mut self, side: Side) -> Result<(), Dead>
        ensures { OnErr result ((self.new.both.first.gone ≡ true) × (self.new.both.second.gone ≡ true)) }
    {
        let fault = self.both.disk(side).disk.fault();
        let Ok(text) = death_text(&self.rt, fault) else {
            self.give_up();
            return Err(Dead);
        };
        let _ = eprintln!(self.rt; "register: the {side} disk is dead {text}");
        if self.both.first.gone && self.both.second.gone {
            return Err(Dead);
        }
        self.note(side, text.as_str())
    }

    // Looks for a death after a call of the mirror. An error: nothing more may be written or answered.
    fn settle(&mut self) -> Result<(), Dead> {
        // Both are known to be dead before one of them is noted beside the other.
        let first_died = self.both.first.died();
        let second_died = self.both.second.died();
        let mut settled = Ok(());
        if first_died {
            settled = self.bury(Side::First);
        }
        if second_died {
            settled = settled.and(self.bury(Side::Second));
        }
        settled
    }
}

impl Pair for FilePair {
    ghost disks = { λ _. None };

    fn write(&mut self, side: Side, block: u64, bytes: &Block) -> Result<(), Dead> {
        let done = self.both.write(side, block, bytes);
        if done.is_ok() && self.trace {
            let put = Put { side, block, bytes };
            let _ = eprintln!(self.rt; "{put}");
        }
        self.settle()?;
        done
    }

    fn read(&mut self, from: u64, out: &mut [u8]) -> Result<(), Dead> {
        let done = self.both.read(from, out);
        self.settle()?;
        done
    }

    fn read_both(&mut self, from: u64, first: &mut [u8], second: &mut [u8]) -> Result<(), Dead> {
        if let Some(progress) = &mut self.progress {
            progress.step(from);
        }
        let done = self.both.read_both(from, first, second);
        self.settle()?;
        done
    }

    fn is_alive(&self) -> bool {
        self.both.is_alive()
    }
}
