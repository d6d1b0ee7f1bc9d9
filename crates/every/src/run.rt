// One play under way: the world, where in the script it is, and what may still strike it.
ghost use Rattle.std.specs.Prelude.{◌≡◌, ◌≤◌, true, length, drop, Decides, IfOk};
ghost use Rattle.every.specs.declared.run.Phase.TheVariants.{Rest};

use crate::digest::{Digest, books};
use crate::look::{Failure, both_live, explained, pages_stand, replicas};
use crate::trail::Trail;
use device::mirror::Side;
use explain::check::History;
use script::order::{Command, Moment, Order, Script};
use std::alloc::{AllocError, AllocFailed, Global};
use world::history::Asked;
use world::world::{NotTaken, Unmade, World};

// How often power goes that the script doesn't have, and how many disks die.
const POWERS: u8 = 3;

const DEATHS: u8 = 1;

// Why a run doesn't go on.
#[derive(Clone, Copy, PartialEq, Eq, Debug)]
pub enum Halt {
    Failed(Failure),
    Memory,
}

impl From<Failure> for Halt {
    fn from(why: Failure) -> Halt {
        Halt::Failed(why)
    }
}

// A step that should be possible and that the world did not take. Where it only had no memory for it, nothing failed.
impl From<NotTaken> for Halt {
    fn from(why: NotTaken) -> Halt {
        match why {
            NotTaken::Memory => Halt::Memory,
            NotTaken::NotNow | NotTaken::Outside | NotTaken::NoDisk => {
                Halt::Failed(Failure::Refused)
            }
        }
    }
}

impl From<AllocError> for Halt {
    fn from(_e: AllocError) -> Halt {
        Halt::Memory
    }
}

impl<T: Drop> From<AllocFailed<T>> for Halt {
    fn from(_e: AllocFailed<T>) -> Halt {
        Halt::Memory
    }
}

// Whether a command changes nothing where power is there and nothing is under way.
fn is_idle(command: &Command) -> bool {
    matches!(command.order, Order::Recover | Order::Quiet | Order::Loud)
}

#[derive(Clone, Copy, PartialEq, Eq, Debug)]
pub enum Phase {
    // Nothing is under way.
    Rest,
    // A call is.
    Call,
    // Power went by the script, which says when it comes back.
    Down,
    // Recovery is under way, by the script.
    Recovery,
    // Recovery is under way after a power that the script doesn't have.
    Unforeseen,
}

#[derive(Drop)]
pub struct Run<'a> {
    pub world: World,
    pub phase: Phase,
    // The commands that are left, from the one that is under way or next.
    pub left: &'a [Command],
    // How many more times power may go, and how many more disks may die.
    pub powers: u8,
    pub deaths: u8,
    // What the script has for this moment came. Not a phase of its own: a call and a recovery each have it.
    pub struck: bool,
    // How much of what happened was explained.
    explained: usize,
    pub trail: Vec<Trail<'a>>,
}

impl<'a> Run<'a> {
    // Of a world at rest, with no command left: who has a script gives it its commands.
    pub fn new(heap: Global, world: World, powers: u8, deaths: u8) -> Run<'a>
        ensures strikes { (result.powers ≡ powers) × (result.deaths ≡ deaths) }
        ensures phase { result.phase ≡ Rest }
    {
        Run {
            world,
            phase: Phase::Rest,
            left: &[],
            powers,
            deaths,
            struck: false,
            explained: 0,
            trail: Vec::new(heap),
        }
    }

    // Before the first command of a script that changes something.
    pub fn of(heap: Global, script: &'a Script) -> Result<Run<'a>, Unmade>
        ensures { IfOk result (λ run. run.phase ≡ Rest) }
    {
        let world = World::new(heap, script.pages)?;
        let mut run = Run::new(heap, world, POWERS, DEATHS);
        run.left = script.commands.as_slice();
        run.settle();
        Ok(run)
    }

    pub fn copy(&self, heap: Global) -> Result<Run<'a>, AllocError> {
        Ok(Run {
            world: self.world.copy(heap)?,
            phase: self.phase,
            left: self.left,
            powers: self.powers,
            deaths: self.deaths,
            struck: self.struck,
            explained: self.explained,
            trail: Vec::from_slice(heap, self.trail.as_slice())?,
        })
    }

    pub fn is_at_rest(&self) -> bool
        ensures { Decides result (self.now.phase ≡ Rest) }
    {
        self.phase == Phase::Rest
    }

    // What doesn't hold of the world as it is now.
    pub fn look(&mut self) -> Result<(), Failure> {
        let rest = self.is_at_rest();
        replicas(&self.world, rest)?;
        let happened = self.world.past().len();
        if happened > self.explained {
            explained(&self.world)?;
            self.explained = happened;
        }
        if rest {
            pages_stand(&self.world)?;
        }
        Ok(())
    }

    // By what a run at rest is known again: whatever can follow depends on nothing else.
    pub fn digest(&self, heap: Global) -> Result<Digest, AllocError> {
        let digest = Digest::START
            .word(self.left.len() as u64)
            .word(u64::from(self.powers))
            .word(u64::from(self.deaths));
        let digest = Side::BOTH
            .iter()
            .fold(digest, |digest, side| self.digest_disk(digest, *side));
        let books = books(heap, History::of(&self.world))?;
        Ok(books.iter().fold(digest, |digest, book| digest.join(*book)))
    }

    // A dead disk is never looked at again.
    fn digest_disk(&self, digest: Digest, side: Side) -> Digest {
        if !self.world.is_alive(side) {
            return digest.word(0);
        }
        digest.word(1).bytes(self.world.disk(side))
    }

    // Whether power may go now that the script doesn't have.
    pub fn may_cut(&self) -> bool {
        match self.phase {
            Phase::Unforeseen => self.powers > 0,
            Phase::Down => false,
            Phase::Rest | Phase::Call | Phase::Recovery => self.powers == POWERS,
        }
    }

    pub fn may_die(&self) -> bool {
        self.deaths > 0 && both_live(&self.world) && self.phase != Phase::Down
    }

    // Goes past the command that is under way or next.
    pub fn pass(&mut self)
        ensures { self.new.left.now ≡ drop 1 self.old.left.now }
    {
        if let [_, rest @ ..] = self.left {
            self.left = rest;
        }
    }

    // Goes past commands that change nothing.
    pub fn settle(&mut self)
        ensures { self.new.phase ≡ self.old.phase }
    {
        let idle = self
            .left
            .iter()
            .take_while(|command| is_idle(command))
            .count();
        self.left = self.left.get(idle..).unwrap_or_default();
    }

    // Notes what strikes now: behind what is under way, or on a line of its own.
    fn note(&mut self, moment: Moment, rest: Trail<'a>) -> Result<(), AllocError> {
        let item = if self.is_at_rest() {
            rest
        } else {
            Trail::Struck(moment)
        };
        self.trail.push(item)?;
        Ok(())
    }

    // Power goes, and recovery begins at once.
    pub fn cut(&mut self) -> Result<(), Halt> {
        let after = self.world.done();
        self.note(Moment::Power { after }, Trail::Power)?;
        self.trail.push(Trail::Recover)?;
        self.world.cut()?;
        if matches!(self.phase, Phase::Call | Phase::Recovery | Phase::Down) {
            self.pass();
        }
        self.phase = Phase::Unforeseen;
        self.powers = self.powers.saturating_sub(1);
        self.struck = true;
        Ok(())
    }

    pub fn die(&mut self, side: Side) -> Result<(), Halt> {
        let after = self.world.done();
        self.note(Moment::Death { side, after }, Trail::Death(side))?;
        self.deaths = self.deaths.saturating_sub(1);
        self.world.kill(side)?;
        Ok(())
    }

    // The call that is next, if one is.
    pub fn next_call(&self) -> Option<Asked> {
        match (self.phase, self.left.first()?.order) {
            (Phase::Rest, Order::Call(asked)) => Some(asked),
            _ => None,
        }
    }

    // Whether something is about to be read: a call is next, or recovery has written nothing yet.
    pub fn may_die_reading(&self) -> bool {
        let recovers = matches!(self.phase, Phase::Recovery | Phase::Unforeseen);
        let reads = self.next_call().is_some() || (recovers && self.world.done() == 0);
        reads && self.may_die()
    }

    // What is next begins, and a disk dies at one of its reads there. Tells whether it does: there may be
    // fewer reads.
    pub fn die_reading(&mut self, side: Side, read: u64) -> Result<bool, Halt> {
        self.world.set_left(side, read.saturating_sub(1));
        let begun = match self.next_call() {
            Some(asked) => self.begin(&asked),
            // Power goes. Where the world doesn't take that, for whatever reason, no death is told.
            None => self.world.cut().map_err(|_| Halt::Failed(Failure::Refused)),
        };
        match begun {
            Ok(()) if !self.world.is_alive(side) => {}
            Ok(()) | Err(Halt::Failed(_)) => return Ok(false),
            Err(Halt::Memory) => return Err(Halt::Memory),
        }
        self.trail
            .push(Trail::Struck(Moment::Reading { side, read }))?;
        self.deaths = self.deaths.saturating_sub(1);
        Ok(true)
    }

    // The call that is next begins.
    pub fn begin(&mut self, asked: &Asked) -> Result<(), Halt> {
        if let [command, ..] = self.left {
            self.trail.push(Trail::Command(command))?;
        }
        self.phase = Phase::Call;
        self.struck = false;
        self.world.begin(asked)?;
        Ok(())
    }
}
