// The play: commands done one after the other.
ghost use Rattle.std.specs.Prelude.{◌≡◌, true, []};
ghost use Rattle.engine.specs.Living.{Explained};
ghost use Rattle.world.specs.Means.{past_of};

use crate::mark::{Alike, Answered, Mark, Seen, Writes, seen};
use device::mirror::Side;
use script::order::{Command, Fault, Moment, Order, Script, Wrong};
use std::alloc::Global;
use world::history::Asked;
use world::world::World;

#[derive(Drop)]
pub struct Play {
    world: World,
    // Whether single writes are marked.
    loud: bool,
    marks: Vec<Mark>,
}

// After how many writes a moment comes; None for one that comes before, while all that is needed is read.
fn after(moment: Moment) -> Option<u64> {
    match moment {
        Moment::Power { after } | Moment::Death { after, .. } => Some(after),
        Moment::Reading { .. } => None,
    }
}

// Whether a moment comes after the i-th: after more writes, or after as many and later in the line.
fn is_followed(moments: &[Moment], i: usize, at: u64) -> bool {
    moments.iter().enumerate().any(|(j, other)| after(*other).is_some_and(|after| (after, j)
        > (at, i)))
}

// Whether the moments of a line can come: none after the last write, and none after power.
fn can_come(moments: &[Moment], count: u64) -> Result<(), Wrong> {
    for (i, moment) in moments.iter().enumerate() {
        let Some(at) = after(*moment) else {
            continue;
        };
        if at > count {
            return Err(Wrong::MomentLate);
        }
        if matches!(moment, Moment::Power { .. }) && is_followed(moments, i, at) {
            return Err(Wrong::MomentAfterPower);
        }
    }
    Ok(())
}

// Whether a call or a recovery goes on.
#[derive(Clone, Copy, PartialEq, Eq, Debug)]
enum Power {
    Stays,
    Went,
}

impl Play {
    pub fn new(heap: Global, pages: u32) -> Result<Play, Wrong> {
        let world = World::new(heap, pages)?;
        let writes = Writes(world.count());
        let mut play = Play {
            world,
            loud: true,
            marks: Vec::new(heap),
        };
        play.mark(Mark::Made(writes))?;
        Ok(play)
    }

    pub fn marks(&self) -> &[Mark] {
        self.marks.as_slice()
    }

    // Whether a book explains all that happened. It does, whatever was played, unless bytes were put on the
    // disks by hand.
    pub fn is_explained(&self) -> bool
        ensures { result ≡ true → ∥ Explained self.now.world.pages (past_of self.now.world.past.items []) ∥₁ }
    {
        self.world.is_explained()
    }

    fn mark(&mut self, mark: Mark) -> Result<(), Wrong> {
        self.marks.push(mark)?;
        Ok(())
    }

    // One write of what is under way.
    fn write(&mut self) -> Result<(), Wrong> {
        let write = self.world.upcoming().ok_or(Wrong::NoDisk)?;
        let alive = self.world.is_alive(write.disk);
        self.world.write_next()?;
        if !self.loud {
            return Ok(());
        }
        let number = self.world.done();
        self.mark(Mark::Wrote {
            number,
            write,
            alive,
        })
    }

    fn die(&mut self, side: Side) -> Result<(), Wrong> {
        if !self.world.is_alive(side) {
            return Err(Wrong::DeadBefore);
        }
        self.world.kill(side).map_err(|_| Wrong::LastDisk)?;
        self.mark(Mark::Died(side))
    }

    fn cut(&mut self, mark: Mark) -> Result<(), Wrong> {
        self.world.cut().map_err(|_| Wrong::Memory)?;
        self.mark(mark)
    }

    // What strikes after so many writes.
    fn strike(&mut self, moments: &[Moment], done: u64, count: u64) -> Result<Power, Wrong> {
        for moment in moments {
            if after(*moment) != Some(done) {
                continue;
            }
            match *moment {
                Moment::Death { side, .. } => self.die(side)?,
                Moment::Power { .. } => {
                    let count = Writes(count);
                    self.cut(Mark::Cut { done, count })?;
                    return Ok(Power::Went);
                }
                Moment::Reading { .. } => {}
            }
        }
        Ok(Power::Stays)
    }

    // Disks that die while they are read are told so before.
    fn before_reading(&mut self, moments: &[Moment]) -> Result<(), Wrong> {
        for moment in moments {
            let Moment::Reading { side, read } = *moment else {
                continue;
            };
            if !self.world.is_alive(side) {
                return Err(Wrong::DeadBefore);
            }
            self.world.set_left(side, read.saturating_sub(1));
        }
        Ok(())
    }

    // What died while it was read; what should have and didn't is a fault of the line.
    fn after_reading(&mut self, moments: &[Moment]) -> Result<(), Wrong> {
        for moment in moments {
            let Moment::Reading { side, .. } = *moment else {
                continue;
            };
            if self.world.is_alive(side) {
                return Err(Wrong::MomentLate);
            }
            self.mark(Mark::Died(side))?;
        }
        Ok(())
    }

    // All the writes of what is under way, with what strikes before, between and after them.
    fn writes(&mut self, moments: &[Moment], count: u64) -> Result<Power, Wrong> {
        can_come(moments, count)?;
        for done in 0..count {
            if self.strike(moments, done, count)? == Power::Went {
                return Ok(Power::Went);
            }
            self.write()?;
        }
        self.strike(moments, count, count)
    }

    fn begin(&mut self, asked: &Asked) -> Result<u64, Wrong> {
        if !self.world.is_up() {
            return Err(Wrong::PowerGone);
        }
        self.world.begin(asked).map_err(|_| Wrong::NoDisk)?;
        Ok(self.world.count())
    }

    fn tell(&mut self) -> Result<Seen, Wrong> {
        let Some(under) = self.world.under() else {
            return Err(Wrong::NoDisk);
        };
        self.world.tell()?;
        Ok(seen(&under.answer))
    }

    fn call(&mut self, asked: &Asked, moments: &[Moment]) -> Result<(), Wrong> {
        self.before_reading(moments)?;
        let count = self.begin(asked)?;
        self.after_reading(moments)?;
        if self.writes(moments, count)? == Power::Went {
            return Ok(());
        }
        let answer = self.tell()?;
        let writes = Writes(count);
        self.mark(Mark::Answered(Answered { answer, writes }))
    }

    // A call at which nothing strikes.
    fn whole(&mut self, asked: &Asked) -> Result<Answered, Wrong> {
        let count = self.begin(asked)?;
        for _ in 0..count {
            self.write()?;
        }
        let answer = self.tell()?;
        let writes = Writes(count);
        Ok(Answered { answer, writes })
    }

    // The same call once more; one that is answered otherwise begins a new line.
    fn again(&mut self, asked: &Asked, before: Option<Alike>) -> Result<Alike, Wrong> {
        let each = self.whole(asked)?;
        let times = match before {
            Some(before) if before.each == each => before.times.saturating_add(1),
            Some(before) => {
                self.mark(Mark::Repeated(before))?;
                1
            }
            None => 1,
        };
        Ok(Alike { times, each })
    }

    // The same call so many times.
    fn times(&mut self, n: u32, asked: &Asked) -> Result<(), Wrong> {
        let loud = self.loud;
        self.loud = false;
        let mut alike = None;
        for _ in 0..n {
            alike = Some(self.again(asked, alike)?);
        }
        self.loud = loud;
        match alike {
            Some(alike) => self.mark(Mark::Repeated(alike)),
            None => Ok(()),
        }
    }

    // Recovery begins when power is back: what died in between is dead by then.
    fn recover(&mut self, moments: &[Moment]) -> Result<(), Wrong> {
        if self.world.is_up() {
            return Err(Wrong::PowerThere);
        }
        self.before_reading(moments)?;
        self.world.cut()?;
        self.after_reading(moments)?;
        let count = self.world.count();
        if self.writes(moments, count)? == Power::Went {
            return Ok(());
        }
        self.world.recovered()?;
        self.mark(Mark::Recovered(Writes(count)))
    }

    fn set(&mut self, block: u64, bytes: &Asked) -> Result<(), Wrong> {
        if !self.world.is_up() {
            return Err(Wrong::PowerGone);
        }
        self.world
            .overwrite(block, bytes.as_slice())
            .map_err(|_| Wrong::SetOutside)?;
        self.mark(Mark::Set(block))
    }

    pub fn command(&mut self, command: &Command) -> Result<(), Wrong> {
        let moments = command.moments.as_slice();
        match command.order {
            Order::Call(asked) => self.call(&asked, moments),
            Order::Times(n, asked) => self.times(n, &asked),
            Order::Recover => self.recover(moments),
            Order::Power => self.cut(Mark::Power),
            Order::Die(side) => self.die(side),
            Order::Set { block, bytes } => self.set(block, &bytes),
            Order::Quiet => {
                self.loud = false;
                Ok(())
            }
            Order::Loud => {
                self.loud = true;
                Ok(())
            }
        }
    }
}

fn is_shown(order: Order) -> bool {
    !matches!(order, Order::Quiet | Order::Loud)
}

// One command, with a mark where it begins.
fn play_one(play: &mut Play, command: &Command, at: usize) -> Result<(), Wrong> {
    if is_shown(command.order) {
        play.mark(Mark::Command(at))?;
    }
    play.command(command)
}

// Plays a whole script. A line that can't be played stops it.
pub fn play_script(heap: Global, script: &Script) -> Result<Play, Fault> {
    let mut play = Play::new(heap, script.pages).map_err(|wrong| Fault { line: 1, wrong })?;
    for (at, command) in script.commands.iter().enumerate() {
        let line = command.line;
        play_one(&mut play, command, at).map_err(|wrong| Fault { line, wrong })?;
    }
    Ok(play)
}
