// A play goes on by one step, as the script says.
//
// A play with mishaps of its own may come to a line of the script that has no place any more: `recover` where
// power is there, the death of a disk that is the last one, a moment after more writes than there are. Such
// a line is left out.
use crate::look::{Failure, both_live};
use crate::run::{Halt, Phase, Run};
use crate::trail::Trail;
use device::mirror::Side;
use script::order::{Command, Moment, Order};
use std::alloc::AllocError;
use world::history::Asked;

// What came of a step.
#[derive(Clone, Copy, PartialEq, Eq, Debug)]
pub enum Step {
    // The world is another.
    Changed,
    // The world is as it was.
    Same,
    // The script is at its end.
    End,
}

impl<'a> Run<'a> {
    // The run goes on.
    pub fn advance(&mut self) -> Result<Step, Halt> {
        match (self.phase, self.left.first()) {
            (Phase::Rest | Phase::Down, None) => Ok(Step::End),
            (Phase::Rest | Phase::Down, Some(next)) => self.command(next),
            (_, Some(next)) => self.go_on(next.moments.as_slice()),
            (_, None) => self.go_on(&[]),
        }
    }

    // The next command. Where power is gone, only `recover`, `power` and `die` come.
    fn command(&mut self, command: &Command) -> Result<Step, Halt> {
        let moments = command.moments.as_slice();
        match command.order {
            Order::Call(asked) => self.call(&asked, moments),
            Order::Recover => self.recover(moments),
            Order::Power => {
                self.power(Trail::Power)?;
                Ok(Step::Changed)
            }
            Order::Die(side) => self.death_at_rest(side),
            Order::Quiet | Order::Loud => {
                self.pass();
                Ok(Step::Same)
            }
            Order::Times(_, _) | Order::Set { .. } => Err(Failure::Refused.into()),
        }
    }

    fn call(&mut self, asked: &Asked, moments: &[Moment]) -> Result<Step, Halt> {
        self.before_reading(moments);
        let begun = self.begin(asked);
        self.after_reading(moments)?;
        begun?;
        Ok(Step::Changed)
    }

    // Power comes back by the script.
    fn recover(&mut self, moments: &[Moment]) -> Result<Step, Halt> {
        self.trail.push(Trail::Recover)?;
        self.before_reading(moments);
        let begun = self.world.cut();
        self.after_reading(moments)?;
        begun?;
        self.phase = Phase::Recovery;
        self.struck = false;
        Ok(Step::Changed)
    }

    // Disks that the script lets die while they are read are told so before.
    fn before_reading(&mut self, moments: &[Moment]) {
        for moment in moments {
            if let Moment::Reading { side, read } = *moment
                && both_live(&self.world)
            {
                self.world.set_left(side, read.saturating_sub(1));
            }
        }
    }

    // And afterwards what didn't die lives on.
    fn after_reading(&mut self, moments: &[Moment]) -> Result<(), AllocError> {
        for moment in moments {
            if let Moment::Reading { side, .. } = *moment {
                if self.world.is_alive(side) {
                    self.world.set_left(side, u64::MAX);
                } else {
                    self.trail.push(Trail::Struck(*moment))?;
                }
            }
        }
        Ok(())
    }

    // One more write, or the end of what is under way.
    fn go_on(&mut self, moments: &[Moment]) -> Result<Step, Halt> {
        if !self.struck && matches!(self.phase, Phase::Call | Phase::Recovery) {
            self.struck = true;
            if self.strike_all(moments)? {
                return Ok(Step::Changed);
            }
        }
        if self.world.done() >= self.world.count() {
            return self.finish();
        }
        self.struck = false;
        self.world.write_next()?;
        Ok(Step::Changed)
    }

    // All is written: the call is answered, or recovery is done.
    fn finish(&mut self) -> Result<Step, Halt> {
        match self.phase {
            Phase::Call => {
                self.world.tell()?;
                self.pass();
            }
            Phase::Recovery => {
                self.world.recovered()?;
                self.pass();
            }
            Phase::Unforeseen => {
                self.world.recovered()?;
                self.powers = 0;
            }
            Phase::Rest | Phase::Down => return Err(Failure::Refused.into()),
        }
        self.phase = Phase::Rest;
        self.settle();
        Ok(Step::Changed)
    }

    // What the script has for this moment. Tells whether the world changed.
    fn strike_all(&mut self, moments: &[Moment]) -> Result<bool, Halt> {
        let done = self.world.done();
        let mut changed = false;
        for moment in moments {
            if self.phase == Phase::Down {
                break;
            }
            changed = self.strike(*moment, done)? | changed;
        }
        Ok(changed)
    }

    // A moment of the script, if it comes now. Tells whether the world changed.
    fn strike(&mut self, moment: Moment, done: u64) -> Result<bool, Halt> {
        match moment {
            Moment::Death { side, after } if after == done => {
                self.death(side, Trail::Struck(moment))
            }
            Moment::Power { after } if after == done => {
                self.power(Trail::Struck(moment))?;
                Ok(true)
            }
            _ => Ok(false),
        }
    }

    // A disk dies by the script, if both live. Tells whether it does.
    fn death(&mut self, side: Side, item: Trail<'a>) -> Result<bool, Halt> {
        if !both_live(&self.world) {
            return Ok(false);
        }
        self.trail.push(item)?;
        self.world.kill(side)?;
        Ok(true)
    }

    // A disk dies by a line of the script.
    fn death_at_rest(&mut self, side: Side) -> Result<Step, Halt> {
        let died = self.death(side, Trail::Death(side))?;
        self.pass();
        if self.is_at_rest() {
            self.settle();
        }
        Ok(if died { Step::Changed } else { Step::Same })
    }

    // Power goes by the script.
    fn power(&mut self, item: Trail<'a>) -> Result<(), Halt> {
        self.trail.push(item)?;
        self.phase = Phase::Down;
        self.pass();
        self.world.cut()?;
        Ok(())
    }
}
