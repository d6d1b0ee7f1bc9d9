// The end of a run that can't go on: one line on stderr, and status 1.
ghost use Rattle.std.specs.Prelude.{◌≡◌};
ghost use Rattle.register.specs.declared.stop.Stop.TheVariants.{BothDead as NoDisk, NoMemory as NoRoom, Said as LineSaid};

use device::Dead;
use std::alloc::{AllocError, AllocFailed};
use std::fmt::Display;
use std::io::Error;

#[derive(Drop)]
pub enum Stop {
    // The line was said.
    Said,
    NoMemory,
    // Both disks failed: nothing more is claimed.
    BothDead,
}

impl Stop {
    // Says what was not said yet.
    pub fn say(self, rt: &HostRuntime) {
        let _ = match self {
            Stop::Said => Ok(()),
            Stop::NoMemory => eprintln!(rt; "register: there is not enough memory"),
            Stop::BothDead => {
                eprintln!(rt; "register: both disks are dead; nothing more is claimed")
            }
        };
    }
}

impl From<AllocError> for Stop {
    ghost from_gives = { λ _ stop. stop ≡ NoRoom };

    fn from(_error: AllocError) -> Stop {
        Stop::NoMemory
    }
}

impl<T: Drop> From<AllocFailed<T>> for Stop {
    ghost from_gives = { λ _ stop. stop ≡ NoRoom };

    fn from(_refused: AllocFailed<T>) -> Stop {
        Stop::NoMemory
    }
}

impl From<Dead> for Stop {
    ghost from_gives = { λ _ stop. stop ≡ NoDisk };

    fn from(_dead: Dead) -> Stop {
        Stop::BothDead
    }
}

// Says why it can't go on.
pub fn refuse<D: Display + Drop>(rt: &HostRuntime, why: D) -> Stop
    ensures { result ≡ LineSaid }
{
    let _ = eprintln!(rt; "register: {why}");
    Stop::Said
}

// Says that standard output takes nothing.
pub fn unwritten(rt: &HostRuntime, error: Error) -> Stop
    ensures { result ≡ LineSaid }
{
    refuse(
        rt,
        format_args!("standard output can't be written: {error}"),
    )
}
