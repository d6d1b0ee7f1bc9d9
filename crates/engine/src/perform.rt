// Doing the writes of a work, one after the other.
//
// What a step puts is made ready once, on the way to the first disk, and held until it is on the second
// too. A page of the log is read then, off a disk that lives: nothing that a close or a recovery writes
// before changes the log, so it is the page that was there when the work began.
ghost use Rattle.std.specs.Prelude.{is_ok};
ghost use Rattle.device.specs.Ran.{TellsLife};
ghost use Rattle.engine.specs.Works.{KindReads};
ghost use Rattle.engine.specs.Doing.{Readied, Performed, Stepped, PutAll, Finished};

use crate::work::Work;
use crate::write::{Write, WriteKind};
use device::Dead;
use device::mirror::{Pair, Side};
use journal::plan::fill;
use octets::{Block, EMPTY};

// Makes ready what a write puts, unless it was to be read and both disks are dead.
fn ready<P: Pair>(disks: &mut P, work: &Work, write: Write, held: &mut Block) -> Result<(), Dead>
    requires { KindReads work.now.plan write.kind }
    ensures { Readied (P.Pair.disks disks.old) (P.Pair.disks disks.new) work.now write held.old held.new (is_ok result) }
{
    let WriteKind::Journal(kind) = write.kind else {
        *held = work.block;
        return Ok(());
    };
    if write.disk == Side::Second {
        return Ok(());
    }
    match fill(kind, &work.list, &work.block, held) {
        Some(block) => disks.read(block, held),
        None => Ok(()),
    }
}

// Whether there is a disk to go on with.
fn one_lives<P: Pair>(disks: &P) -> Result<(), Dead>
    ensures { TellsLife (P.Pair.disks disks.now) (is_ok result) }
{
    if disks.is_alive() { Ok(()) } else { Err(Dead) }
}

// Does one write of a work, unless both disks are dead; held has what the one before it put.
pub fn perform<P: Pair>(
    disks: &mut P,
    work: &Work,
    write: Write,
    held: &mut Block,
) -> Result<(), Dead>
    requires { KindReads work.now.plan write.kind }
    ensures { Performed (P.Pair.disks disks.old) (P.Pair.disks disks.new) work.now write held.old held.new (is_ok result) }
{
    ready(disks, work, write, held)?;
    // A disk that is dead takes nothing, and the other goes on.
    let _ = disks.write(write.disk, write.block, held);
    one_lives(disks)
}

// Puts one step of a work's plan on the first disk and then on the second, unless both are dead.
fn put_step<P: Pair>(disks: &mut P, work: &Work, i: u64, held: &mut Block) -> Result<(), Dead>
    ensures { Stepped (P.Pair.disks disks.old) (P.Pair.disks disks.new) work.now i (is_ok result) }
{
    let Some(step) = work.plan.step(&work.list, i) else {
        return one_lives(disks);
    };
    // Written out, and not `Side::BOTH`: that the first comes before the second is the rule here.
    for disk in [Side::First, Side::Second] {
        let write = Write {
            disk,
            block: step.block,
            kind: WriteKind::Journal(step.kind),
        };
        perform(disks, work, write, held)?;
    }
    one_lives(disks)
}

// Puts all steps of a work's plan, each on both disks before the next: of a close and of recovery these are
// the pages of the log, in order.
fn put_all<P: Pair>(disks: &mut P, work: &Work, held: &mut Block) -> Result<(), Dead>
    ensures { PutAll (P.Pair.disks disks.old) (P.Pair.disks disks.new) work.now (is_ok result) }
{
    // By numbers: a step is worked out from its own, so that no list of them is ever held.
    for i in 0..work.plan.len() {
        put_step(disks, work, i, held)?;
    }
    one_lives(disks)
}

// Does all the writes of a work, unless both disks are dead.
pub fn finish<P: Pair>(disks: &mut P, work: &Work) -> Result<(), Dead>
    ensures { Finished (P.Pair.disks disks.old) (P.Pair.disks disks.new) work.now (is_ok result) }
{
    let mut held = EMPTY;
    let Some(block) = work.copy else {
        return put_all(disks, work, &mut held);
    };
    let write = Write {
        disk: Side::Second,
        block,
        kind: WriteKind::Copied,
    };
    perform(disks, work, write, &mut held)?;
    put_all(disks, work, &mut held)
}
