// A start: which disks live, whether a register can have left them so, and recovery.
ghost use Rattle.std.specs.Prelude.{◌≡◌, true, false, Some, None};
ghost use Rattle.journal.specs.declared.plan.Plan.TheVariants.{Replay};
ghost use Rattle.register.specs.declared.start.Logged.TheVariants.{Closed};

use crate::mark::find;
use crate::open::{Files, Opened};
use crate::stop::{Stop, refuse};
use device::Dead;
use device::mirror::{Mirror, Side};
use engine::work::Work;
use files::disk::FileDisk;
use guard::inspect::{Differences, compare_disks, read_front, read_fronts};
use guard::marks::Mark;
use guard::pair::{FilePair, Named};
use guard::when;
use journal::plan::Plan;
use layout::log::{Front, Log};
use layout::places::Layout;
use std::fmt;

// A register that was recovered, and may be called.
#[derive(Drop)]
pub struct Register {
    pub disks: FilePair,
    pub pages: u32,
    pub mended: Mended,
}

// What a recovery found and did.
#[derive(Clone, Copy)]
pub struct Mended {
    // The block that was written on the second disk as it is on the first.
    copied: Option<u64>,
    // What became of the writes of the log, if there were any.
    log: Option<Logged>,
}

// What became of the writes of the log.
#[derive(Clone, Copy)]
enum Logged {
    // A close was cut: so many pages were brought to their places.
    Closed(u32),
    // They waited, and were not closed.
    Dropped(Writes),
}

// Since when each of the disks is dead and why, if it is.
type Deaths = Mirror<Option<String>>;

// Since when the disk of a side is dead and why, if it is: a mark says so, or the command line.
fn death_of(
    rt: &HostRuntime,
    disks: &Mirror<Option<Opened>>,
    side: Side,
) -> Result<Option<String>, Stop> {
    if let Some(other) = disks.disk(side.other()) {
        let death = find(rt, other.path.as_str(), other.name.as_str(), Mark::Alone)?;
        if death.is_some() {
            return Ok(death);
        }
    }
    match disks.disk(side) {
        Some(disk) => find(rt, disk.path.as_str(), disk.name.as_str(), Mark::Dead),
        None => {
            let moment = when::now(rt);
            Ok(Some(format!(in rt.alloc(); "since {moment}: a start said so")?))
        }
    }
}

fn deaths_of(rt: &HostRuntime, disks: &Mirror<Option<Opened>>) -> Result<Deaths, Stop> {
    Ok(Mirror {
        first: death_of(rt, disks, Side::First)?,
        second: death_of(rt, disks, Side::Second)?,
    })
}

// The disk that a file is, or a dead one in its place.
fn disk_of(file: Option<Opened>, dead: bool) -> Named {
    let Some(opened) = file else {
        return Named::new(FileDisk::dead(), None);
    };
    let Opened {
        file,
        name,
        blocks,
        ..
    } = opened;
    if dead {
        return Named::new(FileDisk::dead(), Some(name));
    }
    Named::new(FileDisk::new(file, blocks), Some(name))
}

// Joins the disks into a pair.
fn join(rt: &HostRuntime, files: Files, deaths: &Deaths, trace: bool) -> FilePair {
    let Files { disks, pages } = files;
    let first = disk_of(disks.first, deaths.first.is_some());
    let second = disk_of(disks.second, deaths.second.is_some());
    let mut pair = FilePair::new(*rt, first, second, trace);
    pair.watch(Layout::blocks(pages));
    pair
}

// Tells the deaths that are known.
fn say_deaths(rt: &HostRuntime, deaths: &Deaths) {
    for side in Side::BOTH {
        if let Some(text) = deaths.disk(side) {
            let _ = eprintln!(rt; "register: the {side} disk is dead {text}");
        }
    }
}

// What a disk's front says of the log; refused where no register writes such a front.
fn log_of(rt: &HostRuntime, side: Side, front: &Front, pages: u32) -> Result<Log, Stop> {
    front.decode(pages).map_err(|strange| {
        refuse(
            rt,
            format_args!(
                "the {side} disk has a header that no register of {pages} pages writes: {strange}; nothing was changed; if this disk is to be left out, give - in its place"
            ),
        )
    })
}

// Refuses two disks of which one has a header that no register writes.
fn refuse_strange_one(rt: &HostRuntime, disks: &mut FilePair, pages: u32) -> Result<(), Stop> {
    // Where one of them is dead, the other's is looked at later.
    let Ok((first, second)) = read_fronts(disks) else {
        return Ok(());
    };
    log_of(rt, Side::First, &first, pages)?;
    log_of(rt, Side::Second, &second, pages)?;
    Ok(())
}

// Refuses two disks that no register can have left so.
fn refuse_unlike(rt: &HostRuntime, disks: &mut FilePair, pages: u32) -> Result<(), Stop> {
    match compare_disks(disks, pages) {
        Ok(Some(Differences { count, first, last })) if count > 1 => Err(refuse(
            rt,
            format_args!(
                "the disks differ in {count} blocks, the first {first} and the last {last}: they are of two registers, or one is an old copy; nothing was changed; give - in place of the one to leave out"
            ),
        )),
        Ok(_) => refuse_strange_one(rt, disks, pages),
        // One of them is dead, and there is nothing to compare.
        Err(Dead) => Ok(()),
    }
}

// Looks through the disks, and refuses what no register can have left. What the log says, off the first disk
// that lives.
fn look_through(rt: &HostRuntime, disks: &mut FilePair, pages: u32) -> Result<Log, Stop> {
    refuse_unlike(rt, disks, pages)?;
    let front = read_front(disks)?;
    let side = if disks.lives(Side::First) {
        Side::First
    } else {
        Side::Second
    };
    log_of(rt, side, &front, pages)
}

// Makes the deaths that are known last, before anything is written. Of one that can't be noted that was said.
fn note_deaths(disks: &mut FilePair, deaths: &Deaths) -> Result<(), Stop> {
    for side in Side::BOTH {
        if let Some(text) = deaths.disk(side) {
            disks.note(side, text.as_str()).map_err(|_dead| Stop::Said)?;
        }
    }
    Ok(())
}

impl Logged {
    // What becomes of the writes of a log, by what recovery will do.
    fn of(plan: Plan, log: Log) -> Option<Logged>
        ensures closed { log.holds ≡ true → (count : _) → plan ≡ Replay count → result ≡ Some (Closed count.writes) }
        ensures none { log.holds ≡ false → log.count.writes ≡ 0 → result ≡ None }
    {
        match (log.holds, plan) {
            (true, Plan::Replay { count }) => Some(Logged::Closed(count.writes)),
            (false, _) if log.count.writes > 0 => Some(Logged::Dropped(Writes(log.count.writes))),
            _ => None,
        }
    }
}

// So many writes, in words. The simulator has the like: another program, with no crate in common for words.
#[derive(Clone, Copy)]
pub struct Writes(pub u32);

impl fmt::Display for Writes {
    fn fmt<W: fmt::Write>(&self, f: &mut fmt::Formatter<W>) -> fmt::Result {
        match self.0 {
            1 => f.write_str("1 write was not closed and is dropped"),
            n => write!(f, "{n} writes were not closed and are dropped"),
        }
    }
}

impl fmt::Display for Logged {
    fn fmt<W: fmt::Write>(&self, f: &mut fmt::Formatter<W>) -> fmt::Result {
        match self {
            Logged::Closed(count) => write!(f, "a close that was cut is done, pages: {count}"),
            Logged::Dropped(writes) => write!(f, "{writes}"),
        }
    }
}

impl fmt::Display for Mended {
    fn fmt<W: fmt::Write>(&self, f: &mut fmt::Formatter<W>) -> fmt::Result {
        if self.copied.is_none() && self.log.is_none() {
            return f.write_str("nothing to mend");
        }
        f.write_str("mended")?;
        if let Some(block) = self.copied {
            write!(
                f,
                "; block {block} is on the second disk now as on the first"
            )?;
        }
        if let Some(log) = self.log {
            write!(f, "; {log}")?;
        }
        Ok(())
    }
}

pub fn life(disks: &FilePair, side: Side) -> &'static str {
    if disks.lives(side) { "alive" } else { "dead" }
}

// Recovers the disks, and says what was mended.
fn recover(rt: &HostRuntime, mut disks: FilePair, pages: u32, log: Log) -> Result<Register, Stop> {
    let Work { copy, plan, .. } = engine::recover::recover(&mut disks, pages)?;
    let mended = Mended {
        copied: copy,
        log: Logged::of(plan, log),
    };
    let first = life(&disks, Side::First);
    let second = life(&disks, Side::Second);
    let _ = eprintln!(rt;
        "register: first disk {first}, second disk {second}, {pages} pages, {mended}"
    );
    Ok(Register {
        disks,
        pages,
        mended,
    })
}

// Refuses disks that are both dead.
fn refuse_both_dead(rt: &HostRuntime, deaths: &Deaths) -> Result<(), Stop> {
    let (Some(first), Some(second)) = (&deaths.first, &deaths.second) else {
        return Ok(());
    };
    Err(refuse(
        rt,
        format_args!(
            "the first disk is dead {first}; the second disk is dead {second}; there is no disk to go on with, and nothing was changed"
        ),
    ))
}

// Starts the register on files that were opened.
pub fn start(rt: &HostRuntime, files: Files, trace: bool) -> Result<Register, Stop> {
    let deaths = deaths_of(rt, &files.disks)?;
    refuse_both_dead(rt, &deaths)?;
    let pages = files.pages;
    let mut disks = join(rt, files, &deaths, trace);
    let log = look_through(rt, &mut disks, pages)?;
    say_deaths(rt, &deaths);
    note_deaths(&mut disks, &deaths)?;
    recover(rt, disks, pages, log)
}
