// The search through all plays.
//
// A play is gone through moment by moment. At each moment the worlds that a mishap makes of it are put on a
// stack, and are played to their ends before it goes on; so there are never more worlds in memory than
// mishaps can follow each other.
use crate::advance::Step;
use crate::digest::Digest;
use crate::look::Failure;
use crate::run::{Halt, Run};
use crate::trail::script_of;
use device::mirror::Side;
use script::order::{Command, Fault, Order, Script, Wrong};
use std::alloc::{AllocError, AllocFailed, Global};
use std::collections::BTreeSet;
use std::fmt;
use world::world::Unmade;

// The most reads of one disk at the beginning of a call or recovery.
const MOST_READS: u64 = 100;

#[derive(Clone, Copy, Default, PartialEq, Eq, Debug)]
pub struct Counts {
    // Worlds that were looked at, and how many of them at rest.
    pub worlds: u64,
    pub rests: u64,
    // Plays that came to their end, and plays that came to a rest that was met before.
    pub plays: u64,
    pub met: u64,
    // Mishaps that the script doesn't have.
    pub powers: u64,
    pub deaths: u64,
}

// The first world in which something failed, as a script that leads there.
#[derive(Drop)]
pub struct Found {
    pub why: Failure,
    pub script: String,
}

// What came of the search.
#[derive(Drop)]
pub struct Outcome {
    pub counts: Counts,
    pub found: Option<Found>,
}

// As lines.
impl fmt::Display for Outcome {
    fn fmt<W: fmt::Write>(&self, f: &mut fmt::Formatter<W>) -> fmt::Result {
        let Counts {
            worlds,
            rests,
            plays,
            met,
            powers,
            deaths,
        } = self.counts;
        writeln!(f, "{worlds:>9}  worlds, {rests} of them at rest")?;
        writeln!(
            f,
            "{powers:>9}  times power went, and {deaths} times a disk died, that the script does not have"
        )?;
        writeln!(
            f,
            "{plays:>9}  plays came to the end of the script, and {met} to a rest that was met before"
        )?;
        let Some(found) = &self.found else {
            return writeln!(f, "           nothing fails");
        };
        let why = found.why;
        let script = found.script.as_str();
        write!(f, "           FAILS: {why}, here:\n{script}")
    }
}

// What is to be done with a run: its world is looked at, or it goes on.
#[derive(Drop)]
enum Task<'a> {
    Look(Run<'a>),
    GoOn(Run<'a>),
}

// Why a search ends before all is played.
#[derive(Drop)]
enum Stop {
    Found(Found),
    Wrong(Wrong),
}

impl From<AllocError> for Stop {
    fn from(_e: AllocError) -> Stop {
        Stop::Wrong(Wrong::Memory)
    }
}

impl<T: Drop> From<AllocFailed<T>> for Stop {
    fn from(_e: AllocFailed<T>) -> Stop {
        Stop::Wrong(Wrong::Memory)
    }
}

impl From<Unmade> for Stop {
    fn from(why: Unmade) -> Stop {
        Stop::Wrong(why.into())
    }
}

#[derive(Drop)]
struct Search<'a> {
    heap: Global,
    stack: Vec<Task<'a>>,
    // What mishaps made of the run that is looked at, on the way to the stack. It is kept, empty, from one look to the
    // next, so that its room is asked for once and not at each look.
    made: Vec<Task<'a>>,
    met: BTreeSet<Digest>,
    counts: Counts,
}

fn bump(n: &mut u64) {
    *n = n.saturating_add(1);
}

// The script that leads to a world in which something fails, or why there is none.
fn stop_at(heap: Global, run: &Run<'_>, halt: Halt) -> Stop {
    let Halt::Failed(why) = halt else {
        return Stop::Wrong(Wrong::Memory);
    };
    match script_of(heap, run.world.pages(), run.trail.as_slice()) {
        Ok(script) => Stop::Found(Found { why, script }),
        Err(e) => e.into(),
    }
}

impl<'a> Search<'a> {
    fn push(&mut self, task: Task<'a>) -> Result<(), Stop> {
        self.stack.push(task)?;
        Ok(())
    }

    // The run that a mishap makes of another.
    fn struck<F: FnOnce(&mut Run<'a>) -> Result<(), Halt>>(
        &self,
        run: &Run<'a>,
        mishap: F,
    ) -> Result<Run<'a>, Stop>
        requires { F.IsAlwaysCallable mishap }
    {
        let mut run = run.copy(self.heap)?;
        mishap(&mut run).map_err(|halt| stop_at(self.heap, &run, halt))?;
        Ok(run)
    }

    // A disk dies at each of its reads at the beginning of what is next.
    fn die_reading(&mut self, run: &Run<'a>, side: Side) -> Result<(), Stop> {
        for read in 1..MOST_READS {
            let mut struck = run.copy(self.heap)?;
            let dies = struck
                .die_reading(side, read)
                .map_err(|halt| stop_at(self.heap, &struck, halt))?;
            if !dies {
                break;
            }
            bump(&mut self.counts.deaths);
            self.made.push(Task::Look(struck))?;
        }
        Ok(())
    }

    fn die(&mut self, run: &Run<'a>, side: Side) -> Result<(), Stop> {
        bump(&mut self.counts.deaths);
        let struck = self.struck(run, |run| run.die(side))?;
        self.made.push(Task::Look(struck))?;
        if run.may_die_reading() {
            self.die_reading(run, side)?;
        }
        Ok(())
    }

    // Makes all that a mishap can make of a run now.
    fn mishaps(&mut self, run: &Run<'a>) -> Result<(), Stop> {
        if run.may_cut() {
            bump(&mut self.counts.powers);
            let struck = self.struck(run, |run| run.cut())?;
            self.made.push(Task::Look(struck))?;
        }
        if run.may_die() {
            for side in Side::BOTH {
                self.die(run, side)?;
            }
        }
        Ok(())
    }

    // Whether a run at rest is met for the first time.
    fn is_new(&mut self, run: &Run<'a>) -> Result<bool, Stop> {
        let digest = run.digest(self.heap)?;
        Ok(self.met.insert(digest)?)
    }

    // Looks at the world of a run. It goes on after all that a mishap can make of it.
    fn look(&mut self, mut run: Run<'a>) -> Result<(), Stop> {
        bump(&mut self.counts.worlds);
        run.look()
            .map_err(|why| stop_at(self.heap, &run, Halt::Failed(why)))?;
        if run.is_at_rest() {
            bump(&mut self.counts.rests);
            if !self.is_new(&run)? {
                bump(&mut self.counts.met);
                return Ok(());
            }
        }
        self.mishaps(&run)?;
        self.push(Task::GoOn(run))?;
        self.stack.append(&mut self.made)?;
        Ok(())
    }

    // A run goes on by one step.
    fn go_on(&mut self, mut run: Run<'a>) -> Result<(), Stop> {
        let step = run
            .advance()
            .map_err(|halt| stop_at(self.heap, &run, halt))?;
        match step {
            Step::Changed => self.push(Task::Look(run)),
            Step::Same => self.push(Task::GoOn(run)),
            Step::End => {
                bump(&mut self.counts.plays);
                Ok(())
            }
        }
    }

    fn turn(&mut self, task: Task<'a>) -> Result<(), Stop> {
        match task {
            Task::Look(run) => self.look(run),
            Task::GoOn(run) => self.go_on(run),
        }
    }

    // Goes through all plays of a script, and tells after each world how far it is.
    fn go_through<W: FnMut(Counts)>(&mut self, script: &'a Script, mut watch: W) -> Result<(), Stop>
        requires { W.IsAlwaysCallable watch }
    {
        let first = Run::of(self.heap, script)?;
        self.push(Task::Look(first))?;
        // No `while let`: nothing says how many worlds a script has, and a loop has to end.
        for _ in 0..u64::MAX {
            let Some(task) = self.stack.pop() else {
                break;
            };
            self.turn(task)?;
            watch(self.counts);
        }
        Ok(())
    }
}

// Whether a command is only played, and not explored.
fn is_unexplored(command: &Command) -> bool {
    matches!(command.order, Order::Times(_, _) | Order::Set { .. })
}

// What came of the search through a script.
fn search_through<W: FnMut(Counts)>(
    heap: Global,
    script: &Script,
    watch: W,
) -> Result<Outcome, Wrong>
    requires { W.IsAlwaysCallable watch }
{
    let mut search = Search {
        heap,
        stack: Vec::new(heap),
        made: Vec::new(heap),
        met: BTreeSet::new(heap),
        counts: Counts::default(),
    };
    let found = match search.go_through(script, watch) {
        Ok(()) => None,
        Err(Stop::Found(found)) => Some(found),
        Err(Stop::Wrong(wrong)) => return Err(wrong),
    };
    Ok(Outcome {
        counts: search.counts,
        found,
    })
}

// Plays the script with mishaps at every moment.
pub fn explore<W: FnMut(Counts)>(heap: Global, script: &Script, watch: W) -> Result<Outcome, Fault>
    requires { W.IsAlwaysCallable watch }
{
    let unexplored = script
        .commands
        .iter()
        .find(|command| is_unexplored(command));
    if let Some(command) = unexplored {
        return Err(Fault {
            line: command.line,
            wrong: Wrong::NotExplored,
        });
    }
    search_through(heap, script, watch).map_err(|wrong| Fault { line: 1, wrong })
}
