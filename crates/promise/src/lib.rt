// What is promised of the register as a whole, proved of its plans on the model.
//
// The functions here do nothing when they run: each stands for the statements that its contract exports,
// so that a reader, and a crate above, can take them from the code.
#![tactic(auto)]

ghost use Rattle.model.specs.Plain.{plain};
ghost use Rattle.model.specs.Promise.{Right, thin, all};
ghost use Rattle.model.specs.Statements.{PagesStand, ReplicasSame, OneDiffers, RecoveredOnce, MadeEmpty, RefusedWritesNothing};
ghost use Rattle.model.specs.Later.{StandsOn};
ghost use Rattle.model.specs.Two as two;
ghost use Rattle.promise.specs.Register.{register, for_two};
ghost use Rattle.promise.specs.LateReading.{LogSame, ReadsLate, HeadersSane};
ghost use Rattle.promise.specs.Bounds.{StaysWithin, MakesEachOnce, CallCounts, RecoveryCounts, StaysBounded};

// The main promise: whatever happens, whenever power goes and whichever disk dies when, there is a book
// that explains every answer. For any number of disks in a list, and for two with names; for a
// register without size, and for one with all calls.
pub fn main_promise()
    ensures list_thin { Right plain thin register }
    ensures list_all { Right plain all register }
    ensures two_thin { two.Right thin (for_two register) }
    ensures two_all { two.Right all (for_two register) }
{}

// At rest, which is when nothing is under way: the pages that hold stand on each living disk, any two
// living disks are the same, and until something is closed the same pages go on standing there.
pub fn at_rest()
    ensures pages { PagesStand plain register }
    ensures same { ReplicasSame plain register }
    ensures stands { StandsOn plain register }
{}

// At any moment: two living disks differ in one block at most; where the log holds, list and log are the
// same on all; a page that is written next may be read from the log of any of them; and all that is still
// to be written is good pages within the disks; and every header is one that a register may have written.
pub fn any_moment()
    ensures differ { OneDiffers plain register }
    ensures log { LogSame }
    ensures late { ReadsLate }
    ensures within { StaysWithin }
    ensures headers { HeadersSane }
{}

// Recovery, done to its end from any moment and done once more, changes no page.
pub fn recovered_once()
    ensures { RecoveredOnce plain register }
{}

// New disks are empty, whatever they had: every block of each is written once.
pub fn made_new()
    ensures empty { MadeEmpty plain register }
    ensures once { MakesEachOnce }
{}

// How much is written, whatever the disks hold: nothing for a call that is refused, the exact number for
// every call and recovery, and for two disks 516 and 515 blocks at most.
pub fn writes_counted()
    ensures refused { RefusedWritesNothing plain register }
    ensures calls { CallCounts }
    ensures recovery { RecoveryCounts }
    ensures bounded { StaysBounded }
{}
