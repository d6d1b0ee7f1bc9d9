// The model that the register is held against: a book of pages, disks that die, a program over them,
// everything that can happen, and what is promised. It is all in specs/; no code runs here.
//
// The functions below do nothing when they run: each stands for the statements that its contract exports.
#![tactic(auto)]

ghost use Rattle.std.specs.Prelude.{ℕ, Bool};
ghost use Rattle.model.specs.Disks.{Program};
ghost use Rattle.model.specs.Plain.{Put, plain};
ghost use Rattle.model.specs.Promise.{Right};
ghost use Rattle.model.specs.Statements.{GoesOnHolding, RefusedChangesNothing, FirstAnswerIsRight};

// What the book's rules come to: what holds goes on holding until something is closed, and a call that is
// refused changes nothing.
pub fn book_stands()
    ensures holding { GoesOnHolding }
    ensures refused { RefusedChangesNothing }
{}

// The main promise is not an empty one: of whatever program keeps it, the first answer on new disks is the
// book's.
pub fn promise_binds()
    ensures { (can : ℕ → Bool) (f : Program Put) → Right plain can f → FirstAnswerIsRight plain can f }
{}
