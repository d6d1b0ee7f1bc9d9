// Whether a book explains what happened.
//
// The register promises that some book does, whenever power goes and whichever disk dies when. Here that is
// looked at from the outside: the history alone is read, no disk is, and a book is searched for that gives
// every answer.
#![tactic(auto)]

pub mod book;
pub mod check;
