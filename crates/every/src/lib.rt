// A script played with power going at every moment, and with each disk dying at every moment.
//
// A moment is before the first write of a call or a recovery, between any two, after the last, at rest, and,
// for a death, also while something is read. Power goes once more in the recovery that follows, and once
// more in the one after that; one disk dies, at any moment of all these plays. Each world that is met is
// looked at, and a world at rest that was met before is not played again.
#![tactic(auto)]

pub mod advance;
pub mod digest;
pub mod explore;
pub mod look;
pub mod run;
#[cfg(test)]
mod tests;
pub mod trail;
