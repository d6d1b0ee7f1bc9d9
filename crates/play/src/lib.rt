// Playing a script in a world, with a mark for everything that is seen.
#![tactic(auto)]

pub mod mark;
pub mod play;
