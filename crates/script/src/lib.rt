// Scripts: what is to happen to a register, line by line.
//
// A script says how many pages there are, and then which calls are made and when power goes or a disk dies.
// It is read whole before anything of it is played, so that a line that can't be read stops all of it.
#![tactic(auto)]

pub mod hex;
pub mod order;
pub mod read;
