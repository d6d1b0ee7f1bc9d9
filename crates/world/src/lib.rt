// A world of two disks in memory, in which everything that can happen to a register is played.
//
// A world holds both disks whole, the work under way and how far it is, the call under way with its answer,
// and what happened so far. It goes on by steps, each of which is one of the model's: a call begins, the
// next block is written, the answer is told, a disk dies, power goes, recovery is done. The blocks are read
// and written by the engine, the same code that runs on files.
#![tactic(auto)]

pub mod history;
pub mod world;
