// The register: the journal over two disks.
//
// A call, recovery and making each begin by working out all that they will write; that is a `Work`. Then
// its writes are done one after the other, each block on the first disk and then on the second, and only
// after the last is the answer told. The code is written once, for any pair of disks.
//
// How many pages there are is handed on beside the disks, and not in one struct with them: a world and a program
// hold both with more beside, and lend the disks alone.
#![tactic(auto)]

pub mod call;
pub mod make;
pub mod memory;
pub mod perform;
pub mod recover;
pub mod stopped;
pub mod work;
pub mod write;
