// Disks that are files.
//
// A disk is a file of whole blocks, read and written by number. Nothing can be proved of what a file
// holds, so what is known of such a disk is nothing; the code above is the same that is proved of disks in
// memory. What can be said is said here: which bytes of the file a block is, that a disk which failed once
// is never asked again, and that nothing else is touched.
#![tactic(auto)]

pub mod descriptor;
pub mod disk;
pub mod errors;
pub mod making;
pub mod span;
