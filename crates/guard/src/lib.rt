// What surrounds two disks that are files: which file is which, who else has it open, and deaths that last.
//
// A disk that failed once and comes back at the next start would be believed, and its old pages copied over
// newer ones. So a death is noted beside the disk that goes on, and beside the dead one where that can be
// done, before anything else is written or answered.
#![tactic(auto)]

pub mod identity;
pub mod inspect;
pub mod marks;
pub mod names;
pub mod others;
pub mod pair;
pub mod part;
pub mod progress;
pub mod when;
