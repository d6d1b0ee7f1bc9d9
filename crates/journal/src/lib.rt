// The journal on one logical disk: which calls are taken, and what each puts on the disk, in order.
//
// Here there is one disk. That it is two, and that either may die, is the mirror's matter. A plan is
// worked out when a call begins, from the header and the list of the log as they are then; it is a small
// value, and its steps are given by their number, so that no list of 500 blocks is ever held.
#![tactic(auto)]

pub mod admit;
pub mod plan;
