// What stands where on a disk, and the bytes of the journal's own blocks.
//
// A disk is the header, the list of the log's pages, the log, and then the pages of the book. Only this
// crate knows a block's number or the bytes of a header; all else speaks of headers, lists and pages.
#![tactic(auto)]

pub mod count;
pub mod header;
pub mod list;
pub mod log;
pub mod places;
