// What a call, recovery or making will write, fixed when it begins.
use journal::plan::Plan;
use octets::Block;

#[derive(Clone, Copy, PartialEq, Eq, Debug)]
pub struct Work {
    // After power went: the block in which the second disk differs, to be written there first.
    pub copy: Option<u64>,
    // What then goes on both disks.
    pub plan: Plan,
    // The list of the log's pages, as it was when the work began.
    pub list: Block,
    // The bytes that came with a write, or the block that is copied. A dead disk can't be asked for it
    // later, so it is kept here.
    pub block: Block,
}
