// What a call, recovery or making puts on one logical disk, step by step.
ghost use Rattle.std.specs.Prelude.{◌≡◌, ◌+◌, ◌≤◌, List, length, IfSome, MatchOption};
ghost use Rattle.model.specs.Numbers.{first_page, most_pages};
ghost use Rattle.std.specs.List.{slice_get as item};
ghost use Rattle.std.specs.Option.{option_map};
ghost use Rattle.model.specs.Book.{Page, nth};
ghost use Rattle.journal.specs.Plans.{ReadsLog, LogBlock, content, step_put, plan_puts};

use layout::count::{Count, Slot};
use layout::header::Header;
use layout::list;
use layout::places::{Extent, Layout};
use octets::Block;

// The kind of what is put into a block. What is put is fixed when the plan is worked out, but the log's
// pages may be read when they are written: nothing changes the log before they are.
#[derive(Clone, Copy, PartialEq, Eq, Debug)]
pub enum Kind {
    Header(Header),
    // The list of the log's pages, with a page noted at a place.
    List { slot: Slot, page: u32 },
    // The bytes that came with a write.
    Given,
    // The log's write at this place. A number, and no `Slot`: where the block stands is told of any.
    Logged(u32),
    Empty,
}

// One block to put.
#[derive(Clone, Copy, PartialEq, Eq, Debug)]
pub struct Step {
    pub block: u64,
    pub kind: Kind,
}

#[derive(Clone, Copy, PartialEq, Eq, Debug)]
pub enum Plan {
    // A call that writes nothing: a read, size, or a refusal.
    Nothing,
    // One more write in the log, at this place.
    Write { slot: Slot, page: u32 },
    // The header as holding, each of so many pages of the log, the empty header.
    Close { count: Count },
    // Recovery: each of so many pages of the log, the empty header.
    Replay { count: Count },
    // New disks: every block of them, empty.
    Make { disk: Extent },
}

const EMPTY_HEADER: Step = Step {
    block: Layout::HEADER,
    kind: Kind::Header(Header {
        holds: false,
        count: 0,
    }),
};

// The i-th step of a replay: a page of the log, then the empty header.
fn replay_step(list: &Block, count: Count, i: u64) -> Option<Step>
    ensures value { (b : List Page) (given : Page) → nth b 1 ≡ list.now → option_map (step_put given b) result ≡ item (plan_puts (Plan.Replay count) given b) i }
    ensures reads { IfSome result (λ s. ReadsLog (Plan.Replay count) s.kind) }
{
    match count.slot(i) {
        Some(slot) => Some(Step {
            block: Layout::page(list::page(list, slot)),
            kind: Kind::Logged(slot.place),
        }),
        None if i == u64::from(count.writes) => Some(EMPTY_HEADER),
        None => None,
    }
}

// The i-th step of a write.
fn write_step(slot: Slot, page: u32, i: u64) -> Option<Step>
    ensures value { (b : List Page) (given : Page) → option_map (step_put given b) result ≡ item (plan_puts (Plan.Write slot page) given b) i }
    ensures reads { IfSome result (λ s. ReadsLog (Plan.Write slot page) s.kind) }
{
    match i {
        0 => Some(Step {
            block: Layout::HEADER,
            kind: Kind::Header(Header {
                holds: false,
                count: slot.place + 1,
            }),
        }),
        1 => Some(Step {
            block: Layout::LIST,
            kind: Kind::List { slot, page },
        }),
        2 => Some(Step {
            block: Layout::log(slot.place),
            kind: Kind::Given,
        }),
        _ => None,
    }
}

impl Plan {
    // How many steps there are.
    pub fn len(self) -> u64
        ensures value { (b : List Page) (given : Page) → result ≡ length (plan_puts self given b) }
        ensures bound { result ≤ most_pages + first_page }
    {
        match self {
            Plan::Nothing => 0,
            Plan::Write { .. } => 3,
            Plan::Close { count } => u64::from(count.writes) + 2,
            Plan::Replay { count } => u64::from(count.writes) + 1,
            Plan::Make { disk } => disk.blocks,
        }
    }

    // The i-th step, by the list of the log's pages as it was when the plan was worked out.
    pub fn step(self, list: &Block, i: u64) -> Option<Step>
        ensures value { (b : List Page) (given : Page) → nth b 1 ≡ list.now → option_map (step_put given b) result ≡ item (plan_puts self given b) i }
        ensures reads { IfSome result (λ s. ReadsLog self s.kind) }
    {
        match self {
            Plan::Nothing => None,
            Plan::Write { slot, page } => write_step(slot, page, i),
            Plan::Close { count } => {
                if i == 0 {
                    return Some(Step {
                        block: Layout::HEADER,
                        kind: Kind::Header(Header {
                            holds: true,
                            count: count.writes,
                        }),
                    });
                }
                replay_step(list, count, i - 1)
            }
            Plan::Replay { count } => replay_step(list, count, i),
            Plan::Make { disk } => {
                if i >= disk.blocks {
                    return None;
                }
                Some(Step {
                    block: i,
                    kind: Kind::Empty,
                })
            }
        }
    }
}

// Puts the bytes of a kind into a block. Where they are to be read off a disk it puts nothing, and tells
// which block has them.
pub fn fill(kind: Kind, list: &Block, given: &Block, out: &mut Block) -> Option<u64>
    ensures { (b : List Page) → nth b 1 ≡ list.now → MatchOption result
        (out.new ≡ content given.now b kind)
        (λ k. (out.new ≡ out.old) × (content given.now b kind ≡ nth b k) × LogBlock kind k) }
{
    match kind {
        Kind::Header(header) => header.encode(out),
        Kind::List { slot, page } => {
            octets::copy_block(list, out);
            list::put_page(out, slot, page);
        }
        Kind::Given => octets::copy_block(given, out),
        Kind::Logged(place) => return Some(Layout::log(place)),
        Kind::Empty => octets::clear(out),
    }
    None
}
