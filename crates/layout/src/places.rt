// The places of blocks, as constants and functions of a type.
ghost use Rattle.std.specs.Prelude.{◌≡◌, ◌+◌, ◌-◌, ◌*◌, ◌<◌, ◌≤◌, MatchOption};
ghost use Rattle.model.specs.Numbers.{first_page, most_pages, page_size};

use octets::BLOCK;

// How many blocks a disk has: never more than the layout allows.
#[derive(Clone, Copy, PartialEq, Eq, Debug)]
pub struct Extent {
    pub blocks: u64,
    ghost bounded: { blocks ≤ most_pages + first_page },
}

pub struct Layout;

impl Layout {
    // The journal's header.
    pub const HEADER: u64 = 0;

    // The list of the log's pages.
    pub const LIST: u64 = 1;

    // The first block of the log.
    pub const LOG: u64 = 2;

    // How many writes the log has room for.
    pub const ROOM: u32 = 256;

    // The first block that holds a page.
    pub const PAGES: u64 = 258;

    // The most pages that a register may have.
    pub const MOST_PAGES: u32 = 16777216;

    // The block of the log's i-th write.
    pub fn log(i: u32) -> u64
        ensures { result ≡ 2 + i }
    {
        Self::LOG + i as u64
    }

    // The block of a page.
    pub fn page(page: u32) -> u64
        ensures { result ≡ first_page + page }
    {
        Self::PAGES + page as u64
    }

    // How many blocks a disk has, for so many pages.
    pub fn blocks(pages: u32) -> u64
        ensures { result ≡ pages + first_page }
    {
        pages as u64 + Self::PAGES
    }

    // How many pages a disk of so many blocks has; None where no register has such disks.
    pub fn pages(blocks: u64) -> Option<u32>
        ensures { MatchOption result
            ((1 + first_page ≤ blocks → most_pages + first_page < blocks))
            (λ n. (blocks ≡ n + first_page) × (1 ≤ n) × (n ≤ most_pages)) }
    {
        if blocks <= Self::PAGES || blocks > Self::PAGES + Self::MOST_PAGES as u64 {
            return None;
        }
        Some((blocks - Self::PAGES) as u32)
    }

    // Where a block begins in a file that is a disk; None where no disk has such a block.
    pub fn offset(block: u64) -> Option<u64>
        ensures { MatchOption result (most_pages + first_page ≤ block) (λ n. (block < most_pages + first_page) × (n ≡ page_size * block)) }
    {
        if block >= Self::PAGES + Self::MOST_PAGES as u64 {
            return None;
        }
        Some(BLOCK as u64 * block)
    }
}
