// The list of the log's pages: block 1 of a disk, four bytes for each write of the log.
ghost use Rattle.std.specs.Prelude.{◌≡◌, ◌<◌};
ghost use Rattle.model.specs.Numbers.{room};
ghost use Rattle.layout.specs.PageList.{listed, list_with, listed_below};

use crate::count::{Count, Slot};
use octets::Block;

// The page that the write at a place of the log is for.
pub fn page(list: &Block, slot: Slot) -> u32
    ensures { result ≡ listed list.now slot.place }
{
    octets::get_u32(list, 4 * slot.place as usize)
}

// Notes which page the write at a place of the log is for; the rest of the list stays.
pub fn put_page(list: &mut Block, slot: Slot, page: u32)
    ensures { list.new ≡ list_with list.old slot.place page }
{
    octets::put_u32(list, 4 * slot.place as usize, page);
}

// Whether the first pages of the list, so many, are pages of the book.
pub fn all_below(list: &Block, pages: u32, count: Count) -> bool
    ensures { result ≡ listed_below list.now pages count.writes }
{
    (0..count.writes).all(
        |place|
            requires { place < room }
        { page(list, Slot { place }) < pages },
    )
}
