// A look at one world: what has to hold of it.
use device::mirror::Side;
use explain::book::Book;
use explain::check::History;
use layout::places::Layout;
use octets::{BLOCK, Block};
use std::fmt;
use world::world::World;

// What doesn't hold of a world.
#[derive(Clone, Copy, PartialEq, Eq, Debug)]
pub enum Failure {
    NoBook,
    TwoDiffer,
    NotSame,
    NotStanding,
    // A step that should be possible was refused.
    Refused,
}

impl fmt::Display for Failure {
    fn fmt<W: fmt::Write>(&self, f: &mut fmt::Formatter<W>) -> fmt::Result {
        match *self {
            Failure::NoBook => f.write_str("no book explains what happened"),
            Failure::TwoDiffer => f.write_str("the disks differ in more than one block"),
            Failure::NotSame => f.write_str("the disks differ at rest"),
            Failure::NotStanding => f.write_str("what holds does not stand on the disks"),
            Failure::Refused => f.write_str("a step that is possible was refused"),
        }
    }
}

// Whether no disk died.
pub fn both_live(world: &World) -> bool {
    world.is_alive(Side::First) && world.is_alive(Side::Second)
}

// The blocks of a disk.
fn blocks(disk: &[u8]) -> &[Block] {
    disk.as_chunks::<BLOCK>().0
}

// In how many blocks two disks differ.
fn differing(first: &[u8], second: &[u8]) -> usize {
    blocks(first)
        .iter()
        .zip(blocks(second))
        .filter(|(a, b)| !octets::same(*a, *b))
        .count()
}

// Two living disks differ in one block at most, and at rest in none.
pub fn replicas(world: &World, rest: bool) -> Result<(), Failure> {
    let first = world.disk(Side::First);
    let second = world.disk(Side::Second);
    if !both_live(world) || octets::same(first, second) {
        return Ok(());
    }
    if rest {
        return Err(Failure::NotSame);
    }
    if differing(first, second) > 1 {
        return Err(Failure::TwoDiffer);
    }
    Ok(())
}

// Whether the pages that hold in a book stand on a disk.
fn stands(book: &Book, disk: &[u8]) -> bool {
    let pages = book.pages();
    let Some(standing) = blocks(disk).get(Layout::PAGES as usize..) else {
        return false;
    };
    pages.len() <= standing.len()
        && pages
            .iter()
            .zip(standing)
            .all(|(page, block)| octets::same(&page.holds, block))
}

// Whether the pages that hold in a book stand on each disk that lives.
fn stands_on_all(book: &Book, world: &World) -> bool {
    Side::BOTH.iter().all(|side| !world.is_alive(*side) || stands(book, world.disk(*side)))
}

// Whether one of the books that explain what happened in a world is such a book.
fn any_book<F: FnMut(Book) -> bool>(world: &World, is_such: F) -> bool
    requires { F.IsAlwaysCallable is_such }
{
    let history = History::of(world);
    (0..history.ways())
        .filter_map(|choices| history.book(choices))
        .any(is_such)
}

// At rest the pages that hold stand on the disks, by one of the books that explain what happened.
pub fn pages_stand(world: &World) -> Result<(), Failure> {
    if any_book(world, |book| stands_on_all(&book, world)) {
        Ok(())
    } else {
        Err(Failure::NotStanding)
    }
}

// A book explains what happened.
pub fn explained(world: &World) -> Result<(), Failure> {
    if any_book(world, |_| true) {
        Ok(())
    } else {
        Err(Failure::NoBook)
    }
}
