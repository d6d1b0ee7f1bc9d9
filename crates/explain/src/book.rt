// A book in memory: of each page what holds and what will hold after a close, and how many writes wait.
//
// Its pages stand in an array of the most that it can have, and not in a `Vec`: so no book is ever missed for
// want of memory, and whether one explains what happened has no third answer.
ghost use Rattle.std.specs.Prelude.{◌≡◌, ◌<◌, ◌≤◌, take, MatchOption};

use journal::admit::admit;
use layout::places::Layout;
use octets::{BLOCK, Block, EMPTY};
use wire::answer::{Answer, Refusal};
use wire::call;
use wire::call::Call;
use world::history::{Asked, Told};

// A page of a book.
#[derive(Clone, Copy, PartialEq, Eq, Debug)]
pub struct Page {
    // What holds.
    pub holds: Block,
    // What will hold after a close.
    pub coming: Block,
}

impl Page {
    pub const EMPTY: Page = Page {
        holds: EMPTY,
        coming: EMPTY,
    };
}

#[derive(Clone, Copy)]
pub struct Book {
    count: u32,
    pages: [Page; Book::MOST as usize],
    waiting: u32,
    ghost few: { count ≤ 16 },
}

impl Book {
    // The most pages that a book has.
    pub const MOST: u32 = 16;

    // A new book of so many pages, all of them empty; None where there are more than it can have.
    pub fn new(count: u32) -> Option<Book>
        ensures { MatchOption result (16 < count) (λ b. (b.count ≡ count) × (b.waiting ≡ 0)) }
    {
        if count > Self::MOST {
            return None;
        }
        Some(Book {
            count,
            pages: [Page::EMPTY; Self::MOST as usize],
            waiting: 0,
        })
    }

    // Its pages, in their order.
    pub fn pages(&self) -> &[Page]
        ensures { result.now ≡ take self.now.count self.now.pages }
    {
        &self.pages[0..self.count as usize]
    }

    // How many writes wait.
    pub fn waiting(&self) -> u32
        ensures { result ≡ self.now.waiting }
    {
        self.waiting
    }

    // The call that bytes are, or why the book refuses it.
    fn admitted<'a>(&self, bytes: &'a [u8]) -> Result<Call<'a>, Refusal> {
        let call = admit(self.count, call::decode(bytes)?)?;
        if self.waiting >= Layout::ROOM && matches!(call, Call::Write { .. }) {
            return Err(Refusal::LogFull);
        }
        Ok(call)
    }

    // What a page holds, as an answer.
    fn holds(&self, page: u32) -> Told {
        match self.pages().get(page as usize) {
            Some(page) => Answer::Page(page.holds),
            None => Answer::Refused(Refusal::NoSuchPage),
        }
    }

    // What the book answers to a call.
    fn answer(&self, asked: &Asked) -> Told {
        match self.admitted(asked.as_slice()) {
            Ok(Call::Read { page }) => self.holds(page),
            Ok(Call::Write { .. } | Call::Close) => Answer::Done,
            Ok(Call::Size) => Answer::Number(self.count),
            Err(refusal) => Answer::Refused(refusal),
        }
    }

    // Whether the answer to a call is the book's.
    pub fn answers(&self, asked: &Asked, told: &Told) -> bool {
        match (self.answer(asked), told) {
            (Answer::Page(page), Answer::Page(other)) => octets::same(&page, other),
            (answer, told) => answer == *told,
        }
    }

    // A page as it is to hold after a close; nothing changes where there is no such page, or no room.
    fn write(&mut self, page: u32, bytes: &[u8])
        ensures { self.new.count ≡ self.old.count }
    {
        if page >= self.count || bytes.len() != BLOCK || self.waiting >= Layout::ROOM {
            return;
        }
        let pages = &mut self.pages;
        pages[page as usize].coming.copy_from_slice(bytes);
        self.waiting += 1;
    }

    // What was written holds.
    fn close(&mut self)
        ensures { self.new.count ≡ self.old.count }
    {
        for page in &mut self.pages {
            page.holds = page.coming;
        }
        self.waiting = 0;
    }

    // The call is taken; nothing changes if it is refused.
    pub fn take(&mut self, asked: &Asked)
        ensures { self.new.count ≡ self.old.count }
    {
        match self.admitted(asked.as_slice()) {
            Ok(Call::Write { page, bytes }) => self.write(page, bytes),
            Ok(Call::Close) => self.close(),
            Ok(Call::Read { .. } | Call::Size) | Err(_) => {}
        }
    }

    // Power went: what waited is lost.
    pub fn lose_waiting(&mut self)
        ensures pages { self.new.count ≡ self.old.count }
        ensures none { self.new.waiting ≡ 0 }
    {
        for page in &mut self.pages {
            page.coming = page.holds;
        }
        self.waiting = 0;
    }
}
