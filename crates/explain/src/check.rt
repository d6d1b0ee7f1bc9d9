// The search for a book.
//
// Each answer that was told has to be the book's. Of a call that power cut all happened or nothing: there the
// book has a choice, and all choices are tried. Only a close leaves something to choose, since whatever else
// a call changes goes with power.
ghost use Rattle.std.specs.Prelude.{◌≡◌, ◌≤◌, ◌^◌, length, IfSome};

use crate::book::Book;
use wire::call;
use wire::call::Call;
use world::history::{Asked, Event};
use world::world::World;

// What is known of a world from the outside: how many pages there are, and what happened, the first first.
#[derive(Clone, Copy)]
pub struct History<'a> {
    pub pages: u32,
    pub past: &'a [Event],
}

// What happened is not what the book says.
#[derive(Clone, Copy)]
struct Unexplained;

// Whether the bytes are a close.
fn is_close(asked: &Asked) -> bool {
    matches!(call::decode(asked.as_slice()), Ok(Call::Close))
}

// Whether what happened leaves a choice to the book.
fn is_choice(event: &Event) -> bool {
    match event {
        Event::Cut(asked) => is_close(asked),
        Event::Answered(_, _) | Event::Power => false,
    }
}

// The book after what happened; late: a call that power cut happened.
fn go_on(book: &mut Book, event: &Event, late: bool) -> Result<(), Unexplained>
    ensures { book.new.count ≡ book.old.count }
{
    match event {
        Event::Answered(asked, told) => {
            if !book.answers(asked, told) {
                return Err(Unexplained);
            }
            book.take(asked);
        }
        Event::Cut(asked) => {
            if late {
                book.take(asked);
            }
            book.lose_waiting();
        }
        Event::Power => book.lose_waiting(),
    }
    Ok(())
}

impl<'a> History<'a> {
    // What happened in a world.
    pub fn of(world: &'a World) -> History<'a>
        ensures { result.past.now ≡ world.now.past.items }
    {
        History {
            pages: world.pages(),
            past: world.past(),
        }
    }

    // How many choices there are.
    pub fn choices(&self) -> usize
        ensures { result ≤ length self.now.past.now }
    {
        self.past.iter().filter(|event| is_choice(event)).count()
    }

    // In how many ways the choices can be made; of more than sixteen, the later ones always fall the same way.
    pub fn ways(&self) -> u64
        ensures some { 1 ≤ result }
        ensures bound { result ≤ 2 ^ 16 }
    {
        1 << self.choices().min(16)
    }

    // The book that explains what happened by these choices: the lowest bit is the first choice, and says
    // that the close happened.
    pub fn book(&self, choices: u64) -> Option<Book>
        ensures { IfSome result (λ book. book.count ≡ self.now.pages) }
    {
        let mut book = Book::new(self.pages)?;
        let mut left = choices;
        for event in self.past {
            go_on(&mut book, event, left % 2 == 1).ok()?;
            if is_choice(event) {
                left /= 2;
            }
        }
        Some(book)
    }
}
