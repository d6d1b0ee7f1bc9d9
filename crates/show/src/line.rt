// A play as lines: what was asked, each write, and what came of it.
//
// A line begins with `>` where something is asked, with `<` where it is answered, with `!` where something
// strikes, and with its number where a block is written.
use crate::words::Words;
use play::mark::Mark;
use std::fmt;

// A mark as a line.
#[derive(Clone, Copy)]
pub struct Line<'a>(pub Words<'a>);

impl fmt::Display for Line<'_> {
    fn fmt<W: fmt::Write>(&self, f: &mut fmt::Formatter<W>) -> fmt::Result {
        let words = self.0;
        match words.mark {
            Mark::Made(_) => {
                let pages = words.script.pages;
                write!(f, "> pages {pages}\n< {words}")
            }
            Mark::Command(_) if words.is_astray() => Ok(()),
            Mark::Command(_) => write!(f, "> {words}"),
            Mark::Wrote {
                number,
                write,
                alive,
            } => {
                let disk = write.disk;
                let dead = if alive { "" } else { " (dead)" };
                write!(f, "{number:>6}  {disk:<6}  block {words}{dead}")
            }
            Mark::Answered(_) | Mark::Repeated(_) | Mark::Recovered(_) => write!(f, "< {words}"),
            Mark::Cut { .. } | Mark::Power | Mark::Set(_) => write!(f, "! {words}"),
            Mark::Died(side) => write!(f, "! the {side} disk {words}"),
        }
    }
}
