// How a world was reached: the lines of a script that leads there again.
use device::mirror::Side;
use script::order::{Command, Moment};
use std::alloc::{AllocError, Global};
use std::fmt;
use std::fmt::Write;

#[derive(Clone, Copy)]
pub enum Trail<'a> {
    // A command of the script.
    Command(&'a Command),
    Recover,
    // What struck while the command or the recovery before it was under way.
    Struck(Moment),
    // What struck at rest.
    Power,
    Death(Side),
}

// One item, on a line of its own or behind the one before it.
impl fmt::Display for Trail<'_> {
    fn fmt<W: fmt::Write>(&self, f: &mut fmt::Formatter<W>) -> fmt::Result {
        match *self {
            Trail::Command(command) => {
                let words = command.text.as_str();
                write!(f, "\n{words}")
            }
            Trail::Recover => write!(f, "\nrecover"),
            Trail::Struck(moment) => write!(f, " {moment}"),
            Trail::Power => write!(f, "\npower"),
            Trail::Death(side) => write!(f, "\ndie {side}"),
        }
    }
}

// The script that leads there, for so many pages.
pub fn script_of(heap: Global, pages: u32, trail: &[Trail<'_>]) -> Result<String, AllocError> {
    let mut text = format!(in heap; "pages {pages}")?;
    for item in trail {
        write!(text, "{item}")?;
    }
    text.push('\n')?;
    Ok(text)
}
