// What a mark says, in the lines of a play and in its drawings alike.
use engine::write::{Write, WriteKind};
use journal::plan::Kind;
use layout::places::Layout;
use play::mark::{Mark, Writes};
use script::order::Script;
use std::fmt;

// A mark, and the script whose commands and pages it is about.
#[derive(Clone, Copy)]
pub struct Words<'a> {
    pub script: &'a Script,
    pub mark: Mark,
}

// What a write puts into its block, in words.
#[derive(Clone, Copy, PartialEq, Eq, Debug)]
pub struct KindShown(pub Write);

// What a write of the journal puts into a block.
fn show_kind<W: fmt::Write>(f: &mut fmt::Formatter<W>, block: u64, kind: Kind) -> fmt::Result {
    match kind {
        Kind::Header(header) => write!(f, "{header}"),
        Kind::List { slot, page } => {
            let entry = slot.place;
            write!(f, "list: entry {entry} is page {page}")
        }
        Kind::Given => {
            let entry = block.saturating_sub(Layout::LOG);
            write!(f, "log entry {entry}")
        }
        Kind::Logged(entry) => {
            let page = block.saturating_sub(Layout::PAGES);
            write!(f, "page {page} from log entry {entry}")
        }
        Kind::Empty => f.write_str("empty"),
    }
}

impl fmt::Display for KindShown {
    fn fmt<W: fmt::Write>(&self, f: &mut fmt::Formatter<W>) -> fmt::Result {
        match self.0.kind {
            WriteKind::Copied => f.write_str("copied"),
            WriteKind::Journal(kind) => show_kind(f, self.0.block, kind),
        }
    }
}

// The block that is written, and what is put there.
fn show_write<W: fmt::Write>(f: &mut fmt::Formatter<W>, write: Write) -> fmt::Result {
    let block = write.block;
    let kind = KindShown(write);
    write!(f, "{block:>3}  {kind}")
}

impl Words<'_> {
    // Whether the mark is of a command that the script doesn't have: of that nothing is shown.
    pub(crate) fn is_astray(&self) -> bool {
        matches!(self.mark, Mark::Command(at) if at >= self.script.commands.len())
    }
}

fn show_made<W: fmt::Write>(f: &mut fmt::Formatter<W>, pages: u32, writes: Writes) -> fmt::Result {
    let blocks = Layout::blocks(pages);
    write!(f, "two new disks of {blocks} blocks, {writes}")
}

fn show_command<W: fmt::Write>(
    f: &mut fmt::Formatter<W>,
    script: &Script,
    at: usize,
) -> fmt::Result {
    match script.commands.get(at) {
        Some(command) => f.write_str(command.text.as_str()),
        None => Ok(()),
    }
}

impl fmt::Display for Words<'_> {
    fn fmt<W: fmt::Write>(&self, f: &mut fmt::Formatter<W>) -> fmt::Result {
        match self.mark {
            Mark::Made(writes) => show_made(f, self.script.pages, writes),
            Mark::Command(at) => show_command(f, self.script, at),
            Mark::Wrote { write, .. } => show_write(f, write),
            Mark::Answered(answered) => write!(f, "{answered}"),
            Mark::Repeated(alike) => write!(f, "{alike}"),
            Mark::Cut { done, count } => write!(f, "power goes after {done} of {count}"),
            Mark::Power => f.write_str("power goes"),
            Mark::Died(_) => f.write_str("dies"),
            Mark::Recovered(writes) => write!(f, "recovered; {writes}"),
            Mark::Set(block) => write!(f, "block {block} is set by hand"),
        }
    }
}
