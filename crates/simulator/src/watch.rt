// A line that tells how far a search is, where standard error is a terminal.
use every::explore::Counts;
use std::io::IsTerminal;

// How many worlds are looked at between two lines.
const STEP: u64 = 65536;

#[derive(Drop)]
pub struct Watcher<'a> {
    rt: &'a HostRuntime,
    // After how many worlds the next line comes; None where nobody looks.
    next: Option<u64>,
}

impl Watcher<'_> {
    pub fn new<'a>(rt: &'a HostRuntime) -> Watcher<'a> {
        let next = rt.stderr().is_terminal().then_some(STEP);
        Watcher { rt, next }
    }

    // Takes the line away again.
    pub fn clear(&self) {
        if self.next.is_some() {
            let _ = eprint!(self.rt; "\r                        \r");
        }
    }

    // So many worlds were looked at; now and then that is told.
    pub fn watch(&mut self, counts: Counts) {
        let worlds = counts.worlds;
        if self.next.is_some_and(|next| worlds >= next) {
            self.next = Some(worlds.saturating_add(STEP));
            let _ = eprint!(self.rt; "\r{worlds} worlds");
        }
    }
}
