// How far long work is, told once a second on stderr where that is a terminal.
use std::io::IsTerminal;
use std::time::Instant;

#[derive(Clone, Copy)]
pub struct Progress {
    rt: HostRuntime,
    // What is done, in words; and how much there is to do.
    doing: &'static str,
    all: u64,
    // When it was last told, or the work began. None: nothing is told.
    last: Option<Instant>,
}

impl Progress {
    pub fn new(rt: HostRuntime, doing: &'static str, all: u64) -> Progress {
        let last = if rt.stderr().is_terminal() {
            Instant::now(&rt).ok()
        } else {
            None
        };
        Progress {
            rt,
            doing,
            all,
            last,
        }
    }

    // So much is done.
    pub fn step(&mut self, done: u64) {
        let Some(last) = self.last else {
            return;
        };
        let Ok(now) = Instant::now(&self.rt) else {
            return;
        };
        if now.saturating_duration_since(last).as_secs() == 0 {
            return;
        }
        let doing = self.doing;
        let all = self.all;
        let _ = eprintln!(self.rt; "register: {doing}: {done} of {all}");
        self.last = Some(now);
    }
}
