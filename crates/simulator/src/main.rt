// The simulator: plays scripts of calls, of moments at which power goes and of a disk's death, on two disks
// in memory, and prints everything that happens.
//
//     simulator SCRIPT ..                plays each script, and prints a line for each thing that happens
//     simulator --draw SCRIPT ..         draws each play, with a column for each disk
//     simulator --svg FILE SCRIPT        draws a play as a picture that a browser shows
//     simulator --every SCRIPT ..        plays each script with mishaps at every moment
//
// The words `--play`, `--draw` and `--every` hold for the scripts that follow, up to the next such word. All
// is played before anything is printed or written, so that a script that can't be read or played prints one
// line, which names the file and the line, and nothing else.
#![tactic(auto)]

mod watch;

use every::explore::explore;
use play::play::{Play, play_script};
use script::order::{Fault, Script};
use script::read;
use show::line::Line;
use show::picture::picture;
use show::rows::{Row, rows_of};
use show::text::draw;
use show::words::Words;
use std::alloc::{AllocError, Global};
use std::fmt::Write;
use std::process::ExitCode;
use std::{env, fs, io};
use watch::Watcher;

// Why the program ends with status 1; what is to be said was said.
#[derive(Debug, Drop)]
enum Stopped {
    Told,
    // Something was found that fails.
    Found,
    Memory,
    Output,
}

impl From<AllocError> for Stopped {
    fn from(_e: AllocError) -> Stopped {
        Stopped::Memory
    }
}

impl From<io::Error> for Stopped {
    fn from(_e: io::Error) -> Stopped {
        Stopped::Output
    }
}

// What is done with a script.
#[derive(Clone, Copy)]
enum Mode {
    Play,
    Draw,
    Every,
}

impl Mode {
    // The mode that a word stands for. No `FromStr`: a word that is none is no error, but a script's name.
    fn of(word: &str) -> Option<Mode> {
        match word {
            "--play" => Some(Mode::Play),
            "--draw" => Some(Mode::Draw),
            "--every" => Some(Mode::Every),
            _ => None,
        }
    }

    // What is said of it beside a script's name.
    fn title(self) -> &'static str {
        match self {
            Mode::Play => "",
            Mode::Draw => ", drawn",
            Mode::Every => ", at every moment",
        }
    }
}

// Says what is wrong with a script.
fn stop(rt: &HostRuntime, path: &str, fault: Fault) -> Stopped {
    match eprintln!(rt; "simulator: {path}: {fault}") {
        Ok(()) => Stopped::Told,
        Err(e) => e.into(),
    }
}

// The script in a file.
fn load(rt: &HostRuntime, path: &str) -> Result<Script, Stopped> {
    let Ok(text) = fs::read_to_string(rt, path) else {
        eprintln!(rt; "simulator: {path}: can't be read")?;
        return Err(Stopped::Told);
    };
    read::script(rt.alloc(), text.as_str()).map_err(|fault| stop(rt, path, fault))
}

// A script and its play.
#[derive(Drop)]
struct Played {
    script: Script,
    play: Play,
}

impl Played {
    // Plays the script in a file.
    fn of(rt: &HostRuntime, path: &str) -> Result<Played, Stopped> {
        let script = load(rt, path)?;
        let play = play_script(rt.alloc(), &script).map_err(|fault| stop(rt, path, fault))?;
        Ok(Played { script, play })
    }

    // What happened, a line for each thing.
    fn print(&self, out: &mut String) -> Result<(), AllocError> {
        for mark in self.play.marks() {
            let line = Line(Words {
                script: &self.script,
                mark: *mark,
            });
            writeln!(out, "{line}")?;
        }
        Ok(())
    }

    // The rows of its drawing.
    fn rows(&self, heap: Global) -> Result<Vec<Row>, AllocError> {
        rows_of(heap, &self.script, self.play.marks())
    }

    // What is promised of it.
    fn promise(&self) -> &'static str {
        if self.play.is_explained() {
            "= a book explains every answer\n"
        } else {
            "= bytes were set by hand: nothing is promised\n"
        }
    }
}

// What is printed once all is played.
#[derive(Drop)]
struct Report<'a> {
    rt: &'a HostRuntime,
    out: String,
    // No world was found in which something fails.
    holds: bool,
}

impl Report<'_> {
    // The name of a script, above what is printed of it.
    fn name(&mut self, path: &str, mode: Mode) -> Result<(), AllocError> {
        if !self.out.is_empty() {
            self.out.push('\n')?;
        }
        let title = mode.title();
        writeln!(self.out, "# {path}{title}")
    }

    // A script that is played with mishaps at every moment.
    fn search(&mut self, path: &str, script: &Script) -> Result<(), Stopped> {
        let mut watcher = Watcher::new(self.rt);
        let searched = explore(self.rt.alloc(), script, |counts| watcher.watch(counts));
        watcher.clear();
        let outcome = searched.map_err(|fault| stop(self.rt, path, fault))?;
        write!(self.out, "{outcome}")?;
        self.holds = self.holds && outcome.found.is_none();
        Ok(())
    }

    // One script.
    fn add(&mut self, path: &str, mode: Mode) -> Result<(), Stopped> {
        self.name(path, mode)?;
        let played = Played::of(self.rt, path)?;
        match mode {
            Mode::Play => played.print(&mut self.out)?,
            Mode::Draw => {
                let rows = played.rows(self.rt.alloc())?;
                draw(&mut self.out, rows.as_slice())?;
            }
            Mode::Every => return self.search(path, &played.script),
        }
        self.out.push_str(played.promise())?;
        Ok(())
    }
}

// All words, one after the other.
fn print_all(rt: &HostRuntime, words: &[String]) -> Result<(), Stopped> {
    let mut report = Report {
        rt,
        out: String::new(rt.alloc()),
        holds: true,
    };
    let mut now = Mode::Play;
    for word in words {
        match Mode::of(word.as_str()) {
            Some(mode) => now = mode,
            None => report.add(word.as_str(), now)?,
        }
    }
    rt.print(report.out.as_str())?;
    if report.holds {
        Ok(())
    } else {
        Err(Stopped::Found)
    }
}

fn write_picture(rt: &HostRuntime, file: &str, path: &str) -> Result<(), Stopped> {
    let rows = Played::of(rt, path)?.rows(rt.alloc())?;
    let text = picture(rt.alloc(), path, rows.as_slice())?;
    fs::write(rt, file, text.as_str())?;
    Ok(())
}

fn usage(rt: &HostRuntime) -> Result<(), Stopped> {
    eprintln!(rt;
        "simulator: write simulator [--play | --draw | --every] SCRIPT .., or simulator --svg FILE SCRIPT"
    )?;
    Err(Stopped::Told)
}

fn run(rt: &HostRuntime) -> Result<(), Stopped> {
    let words: Vec<String> = env::args(rt)?.skip(1).collect(rt.alloc())?;
    match words.as_slice() {
        [] => usage(rt),
        [option, rest @ ..] if option.as_str() == "--svg" => match rest {
            [file, path] => write_picture(rt, file.as_str(), path.as_str()),
            _ => usage(rt),
        },
        words => print_all(rt, words),
    }
}

fn main(rt: HostRuntime) -> ExitCode {
    match run(&rt) {
        Ok(()) => ExitCode::SUCCESS,
        Err(_) => ExitCode::FAILURE,
    }
}
