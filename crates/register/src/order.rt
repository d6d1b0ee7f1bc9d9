// What the program is asked to do, by its arguments.
ghost use Rattle.std.specs.Prelude.{◌≡◌, ◌+◌, ◌↔◌, length, IfOk, IsOk};

use crate::stop::{Stop, refuse};
use device::mirror::Mirror;
use std::env;

// The two disks, as they are named; `-` for one that is dead.
pub type Paths = Mirror<String>;

// A page and the file that has its bytes.
#[derive(Drop)]
pub struct Change {
    pub page: u32,
    pub file: String,
}

#[derive(Drop)]
pub enum Command {
    Help,
    New {
        disks: Paths,
        pages: u32,
    },
    Serve {
        disks: Paths,
    },
    Read {
        disks: Paths,
        page: u32,
    },
    Change {
        disks: Paths,
        changes: Vec<Change>,
        pad: bool,
    },
    Check {
        disks: Paths,
    },
}

#[derive(Drop)]
pub struct Order {
    pub command: Command,
    pub trace: bool,
}

// The most pages that one change takes.
const MOST_CHANGES: usize = 256;

// How a text ends that says what was not understood.
const SEE_HELP: &str = "see register --help";

#[derive(Clone, Copy)]
struct Options {
    trace: bool,
    pad: bool,
    help: bool,
}

// The words of the command line, the options apart.
#[derive(Drop)]
struct Words {
    words: Vec<String>,
    options: Options,
}

// Whether a word can be shown in a line: no control characters. Of a mark's text `guard` asks the same, in a line of
// its own, which is plainer than a promise to this crate.
fn is_shown(word: &str) -> bool {
    word.bytes().all(|byte| !byte.is_ascii_control())
}

// Sorts a word into the options or the other words.
fn sort(rt: &HostRuntime, words: &mut Words, word: String) -> Result<(), Stop> {
    if !is_shown(word.as_str()) {
        return Err(refuse(
            rt,
            "an argument has control characters, which no name here may have",
        ));
    }
    match word.as_str() {
        "--trace" => words.options.trace = true,
        "--pad" => words.options.pad = true,
        "--help" => words.options.help = true,
        text if text.starts_with("--") => {
            return Err(refuse(rt, format_args!("{word} is no option; {SEE_HELP}")));
        }
        _ => words.words.push(word)?,
    }
    Ok(())
}

fn read_words(rt: &HostRuntime) -> Result<Words, Stop> {
    let mut args = env::args(rt).map_err(|_error| refuse(rt, "an argument is no text in UTF-8"))?;
    let _program = args.next();
    let mut words = Words {
        words: Vec::new(rt.alloc()),
        options: Options {
            trace: false,
            pad: false,
            help: false,
        },
    };
    for word in args {
        sort(rt, &mut words, word)?;
    }
    Ok(words)
}

// A number in decimal, and nothing else.
fn number(text: &str) -> Option<u32> {
    if !text.bytes().all(|byte| byte.is_ascii_digit()) {
        return None;
    }
    text.parse().ok()
}

fn missing(rt: &HostRuntime, what: &str) -> Stop {
    refuse(rt, format_args!("{what} is missing; {SEE_HELP}"))
}

// Refuses words that stand behind the last that a command takes.
fn end(rt: &HostRuntime, words: &[String]) -> Result<(), Stop>
    ensures { IsOk result ↔ (length words.now ≡ 0) }
{
    match words {
        [] => Ok(()),
        [word, ..] => Err(refuse(rt, format_args!("{word} is one word too many; {SEE_HELP}"))),
    }
}

// The one word that is left, which says this.
fn last<'a>(rt: &HostRuntime, words: &'a [String], what: &str) -> Result<&'a str, Stop>
    ensures { IsOk result ↔ (length words.now ≡ 1) }
{
    let (word, rest) = words.split_first().ok_or_else(|| missing(rt, what))?;
    end(rt, rest)?;
    Ok(word.as_str())
}

// The names of the two disks, and the words behind them.
fn take_disks<'a>(rt: &HostRuntime, words: &'a [String]) -> Result<(Paths, &'a [String]), Stop>
    ensures { IfOk result (λ taken. length words.now ≡ 2 + length taken.1.now) }
{
    match words {
        [] => Err(missing(rt, "the name of the first disk")),
        [_] => Err(missing(rt, "the name of the second disk")),
        [first, second, rest @ ..] => {
            let disks = Mirror {
                first: String::from_str(rt.alloc(), first.as_str())?,
                second: String::from_str(rt.alloc(), second.as_str())?,
            };
            Ok((disks, rest))
        }
    }
}

// The names of the two disks, and nothing more.
fn disks_alone(rt: &HostRuntime, words: &[String]) -> Result<Paths, Stop> {
    let (disks, rest) = take_disks(rt, words)?;
    end(rt, rest)?;
    Ok(disks)
}

fn page_number(rt: &HostRuntime, word: &str) -> Result<u32, Stop> {
    number(word).ok_or_else(|| refuse(rt, format_args!("{word} is no number of a page")))
}

// A page's number and a file's name, with = between them.
fn split_change(word: &str) -> Option<(&str, &str)> {
    word.split_once('=')
        .filter(|(page, file)| !page.is_empty() && !file.is_empty())
}

// Reads one PAGE=FILE.
fn read_change(rt: &HostRuntime, word: &str) -> Result<Change, Stop> {
    let (page, file) = split_change(word).ok_or_else(|| {
        refuse(
            rt,
            format_args!("{word} is no change, which is a page's number, = and a file's name"),
        )
    })?;
    Ok(Change {
        page: page_number(rt, page)?,
        file: String::from_str(rt.alloc(), file)?,
    })
}

// Reads all PAGE=FILE, of which each has a page of its own.
fn read_changes(rt: &HostRuntime, words: &[String]) -> Result<Vec<Change>, Stop> {
    if words.is_empty() {
        return Err(refuse(
            rt,
            format_args!("a page and its file are missing; {SEE_HELP}"),
        ));
    }
    let mut changes = Vec::new(rt.alloc());
    for word in words {
        if changes.len() == MOST_CHANGES {
            return Err(refuse(rt, "one change takes 256 pages at most"));
        }
        let change = read_change(rt, word.as_str())?;
        let page = change.page;
        if changes.iter().any(|other: &Change| other.page == page) {
            return Err(refuse(rt, format_args!("page {page} is named twice")));
        }
        changes.push(change)?;
    }
    Ok(changes)
}

fn new_command(rt: &HostRuntime, words: &[String]) -> Result<Command, Stop> {
    let (disks, rest) = take_disks(rt, words)?;
    let word = last(rt, rest, "how many pages")?;
    let pages = number(word).ok_or_else(|| {
        refuse(
            rt,
            format_args!("{word} is no number of pages; a register has 1 to 16777216"),
        )
    })?;
    Ok(Command::New { disks, pages })
}

fn read_command(rt: &HostRuntime, words: &[String]) -> Result<Command, Stop> {
    let (disks, rest) = take_disks(rt, words)?;
    let page = page_number(rt, last(rt, rest, "the number of a page")?)?;
    Ok(Command::Read { disks, page })
}

fn change_command(rt: &HostRuntime, words: &[String], pad: bool) -> Result<Command, Stop> {
    let (disks, rest) = take_disks(rt, words)?;
    let changes = read_changes(rt, rest)?;
    Ok(Command::Change {
        disks,
        changes,
        pad,
    })
}

// The command that the words are, help where there are none.
fn command_of(rt: &HostRuntime, words: &[String], options: Options) -> Result<Command, Stop> {
    if options.help {
        return Ok(Command::Help);
    }
    let [name, rest @ ..] = words else {
        return Ok(Command::Help);
    };
    match name.as_str() {
        "new" => new_command(rt, rest),
        "serve" => Ok(Command::Serve {
            disks: disks_alone(rt, rest)?,
        }),
        "read" => read_command(rt, rest),
        "change" => change_command(rt, rest, options.pad),
        "check" => Ok(Command::Check {
            disks: disks_alone(rt, rest)?,
        }),
        _ => Err(refuse(rt, format_args!("{name} is no command; {SEE_HELP}"))),
    }
}

// What the command line asks for.
pub fn read_order(rt: &HostRuntime) -> Result<Order, Stop> {
    let Words { words, options } = read_words(rt)?;
    let command = command_of(rt, words.as_slice(), options)?;
    // Change pads short files, and the help tells of it.
    let may_pad = matches!(command, Command::Change { .. } | Command::Help);
    if options.pad && !may_pad {
        return Err(refuse(rt, "--pad belongs to change alone"));
    }
    Ok(Order {
        command,
        trace: options.trace,
    })
}
