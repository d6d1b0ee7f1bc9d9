// The register on two files that play two disks.
#![tactic(auto)]

mod calls;
mod change;
mod check;
mod help;
mod make;
mod mark;
mod open;
mod order;
mod serve;
mod start;
mod stop;
mod streams;

use calls::read_page;
use octets::EMPTY;
use open::open_files;
use order::{Command, Order, Paths};
use start::Register;
use std::io::Write;
use std::process::ExitCode;
use stop::{Stop, refuse};

// Opens the disks and recovers them.
fn begin(rt: &HostRuntime, disks: &Paths, trace: bool) -> Result<Register, Stop> {
    let files = open_files(rt, disks)?;
    start::start(rt, files, trace)
}

// Writes a page's bytes to standard output.
fn show_page(rt: &HostRuntime, register: &mut Register, number: u32) -> Result<(), Stop> {
    let mut page = EMPTY;
    read_page(rt, register, number, &mut page)?;
    rt.stdout().write_all(&page).map_err(|error| refuse(
        rt,
        format_args!("the page can't be written: {error}"),
    ))
}

fn run(rt: &HostRuntime) -> Result<(), Stop> {
    streams::hold(rt).map_err(|_error| refuse(rt, "the null device can't be opened"))?;
    let Order { command, trace } = order::read_order(rt)?;
    match command {
        Command::Help => help::show_help(rt),
        Command::Serve { disks } => serve::serve(rt, &mut begin(rt, &disks, trace)?),
        Command::Read { disks, page } => show_page(rt, &mut begin(rt, &disks, trace)?, page),
        Command::New { disks, pages } => make::make_disks(rt, &disks, pages, trace),
        Command::Change {
            disks,
            changes,
            pad,
        } => {
            // All that can be refused of the files and their pages is refused before anything is written.
            let pages = change::read_files(rt, changes.as_slice(), pad)?;
            let files = open_files(rt, &disks)?;
            change::refuse_outside(rt, changes.as_slice(), files.pages)?;
            let mut register = start::start(rt, files, trace)?;
            change::change_pages(rt, &mut register, pages.as_slice())
        }
        Command::Check { disks } => check::tell(rt, &mut begin(rt, &disks, trace)?),
    }
}

fn main(rt: HostRuntime) -> ExitCode {
    let Err(stop) = run(&rt) else {
        return ExitCode::SUCCESS;
    };
    stop.say(&rt);
    ExitCode::FAILURE
}
