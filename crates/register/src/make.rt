// Making two new disks. A file that is there is never touched.
ghost use Rattle.std.specs.Prelude.{◌≡◌, MatchResult};
ghost use Rattle.register.specs.declared.make.Begun.TheVariants.{Removed as IsRemoved, Left as IsLeft};

use crate::mark::find;
use crate::open::{DEAD, refuse_mark_name};
use crate::order::Paths;
use crate::stop::{Stop, refuse};
use device::mirror::{Mirror, Pair};
use engine::make::making;
use engine::perform::perform;
use engine::work::Work;
use files::descriptor::Descriptor;
use files::errors::FileError;
use files::making::NewDisk;
use guard::marks::Mark;
use guard::names::sync_folder;
use guard::part::Put;
use guard::progress::Progress;
use layout::places::Layout;
use octets::EMPTY;
use std::fs::remove_file;
use std::io::ErrorKind;
use std::{fmt, io};

// Refuses a name beside which a mark of an earlier disk stands, or may stand.
fn refuse_marked(rt: &HostRuntime, path: &str) -> Result<(), Stop> {
    for mark in Mark::BOTH {
        if find(rt, path, path, mark)?.is_some() {
            return Err(refuse(
                rt,
                format_args!(
                    "{path}.{mark} is there, the mark of an earlier disk of this name; choose another name"
                ),
            ));
        }
    }
    Ok(())
}

// Refuses names that are none for a disk.
fn refuse_name(rt: &HostRuntime, path: &str) -> Result<(), Stop> {
    if path == DEAD {
        return Err(refuse(rt, "new makes two disks; - is no name of one"));
    }
    refuse_mark_name(rt, path, path)?;
    refuse_marked(rt, path)
}

// What became of files that were begun.
#[derive(Clone, Copy)]
enum Begun {
    // None was. Not an `Option` of the others, which has no words: each line that ends with this would take it apart.
    Nothing,
    Removed,
    Left,
}

impl From<io::Result<()>> for Begun {
    ghost from_gives = { λ removed begun. MatchResult removed (λ _. begun ≡ IsRemoved) (λ _. begun ≡ IsLeft) };

    fn from(removed: io::Result<()>) -> Begun {
        match removed {
            Ok(()) => Begun::Removed,
            Err(_) => Begun::Left,
        }
    }
}

impl fmt::Display for Begun {
    fn fmt<W: fmt::Write>(&self, f: &mut fmt::Formatter<W>) -> fmt::Result {
        f.write_str(match self {
            Begun::Nothing => "",
            Begun::Removed => "; what was begun is removed",
            Begun::Left => "; what was begun can't be removed: remove it yourself",
        })
    }
}

// Removes both files, also where one can't be.
fn remove_both(rt: &HostRuntime, paths: &Paths) -> Begun {
    let first = remove_file(rt, paths.first.as_str());
    let second = remove_file(rt, paths.second.as_str());
    first.and(second).into()
}

// Says why a file can't be made, and what became of what was begun.
fn cannot_make(rt: &HostRuntime, path: &str, error: FileError, begun: Begun) -> Stop {
    match error {
        FileError::System(told) if told.kind() == ErrorKind::AlreadyExists => refuse(
            rt,
            format_args!(
                "{path} is there already, and is not touched; if it is left from a making that was cut short, remove both disks; else choose another name{begun}"
            ),
        ),
        error => refuse(rt, format_args!("{path} can't be made: {error}{begun}")),
    }
}

// Says why the disks can't be made, and what became of what was begun.
fn cannot_fill(rt: &HostRuntime, error: FileError, begun: Begun) -> Stop {
    match error {
        FileError::Short => refuse(
            rt,
            format_args!(
                "the disks can't be made: a file took fewer bytes than it was given{begun}"
            ),
        ),
        error => refuse(rt, format_args!("the disks can't be made: {error}{begun}")),
    }
}

// What failed on one of the disks, if something did.
fn failed(disks: &Mirror<NewDisk>) -> Result<(), FileError> {
    disks
        .first
        .error()
        .or(disks.second.error())
        .map_or(Ok(()), Err)
}

// Two disks that are to be made.
#[derive(Clone, Copy)]
struct Making<'a> {
    paths: &'a Paths,
    pages: u32,
    work: &'a Work,
    trace: bool,
}

impl Making<'_> {
    // Writes every block of both disks, unless something fails.
    fn fill(&self, rt: &HostRuntime, disks: &mut Mirror<NewDisk>) -> Result<(), FileError> {
        let mut held = EMPTY;
        let mut progress = Progress::new(*rt, "write", self.work.len());
        // By number, which is also how far it is.
        for k in 0..self.work.len() {
            let write = self.work.write(k).ok_or(FileError::Short)?;
            let _ = perform(disks, self.work, write, &mut held);
            failed(disks)?;
            if self.trace {
                let put = Put {
                    side: write.disk,
                    block: write.block,
                    bytes: &held,
                };
                let _ = eprintln!(rt; "{put}");
            }
            progress.step(k);
        }
        Ok(())
    }

    // Writes every block, and makes all of it last: first the disks, then their names.
    fn make(&self, rt: &HostRuntime, disks: &mut Mirror<NewDisk>) -> Result<(), FileError> {
        self.fill(rt, disks)?;
        disks.first.end()?;
        disks.second.end()?;
        sync_folder(rt, self.paths.first.as_str())?;
        sync_folder(rt, self.paths.second.as_str())
    }

    // Makes the disks in files that are empty, or removes these.
    fn make_files(&self, rt: &HostRuntime, files: Mirror<Descriptor>) -> Result<(), Stop> {
        let blocks = Layout::blocks(self.pages);
        let mut disks = Mirror {
            first: NewDisk::begin(rt.alloc(), files.first, blocks),
            second: NewDisk::begin(rt.alloc(), files.second, blocks),
        };
        self.make(rt, &mut disks).map_err(|error| cannot_fill(
            rt,
            error,
            remove_both(rt, self.paths),
        ))
    }
}

// Makes two empty files that were not there, or none.
fn create_both(rt: &HostRuntime, paths: &Paths) -> Result<Mirror<Descriptor>, Stop> {
    let first_path = paths.first.as_str();
    let second_path = paths.second.as_str();
    let first = Descriptor::create(rt, first_path).map_err(|error| cannot_make(
        rt,
        first_path,
        error,
        Begun::Nothing,
    ))?;
    let second = Descriptor::create(rt, second_path).map_err(|error| cannot_make(
        rt,
        second_path,
        error,
        remove_file(rt, first_path).into(),
    ))?;
    Ok(Mirror { first, second })
}

// Makes two new disks for so many pages.
pub fn make_disks(rt: &HostRuntime, paths: &Paths, pages: u32, trace: bool) -> Result<(), Stop> {
    let work = making(pages).ok_or_else(|| {
        refuse(
            rt,
            format_args!("a register has 1 to 16777216 pages, and not {pages}"),
        )
    })?;
    refuse_name(rt, paths.first.as_str())?;
    refuse_name(rt, paths.second.as_str())?;
    let files = create_both(rt, paths)?;
    let new = Making {
        paths,
        pages,
        work: &work,
        trace,
    };
    new.make_files(rt, files)?;
    println!(rt; "made two disks of {pages} pages").map_err(|error| refuse(
        rt,
        format_args!("the disks are made, but that can't be told: {error}"),
    ))
}
