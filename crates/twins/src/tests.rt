// Each test makes its own files, in the folder in which it runs, and removes them.
use device::memory::MemDisk;
use device::mirror::{Mirror, Pair};
use device::{Dead, Device};
use engine::call::{Reply, answer, begin};
use engine::make::make;
use engine::perform::perform;
use engine::recover::recover;
use engine::work::Work;
use files::descriptor::Descriptor;
use files::disk::FileDisk;
use files::making::NewDisk;
use layout::places::Layout;
use octets::{BLOCK, EMPTY};
use std::fs;
use std::process::Abort;
use std::rt::Files;
use std::test::*;
use wire::answer::{Answer, Refusal};

const PAGES: u32 = 5;

// The files of two disks, by their names. No `Mirror` of names: another crate's type takes no methods here.
#[derive(Clone, Copy)]
struct Names<'a> {
    first: &'a str,
    second: &'a str,
}

fn new_disk(rt: &HostRuntime, name: &str) -> Result<NewDisk, Fail> {
    let file = Descriptor::create(rt, name)?;
    Ok(NewDisk::begin(rt.alloc(), file, Layout::blocks(PAGES)))
}

fn file_disk(rt: &HostRuntime, name: &str) -> Result<FileDisk, Fail> {
    let file = Descriptor::open(rt, name)?;
    Ok(FileDisk::new(file, Layout::blocks(PAGES)))
}

impl Names<'_> {
    // Makes two disks that are files.
    fn make(self, rt: &HostRuntime) -> Result<(), Fail> {
        let mut disks = Mirror {
            first: new_disk(rt, self.first)?,
            second: new_disk(rt, self.second)?,
        };
        make(&mut disks, PAGES)?;
        disks.first.end()?;
        disks.second.end()?;
        Ok(())
    }

    // Two disks that are files, made.
    fn made(self, rt: &HostRuntime) -> Result<Mirror<FileDisk>, Fail> {
        self.make(rt)?;
        Ok(Mirror {
            first: file_disk(rt, self.first)?,
            second: file_disk(rt, self.second)?,
        })
    }

    // The files have the bytes that the disks in memory have.
    fn hold(
        self,
        rt: &(impl Abort + Files + AllocGlobal),
        disks: &Mirror<MemDisk>,
    ) -> Result<(), Fail> {
        let first = fs::read(rt, self.first)?;
        let second = fs::read(rt, self.second)?;
        assert!(rt; first.as_slice() == disks.first.bytes(), "first");
        assert!(rt; second.as_slice() == disks.second.bytes(), "second");
        Ok(())
    }

    fn remove(self, rt: &HostRuntime) -> Result<(), Fail> {
        fs::remove_file(rt, self.first)?;
        fs::remove_file(rt, self.second)?;
        Ok(())
    }
}

// A disk in memory that was never written.
fn raw_disk(rt: &HostRuntime) -> Result<MemDisk, Fail> {
    let size = BLOCK * Layout::blocks(PAGES) as usize;
    let bytes = vec![in rt.alloc(); 255u8; size]?;
    Ok(MemDisk::new(bytes, u64::MAX))
}

// Two disks in memory, made.
fn memory(rt: &HostRuntime) -> Result<Mirror<MemDisk>, Fail> {
    let mut disks = Mirror {
        first: raw_disk(rt)?,
        second: raw_disk(rt)?,
    };
    make(&mut disks, PAGES)?;
    Ok(disks)
}

// Two disks in memory and two that are files, which are asked the same.
#[derive(Drop)]
struct Twins {
    memory: Mirror<MemDisk>,
    files: Mirror<FileDisk>,
}

impl Twins {
    fn new(rt: &HostRuntime, names: Names<'_>) -> Result<Twins, Fail> {
        Ok(Twins {
            memory: memory(rt)?,
            files: names.made(rt)?,
        })
    }

    // One call on both: the same answer, and the same page.
    fn ask(&mut self, rt: &impl Abort, call: &[u8]) -> Result<Reply, Dead> {
        let mut page = [7; BLOCK];
        let mut file_page = [7; BLOCK];
        let told = answer(&mut self.memory, PAGES, call, &mut page);
        assert_eq!(rt; answer(&mut self.files, PAGES, call, &mut file_page), told);
        assert!(rt; page == file_page);
        told
    }

    // Reads of every page and of one that is not there.
    fn read_all(&mut self, rt: &impl Abort) -> Result<(), Dead> {
        for page in 0..6u8 {
            self.ask(rt, &[0, page, 0, 0, 0])?;
        }
        Ok(())
    }
}

// A call that writes a page full of one byte.
fn write_call(page: u8, byte: u8) -> [u8; 1029] {
    let mut call = [byte; 1029];
    call[0] = 1;
    call[1] = page;
    call[2] = 0;
    call[3] = 0;
    call[4] = 0;
    call
}

const CLOSE: [u8; 1] = [2];

const SIZE: [u8; 1] = [3];

#[test]
fn making_fills_both(rt: HostRuntime) -> Result<(), Fail> {
    let names = Names {
        first: "made-1",
        second: "made-2",
    };
    let memory = memory(&rt)?;
    names.make(&rt)?;
    names.hold(&rt, &memory)?;
    names.remove(&rt)
}

#[test]
fn calls(rt: HostRuntime) -> Result<(), Fail> {
    let names = Names {
        first: "calls-1",
        second: "calls-2",
    };
    let mut twins = Twins::new(&rt, names)?;
    for (page, byte) in [(0, 65), (4, 66), (5, 67), (0, 68)] {
        twins.ask(&rt, &write_call(page, byte))?;
        names.hold(&rt, &twins.memory)?;
    }
    twins.read_all(&rt)?;
    assert_eq!(rt; twins.ask(&rt, &CLOSE), Ok(Answer::Done));
    assert_eq!(rt; twins.ask(&rt, &SIZE), Ok(Answer::Number(5)));
    assert_eq!(rt;
        twins.ask(&rt, &[9]),
        Ok(Answer::Refused(Refusal::NotACall { place: 0 }))
    );
    twins.read_all(&rt)?;
    names.hold(&rt, &twins.memory)?;
    names.remove(&rt)
}

// Does some of the writes of a work, and stops there as if power went.
fn perform_some<P: Pair>(disks: &mut P, work: &Work, n: u64) -> Result<(), Dead> {
    let mut held = EMPTY;
    for k in 0..n {
        if let Some(write) = work.write(k) {
            perform(disks, work, write, &mut held)?;
        }
    }
    Ok(())
}

// A close of two pages that power cuts after so many writes, and the recovery after it.
fn cut_close<P: Pair>(rt: &impl Abort, disks: &mut P, n: u64) -> Result<(), Dead> {
    let mut page = EMPTY;
    for (number, byte) in [(1, 65), (3, 66)] {
        let told = answer(disks, PAGES, &write_call(number, byte), &mut page);
        assert_eq!(rt; told, Ok(Answer::Done));
    }
    let turn = begin(disks, PAGES, &CLOSE, &mut page)?;
    perform_some(disks, &turn.work, n)?;
    recover(disks, PAGES)?;
    Ok(())
}

#[test]
fn cuts(rt: HostRuntime) -> Result<(), Fail> {
    let names = Names {
        first: "cut-1",
        second: "cut-2",
    };
    for n in 0..9u64 {
        let mut twins = Twins::new(&rt, names)?;
        cut_close(&rt, &mut twins.memory, n)?;
        cut_close(&rt, &mut twins.files, n)?;
        names.hold(&rt, &twins.memory)?;
        twins.read_all(&rt)?;
        names.remove(&rt)?;
    }
    Ok(())
}

// A disk that is dead from the start; the other goes on.
#[test]
fn one_disk_alone(rt: HostRuntime) -> Result<(), Fail> {
    let names = Names {
        first: "dead-1",
        second: "dead-2",
    };
    names.make(&rt)?;
    let mut twins = Twins {
        memory: memory(&rt)?,
        files: Mirror {
            first: FileDisk::dead(),
            second: file_disk(&rt, names.second)?,
        },
    };
    twins.memory.first.kill();
    twins.ask(&rt, &write_call(2, 65))?;
    assert_eq!(rt; twins.ask(&rt, &CLOSE), Ok(Answer::Done));
    twins.read_all(&rt)?;
    names.hold(&rt, &twins.memory)?;
    names.remove(&rt)
}
