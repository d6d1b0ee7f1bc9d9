// An open file, by its descriptor.
//
// A call moves all the bytes that it was lent or counts as failed: a file that gives or takes fewer is no
// disk.
ghost use Rattle.std.specs.Prelude.{◌≡◌, ◌≢◌, MatchResult, IsOkAnd, None};
ghost use Rattle.files.specs.System.{number_of};
ghost use Rattle.files.specs.declared.errors.FileError.TheVariants.{NoFile, Short, System};

use crate::errors::FileError;
use std::fs::{File, Metadata, OpenOptions};
use std::io;
use std::os::fd::AsRawFd;
use std::os::unix::fs::FileExt;

// Closed when it is let go.
#[derive(Drop)]
pub struct Descriptor {
    // None where there is no descriptor at all.
    file: Option<File>,
}

// The number of no descriptor at all.
const NONE: i32 = -1;

// No contract can say what a file does, so the calls of the system below have none for a file that is there.
// What is made of the answers that they give is said: by `of`, `done` and `moved`. A read or a write is one
// call; an opening, a sync or a new length that a signal breaks off is begun anew by the standard library.
impl Descriptor {
    // No descriptor at all, for a disk that is dead from the start. Every call on it fails.
    pub fn none() -> Descriptor
        ensures { result.file ≡ None }
    {
        Descriptor { file: None }
    }

    // Opens a file that is there, to be read and written.
    pub fn open(rt: &HostRuntime, path: &str) -> Result<Descriptor, FileError> {
        Descriptor::of(OpenOptions::new().read(true).write(true).open(rt, path))
    }

    // Makes a file that is not there yet; a name that is taken is an error.
    pub fn create(rt: &HostRuntime, path: &str) -> Result<Descriptor, FileError> {
        Descriptor::of(
            OpenOptions::new()
                .write(true)
                .create_new(true)
                .open(rt, path),
        )
    }

    // Opens a file or a folder to be read.
    pub fn open_to_read(rt: &HostRuntime, path: &str) -> Result<Descriptor, FileError> {
        Descriptor::of(File::open(rt, path))
    }

    // An error where the system opened no file.
    fn of(opened: io::Result<File>) -> Result<Descriptor, FileError>
        ensures { MatchResult opened (λ file. IsOkAnd result (λ d. d.file ≡ Some file)) (λ error. result ≡ Err (System error)) }
    {
        Ok(Descriptor {
            file: Some(opened?),
        })
    }

    // The number by which the system knows the file.
    pub fn number(&self) -> i32
        ensures { result ≡ number_of self.now.file }
    {
        self.file.as_ref().map_or(NONE, |file| file.as_raw_fd())
    }

    // The file that calls are made on, if there is one.
    fn file(&self) -> Result<&File, FileError>
        ensures { MatchResult result (λ file. self.now.file ≡ Some file.now) (λ error. (error ≡ NoFile) × (self.now.file ≡ None)) }
    {
        self.file.as_ref().ok_or(FileError::NoFile)
    }

    // Fills what is lent from a place in the file.
    pub fn read_at(&self, out: &mut [u8], at: u64) -> Result<(), FileError>
        ensures { self.now.file ≡ None → result ≡ Err NoFile }
    {
        let got = self.file()?.read_at(out, at);
        moved(got, out.len())
    }

    // Writes what is lent at a place in the file.
    pub fn write_at(&self, bytes: &[u8], at: u64) -> Result<(), FileError>
        ensures { self.now.file ≡ None → result ≡ Err NoFile }
    {
        let put = self.file()?.write_at(bytes, at);
        moved(put, bytes.len())
    }

    // Waits until all that was written lasts.
    pub fn sync_data(&self) -> Result<(), FileError>
        ensures { self.now.file ≡ None → result ≡ Err NoFile }
    {
        done(self.file()?.sync_data())
    }

    // The same, with the file's length and a folder's names.
    pub fn sync(&self) -> Result<(), FileError>
        ensures { self.now.file ≡ None → result ≡ Err NoFile }
    {
        done(self.file()?.sync_all())
    }

    pub fn set_len(&self, bytes: u64) -> Result<(), FileError>
        ensures { self.now.file ≡ None → result ≡ Err NoFile }
    {
        done(self.file()?.set_len(bytes))
    }

    // What the system knows of the file.
    pub fn metadata(&self) -> Result<Metadata, FileError>
        ensures { self.now.file ≡ None → result ≡ Err NoFile }
    {
        Ok(self.file()?.metadata()?)
    }
}

// Whether a call went well.
fn done(status: io::Result<()>) -> Result<(), FileError>
    ensures { MatchResult status (λ _. result ≡ Ok tt) (λ error. result ≡ Err (System error)) }
{
    Ok(status?)
}

// Whether a call moved as many bytes as it was to.
fn moved(count: io::Result<usize>, wanted: usize) -> Result<(), FileError>
    ensures { MatchResult count
        (λ n. MatchResult result (λ _. n ≡ wanted) (λ error. (error ≡ Short) × (n ≢ wanted)))
        (λ error. result ≡ Err (System error)) }
{
    if count? != wanted {
        return Err(FileError::Short);
    }
    Ok(())
}
