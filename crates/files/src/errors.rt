// Why a call on a file failed.
ghost use Rattle.std.specs.Prelude.{◌≡◌};
ghost use Rattle.files.specs.declared.errors.FileError.TheVariants.{NoMemory, System};

use std::alloc::AllocError;
use std::error::Error;
use std::{fmt, io};

#[derive(Clone, Copy, Debug)]
pub enum FileError {
    // The system told this error.
    System(io::Error),
    // Fewer bytes were moved than asked for, and no error was told.
    Short,
    // There is no open file.
    NoFile,
    // There is not enough memory to ask the system.
    NoMemory,
}

// The numbers by which the system tells that no file has a name, and that it can't be asked for something.
pub const ENOENT: i32 = 2;

pub const EINVAL: i32 = 22;

// The numbers by which the system tells of no open file and of no memory.
const EBADF: i32 = 9;

const ENOMEM: i32 = 12;

// What the system was not asked for is told in its words all the same.
impl fmt::Display for FileError {
    fn fmt<W: fmt::Write>(&self, f: &mut fmt::Formatter<W>) -> fmt::Result {
        let error = match self {
            FileError::System(error) => *error,
            FileError::Short => return f.pad("fewer bytes than asked for"),
            FileError::NoFile => io::Error::from_raw_os_error(EBADF),
            FileError::NoMemory => io::Error::from_raw_os_error(ENOMEM),
        };
        write!(f, "{error}")
    }
}

impl Error for FileError {}

impl From<io::Error> for FileError {
    ghost from_gives = { λ error e. e ≡ System error };

    fn from(error: io::Error) -> FileError {
        FileError::System(error)
    }
}

impl From<AllocError> for FileError {
    ghost from_gives = { λ _ e. e ≡ NoMemory };

    fn from(_error: AllocError) -> FileError {
        FileError::NoMemory
    }
}
