// Which file a name or a descriptor leads to, whatever it is called: its device and its number there.
use files::descriptor::Descriptor;
use files::errors::{EINVAL, FileError};
use std::fs::{Metadata, metadata};
use std::io::Error;
use std::os::unix::fs::MetadataExt;
use std::str::from_utf8;

#[derive(Clone, Copy, PartialEq, Eq, Debug)]
pub struct Identity {
    pub device: u64,
    pub inode: u64,
}

// What the system knows of a file.
#[derive(Clone, Copy)]
pub struct Known {
    pub identity: Identity,
    pub size: u64,
    // A plain file, and no folder, device or pipe.
    pub is_plain: bool,
}

// What the system tells. No contract can say what that is.
impl From<Metadata> for Known {
    fn from(found: Metadata) -> Known {
        Known {
            identity: Identity {
                device: found.dev(),
                inode: found.ino(),
            },
            size: found.len(),
            is_plain: found.is_file(),
        }
    }
}

// What is known of an open file.
pub fn of_open(file: &Descriptor) -> Result<Known, FileError> {
    Ok(file.metadata()?.into())
}

// What is known of the file that a name leads to, through links. A name that is no text can't be asked for.
pub fn of_name(rt: &HostRuntime, path: &[u8]) -> Result<Known, FileError> {
    let Ok(path) = from_utf8(path) else {
        return Err(Error::from_raw_os_error(EINVAL).into());
    };
    Ok(metadata(rt, path)?.into())
}
