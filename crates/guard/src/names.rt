// Names of files: what an open file is called, and the folder that has a name.
use files::descriptor::Descriptor;
use files::errors::FileError;
use std::fs::read_link;
use std::path::Path;

// What an open file is called, with all links gone through, so that a disk has one name however it was
// given. None where the system doesn't tell, or the name is no text.
pub fn true_name(rt: &HostRuntime, file: &Descriptor) -> Option<String> {
    let number = file.number();
    let link = format!(in rt.alloc(); "/proc/self/fd/{number}").ok()?;
    let name = read_link(rt, link.as_str()).ok()?;
    if name.as_path().as_str().is_empty() {
        return None;
    }
    Some(name.into_string())
}

// The folder in which a name stands.
pub fn folder(name: &str) -> &str {
    match Path::new(name).parent() {
        None => "/",
        Some(folder) if folder.as_str().is_empty() => ".",
        Some(folder) => folder.as_str(),
    }
}

// Makes the names of a folder last.
pub fn sync_folder(rt: &HostRuntime, name: &str) -> Result<(), FileError> {
    Descriptor::open_to_read(rt, folder(name))?.sync()
}
