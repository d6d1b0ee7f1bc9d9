// Marks beside the disks of a register, as the program asks for them.
use crate::stop::{Stop, refuse};
use guard::marks;
use guard::marks::Mark;

// What a mark says, if it is there. A disk is told by its path, as it was given; its marks stand beside its name.
pub fn find(rt: &HostRuntime, path: &str, name: &str, mark: Mark) -> Result<Option<String>, Stop> {
    marks::find(rt, name, mark).map_err(|error| {
        refuse(
            rt,
            format_args!("whether a mark of a death stands beside {path} can't be told: {error}"),
        )
    })
}
