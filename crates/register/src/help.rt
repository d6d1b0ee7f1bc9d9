// How the program is used.
use crate::stop::{Stop, unwritten};
use std::io::Write;

const USAGE: &str = "\
register new FIRST SECOND PAGES             make two new disks of so many pages
register serve FIRST SECOND                 recover, then answer calls on standard input
register read FIRST SECOND PAGE             recover, then write the page's 1024 bytes
register change FIRST SECOND PAGE=FILE ..   recover, then put each file's bytes into its
                                            page, all of them or none
register check FIRST SECOND                 recover, and tell how the disks stand

FIRST and SECOND are the files that play the two disks; - in place of one says that
it is dead. PAGE is a number, from 0 on.

--trace   show every block that is written, as it is done
--pad     change: fill files that are shorter than a page with zeros
--help    this text
";

pub fn show_help(rt: &HostRuntime) -> Result<(), Stop> {
    rt.stdout()
        .write_all(USAGE.as_bytes())
        .map_err(|error| unwritten(rt, error))
}
