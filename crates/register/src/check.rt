// Telling how the disks of a register stand, after recovery.
use crate::start::{Register, life};
use crate::stop::{Stop, unwritten};
use device::Dead;
use device::mirror::Side;
use guard::inspect::compare_disks;

// How the two disks compare, in words.
fn sameness(register: &mut Register) -> &'static str {
    match compare_disks(&mut register.disks, register.pages) {
        Ok(None) => "the same",
        Ok(Some(_)) => "not the same",
        Err(Dead) => "one alone",
    }
}

pub fn tell(rt: &HostRuntime, register: &mut Register) -> Result<(), Stop> {
    let same = sameness(register);
    let first = life(&register.disks, Side::First);
    let second = life(&register.disks, Side::Second);
    let pages = register.pages;
    let mended = register.mended;
    println!(rt;
        "first disk: {first}\nsecond disk: {second}\ndisks: {same}\npages: {pages}\nrecovery: {mended}"
    ).map_err(|error| unwritten(rt, error))
}
