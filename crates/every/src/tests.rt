// What no program does with a run.
use crate::run::Run;
use device::mirror::Side;
use script::read::script;
use std::process::Abort;
use std::test::Fail;

// Reads at which the first disk is to die where no call is next, and whether it does. Power goes there, and what begins
// then reads the disk's 259 blocks in two pieces, and its header with the list: three reads.
const READS: [(u64, bool); 5] = [
    (0, true),
    (1, true),
    (3, true),
    (4, false),
    (u64::MAX, false),
];

#[test]
fn reads_to_die_at(rt: HostRuntime) -> Result<(), Fail> {
    let pages = script(rt.alloc(), "pages 1\n")?;
    for (read, dies) in READS {
        let mut run = Run::of(rt.alloc(), &pages)?;
        let deaths = run.deaths;
        assert_eq!(rt; run.die_reading(Side::First, read)?, dies);
        assert_eq!(rt; run.world.is_alive(Side::First), !dies);
        assert_eq!(rt; run.deaths, deaths.saturating_sub(u8::from(dies)));
    }
    Ok(())
}
