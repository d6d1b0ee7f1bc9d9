// The register on two disks in memory, whose bytes are all that there is to know.
//
// The engine's contracts speak of disks of which all is known, and of others they say nothing. These are the
// same contracts with what is known written out: the blocks that the bytes of each disk are, and whether it
// lives. So they would fail, and not fall silent, if of a disk in memory less were known than that.
#![tactic(auto)]

ghost use Rattle.std.specs.Prelude.{◌≡◌, is_ok, Some};
ghost use Rattle.std.specs.Result.{result_ok};
ghost use Rattle.wire.specs.Calls.{call_of};
ghost use Rattle.engine.specs.Calling.{Answered};
ghost use Rattle.engine.specs.Living.{AnswerLives, RecoveryLives, MakingLives};
ghost use Rattle.engine.specs.Making.{NoRegister, Made};
ghost use Rattle.engine.specs.Recovering.{Recovered};
ghost use Rattle.device.specs.InMemory.{both_of};

use device::Dead;
use device::memory::MemDisk;
use device::mirror::Mirror;
use engine::call::Reply;
use engine::make::NotMade;
use engine::work::Work;
use engine::{call, make, recover};
use octets::Block;

// A whole call, unless both disks are dead.
pub fn answer_in_memory(
    disks: &mut Mirror<MemDisk>,
    pages: u32,
    bytes: &[u8],
    page: &mut Block,
) -> Result<Reply, Dead>
    ensures told { Answered (Some (both_of disks.old)) (Some (both_of disks.new)) pages (call_of bytes.now) page.new (result_ok result) }
    ensures lives { AnswerLives (Some (both_of disks.old)) (Some (both_of disks.new)) pages (call_of bytes.now) page.new (result_ok result) }
{
    call::answer(disks, pages, bytes, page)
}

// A whole recovery, unless both disks are dead: what it wrote.
pub fn recover_in_memory(disks: &mut Mirror<MemDisk>, pages: u32) -> Result<Work, Dead>
    ensures done { Recovered (Some (both_of disks.old)) (Some (both_of disks.new)) pages (is_ok result) }
    ensures lives { RecoveryLives (Some (both_of disks.old)) (Some (both_of disks.new)) pages (is_ok result) }
{
    recover::recover(disks, pages)
}

// New disks.
pub fn make_in_memory(disks: &mut Mirror<MemDisk>, pages: u32) -> Result<(), NotMade>
    ensures done { Made (Some (both_of disks.old)) (Some (both_of disks.new)) pages (is_ok result) }
    ensures refused { NoRegister pages → (disks.new ≡ disks.old) × (result ≡ Err NotMade.Pages) }
    ensures lives { MakingLives (Some (both_of disks.old)) (Some (both_of disks.new)) pages (is_ok result) }
{
    make::make(disks, pages)
}
