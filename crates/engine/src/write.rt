// The writes of a work, by their number.
ghost use Rattle.std.specs.Prelude.{◌≡◌, ◌+◌, ◌*◌, ◌≤◌, List, length, MatchOption};
ghost use Rattle.std.specs.List.{slice_get as item};
ghost use Rattle.std.specs.Option.{option_map};
ghost use Rattle.model.specs.Book.{Page, nth};
ghost use Rattle.engine.specs.Works.{side_at, write_means, both_writes, work_writes, ReadsWhatIsReplayed};

use crate::work::Work;
use device::mirror::Side;
use journal::plan::Kind;

// The kind of what is written. Not an `Option`: a block that is copied is no kind that is missing.
#[derive(Clone, Copy, PartialEq, Eq, Debug)]
pub enum WriteKind {
    // The block in which the second disk differed, as it is on the first.
    Copied,
    // What the journal puts.
    Journal(Kind),
}

// One block to write on one disk.
#[derive(Clone, Copy, PartialEq, Eq, Debug)]
pub struct Write {
    pub disk: Side,
    pub block: u64,
    pub kind: WriteKind,
}

fn side_of(k: u64) -> Side
    ensures { result ≡ side_at k }
{
    if k % 2 == 0 {
        Side::First
    } else {
        Side::Second
    }
}

// The k-th write of what goes on both disks: each step on the first, and then on the second.
fn mirrored_write(work: &Work, k: u64) -> Option<Write>
    ensures value { (b : List Page) → nth b 1 ≡ work.now.list → option_map (write_means work.now.block b) result ≡ item (both_writes work.now b) k }
    ensures reads { ReadsWhatIsReplayed work.now.plan result }
{
    let step = work.plan.step(&work.list, k / 2)?;
    Some(Write {
        disk: side_of(k),
        block: step.block,
        kind: WriteKind::Journal(step.kind),
    })
}

impl Work {
    // How many writes there are.
    pub fn len(&self) -> u64
        ensures { (b : List Page) → result ≡ length (work_writes self.now b) }
    {
        let both = 2 * self.plan.len();
        if self.copy.is_some() { both + 1 } else { both }
    }

    // The k-th write, None past the last.
    pub fn write(&self, k: u64) -> Option<Write>
        ensures value { (b : List Page) → nth b 1 ≡ self.now.list → option_map (write_means self.now.block b) result ≡ item (work_writes self.now b) k }
        ensures reads { ReadsWhatIsReplayed self.now.plan result }
    {
        let Some(block) = self.copy else {
            return mirrored_write(self, k);
        };
        if k == 0 {
            return Some(Write {
                disk: Side::Second,
                block,
                kind: WriteKind::Copied,
            });
        }
        mirrored_write(self, k - 1)
    }
}
