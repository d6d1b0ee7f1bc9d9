// Making new disks: every block of both, empty.
//
// Whatever stood on the disks is gone after it, and a disk may die while it is done. What is left is a
// register that never was asked anything.
ghost use Rattle.std.specs.Prelude.{◌≡◌, is_ok};
ghost use Rattle.engine.specs.declared.make.NotMade.TheVariants.{Dead as BothDead};
ghost use Rattle.engine.specs.Living.{MakingLives};
ghost use Rattle.engine.specs.Making.{NoRegister, Makes, Made};

use crate::perform::finish;
use crate::work::Work;
use device::Dead;
use device::mirror::Pair;
use journal::plan::Plan;
use layout::places::{Extent, Layout};
use octets::EMPTY;

// Why no disks are made.
#[derive(Clone, Copy, PartialEq, Eq, Debug)]
pub enum NotMade {
    // No register has so many pages; nothing was written.
    Pages,
    // Both disks died.
    Dead,
}

impl From<Dead> for NotMade {
    ghost from_gives = { λ _ error. error ≡ BothDead };

    fn from(_dead: Dead) -> NotMade {
        NotMade::Dead
    }
}

// What making disks for so many pages writes; None where no register has so many.
pub fn making(pages: u32) -> Option<Work>
    ensures { Makes pages result }
{
    if pages == 0 || pages > Layout::MOST_PAGES {
        return None;
    }
    let disk = Extent {
        blocks: Layout::blocks(pages),
    };
    Some(Work {
        copy: None,
        plan: Plan::Make { disk },
        list: EMPTY,
        block: EMPTY,
    })
}

// Makes new disks of so many pages.
//
// On disks of that size of which all is known it leads to disks at rest that are reachable, with nothing in
// their past: the calls and the recoveries that follow go on from there.
pub fn make<P: Pair>(disks: &mut P, pages: u32) -> Result<(), NotMade>
    ensures done { Made (P.Pair.disks disks.old) (P.Pair.disks disks.new) pages (is_ok result) }
    ensures refused { NoRegister pages → (disks.new ≡ disks.old) × (result ≡ Err NotMade.Pages) }
    ensures lives { MakingLives (P.Pair.disks disks.old) (P.Pair.disks disks.new) pages (is_ok result) }
{
    let work = making(pages).ok_or(NotMade::Pages)?;
    finish(disks, &work)?;
    Ok(())
}
