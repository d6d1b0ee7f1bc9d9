// How full the log is, and the places in it. Both are bounded by the log's room, which is known of every value,
// so that whoever has one may look into the list and the log by it.
ghost use Rattle.std.specs.Prelude.{◌≡◌, ◌<◌, ◌≤◌, MatchOption};
ghost use Rattle.model.specs.Numbers.{room};

use crate::places::Layout;

// How many writes are in the log.
#[derive(Clone, Copy, PartialEq, Eq, Debug)]
pub struct Count {
    pub writes: u32,
    ghost few: { writes ≤ room },
}

// A place in the log, for one write.
#[derive(Clone, Copy, PartialEq, Eq, Debug)]
pub struct Slot {
    pub place: u32,
    ghost there: { place < room },
}

impl Count {
    // An empty log.
    pub const NONE: Count = Count { writes: 0 };

    // So many writes; None where the log has no room for them.
    pub fn new(writes: u32) -> Option<Count>
        ensures { MatchOption result (room < writes) (λ c. c.writes ≡ writes) }
    {
        if writes > Layout::ROOM {
            return None;
        }
        Some(Count { writes })
    }

    // The place of the next write; None where the log is full.
    pub fn next(self) -> Option<Slot>
        ensures { MatchOption result (room ≤ self.writes) (λ s. (s.place ≡ self.writes) × (self.writes < room)) }
    {
        if self.writes >= Layout::ROOM {
            return None;
        }
        Some(Slot { place: self.writes })
    }

    // The place of the i-th write; None where there are fewer.
    pub fn slot(self, i: u64) -> Option<Slot>
        ensures { MatchOption result (self.writes ≤ i) (λ s. (s.place ≡ i) × (i < self.writes)) }
    {
        if i >= u64::from(self.writes) {
            return None;
        }
        Some(Slot { place: i as u32 })
    }
}
