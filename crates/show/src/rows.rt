// A play as rows of a drawing: time goes downwards, with a column for each disk.
ghost use Rattle.std.specs.Prelude.{◌≡◌};

use crate::words::Words;
use device::mirror::Side;
use play::mark::Mark;
use script::order::Script;
use std::alloc::{AllocError, Global};

// What a row is about.
#[derive(Clone, Copy, PartialEq, Eq, Debug)]
pub enum Sort {
    // Something is asked.
    Asked,
    // A block is written on a disk, or, where that is dead, isn't; by the number of the write.
    Written { disk: Side, number: u64 },
    Unwritten { disk: Side, number: u64 },
    // Something is answered.
    Told,
    Power,
    Death(Side),
    // Bytes are put on the disks by hand.
    Set,
}

impl Sort {
    // What a row shows that comes of a mark; the making of the disks, with which each play begins, is in none.
    fn of(mark: Mark) -> Option<Sort> {
        match mark {
            Mark::Made(_) => None,
            Mark::Command(_) => Some(Sort::Asked),
            Mark::Wrote {
                number,
                write,
                alive,
            } => {
                let disk = write.disk;
                Some(if alive {
                    Sort::Written { disk, number }
                } else {
                    Sort::Unwritten { disk, number }
                })
            }
            Mark::Answered(_) | Mark::Repeated(_) | Mark::Recovered(_) => Some(Sort::Told),
            Mark::Cut { .. } | Mark::Power => Some(Sort::Power),
            Mark::Died(side) => Some(Sort::Death(side)),
            Mark::Set(_) => Some(Sort::Set),
        }
    }
}

// Which of the two disks live. No `Mirror`: that lends what it has of a side, and these two flags are copied.
#[derive(Clone, Copy, PartialEq, Eq, Debug)]
pub struct Living {
    pub first: bool,
    pub second: bool,
}

impl Living {
    const BOTH: Living = Living {
        first: true,
        second: true,
    };

    // Whether a disk lives.
    pub fn has(self, side: Side) -> bool
        ensures first { side ≡ Side.First → result ≡ self.first }
        ensures second { side ≡ Side.Second → result ≡ self.second }
    {
        // Two flags: one is picked, and there is nothing to lend.
        match side {
            Side::First => self.first,
            Side::Second => self.second,
        }
    }

    // Those that live once a disk is dead.
    fn without(self, side: Side) -> Living {
        // Each of the two flags has its own name.
        match side {
            Side::First => Living {
                first: false,
                ..self
            },
            Side::Second => Living {
                second: false,
                ..self
            },
        }
    }
}

// One row.
#[derive(Drop)]
pub struct Row {
    pub sort: Sort,
    // Which disks live, after what the row shows.
    pub living: Living,
    pub text: String,
}

// The rows of a play.
pub fn rows_of(heap: Global, script: &Script, marks: &[Mark]) -> Result<Vec<Row>, AllocError> {
    let mut rows = Vec::new(heap);
    let mut living = Living::BOTH;
    for mark in marks {
        let mark = *mark;
        let Some(sort) = Sort::of(mark) else {
            continue;
        };
        let words = Words { script, mark };
        if words.is_astray() {
            continue;
        }
        if let Sort::Death(side) = sort {
            living = living.without(side);
        }
        let text = format!(in heap; "{words}")?;
        rows.push(Row { sort, living, text })?;
    }
    Ok(rows)
}
