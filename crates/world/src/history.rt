// What happened, as anybody outside could know it: calls with their answers, calls that power cut, and power.
ghost use Rattle.std.specs.Prelude.{◌≡◌, ℕ, ◌<◌, ◌≤◌, List, length, take, MatchOption};
ghost use Rattle.world.specs.Padded.{padded};

use octets::Block;
use std::marker::Model;
use wire::answer::Answer;

// A call, as its bytes: at most a write with one byte too many. Not in a `Vec`, whose copy may fail: a call is
// copied wherever it is told, and that can't.
#[derive(Clone, Copy, PartialEq, Eq, Debug)]
pub struct Asked {
    // What is behind the call is zero.
    bytes: [u8; Asked::MOST],
    len: usize,
}

impl Model for Asked {
    ghost Value = { List ℕ };

    ghost view = { λ a. take a.len a.bytes };

    ghost invariant = { λ a. (a.len ≤ 1030) × (length (take a.len a.bytes) ≡ a.len) × (padded (take a.len a.bytes) ≡ a.bytes) };

    ghost inverse = { λ call. record { bytes = padded call; len = length call } };

    ghost inverse_ok = { λ a h. λ i. record { bytes = h.2 i; len = h.1 i } };
}

impl Asked {
    // The most bytes of a call that a world keeps.
    pub const MOST: usize = 1030;

    // None where there are more bytes than a world keeps.
    pub fn new(call: &[u8]) -> Option<Asked>
        ensures { MatchOption result (1030 < length call.now) (λ a. a ≡ call.now) }
    {
        if call.len() > Self::MOST {
            return None;
        }
        let mut bytes = [0; Self::MOST];
        bytes[0..call.len()].copy_from_slice(call);
        Some(Asked {
            bytes,
            len: call.len(),
        })
    }

    pub fn as_slice(&self) -> &[u8]
        ensures { result.now ≡ self.now }
    {
        &self.bytes[0..self.len]
    }
}

// An answer as it is told, with the page that a read tells.
pub type Told = Answer<Block>;

// The call under way. Its answer is known from the start, and told after the last write.
#[derive(Clone, Copy, PartialEq, Eq, Debug)]
pub struct Under {
    pub call: Asked,
    pub answer: Told,
}

#[derive(Clone, Copy, PartialEq, Eq, Debug)]
pub enum Event {
    Answered(Asked, Told),
    // Power went while the call was under way.
    Cut(Asked),
    // Power went between calls.
    Power,
}
