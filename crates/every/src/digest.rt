// Digests, by which worlds that are equal are known again.
//
// Two digests of 64 bits each, by different rules: that two different worlds have both the same is possible,
// and not to be expected.
use explain::book::Book;
use explain::check::History;
use std::alloc::{AllocError, Global};

#[derive(Clone, Copy, PartialEq, Eq, PartialOrd, Ord)]
pub struct Digest(u64, u64);

impl Digest {
    pub const START: Digest = Digest(14695981039346656037, 88172645463325252);

    pub fn word(self, word: u64) -> Digest {
        let first = (self.0 ^ word).wrapping_mul(1099511628211).rotate_left(23);
        let second = self
            .1
            .wrapping_add(word)
            .wrapping_mul(6364136223846793005)
            .rotate_left(31);
        Digest(first, second)
    }

    pub fn join(self, other: Digest) -> Digest {
        self.word(other.0).word(other.1)
    }

    // Eight bytes at a time; what is left at the end counts for nothing.
    pub fn bytes(self, bytes: &[u8]) -> Digest {
        bytes.as_chunks::<8>().0.iter().fold(
            self,
            |digest, word| digest.word(u64::from_le_bytes(*word)),
        )
    }

    // All that a book has.
    fn book(self, book: &Book) -> Digest {
        book.pages()
            .iter()
            .fold(self.word(u64::from(book.waiting())), |digest, page| {
                digest.bytes(&page.holds).bytes(&page.coming)
            })
    }
}

// The digests of the books that explain what happened, in ascending order and each once. No set: they are
// few, and only gone through. The walk over the ways stands here again: no function can give a chain back,
// and books put into a `Vec` could be missed for want of memory.
pub fn books(heap: Global, history: History<'_>) -> Result<Vec<Digest>, AllocError> {
    let mut digests: Vec<Digest> = (0..history.ways())
        .filter_map(|choices| history.book(choices))
        .map(|book| Digest::START.book(&book))
        .collect(heap)?;
    digests.sort_unstable();
    digests.dedup();
    Ok(digests)
}
