// What the register answers, as bytes.
//
// The first byte is the answer's number. A refusal goes on with its own number in one byte and its place in
// four, so that all refusals are equally long; a page with its 1,024 bytes; a number with four bytes, low
// byte first. A client that reads anything else is not talking to a register.
ghost use Rattle.std.specs.Prelude.{◌≡◌, true, false, Some, MatchOption};
ghost use Rattle.wire.specs.declared.answer.Refusal.TheVariants.{NotACall as NoCall};
ghost use Rattle.wire.specs.Encoded.{Encoded};
ghost use Rattle.wire.specs.Answers.{refusal_number, refusal_place, refusal_text, known, answered, heard, repaged, answer_bytes, answer_of, RoundTrip, OwnBytes, TurnedRefuses};

use crate::call::NotACall;
use crate::write;
use octets::BLOCK;
use std::fmt;

// The numbers of answers and of refusals are constants, and no enum: a byte is matched by them where bytes
// are read.
const REFUSED: u8 = 0;

const DONE: u8 = 1;

const PAGE: u8 = 2;

const NUMBER: u8 = 3;

const NOT_A_CALL: u8 = 1;

const UNFIT: u8 = 2;

const NO_SUCH_PAGE: u8 = 3;

const LOG_FULL: u8 = 4;

// Why a call is not done.
#[derive(Clone, Copy, Debug, PartialEq, Eq)]
pub enum Refusal {
    // Bytes that are no call, and where they cease to be one.
    NotACall { place: u32 },
    // A page that hasn't 1,024 bytes, or a call that this register can't do.
    Unfit,
    // A page that is not there.
    NoSuchPage,
    // A write when the log is full.
    LogFull,
}

impl Refusal {
    pub fn number(self) -> u8
        ensures { result ≡ refusal_number self }
    {
        match self {
            Refusal::NotACall { .. } => NOT_A_CALL,
            Refusal::Unfit => UNFIT,
            Refusal::NoSuchPage => NO_SUCH_PAGE,
            Refusal::LogFull => LOG_FULL,
        }
    }

    // Only bytes that are no call have a place.
    pub fn place(self) -> u32
        ensures { result ≡ refusal_place self }
    {
        match self {
            Refusal::NotACall { place } => place,
            Refusal::Unfit | Refusal::NoSuchPage | Refusal::LogFull => 0,
        }
    }

    // The refusal with a number and a place, if there is one. No TryFrom: nobody reads why there is none.
    fn from_parts(number: u8, place: u32) -> Option<Refusal>
        ensures { MatchOption result (known number place ≡ false) (λ x. (known number place ≡ true) × (refusal_number x ≡ number) × (refusal_place x ≡ place)) }
    {
        match (number, place) {
            (NOT_A_CALL, place) => Some(Refusal::NotACall { place }),
            (UNFIT, 0) => Some(Refusal::Unfit),
            (NO_SUCH_PAGE, 0) => Some(Refusal::NoSuchPage),
            (LOG_FULL, 0) => Some(Refusal::LogFull),
            _ => None,
        }
    }
}

impl From<NotACall> for Refusal {
    ghost from_gives = { λ error refusal. refusal ≡ NoCall error.place };

    fn from(error: NotACall) -> Refusal {
        Refusal::NotACall { place: error.place }
    }
}

// A refusal in words, as the command line tells it.
impl fmt::Display for Refusal {
    ghost output = { λ refusal. Some (refusal_text refusal) };

    fn fmt<W: fmt::Write>(&self, f: &mut fmt::Formatter<W>) -> fmt::Result {
        match self {
            Refusal::NotACall { place } => write!(f, "this is no call from byte {place} on"),
            Refusal::Unfit => f.write_str("a page has 1024 bytes"),
            Refusal::NoSuchPage => f.write_str("there is no such page"),
            Refusal::LogFull => f.write_str("256 writes wait already"),
        }
    }
}

// What a call is answered, with a page as the caller has it: its bytes, nothing where they stand beside the
// answer, or as much of them as is shown.
#[derive(Clone, Copy, Debug, PartialEq, Eq)]
pub enum Answer<P> {
    Refused(Refusal),
    Done,
    Page(P),
    // How many pages there are.
    Number(u32),
}

impl<P: Drop> Answer<P> {
    // The same answer, with another page where it has one.
    pub fn with_page<Q: Drop>(self, page: Q) -> Answer<Q>
        ensures { result ≡ repaged self page }
    {
        match self {
            Answer::Refused(refusal) => Answer::Refused(refusal),
            Answer::Done => Answer::Done,
            Answer::Page(_) => Answer::Page(page),
            Answer::Number(number) => Answer::Number(number),
        }
    }
}

// Writes the answer's bytes at the front of what is lent and tells how many they are; writes nothing where
// they don't fit. A page may have any length; only one of 1,024 bytes is read back.
pub fn encode(answer: Answer<&[u8]>, out: &mut [u8]) -> Option<usize>
    ensures { Encoded result (answer_bytes (answered answer.entry)) out.old out.new }
{
    match answer {
        Answer::Refused(refusal) => {
            let [a, b, c, d] = refusal.place().to_le_bytes();
            write(out, &[REFUSED, refusal.number(), a, b, c, d], &[])
        }
        Answer::Done => write(out, &[DONE], &[]),
        Answer::Page(page) => write(out, &[PAGE], page),
        Answer::Number(number) => {
            let [a, b, c, d] = number.to_le_bytes();
            write(out, &[NUMBER, a, b, c, d], &[])
        }
    }
}

// The answer that the bytes are, if they are one.
pub fn decode(bytes: &[u8]) -> Option<Answer<&[u8]>>
    ensures { heard result ≡ answer_of bytes.now }
{
    match bytes {
        [REFUSED, number, a, b, c, d] => {
            let place = u32::from_le_bytes([*a, *b, *c, *d]);
            Some(Answer::Refused(Refusal::from_parts(*number, place)?))
        }
        [DONE] => Some(Answer::Done),
        [PAGE, page @ ..] if page.len() == BLOCK => Some(Answer::Page(page)),
        [NUMBER, a, b, c, d] => Some(Answer::Number(u32::from_le_bytes([*a, *b, *c, *d]))),
        _ => None,
    }
}

// Answers and bytes fit each other: what is written is read back, and bytes that are an answer are that
// answer's own. And what the book refuses is one of the refusals above, with its number and its place.
pub fn answers_stand()
    ensures back { RoundTrip }
    ensures own { OwnBytes }
    ensures refusals { TurnedRefuses }
{}
