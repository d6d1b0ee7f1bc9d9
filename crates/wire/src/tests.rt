// The edges of the format. What holds of all bytes is proved; here a few are looked at as they are.
use crate::answer::{Answer, Refusal};
use crate::call::Call;
use crate::{answer, call};
use std::process::Abort;
use std::test::Fail;

// Bytes that are no call, and where they cease to be one.
const NO_CALLS: [(&[u8], u32); 8] = [
    (&[], 0),
    (&[4], 0),
    (&[0], 1),
    (&[0, 1, 0, 0], 4),
    (&[0, 1, 0, 0, 0, 7], 5),
    (&[1, 1, 0], 3),
    (&[2, 7], 1),
    (&[3, 7, 7], 1),
];

#[test]
fn no_calls(rt: HostRuntime) -> Result<(), Fail> {
    for (bytes, place) in NO_CALLS {
        let Err(told) = call::decode(bytes) else {
            return Err(Fail::new("a call"));
        };
        assert_eq!(rt; told.place, place);
    }
    Ok(())
}

// Reads, and the page that each is for.
const READS: [(&[u8], u32); 3] = [
    (&[0, 0, 0, 0, 0], 0),
    (&[0, 1, 2, 0, 0], 513),
    (&[0, 255, 255, 255, 255], 4294967295),
];

#[test]
fn calls(rt: HostRuntime) -> Result<(), Fail> {
    for (bytes, page) in READS {
        let Ok(Call::Read { page: told }) = call::decode(bytes) else {
            return Err(Fail::new("no read"));
        };
        assert_eq!(rt; told, page);
    }
    write_and_read_back(&rt, 0, &[])?;
    write_and_read_back(&rt, 0, &[7; 1023])?;
    write_and_read_back(&rt, 4294967295, &[7; 1024])?;
    write_and_read_back(&rt, 4294967295, &[7; 1025])
}

fn write_and_read_back(rt: &impl Abort, page: u32, bytes: &[u8]) -> Result<(), Fail> {
    let mut out = [0; 1030];
    let Some(n) = call::encode(Call::Write { page, bytes }, &mut out) else {
        return Err(Fail::new("no room"));
    };
    let Ok(
        Call::Write {
            page: told,
            bytes: rest,
        },
    ) = call::decode(&out[0..n])
    else {
        return Err(Fail::new("no write"));
    };
    assert_eq!(rt; told, page);
    assert!(rt; octets::same(rest, bytes));
    Ok(())
}

// A place with a refusal that has none, a refusal of no number, a page too short and a number too long.
const NO_ANSWERS: [&[u8]; 5] = [
    &[],
    &[0, 2, 1, 0, 0, 0],
    &[0, 5, 0, 0, 0, 0],
    &[2, 7],
    &[3, 0, 0, 0, 0, 0],
];

#[test]
fn answers(rt: HostRuntime) -> Result<(), Fail> {
    for bytes in NO_ANSWERS {
        assert!(rt; answer::decode(bytes).is_none());
    }
    tell_and_read_back(&rt, Answer::Refused(Refusal::NotACall { place: 5 }))?;
    tell_and_read_back(&rt, Answer::Refused(Refusal::LogFull))?;
    tell_and_read_back(&rt, Answer::Page(&[7; 1024]))?;
    tell_and_read_back(&rt, Answer::Number(4294967295))
}

fn tell_and_read_back(rt: &impl Abort, answer: Answer<&[u8]>) -> Result<(), Fail> {
    let mut out = [0; 1025];
    let mut again = [0; 1025];
    let Some(n) = answer::encode(answer, &mut out) else {
        return Err(Fail::new("no room"));
    };
    let Some(told) = answer::decode(&out[0..n]) else {
        return Err(Fail::new("no answer"));
    };
    assert_eq!(rt; answer::encode(told, &mut again), Some(n));
    assert!(rt; octets::same(&out, &again));
    Ok(())
}
