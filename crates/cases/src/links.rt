// Cases of the link. Its record comes in its own octets, as the first input.
use crate::keys::strength;
use crate::packets::mode;
use crate::{Case, tell};
use answer::number_of;
use mppe::{Link, Outcome};
use mppe_record::{no_record, read_record};
use std::io;
use std::io::Write;

// The calls 64 to 68: a new link, a packet sealed, a packet opened, a Reset-Request taken, and a record read and written again.
pub fn call<W: Write>(writer: &mut W, case: Case<'_>, lent: &mut [u8]) -> io::Result<()> {
    let Case { x, y, a, b, .. } = case;
    match case.call {
        64 => {
            let new = Link::new(strength(x), mode(y), a);
            tell_link(writer, new.answer, 0, new.link, &[])
        }
        65 => {
            let sealed = link(a).seal(b, lent);
            tell_outcome(writer, sealed, lent)
        }
        66 => {
            let opened = link(a).open(b, lent);
            tell_outcome(writer, opened, lent)
        }
        67 => tell_outcome(writer, link(a).reset(b), &[]),
        68 => {
            let read = read_record(a);
            tell_link(
                writer,
                number_of(&read),
                0,
                read.unwrap_or(no_record()),
                &[],
            )
        }
        _ => Ok(()),
    }
}

// What a link's call gives.
fn tell_outcome<W: Write>(writer: &mut W, outcome: Outcome, lent: &[u8]) -> io::Result<()> {
    tell_link(writer, outcome.answer, outcome.changes, outcome.link, lent)
}

// Key changes, two octets, and a link record as its own.
fn tell_link<W: Write>(
    writer: &mut W,
    number: u8,
    changes: u16,
    link: Link,
    lent: &[u8],
) -> io::Result<()> {
    let mut fields = [0u8; 297];
    fields[..2].copy_from_slice(&changes.to_be_bytes());
    fields[2..].copy_from_slice(&mppe_record::record_octets(link));
    tell(writer, number, &fields, lent)
}

// The link record of a case: any that a link can be, well formed or not.
fn link(a: &[u8]) -> Link {
    read_record(a).unwrap_or(no_record())
}
