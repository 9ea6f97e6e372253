// Marks beside a tape: where a walk over the tape of a stateless link may be taken up again (02, M-111).
#![tactic(auto)]

ghost use Rattle.std.specs.Prelude.{◌≡◌, true, false, not, ◌&&◌, suc, ◌+◌, ◌*◌, ◌-◌, ◌/◌, ◌^◌, ◌≤◌, ◌<◌, ltb, length, take, drop, replicate, IfOk};
ghost use Rattle.answer.specs.Answer.{outside, on_done};
ghost use Rattle.octets.specs.Octets.{from_big_endian, written, written_at, equal};
ghost use Rattle.mppe_keys.specs.declared.Mode.TheVariants.{Stateless};
ghost use Rattle.mppe_keys.specs.Keys.{by_mode};
ghost use Rattle.mppe.specs.Link.{front, longest_plain, farthest, well_formed, open_result};
ghost use Rattle.tape.specs.Tape.{shortest_packet, longest_packet, most_groups, on_packet, read_at};
ghost use Rattle.marks.specs.Marks.{every, mark_length, mark_octets, marks_octets, mark_read, onward, marks_of, write_answer, write_out, checked};
ghost use Rattle.marks.specs.Inner.{Begins, ahead, found, agreed_on};

use answer::Refusal;
use mppe::{FRONT, Link, Outcome, SHORTEST_PLAIN};

// The octets of a mark: how many packets were opened, the offset, and the first octets of the link record.
pub const MARK_LENGTH: usize = 51;
// Where the offset begins, and the link record.
const OFFSET_AT: usize = 8;

const LINK_AT: usize = 16;
// The offset of a tape's first packet.
const TAPE_START: usize = 1;
// A mark is kept behind each packet whose number among those opened is a multiple of this.
pub const EVERY: u64 = 256;

// How many packets of a tape were opened, the offset that follows, and the link record.
#[derive(Clone, Copy)]
pub struct Mark {
    pub opened: u64,
    pub offset: usize,
    pub link: Link,
}

// Whether marks are those of a tape, and how many of them are from the first on.
#[derive(Clone, Copy, Debug, PartialEq, Eq)]
pub struct Checked {
    pub yes: bool,
    pub agreeing: usize,
}

// What a walk over a tape finds beside a list: how many marks there are, and how many of them the list has.
#[derive(Clone, Copy)]
struct Found {
    marks: usize,
    agreeing: usize,
}

// Writes the list of a tape's marks into the front of a lent buffer.
pub fn write(start: Link, tape: &[u8], out: &mut [u8]) -> Result<usize, Refusal>
    ensures { (result ≡ write_answer most_groups longest_plain farthest start tape.now out.old)
        × (out.new ≡ write_out most_groups longest_plain farthest start tape.now out.old) }
{
    if !begins(start) {
        return Err(Refusal::Record);
    }
    let walked = compared(start, tape, out)?;
    let length = MARK_LENGTH * walked.marks;
    if out.len() < length {
        return Err(Refusal::Room);
    }
    put_marks(start, tape, out);
    Ok(length)
}

// Reads a mark; refused as `size` where there are not 51 octets, then as `record` for a wrong strength or a record that is not well formed.
#[tactic(auto, using(crate::proofs::InnerLaws::told_rules))]
pub fn read(octets: &[u8]) -> Result<Mark, Refusal>
    ensures { result ≡ mark_read octets.now }
{
    if octets.len() != MARK_LENGTH {
        return Err(Refusal::Size);
    }
    let link = mppe_record::read_stateless(&octets[LINK_AT..])?;
    if !mppe::well_formed(link) {
        return Err(Refusal::Record);
    }
    Ok(Mark {
        opened: long(&octets[..OFFSET_AT]),
        offset: long(&octets[OFFSET_AT..LINK_AT]) as usize,
        link,
    })
}

// Checks a list against the marks that a walk over the tape from the start gives.
pub fn check(start: Link, tape: &[u8], marks: &[u8]) -> Result<Checked, Refusal>
    ensures { result ≡ checked most_groups longest_plain farthest start tape.now marks.now }
{
    if !begins(start) {
        return Err(Refusal::Record);
    }
    let walked = compared(start, tape, marks)?;
    Ok(Checked {
        yes: walked.agreeing == walked.marks && marks.len() == MARK_LENGTH * walked.marks,
        agreeing: walked.agreeing,
    })
}

// Whether a walk may begin with a record: it is well formed and stateless.
fn begins(start: Link) -> bool
    ensures is { result ≡ (well_formed start && by_mode start.mode true false) }
    ensures told { result ≡ true → Begins start }
{
    mppe::well_formed(start) && !mppe_keys::is_stateful(start.mode)
}

// Walks over a tape from the start, and holds each mark that it gives against a list.
fn compared(start: Link, tape: &[u8], marks: &[u8]) -> Result<Found, Refusal>
    requires { Begins start }
    ensures is { result ≡ found most_groups longest_plain farthest start tape.now marks.now }
    ensures fits { IfOk result (λ all. mark_length * all.marks ≤ length tape.now) }
{
    let mut at = Mark {
        opened: 0,
        offset: TAPE_START,
        link: start,
    };
    let mut agreeing = 0;
    while let Some(next) = advanced(at, tape) {
        if is_kept(at.opened, next.opened) {
            agreeing = agreed(next, marks, agreeing);
        }
        at = next;
    }
    let last = tape::read(tape, at.offset);
    last.answer?;
    Ok(Found {
        marks: (at.opened / EVERY) as usize,
        agreeing,
    })
}

// Walks over a tape from the start, and writes each mark that it gives.
fn put_marks(start: Link, tape: &[u8], out: &mut [u8])
    requires { Begins start × (length (marks_octets (marks_of most_groups longest_plain farthest start tape.now)) ≤ length out.old) }
    ensures { out.new ≡ written (marks_octets (marks_of most_groups longest_plain farthest start tape.now)) out.old }
{
    let mut at = Mark {
        opened: 0,
        offset: TAPE_START,
        link: start,
    };
    while let Some(next) = advanced(at, tape) {
        if is_kept(at.opened, next.opened) {
            put_mark(next, out);
        }
        at = next;
    }
}

// What a walk holds behind the packet at its offset; none where there is no packet.
fn advanced(at: Mark, tape: &[u8]) -> Option<Mark>
    requires { Begins at.link × (at.opened < at.offset) }
    ensures { result ≡ ahead most_groups longest_plain farthest at tape.now }
{
    let next = tape::read(tape, at.offset);
    let packet = tape::packet(tape, at.offset);
    if packet.is_empty() {
        return None;
    }
    let outcome = outcome_of(at.link, packet);
    let left = outcome.link;
    Some(Mark {
        opened: counted(outcome.answer, at.opened),
        offset: next.offset,
        link: left,
    })
}

// What opening a packet with a stateless record and enough room gives beside the octets: its front and its protocol octets decide it.
fn outcome_of(link: Link, packet: &[u8]) -> Outcome
    requires { (link.mode ≡ Stateless) × (outside shortest_packet longest_packet (length packet.now) ≡ false) }
    ensures { result ≡ (open_result longest_plain farthest link packet.now (replicate (length packet.now - front) 0)).outcome }
{
    let mut number = [0u8; SHORTEST_PLAIN];
    link.open(&packet[..FRONT + SHORTEST_PLAIN], &mut number)
}

// One more where a packet was opened.
fn counted(code: u8, opened: u64) -> u64
    requires { suc opened < 2 ^ 64 }
    ensures { result ≡ on_done code (suc opened) opened }
{
    if code == answer::DONE {
        opened + 1
    } else {
        opened
    }
}

// Whether a mark is kept behind a packet, by how many were opened before it and behind it.
fn is_kept(before: u64, behind: u64) -> bool
    ensures { result ≡ ltb (before / every) (behind / every) }
{
    before / EVERY < behind / EVERY
}

// How many marks of a list agree from the first on, with one more.
#[tactic(auto, unfolding(crate::specs::Inner::agreed_on))]
fn agreed(mark: Mark, marks: &[u8], agreeing: usize) -> usize
    requires { agreeing < mark.opened / every }
    ensures { result ≡ agreed_on mark marks.now agreeing }
{
    let number = (mark.opened / EVERY) as usize;
    let octets = mark_octets(mark);
    if agreeing + 1 == number && stands_at(&octets, MARK_LENGTH * agreeing, marks) {
        number
    } else {
        agreeing
    }
}

// Whether a mark's octets stand at a place of a list.
fn stands_at(octets: &[u8], at: usize, marks: &[u8]) -> bool
    requires { (length octets.now ≡ mark_length) × (at + mark_length < 2 ^ 64) }
    ensures { result ≡ equal octets.now (take mark_length (drop at marks.now)) }
{
    let end = at + MARK_LENGTH;
    end <= marks.len() && octets::same(octets, &marks[at..end])
}

// Writes a mark into its place in a list.
fn put_mark(mark: Mark, out: &mut [u8])
    requires { (1 ≤ mark.opened / every) × (mark_length * (mark.opened / every) ≤ length out.old) }
    ensures { out.new ≡ written_at (mark_length * (mark.opened / every - 1)) (mark_octets mark) out.old }
{
    let number = (mark.opened / EVERY) as usize;
    let octets = mark_octets(mark);
    octets::copy_at(&octets, MARK_LENGTH * (number - 1), out);
}

// A mark as its 51 octets.
fn mark_octets(mark: Mark) -> [u8; 51]
    ensures { (result ≡ mark_octets mark) × (length result ≡ mark_length) }
{
    let link = mark.link;
    let opened = mark.opened.to_be_bytes();
    let offset = (mark.offset as u64).to_be_bytes();
    let front = mppe_record::front_octets(link);
    let mut octets = [0u8; 51];
    octets::copy(&opened, &mut octets);
    octets::copy_at(&offset, OFFSET_AT, &mut octets);
    octets::copy_at(&front, LINK_AT, &mut octets);
    octets
}

// The number of eight octets, highest first.
fn long(octets: &[u8]) -> u64
    requires { length octets.now ≡ 8 }
    ensures { result ≡ from_big_endian octets.now }
{
    let mut number = [0u8; 8];
    number.copy_from_slice(octets);
    u64::from_be_bytes(number)
}
