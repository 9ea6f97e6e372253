// The bench tape: packets of one direction as they arrived, written one behind the other, read back and replayed (02, M-109).
#![tactic(auto)]

ghost use Rattle.std.specs.Prelude.{◌≡◌, false, [], ◌+◌, ◌-◌, ◌^◌, ◌<◌, ◌≤◌, length, drop};
ghost use Rattle.answer.specs.Answer.{outside, first_of, result_of};
ghost use Rattle.octets.specs.Octets.{written, onward};
ghost use Rattle.mppe.specs.Link.{longest_plain, farthest, refusal};
ghost use Rattle.tape.specs.Tape.{shortest_packet, longest_packet, most_groups, groups, length_in, next_of, begin_answer, begin_out, write_answer, write_out, place_rows, record_read, read_at};
ghost use Rattle.tape.specs.Replay.{held, step_of, replayed, replay_step};

use answer::Refusal;
use mppe::{FRONT, LONGEST_PLAIN, Link, Outcome, SHORTEST_PLAIN};

// The octet that a tape begins with.
const FIRST_OCTET: u8 = 1;
// The groups that a length has at most.
const MOST_GROUPS: usize = 3;
// A group has seven bits, so it is below this, which is the bit on top of them.
const MORE: usize = 128;

// What a read answers, and where its packet stands: from `start` up to `offset`, the offset after it. There is none where they are equal.
// A struct and no `Result`: a refused read tells an offset too.
#[derive(Clone, Copy, Debug, PartialEq, Eq)]
pub struct Next {
    pub answer: Result<(), Refusal>,
    pub start: usize,
    pub offset: usize,
}

// What a replay step gives: the outcome of opening the packet, or of a read that gives none, and the offset after it.
// A struct and no `Result`: a refused step hands back the link record and an offset too.
#[derive(Clone, Copy)]
pub struct Replayed {
    pub outcome: Outcome,
    pub offset: usize,
}

// Begins a tape in the front of a lent buffer; refused with 2 where that is empty.
#[tactic(auto, unfolding(crate::specs::Tape::begin_answer, crate::specs::Tape::begin_code, crate::specs::Tape::begin_out))]
pub fn begin(out: &mut [u8]) -> Result<(), Refusal>
    ensures { (result ≡ begin_answer out.old) × (out.new ≡ begin_out out.old) }
{
    if out.is_empty() {
        return Err(Refusal::Room);
    }
    out[0] = FIRST_OCTET;
    Ok(())
}

// Writes the record of a packet into the front of a lent buffer; refused with 1 for a wrong length, then with 2 for too little room.
#[tactic(auto, unfolding(crate::specs::Tape::write_answer, crate::specs::Tape::write_out, crate::specs::Tape::write_code))]
pub fn write(packet: &[u8], out: &mut [u8]) -> Result<usize, Refusal>
    ensures { (result ≡ write_answer most_groups longest_packet packet.now out.old)
        × (out.new ≡ write_out most_groups longest_packet packet.now out.old) }
{
    let n = packet.len();
    if beyond_packet(n) {
        return Err(Refusal::Shape);
    }
    let front = groups_of(n);
    if out.len() < front + n {
        return Err(Refusal::Room);
    }
    put_groups(n, out);
    put_packet(packet, &mut out[front..]);
    Ok(front + n)
}

// Reads at an offset: what it answers, and where the packet stands.
pub fn read(tape: &[u8], offset: usize) -> Next
    ensures { result ≡ next_of (read_at most_groups longest_packet tape.now offset) }
{
    let placed = place_code(tape, offset);
    if placed.is_err() {
        return nothing(placed, 0);
    }
    if offset == tape.len() {
        return nothing(Ok(()), offset);
    }
    read_record(tape, offset)
}

// The packet at an offset, as that part of the tape; an empty part where there is none.
#[tactic(auto, using(crate::proofs::InnerLaws::part_within))]
pub fn packet(tape: &[u8], offset: usize) -> &[u8]
    ensures { (result.now ≡ (read_at most_groups longest_packet tape.now offset).packet)
        × (result.ref_ptr ≡ onward (next_of (read_at most_groups longest_packet tape.now offset)).start tape.entry.ref_ptr) }
{
    let next = read(tape, offset);
    &tape[next.start..next.offset]
}

// One step of a replay: opens the packet at an offset into a lent room.
#[tactic(auto, using(crate::proofs::InnerLaws::part_within), unfolding(crate::specs::Replay::replay_step))]
pub fn replay(link: Link, tape: &[u8], offset: usize, room: &mut [u8]) -> Replayed
    ensures { (result ≡ replayed (replay_step most_groups longest_plain farthest (held link room.old) tape.now offset))
        × (room.new ≡ (replay_step most_groups longest_plain farthest (held link room.old) tape.now offset).result.buffer) }
{
    if !mppe::well_formed(link) {
        return unmoved(answer::RECORD, link, 0);
    }
    let next = read(tape, offset);
    if next.start == next.offset {
        return unmoved(answer::number_of(&next.answer), link, next.offset);
    }
    let outcome = link.open(&tape[next.start..next.offset], room);
    Replayed {
        outcome,
        offset: next.offset,
    }
}

// A step that opens nothing hands back the record given.
fn unmoved(code: u8, link: Link, offset: usize) -> Replayed
    ensures { result ≡ replayed (step_of (refusal code link []) offset) }
{
    Replayed {
        outcome: Outcome {
            answer: code,
            changes: 0,
            link,
        },
        offset,
    }
}

// No packet: an empty part at the offset that is answered.
fn nothing(answer: Result<(), Refusal>, offset: usize) -> Next
    ensures { result ≡ record { answer = answer; start = offset; offset = offset } }
{
    Next {
        answer,
        start: offset,
        offset,
    }
}

// What a read answers by the tape's first octet and the offset.
#[tactic(auto, using(crate::proofs::InnerLaws::no_first))]
fn place_code(tape: &[u8], offset: usize) -> Result<(), Refusal>
    ensures { result ≡ result_of (first_of (place_rows tape.now offset)) tt }
{
    if tape.is_empty() || tape[0] != FIRST_OCTET {
        Err(Refusal::Shape)
    } else if offset < 1 || tape.len() < offset {
        Err(Refusal::Size)
    } else {
        Ok(())
    }
}

// Reads the record at an offset of the tape.
fn read_record(tape: &[u8], offset: usize) -> Next
    requires { offset ≤ length tape.now }
    ensures { result ≡ next_of (record_read most_groups longest_packet tape.now offset) }
{
    let n = length_in(&tape[offset..]);
    if beyond_packet(n) {
        return nothing(Err(Refusal::Shape), offset);
    }
    let front = groups_of(n);
    if tape.len() - offset < front + n {
        return nothing(Err(Refusal::Shape), offset);
    }
    let start = offset + front;
    Next {
        answer: Ok(()),
        start,
        offset: start + n,
    }
}

// Whether a length is none of a packet's.
fn beyond_packet(n: usize) -> bool
    ensures is { result ≡ outside shortest_packet longest_packet n }
    ensures fits { result ≡ false → (shortest_packet ≤ n) × (n ≤ longest_packet) }
{
    n < FRONT + SHORTEST_PLAIN || FRONT + LONGEST_PLAIN < n
}

// How many groups the length of a packet has.
fn groups_of(n: usize) -> usize
    requires { n ≤ longest_packet }
    ensures { (result ≡ length (groups most_groups n)) × (result ≤ most_groups) }
{
    let mut left = n;
    for i in 1..MOST_GROUPS {
        if left < MORE {
            return i;
        }
        left /= MORE;
    }
    MOST_GROUPS
}

// Writes the groups of a length.
fn put_groups(n: usize, out: &mut [u8])
    requires { (n ≤ longest_packet) × (length (groups most_groups n) ≤ length out.old) }
    ensures { out.new ≡ written (groups most_groups n) out.old }
{
    let mut left = n;
    for octet in out.iter_mut() {
        if left < MORE {
            *octet = left as u8;
            return;
        }
        *octet = (MORE + left % MORE) as u8;
        left /= MORE;
    }
}

// Writes a packet into the front of a buffer, octet by octet: for a length that is not known `copy_from_slice` calls memmove, and the archive
// for C needs memcpy and memset alone.
#[tactic(auto, using(octets::specs::Laws::copy_more))]
fn put_packet(packet: &[u8], out: &mut [u8])
    requires { length packet.now ≤ length out.old }
    ensures { out.new ≡ written packet.now out.old }
{
    for (i, octet) in packet.iter().enumerate() {
        out[i] = *octet;
    }
}

// The length that the groups in front of the rest of a tape say; 0 where they say none. Highest group first, since each wants what those behind it
// say.
fn length_in(rest: &[u8]) -> usize
    ensures { result ≡ length_in most_groups rest.now }
{
    let mut n = 0;
    for i in (0..MOST_GROUPS).rev() {
        n = length_from(rest, i, n);
    }
    n
}

// What the groups from one on say, by what those behind it say.
#[tactic(auto, using(crate::proofs::InnerLaws::no_length))]
fn length_from(rest: &[u8], i: usize, high: usize) -> usize
    requires { (i < most_groups) × (high ≡ length_in (most_groups - (i + 1)) (drop (i + 1) rest.now)) × (high < 128 ^ (most_groups - (i + 1))) }
    ensures { (result ≡ length_in (most_groups - i) (drop i rest.now)) × (result < 128 ^ (most_groups - i)) }
{
    if rest.len() <= i {
        return 0;
    }
    let group = rest[i] as usize;
    if group < MORE {
        return group;
    }
    if high == 0 {
        return 0;
    }
    group - MORE + MORE * high
}
