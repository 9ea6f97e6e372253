// MPPE's link in both modes: the record, sealing, opening and Reset-Requests (01, "Keys" and "Packets and counts"; 02, M-103; RFC 3078,
// sections 3, 6 and 7).
#![tactic(auto)]

ghost use Rattle.std.specs.Prelude.{◌≡◌, true, false, not, eqb, ◌||◌, [], ◌∷◌, ◌+◌, ◌*◌, ◌%◌, ◌≤◌, ◌<◌, length, drop};
ghost use Rattle.answer.specs.Answer.{pick, outside};
ghost use Rattle.octets.specs.Octets.{written};
ghost use Rattle.rc4.specs.Cipher.{run, after};
ghost use Rattle.mppe_keys.specs.Keys.{by_mode, changes as changes_of};
ghost use Rattle.mppe.specs.Link.{shortest_plain, longest_plain, front, counts, zeros, box_fits, well_formed, no_link, new_link, start_key_in, session_key_in, with_box, kept_box, renewed, bit_a, bit_d, header, lacks, opens_by, distance as distance_of, farthest, changes_over, refusal, seal_code, seal_result, open_result, judged, reset_outcome};
ghost use Rattle.mppe.specs.Inner.{misshapen, header_code, cipher_in, deciphered, deciphered_out, judged_header, settled_on, waited_on, data_result};

use answer::Refusal;
use mppe_keys::{Mode, Strength, is_stateful, key_length};
use octets::pair;
use rc4::Rc4;

// The shortest plain packet: two protocol octets.
pub const SHORTEST_PLAIN: usize = 2;
// The longest plain packet.
pub const LONGEST_PLAIN: usize = 31998;
// The octets before a sealed packet's data.
pub const FRONT: usize = 4;
// The protocol number of a sealed packet.
pub const SEALED: u16 = 0x00FD;
// The lowest and the highest protocol number that is carried.
const LOWEST_PROTOCOL: u16 = 0x0021;

const HIGHEST_PROTOCOL: u16 = 0x00FA;
// The header's bits A and D.
pub const BIT_A: u16 = 0x8000;

const BIT_D: u16 = 0x1000;
// How many counts there are.
pub const COUNTS: u16 = 4096;
// The farthest that a packet's count may be ahead of the last one.
pub const FARTHEST: u16 = 2048;
// The count of a new link, so that the first packet carries 0.
const LAST_COUNT: u16 = 4095;

// A link record. Its calls take any, and say which are well formed. It holds keys, so no `==` and no Debug, as in all that holds one. Most of its
// methods take it by value: one that came by value is copied whole before it is lent.
#[derive(Clone, Copy)]
pub struct Link {
    pub strength: Strength,
    pub mode: Mode,
    pub start: [u8; 16],
    pub session: [u8; 16],
    pub count: u16,
    pub state: Rc4,
    pub waiting: bool,
}

// What a new link is.
#[derive(Clone, Copy)]
pub struct NewLink {
    pub answer: u8,
    pub link: Link,
}

// What sealing and opening give beside the octets that they write: the key changes made, and the next link record.
// The number stays beside them: the theorems of mppe_runs speak of number, changes and record together, on a refusal too.
#[derive(Clone, Copy)]
pub struct Outcome {
    pub answer: u8,
    pub changes: u16,
    pub link: Link,
}

// What a record says of a packet before its data are there: the number answered, and the key changes that its count brings, which a refusal
// reports too: 11 is followed by them.
#[derive(Clone, Copy, Debug, PartialEq, Eq)]
pub struct Judged {
    pub answer: u8,
    pub changes: u16,
}

impl Link {
    // The record that both ends begin with, of a start key that has its strength's octets.
    #[tactic(auto, using(crate::proofs::InnerLaws::new_refused, crate::proofs::InnerLaws::new_done))]
    pub fn new(strength: Strength, mode: Mode, start: &[u8]) -> NewLink
        ensures { result ≡ new_link strength mode start.now }
    {
        let Ok(session) = mppe_keys::initial_session_key(strength, start) else {
            return NewLink {
                answer: answer::SIZE,
                link: no_link(strength, mode),
            };
        };
        let mut places = [0u8; 16];
        octets::copy(start, &mut places);
        NewLink {
            answer: answer::DONE,
            link: Link {
                strength,
                mode,
                start: places,
                session,
                count: LAST_COUNT,
                state: Rc4::unkeyed(),
                waiting: is_stateful(mode),
            },
        }
    }

    // Seals a plain packet into the front of a lent buffer.
    #[tactic(auto, using(crate::proofs::InnerLaws::seal_passed), unfolding(crate::specs::Link::seal_result))]
    pub fn seal(self, plain: &[u8], out: &mut [u8]) -> Outcome
        ensures { (result ≡ (seal_result longest_plain self plain.now out.old).outcome)
            × (out.new ≡ (seal_result longest_plain self plain.now out.old).buffer) }
    {
        let code = self.seal_code(plain, out.len());
        if code != answer::DONE {
            return self.refused(code);
        }
        let count = next_count(self.count);
        let changes = changes_over(self.mode, self.count, 1);
        let next = self.moved(count, changes);
        let fresh = afresh(changes, self.waiting);
        put_front(fresh, count, out);
        let kept = next.encipher(fresh, plain, &mut out[FRONT..]);
        Outcome {
            answer: answer::DONE,
            changes,
            link: next.with_box(kept, false),
        }
    }

    // Opens a sealed packet into the front of a lent buffer.
    #[tactic(auto, unfolding(crate::specs::Link::open_result, crate::specs::Link::open_code))]
    pub fn open(self, packet: &[u8], out: &mut [u8]) -> Outcome
        ensures { (result ≡ (open_result longest_plain farthest self packet.now out.old).outcome)
            × (out.new ≡ (open_result longest_plain farthest self packet.now out.old).buffer) }
    {
        if !well_formed(self) {
            return self.refused(answer::RECORD);
        }
        if misshapen(packet) {
            return self.refused(answer::SHAPE);
        }
        self.open_data(pair(packet[2], packet[3]), &packet[FRONT..], out)
    }

    // Opens the data behind a header, once their protocol number is found to be one that is carried.
    #[tactic(auto, using(crate::proofs::InnerLaws::count_bound))]
    fn open_data(self, header: u16, text: &[u8], out: &mut [u8]) -> Outcome
        requires { (well_formed self ≡ true) × (shortest_plain ≤ length text.now) × (length text.now ≤ longest_plain) }
        ensures { (result ≡ (data_result farthest self header text.now out.old).outcome)
            × (out.new ≡ (data_result farthest self header text.now out.old).buffer) }
    {
        let judged = self.judge_header(header, text.len(), out.len());
        let changes = judged.changes;
        if judged.answer == answer::WAITING {
            return self.moved(header % COUNTS, changes).waited(changes);
        }
        if judged.answer != answer::DONE {
            return self.refused(judged.answer);
        }
        let next = self.moved(header % COUNTS, changes);
        let Ok(left) = next.decipher(afresh(changes, !lacks_a(header)), text, out) else {
            return self.refused(answer::PROTOCOL);
        };
        Outcome {
            answer: answer::DONE,
            changes,
            link: next.settled(left),
        }
    }

    // Judges a packet by its header and the length of its data, before these are there. An ill-formed record brings no change.
    #[tactic(auto, using(crate::proofs::InnerLaws::count_bound), unfolding(crate::specs::Link::judged, crate::specs::Inner::judged_header, crate::specs::Inner::header_code))]
    pub fn judge(self, header: u16, length: usize) -> Judged
        ensures { result ≡ judged longest_plain farthest self header length }
    {
        if !well_formed(self) {
            return Judged {
                answer: answer::RECORD,
                changes: 0,
            };
        }
        let judged = self.judge_header(header, 0, 0);
        if beyond_plain(length) {
            return Judged {
                answer: answer::SHAPE,
                ..judged
            };
        }
        judged
    }

    // What a well-formed record says of a header, with the length of the data and that of the lent buffer.
    #[tactic(auto, unfolding(crate::specs::Inner::header_code, crate::specs::Inner::judged_header))]
    fn judge_header(self, header: u16, length: usize, room: usize) -> Judged
        requires { self.count < counts }
        ensures { result ≡ judged_header farthest self header length room }
    {
        let away = distance(self.count, header % COUNTS);
        Judged {
            answer: self.header_code(header, away, length, room),
            changes: changes_over(self.mode, self.count, away),
        }
    }

    // Takes a Reset-Request: a stateful sender then keys RC4 afresh for its next packet.
    #[tactic(auto, using(crate::proofs::InnerLaws::reset_none, crate::proofs::InnerLaws::reset_taken), unfolding(crate::specs::Link::reset_outcome, crate::specs::Link::reset_code))]
    pub fn reset(self, request: &[u8]) -> Outcome
        ensures { result ≡ reset_outcome self request.now }
    {
        if !well_formed(self) {
            return self.refused(answer::RECORD);
        }
        let Ok(_) = ccp::read_reset(request) else {
            return self.refused(answer::SHAPE);
        };
        Outcome {
            answer: answer::DONE,
            changes: 0,
            link: self.with_box(self.state, is_stateful(self.mode)),
        }
    }

    // The number by the rows that the record, the header, its distance and two lengths decide.
    #[tactic(auto, unfolding(crate::specs::Inner::header_code))]
    fn header_code(self, header: u16, away: u16, length: usize, room: usize) -> u8
        ensures { result ≡ header_code farthest self header away length room }
    {
        if self.lacks_flag(header) {
            return answer::FLAGS;
        }
        if header / BIT_D % 2 == 0 {
            return answer::FLAGS;
        }
        if away == 0 {
            return answer::REPEAT;
        }
        if FARTHEST < away {
            return answer::LATE;
        }
        if !self.opens(header, away) {
            return answer::WAITING;
        }
        if room < length {
            return answer::ROOM;
        }
        answer::DONE
    }

    // Whether a header lacks bit A, which stateless mode asks for.
    fn lacks_flag(self, header: u16) -> bool
        ensures { result ≡ by_mode self.mode (lacks bit_a header) false }
    {
        match self.mode {
            Mode::Stateless => lacks_a(header),
            Mode::Stateful => false,
        }
    }

    // Whether there is a box to open with: one keyed afresh, or the one that the last packet left.
    fn opens(self, header: u16, away: u16) -> bool
        ensures { result ≡ opens_by (lacks bit_a header) away self.waiting }
    {
        !lacks_a(header) || (away == 1 && !self.waiting)
    }

    // The number that seal answers.
    #[tactic(auto, unfolding(crate::specs::Link::seal_code))]
    fn seal_code(self, plain: &[u8], room: usize) -> u8
        ensures { result ≡ seal_code longest_plain self plain.now room }
    {
        if !well_formed(self) {
            return answer::RECORD;
        }
        if beyond_plain(plain.len()) {
            return answer::SIZE;
        }
        if off_protocol(plain[0], plain[1]) {
            return answer::PROTOCOL;
        }
        if room < FRONT + plain.len() {
            return answer::ROOM;
        }
        answer::DONE
    }

    // A refusal hands back the record given.
    fn refused(self, code: u8) -> Outcome
        ensures { result ≡ (refusal code self []).outcome }
    {
        Outcome {
            answer: code,
            changes: 0,
            link: self,
        }
    }

    // A record with its session key changed so many times, and another count.
    #[tactic(auto, unfolding(mppe_keys::specs::Answers::placed_changes))]
    fn moved(self, count: u16, changes: u16) -> Link
        ensures { (result ≡ renewed self (changes_of self.strength (start_key_in self) changes (session_key_in self)) count) × (length self.session ≡ 16) }
    {
        let changed = mppe_keys::placed_key_changes(
            self.strength,
            self.start,
            self.session,
            changes as usize,
        );
        Link {
            session: changed,
            count,
            ..self
        }
    }

    // RC4 keyed afresh with a record's session key, or as the record holds it.
    #[tactic(auto, unfolding(mppe_keys::specs::Answers::placed_cipher))]
    fn cipher_of(&self, fresh: bool) -> Rc4
        ensures { result ≡ cipher_in self.now fresh }
    {
        if fresh {
            mppe_keys::placed_cipher(self.strength, self.session)
        } else {
            self.state
        }
    }

    // Enciphers a text into a lent buffer, with RC4 keyed afresh or as a record holds it, and gives the box that the record keeps. A stateless
    // one keeps its own, so that RC4 goes from the key to the octets in one call.
    fn encipher(&self, fresh: bool, text: &[u8], out: &mut [u8]) -> Rc4
        requires { (by_mode self.now.mode fresh true ≡ true) × (length text.now ≤ longest_plain) × (length text.now ≤ length out.old) }
        ensures { (result ≡ kept_box self.now (after (cipher_in self.now fresh) text.now))
            × (out.new ≡ written (run (cipher_in self.now fresh) text.now) out.old) }
    {
        match self.mode {
            Mode::Stateless => {
                rc4::apply(&self.session[..key_length(self.strength)], text, out).unwrap();
                self.state
            }
            Mode::Stateful => run_on(self.cipher_of(fresh), text, out),
        }
    }

    // Deciphers a text into a lent buffer, with RC4 keyed afresh or as a record holds it, once its protocol number is found to be one that is
    // carried.
    fn decipher(&self, fresh: bool, text: &[u8], out: &mut [u8]) -> Result<Rc4, Refusal>
        requires { (shortest_plain ≤ length text.now) × (length text.now ≤ longest_plain) × (length text.now ≤ length out.old) }
        ensures { (result ≡ deciphered self.now fresh text.now)
            × (out.new ≡ deciphered_out self.now fresh text.now out.old) }
    {
        self.state.run_within(
            fresh,
            &self.session[..key_length(self.strength)],
            LOWEST_PROTOCOL,
            HIGHEST_PROTOCOL,
            text,
            out,
        )
    }

    // A record after draws that left a box: a stateless one keeps its own, and neither waits.
    fn settled(self, drawn: Rc4) -> Link
        ensures { result ≡ settled_on self drawn }
    {
        match self.mode {
            Mode::Stateless => self.with_box(self.state, false),
            Mode::Stateful => self.with_box(drawn, false),
        }
    }

    // What is handed back where a packet has no box to be opened with: the key changes are made, and the record waits.
    #[tactic(auto, unfolding(crate::specs::Inner::waited_on))]
    fn waited(self, changes: u16) -> Outcome
        ensures { result ≡ waited_on self changes }
    {
        let state = self.cipher_of(changes != 0);
        Outcome {
            answer: answer::WAITING,
            changes,
            link: self.with_box(state, true),
        }
    }

    // A record with another box and mark.
    fn with_box(self, state: Rc4, waiting: bool) -> Link
        ensures { result ≡ with_box self state waiting }
    {
        Link {
            state,
            waiting,
            ..self
        }
    }
}

// The record of a new link that is refused.
#[tactic(auto, unfolding(crate::specs::Link::no_link))]
pub fn no_link(strength: Strength, mode: Mode) -> Link
    ensures { result ≡ no_link strength mode }
{
    Link {
        strength,
        mode,
        start: [0; 16],
        session: [0; 16],
        count: 0,
        state: Rc4 {
            cells: [0; 256],
            i: 0,
            j: 0,
        },
        waiting: false,
    }
}

// Whether a packet has a length that no sealed packet has, or another protocol number.
fn misshapen(packet: &[u8]) -> bool
    ensures { result ≡ misshapen longest_plain packet.now }
{
    !(FRONT + SHORTEST_PLAIN..=FRONT + LONGEST_PLAIN).contains(&packet.len())
        || pair(packet[0], packet[1]) != SEALED
}

// Whether bit A of a header is 0.
fn lacks_a(header: u16) -> bool
    ensures { result ≡ lacks bit_a header }
{
    header / BIT_A % 2 == 0
}

// Whether a record is well formed.
#[tactic(auto, unfolding(crate::specs::Link::well_formed))]
pub fn well_formed(link: Link) -> bool
    ensures { result ≡ well_formed link }
{
    let n = key_length(link.strength);
    link.count < COUNTS
        && zeros_from(link.start, n)
        && zeros_from(link.session, n)
        && mppe_keys::begins_reduced(link.strength, link.session)
        && box_fits(link.mode, link.state, link.waiting)
}

// Whether a record's box and mark are what its mode asks for.
#[tactic(auto, using(rc4::proofs::Permutation::unkeyed_permutation), unfolding(crate::specs::Link::box_fits))]
fn box_fits(mode: Mode, state: Rc4, waiting: bool) -> bool
    ensures { result ≡ box_fits mode state waiting }
{
    match mode {
        Mode::Stateless => !waiting && state.is_unkeyed(),
        Mode::Stateful => state.is_permutation(),
    }
}

// Whether all places from one on are 0.
fn zeros_from(places: [u8; 16], from: usize) -> bool
    ensures { result ≡ zeros (drop from places) }
{
    for i in from..16 {
        if places[i] != 0 {
            return false;
        }
    }
    true
}

// Whether a length is none of a plain packet's.
fn beyond_plain(length: usize) -> bool
    ensures { result ≡ outside shortest_plain longest_plain length }
{
    !(SHORTEST_PLAIN..=LONGEST_PLAIN).contains(&length)
}

// Whether the protocol number of two octets is one that is not carried.
pub fn off_protocol(high: u8, low: u8) -> bool
    ensures { result ≡ outside 0x0021 0x00FA (high * 256 + low) }
{
    !(LOWEST_PROTOCOL..=HIGHEST_PROTOCOL).contains(&pair(high, low))
}

// The count of the packet after one.
fn next_count(count: u16) -> u16
    requires { count < counts }
    ensures { result ≡ (count + 1) % counts }
{
    (count + 1) % COUNTS
}

// How far a count is from the last one.
fn distance(last: u16, arrived: u16) -> u16
    requires { (last < counts) × (arrived < counts) }
    ensures { result ≡ distance_of last arrived }
{
    (arrived + COUNTS - last) % COUNTS
}

// How many key changes the counts after the last one bring, as far as one that is so far away.
#[tactic(auto, using(crate::proofs::Laws::endings_are), unfolding(crate::specs::Link::changes_over))]
fn changes_over(mode: Mode, last: u16, away: u16) -> u16
    requires { (last < counts) × (away < counts) }
    ensures { result ≡ changes_over mode last away }
{
    match mode {
        Mode::Stateless => away,
        Mode::Stateful => (last + away + 1) / 256 - (last + 1) / 256,
    }
}

// Whether RC4 is keyed afresh: behind a change of the key, and where that is asked for.
fn afresh(changes: u16, asked: bool) -> bool
    ensures { result ≡ (not (eqb changes 0) || asked) }
{
    changes != 0 || asked
}

// A text run on a box. A call of its own: put into seal, its box of words would lie under the one that a key schedule makes.
#[inline(never)]
fn run_on(cipher: Rc4, text: &[u8], out: &mut [u8]) -> Rc4
    requires { (length text.now ≤ longest_plain) × (length text.now ≤ length out.old) }
    ensures { (result ≡ after cipher text.now) × (out.new ≡ written (run cipher text.now) out.old) }
{
    cipher.run(text, out).unwrap()
}

// Writes what stands before a sealed packet's data.
fn put_front(fresh: bool, count: u16, out: &mut [u8])
    requires { (count < counts) × (front ≤ length out.old) }
    ensures { out.new ≡ written (0x00 ∷ 0xFD ∷ header fresh count) out.old }
{
    let [high, low] = (flags(fresh) + count).to_be_bytes();
    out[..FRONT].copy_from_slice(&[0x00, 0xFD, high, low]);
}

// The header's bits above the count.
fn flags(fresh: bool) -> u16
    ensures { (result ≡ pick fresh bit_a 0 + bit_d) × (result ≤ 0x9000) }
{
    if fresh { BIT_A + BIT_D } else { BIT_D }
}
