// A packet opened in pieces, as a modem hands them out (02, M-104): begin with its front, feed the data, end. In both modes.
#![tactic(auto)]

ghost use Rattle.std.specs.Prelude.{◌≡◌, not, ◌||◌, [], ◌∷◌, ◌+◌, ◌≤◌, ◌<◌, eqb, length, Some, None, IfSome};
ghost use Rattle.std.specs.Option.{is_some};
ghost use Rattle.answer.specs.Answer.{done, shape, not_record, pick, wrong};
ghost use Rattle.octets.specs.Octets.{written, pair_at};
ghost use Rattle.rc4.specs.Cipher.{run};
ghost use Rattle.mppe_keys.specs.Answers.{placed_changes, placed_cipher};
ghost use Rattle.mppe.specs.Link.{longest_plain, farthest, front as front_length, shortest_plain, well_formed, off_protocol, bit_a, lacks, kept_box, changes_for, waited};
ghost use Rattle.mppe_pieces.specs.Walk.{over as over_of, over_with, on_with, walk_of, begin_step, early as early_of, judged_off, goes_on, feed_code, moved_on, walk_after, closes, feed_result, link_left, end_step};

use mppe::{BIT_A, COUNTS, Link, SEALED, SHORTEST_PLAIN};
use mppe_keys::Mode;
use octets::pair;
use rc4::Rc4;

// The octets of a protocol number, with which a plain packet begins.
const NUMBER: u16 = 2;

// A packet that is being opened in pieces. Until a good end `link` is the record that begin got. `header` is the packet's, `session` its
// session key, `state` RC4's after the octets fed, `total` the length of the data, `fed` how many of them were fed, `first` the first
// protocol octet, opened, while it is the only octet fed. A walk that is over is not live, and holds nothing beside its record.
#[derive(Clone, Copy)]
pub struct Walk {
    pub live: bool,
    pub link: Link,
    pub header: u16,
    pub session: [u8; 16],
    pub state: Rc4,
    pub total: u16,
    pub fed: u16,
    pub first: u8,
}

// What begin, feed and end give: the key changes reported, and the next walk, with the link record in it. The number stays beside them, since a
// refusal hands on a walk too.
#[derive(Clone, Copy)]
pub struct Step {
    pub answer: u8,
    pub changes: u16,
    pub walk: Walk,
}

impl Walk {
    // Begins to open a packet with a record: its four front octets, the length of its data, and the room for them opened.
    pub fn begin(link: Link, front: &[u8], total: usize, room: usize) -> Step
        ensures { result ≡ begin_step longest_plain farthest link front.now total room }
    {
        if wrong_front(front) {
            return closed(misshapen(link), link);
        }
        let header = pair(front[2], front[3]);
        let judged = link.judge(header, total);
        if judged.answer == answer::WAITING {
            return begun_waiting(link, header, judged.changes);
        }
        if judged.answer != answer::DONE {
            return closed(judged.answer, link);
        }
        if room < total {
            return closed(answer::ROOM, link);
        }
        begun(link, header, judged.changes, total)
    }

    // Takes the next piece of the data, and writes it opened into its place in a lent buffer: both protocol octets together, once judged.
    pub fn feed(self, piece: &[u8], out: &mut [u8]) -> Step
        ensures { (result ≡ (feed_result longest_plain farthest self piece.now out.old).step)
            × (out.new ≡ (feed_result longest_plain farthest self piece.now out.old).buffer) }
    {
        let code = self.feed_code(piece, out.len());
        if code != answer::DONE {
            return self.refused(code);
        }
        if early(self.fed, piece.len()) {
            return self.kept(piece);
        }
        put_first(self.fed, self.first, out);
        let fed = self.fed as usize;
        let drawn = self.state.run(piece, &mut out[fed..]).unwrap();
        self.went_on(piece.len(), drawn, 0)
    }

    // Ends a walk: all of the data must have been fed. Only now the link record moves.
    #[tactic(auto, unfolding(crate::specs::Walk::end_step, crate::specs::Walk::end_code))]
    pub fn end(self) -> Step
        ensures { result ≡ end_step longest_plain farthest self }
    {
        let Some(changes) = self.going_on() else {
            return self.refused(answer::RECORD);
        };
        let next = self.link_left();
        if !mppe::well_formed(next) {
            return self.refused(answer::RECORD);
        }
        if self.fed < self.total {
            return closed(answer::SHAPE, self.link);
        }
        Step {
            answer: answer::DONE,
            changes,
            walk: over(next),
        }
    }

    // The key changes that the packet's header brings to a walk that goes on; none where it does not.
    fn going_on(self) -> Option<u16>
        ensures is { result ≡ pick (goes_on longest_plain farthest self) (Some (changes_for self.link self.header)) None }
        ensures on { is_some result ≡ goes_on longest_plain farthest self }
        ensures fits { IfSome result (λ n. (shortest_plain ≤ self.total) × (self.total ≤ longest_plain) × (self.fed ≤ self.total)) }
    {
        let judged = self.link.judge(self.header, self.total as usize);
        if self.live && judged.answer == answer::DONE && self.fed <= self.total {
            Some(judged.changes)
        } else {
            None
        }
    }

    // The number that a feed answers.
    #[tactic(auto, unfolding(crate::specs::Walk::feed_code))]
    fn feed_code(self, piece: &[u8], room: usize) -> u8
        ensures code { result ≡ feed_code longest_plain farthest self piece.now room }
        ensures fits { result ≡ done → (shortest_plain ≤ self.total) × (self.total ≤ longest_plain) × (self.total ≤ room)
            × (self.fed + length piece.now ≤ self.total) }
    {
        let Some(_) = self.going_on() else {
            return answer::RECORD;
        };
        if room < self.total as usize {
            return answer::ROOM;
        }
        if ((self.total - self.fed) as usize) < piece.len() {
            return answer::SIZE;
        }
        if self.judged_off(piece) {
            return answer::PROTOCOL;
        }
        answer::DONE
    }

    // Whether a piece brings the second protocol octet, and the number of both is one that is not carried.
    fn judged_off(self, piece: &[u8]) -> bool
        ensures { result ≡ judged_off self piece.now }
    {
        if NUMBER <= self.fed || early(self.fed, piece.len()) {
            return false;
        }
        if self.fed == 0 {
            return runs_off_protocol(self.state, piece);
        }
        let drawn = self.state.draw();
        mppe::off_protocol(self.first, piece[0] ^ drawn.octet)
    }

    // A refused feed or end: 3 and 4 close the walk, 7 and 2 hand it back.
    fn refused(self, code: u8) -> Step
        ensures { result ≡ on_with code (pick (closes code) (over_of self.link) self) }
    {
        if code == answer::SIZE || code == answer::PROTOCOL {
            return closed(code, self.link);
        }
        unchanged(code, self)
    }

    // The walk after a piece that leaves the first protocol octet alone, or none: nothing is written.
    fn kept(self, piece: &[u8]) -> Step
        requires { self.fed + length piece.now < shortest_plain }
        ensures { result ≡ on_with done (walk_after self piece.now) }
    {
        let mut plain = [0u8; 1];
        let drawn = self.state.run(piece, &mut plain).unwrap();
        let first = lone(self.fed, self.first, plain[0]);
        self.went_on(piece.len(), drawn, first)
    }

    // A walk with so many more octets fed, RC4's state after them, and the first protocol octet if that is the only one.
    fn went_on(self, more: usize, state: Rc4, first: u8) -> Step
        requires { self.fed + more < 65536 }
        ensures { result ≡ on_with done (moved_on self (self.fed + more) state first) }
    {
        unchanged(
            answer::DONE,
            Walk {
                live: true,
                state,
                fed: (self.fed as usize + more) as u16,
                first,
                ..self
            },
        )
    }

    // The record that the end of a walk leaves.
    fn link_left(self) -> Link
        ensures { result ≡ link_left self }
    {
        let link = self.link;
        let session = self.session;
        let state = kept_box(link, self.state);
        Link {
            session,
            count: self.header % COUNTS,
            state,
            waiting: false,
            ..link
        }
    }
}

// A walk that is over: nothing beside its record.
pub fn over(link: Link) -> Walk
    ensures { result ≡ over_of link }
{
    Walk {
        live: false,
        link,
        header: 0,
        session: [0u8; 16],
        state: Rc4 {
            cells: [0u8; 256],
            i: 0,
            j: 0,
        },
        total: 0,
        fed: 0,
        first: 0,
    }
}

// A step that reports no key change.
fn unchanged(code: u8, walk: Walk) -> Step
    ensures { result ≡ on_with code walk }
{
    Step {
        answer: code,
        changes: 0,
        walk,
    }
}

// A refusal after which the walk is over.
fn closed(code: u8, link: Link) -> Step
    ensures { result ≡ on_with code (over_of link) }
{
    unchanged(code, over(link))
}

// Whether the octets in front of a packet's data are not four, or do not begin with 00 FD.
fn wrong_front(front: &[u8]) -> bool
    ensures { result ≡ (wrong front_length front.now || not (eqb (pair_at 0 front.now) 0x00FD)) }
{
    front.len() != mppe::FRONT || pair(front[0], front[1]) != SEALED
}

// The number for such a front: 1, behind 7.
fn misshapen(link: Link) -> u8
    ensures { result ≡ pick (well_formed link) shape not_record }
{
    if mppe::well_formed(link) {
        answer::SHAPE
    } else {
        answer::RECORD
    }
}

// The walk of a begin that answers 0.
fn begun(link: Link, header: u16, changes: u16, total: usize) -> Step
    requires { (changes ≡ changes_for link header) × (total ≤ longest_plain) }
    ensures { result ≡ on_with done (walk_of link header total) }
{
    let session = changed(link, changes);
    let state = cipher(link, session, keys_afresh(header, changes));
    unchanged(
        answer::DONE,
        Walk {
            live: true,
            link,
            header,
            session,
            state,
            total: total as u16,
            fed: 0,
            first: 0,
        },
    )
}

// A begin that answers 11: the key changes are made, the record waits, and the walk is over.
fn begun_waiting(link: Link, header: u16, changes: u16) -> Step
    requires { changes ≡ changes_for link header }
    ensures { result ≡ over_with (waited link header []).outcome }
{
    let session = changed(link, changes);
    let state = cipher(link, session, changes != 0);
    let next = Link {
        session,
        count: header % COUNTS,
        state,
        waiting: true,
        ..link
    };
    Step {
        answer: answer::WAITING,
        changes,
        walk: over(next),
    }
}

// A record's session key after so many changes, in its places.
fn changed(link: Link, changes: u16) -> [u8; 16]
    ensures { (result ≡ placed_changes link.strength link.start link.session changes) × (length link.session ≡ 16) }
{
    mppe_keys::placed_key_changes(link.strength, link.start, link.session, changes as usize)
}

// RC4 keyed afresh with a session key, or as a record holds it.
fn cipher(link: Link, session: [u8; 16], fresh: bool) -> Rc4
    ensures { result ≡ pick fresh (placed_cipher link.strength session) link.state }
{
    if fresh {
        mppe_keys::placed_cipher(link.strength, session)
    } else {
        link.state
    }
}

// Whether a packet is opened with a box keyed afresh: after a key change, or by bit A.
fn keys_afresh(header: u16, changes: u16) -> bool
    ensures { result ≡ (not (eqb changes 0) || not (lacks bit_a header)) }
{
    changes != 0 || header / BIT_A % 2 != 0
}

// The box that a record keeps when another was drawn from.
fn kept_box(link: Link, drawn: Rc4) -> Rc4
    ensures { result ≡ kept_box link drawn }
{
    match link.mode {
        Mode::Stateless => link.state,
        Mode::Stateful => drawn,
    }
}

// Whether fewer than both protocol octets are there after so many more.
fn early(fed: u16, more: usize) -> bool
    ensures { result ≡ early_of (fed + more) }
{
    more < NUMBER.saturating_sub(fed) as usize
}

// Whether the protocol number of a text that RC4's state opens is one that is not carried.
fn runs_off_protocol(state: Rc4, text: &[u8]) -> bool
    requires { shortest_plain ≤ length text.now }
    ensures { result ≡ off_protocol (run state text.now) }
{
    let mut plain = [0u8; SHORTEST_PLAIN];
    state.run(&text[..SHORTEST_PLAIN], &mut plain).unwrap();
    mppe::off_protocol(plain[0], plain[1])
}

// A first protocol octet that was kept, or else the one just opened.
fn lone(fed: u16, first: u8, opened: u8) -> u8
    ensures { result ≡ pick (eqb fed 1) first opened }
{
    if fed == 1 { first } else { opened }
}

// Writes a first protocol octet that was kept.
fn put_first(fed: u16, first: u8, out: &mut [u8])
    requires { 1 ≤ length out.old }
    ensures { out.new ≡ written (pick (eqb fed 1) (first ∷ []) []) out.old }
{
    if fed == 1 {
        out[0] = first;
    }
}
