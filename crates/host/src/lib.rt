// What a concentrator written in C calls, over numbers and octets; include/udukemb.h says the same to C.
#![tactic(auto)]

ghost use Rattle.std.specs.Prelude.{◌≡◌, length, true, false, replicate};
ghost use Rattle.answer.specs.Answer.{done, first_of, number, number_of, value_of, result_of};
ghost use Rattle.mschap.specs.Answers.{check_response_answer, check_authenticator_answer};
ghost use Rattle.mppe_keys.specs.Answers.{key_answer};
ghost use Rattle.ccp.specs.Reset.{write_reset_code, write_reset_out};
ghost use Rattle.mppe_record.specs.Record.{record_length, record_octets};
ghost use Rattle.mppe_walk.specs.Walk.{walk_length, walk_octets};
ghost use Rattle.tape.specs.Tape.{most_groups, longest_packet, next_of, begin_code, begin_out, write_answer, write_out, read_at};
ghost use Rattle.host.specs.Host.{given, check_of, nt_response_given, authenticator_string_given, role_of, direction_of, base_key_given, binding_key_given, start_key_from, master_key_from, credential_rows, start_key_given, choice_octets, allowed_of, option_given, option_reply, choice_reply, no_reply, new_link_given, seal_linked, open_linked, opened_by, reset_linked, unopened, closed_octets, begin_walked, feed_walked, end_walked, written_of, next_in, replay_linked, replay_offset, replayed_by, marks_written, marks_out, checked_of, marks_checked, mark_given, mark_told};

use answer::{Refusal, number_of};
use ccp::{Choice, Strengths};
use mppe::Link;
use mppe_keys::{Direction, Role, Strength, is_stateful, mode_if};
use mppe_pieces::Walk;
use mppe_record::{bits_of, no_strength, read_record, record_octets, strength_of};
use mppe_walk::{read_walk, walk_octets};

// The number answered, and whether what was received is what it must be; a refusal is a no. In all these structs C is told the number.
#[repr(C)]
#[derive(Clone, Copy)]
pub struct Check {
    pub answer: u8,
    pub yes: bool,
}

// The number answered, whether the reply is an accept, the strength picked in bits, and whether the mode is stateful; a no and 0 where it
// is refused.
#[repr(C)]
#[derive(Clone, Copy)]
pub struct Reply {
    pub answer: u8,
    pub accept: bool,
    pub bits: u8,
    pub stateful: bool,
}

// The number answered, and the key changes made; none where it is refused.
#[repr(C)]
#[derive(Clone, Copy)]
pub struct Opened {
    pub answer: u8,
    pub changes: u16,
}

// The number answered, and the octets written; none where it is refused.
#[repr(C)]
#[derive(Clone, Copy)]
pub struct Written {
    pub answer: u8,
    pub length: usize,
}

// The number answered, and where a packet stands on a tape: from `start` up to `offset`, the offset after it.
#[repr(C)]
#[derive(Clone, Copy)]
pub struct Next {
    pub answer: u8,
    pub start: usize,
    pub offset: usize,
}

// The number answered, the key changes made, and the offset after the packet.
#[repr(C)]
#[derive(Clone, Copy)]
pub struct Replayed {
    pub answer: u8,
    pub changes: u16,
    pub offset: usize,
}

// The number answered, how many packets were opened before a mark, and the offset that follows; 0 where it is refused.
#[repr(C)]
#[derive(Clone, Copy)]
pub struct Mark {
    pub answer: u8,
    pub opened: u64,
    pub offset: usize,
}

// The number answered, whether a list is that of a tape's marks, and how many of them it has from the first on; a refusal is a no, and 0.
#[repr(C)]
#[derive(Clone, Copy)]
pub struct MarksChecked {
    pub answer: u8,
    pub yes: bool,
    pub agreeing: usize,
}

// Whether a received NT-Response is the one that the password gives.
#[unsafe(no_mangle)]
pub extern "C" fn udukemb_check_response(
    authenticator: &[u8],
    peer: &[u8],
    name: &[u8],
    password: &[u8],
    received: &[u8],
) -> Check
    ensures { result ≡ check_of (check_response_answer authenticator.now peer.now name.now
        password.now received.now) }
{
    check_of(mschap::check_response(authenticator, peer, name, password, received))
}

// The NT-Response of a password to both challenges.
#[unsafe(no_mangle)]
#[tactic(auto, unfolding(crate::specs::Host::nt_response_given))]
pub extern "C" fn udukemb_nt_response(
    authenticator: &[u8],
    peer: &[u8],
    name: &[u8],
    password: &[u8],
    out: &mut [u8],
) -> u8
    ensures { (result ≡ (nt_response_given authenticator.now peer.now name.now password.now
        out.old).code)
        × (out.new ≡ (nt_response_given authenticator.now peer.now name.now password.now
        out.old).buffer) }
{
    give_octets(
        mschap::nt_response(authenticator, peer, name, password),
        out,
    )
}

// The string by which an authenticator answers an NT-Response.
#[unsafe(no_mangle)]
#[tactic(auto, unfolding(crate::specs::Host::authenticator_string_given))]
pub extern "C" fn udukemb_authenticator_string(
    password: &[u8],
    response: &[u8],
    peer: &[u8],
    authenticator: &[u8],
    name: &[u8],
    out: &mut [u8],
) -> u8
    ensures { (result ≡ (authenticator_string_given password.now response.now peer.now
        authenticator.now name.now out.old).code)
        × (out.new ≡ (authenticator_string_given password.now response.now peer.now
        authenticator.now name.now out.old).buffer) }
{
    give_octets(
        mschap::authenticator_string(password, response, peer, authenticator, name),
        out,
    )
}

// Whether a received authenticator string is the one that the password gives.
#[unsafe(no_mangle)]
pub extern "C" fn udukemb_check_authenticator(
    password: &[u8],
    response: &[u8],
    peer: &[u8],
    authenticator: &[u8],
    name: &[u8],
    received: &[u8],
) -> Check
    ensures { result ≡ check_of (check_authenticator_answer password.now response.now peer.now
        authenticator.now name.now received.now) }
{
    check_of(mschap::check_authenticator(password, response, peer, authenticator, name, received))
}

// The start key of a password and an NT-Response, for one direction at one end of the link.
#[unsafe(no_mangle)]
pub extern "C" fn udukemb_start_key(
    bits: u8,
    server: bool,
    send: bool,
    password: &[u8],
    response: &[u8],
    out: &mut [u8],
) -> u8
    ensures { (result ≡ (start_key_given bits server send password.now response.now out.old).code)
        × (out.new ≡ (start_key_given bits server send password.now response.now out.old).buffer) }
{
    if no_strength(bits) {
        return answer::STRENGTH;
    }
    let strength = strength_of(bits);
    let key = start_key_from(
        strength,
        role_of(server),
        direction_of(send),
        password,
        response,
    );
    let n = mppe_keys::key_length(strength);
    let number = number_of(&key);
    give(number, &key.unwrap_or([0; 16])[..n], out)
}

// The base key of an end's two start keys.
#[unsafe(no_mangle)]
#[tactic(auto, unfolding(crate::specs::Host::base_key_given))]
pub extern "C" fn udukemb_base_key(server: bool, send: &[u8], receive: &[u8], out: &mut [u8]) -> u8
    ensures { (result ≡ (base_key_given server send.now receive.now out.old).code)
        × (out.new ≡ (base_key_given server send.now receive.now out.old).buffer) }
{
    give_octets(sstp::base_key(role_of(server), send, receive), out)
}

// The binding key of a base key, or of other key material.
#[unsafe(no_mangle)]
#[tactic(auto, unfolding(crate::specs::Host::binding_key_given))]
pub extern "C" fn udukemb_binding_key(material: &[u8], out: &mut [u8]) -> u8
    ensures { (result ≡ (binding_key_given material.now out.old).code)
        × (out.new ≡ (binding_key_given material.now out.old).buffer) }
{
    give_octets(sstp::binding_key(material), out)
}

// The reply to a requested option, of the strengths that are allowed, in the mode asked for where stateful is allowed.
#[unsafe(no_mangle)]
pub extern "C" fn udukemb_option_reply(
    option: &[u8],
    bits40: bool,
    bits56: bool,
    bits128: bool,
    stateful: bool,
    out: &mut [u8],
) -> Reply
    ensures { (result ≡ option_reply option.now (allowed_of bits40 bits56 bits128) stateful out.old)
        × (out.new ≡ (option_given option.now (allowed_of bits40 bits56 bits128) stateful out.old).buffer) }
{
    let allowed = Strengths {
        bits40,
        bits56,
        bits128,
    };
    match ccp::reply_to(option, allowed, stateful) {
        Ok(ccp::Reply::Accept(choice)) => put_reply(true, choice, out),
        Ok(ccp::Reply::CounterOffer(choice)) => put_reply(false, choice, out),
        Err(refusal) => refused_reply(u8::from(refusal)),
    }
}

// The link record that both ends begin with.
#[unsafe(no_mangle)]
pub extern "C" fn udukemb_new_link(
    bits: u8,
    stateful: bool,
    start: &[u8],
    link_record: &mut [u8],
) -> u8
    ensures { (result ≡ (new_link_given bits stateful start.now link_record.old).code)
        × (link_record.new ≡ (new_link_given bits stateful start.now link_record.old).buffer) }
{
    if no_strength(bits) {
        return answer::STRENGTH;
    }
    let new = Link::new(strength_of(bits), mode_if(stateful), start);
    let link = new.link;
    let octets = record_octets(link);
    give(new.answer, &octets, link_record)
}

// Seals a plain packet with the record in lent octets.
#[unsafe(no_mangle)]
#[tactic(auto, using(mppe_record::proofs::Laws::read_length), unfolding(crate::specs::Host::seal_linked, crate::specs::Host::linked))]
pub extern "C" fn udukemb_seal(link_record: &mut [u8], plain: &[u8], out: &mut [u8]) -> u8
    ensures { (result ≡ (seal_linked link_record.old plain.now out.old).code)
        × (link_record.new ≡ (seal_linked link_record.old plain.now out.old).octets)
        × (out.new ≡ (seal_linked link_record.old plain.now out.old).buffer) }
{
    let link = match read_record(link_record) {
        Ok(link) => link,
        Err(refusal) => return u8::from(refusal),
    };
    let sealed = link.seal(plain, out);
    put_record(sealed.link, link_record);
    sealed.answer
}

// Opens a sealed packet with the record in lent octets.
#[unsafe(no_mangle)]
#[tactic(auto, using(mppe_record::proofs::Laws::read_length), unfolding(crate::specs::Host::open_linked, crate::specs::Host::linked, crate::specs::Host::opened_by))]
pub extern "C" fn udukemb_open(link_record: &mut [u8], packet: &[u8], out: &mut [u8]) -> Opened
    ensures { (result ≡ opened_by (open_linked link_record.old packet.now out.old))
        × (link_record.new ≡ (open_linked link_record.old packet.now out.old).octets)
        × (out.new ≡ (open_linked link_record.old packet.now out.old).buffer) }
{
    let link = match read_record(link_record) {
        Ok(link) => link,
        Err(refusal) => return unopened(refusal),
    };
    let opened = link.open(packet, out);
    put_record(opened.link, link_record);
    Opened {
        answer: opened.answer,
        changes: opened.changes,
    }
}

// Takes a Reset-Request with the record in lent octets.
#[unsafe(no_mangle)]
#[tactic(auto, using(mppe_record::proofs::Laws::read_length), unfolding(crate::specs::Host::reset_linked, crate::specs::Host::linked))]
pub extern "C" fn udukemb_reset(link_record: &mut [u8], request: &[u8]) -> u8
    ensures { (result ≡ (reset_linked link_record.old request.now).code)
        × (link_record.new ≡ (reset_linked link_record.old request.now).octets) }
{
    let link = match read_record(link_record) {
        Ok(link) => link,
        Err(refusal) => return u8::from(refusal),
    };
    let taken = link.reset(request);
    put_record(taken.link, link_record);
    taken.answer
}

// Writes a Reset-Request.
#[unsafe(no_mangle)]
#[tactic(auto, unfolding(ccp::specs::Reset::write_reset_code))]
pub extern "C" fn udukemb_write_reset(identifier: u8, out: &mut [u8]) -> u8
    ensures { (result ≡ write_reset_code out.old) × (out.new ≡ write_reset_out identifier out.old) }
{
    number_of(&ccp::write_reset(identifier, out))
}

// Begins to open a packet in pieces with the record in front of a walk's lent octets.
#[unsafe(no_mangle)]
pub extern "C" fn udukemb_begin(walk: &mut [u8], front: &[u8], total: usize, room: usize) -> Opened
    ensures { (result ≡ opened_by (begin_walked walk.old front.now total room))
        × (walk.new ≡ (begin_walked walk.old front.now total room).octets) }
{
    if walk.len() != mppe_walk::WALK_LENGTH {
        return Opened {
            answer: answer::RECORD,
            changes: 0,
        };
    }
    let link = match read_record(&walk[..mppe_record::RECORD_LENGTH]) {
        Ok(link) => link,
        Err(refusal) => {
            close_walk(walk);
            return unopened(refusal);
        }
    };
    let begun = Walk::begin(link, front, total, room);
    put_walk(begun.walk, walk);
    Opened {
        answer: begun.answer,
        changes: begun.changes,
    }
}

// Opens the next piece of a packet with the walk in lent octets.
#[unsafe(no_mangle)]
pub extern "C" fn udukemb_feed(walk: &mut [u8], piece: &[u8], out: &mut [u8]) -> u8
    ensures { (result ≡ (feed_walked walk.old piece.now out.old).code)
        × (walk.new ≡ (feed_walked walk.old piece.now out.old).octets)
        × (out.new ≡ (feed_walked walk.old piece.now out.old).buffer) }
{
    let held = match read_walk(walk) {
        Ok(held) => held,
        Err(refusal) => return u8::from(refusal),
    };
    let fed = held.feed(piece, out);
    mppe_walk::put_rest(fed.walk, walk);
    fed.answer
}

// Ends the walk in lent octets.
#[unsafe(no_mangle)]
#[tactic(auto, using(mppe_walk::specs::Laws::read_length), unfolding(crate::specs::Host::end_walked, crate::specs::Host::walked, crate::specs::Host::opened_by))]
pub extern "C" fn udukemb_end(walk: &mut [u8]) -> Opened
    ensures { (result ≡ opened_by (end_walked walk.old)) × (walk.new ≡ (end_walked walk.old).octets) }
{
    let held = match read_walk(walk) {
        Ok(held) => held,
        Err(refusal) => return unopened(refusal),
    };
    let ended = held.end();
    put_walk(ended.walk, walk);
    Opened {
        answer: ended.answer,
        changes: ended.changes,
    }
}

// Begins a tape.
#[unsafe(no_mangle)]
#[tactic(auto, unfolding(tape::specs::Tape::begin_answer, tape::specs::Tape::begin_code))]
pub extern "C" fn udukemb_tape_begin(out: &mut [u8]) -> u8
    ensures { (result ≡ begin_code out.old) × (out.new ≡ begin_out out.old) }
{
    number_of(&tape::begin(out))
}

// Writes the record of a packet, behind the octets of a tape that are there.
#[unsafe(no_mangle)]
pub extern "C" fn udukemb_tape_write(packet: &[u8], out: &mut [u8]) -> Written
    ensures { (result ≡ written_of (write_answer most_groups longest_packet packet.now out.old))
        × (out.new ≡ write_out most_groups longest_packet packet.now out.old) }
{
    written_of(tape::write(packet, out))
}

// Reads a tape at an offset.
#[unsafe(no_mangle)]
pub extern "C" fn udukemb_tape_read(tape: &[u8], offset: usize) -> Next
    ensures { result ≡ next_in (next_of (read_at most_groups longest_packet tape.now offset)) }
{
    let next = tape::read(tape, offset);
    Next {
        answer: number_of(&next.answer),
        start: next.start,
        offset: next.offset,
    }
}

// One step of a replay, with the record in lent octets.
#[unsafe(no_mangle)]
#[tactic(auto, using(mppe_record::proofs::Laws::read_length), unfolding(crate::specs::Host::replay_linked, crate::specs::Host::replay_offset, crate::specs::Host::replayed_by, crate::specs::Host::linked))]
pub extern "C" fn udukemb_tape_replay(
    link_record: &mut [u8],
    tape: &[u8],
    offset: usize,
    out: &mut [u8],
) -> Replayed
    ensures { (result ≡ replayed_by (replay_linked link_record.old tape.now offset out.old)
        (replay_offset link_record.old tape.now offset out.old))
        × (link_record.new ≡ (replay_linked link_record.old tape.now offset out.old).octets)
        × (out.new ≡ (replay_linked link_record.old tape.now offset out.old).buffer) }
{
    let link = match read_record(link_record) {
        Ok(link) => link,
        Err(refusal) => {
            return Replayed {
                answer: u8::from(refusal),
                changes: 0,
                offset: 0,
            };
        }
    };
    let replayed = tape::replay(link, tape, offset, out);
    let outcome = replayed.outcome;
    put_record(outcome.link, link_record);
    Replayed {
        answer: outcome.answer,
        changes: outcome.changes,
        offset: replayed.offset,
    }
}

// Writes the list of a tape's marks, with the start record in lent octets.
#[unsafe(no_mangle)]
#[tactic(auto, unfolding(crate::specs::Host::marks_written, crate::specs::Host::marks_out, crate::specs::Host::written_of))]
pub extern "C" fn udukemb_marks_write(link_record: &[u8], tape: &[u8], out: &mut [u8]) -> Written
    ensures { (result ≡ marks_written link_record.now tape.now out.old)
        × (out.new ≡ marks_out link_record.now tape.now out.old) }
{
    let link = match read_record(link_record) {
        Ok(link) => link,
        Err(refusal) => {
            return Written {
                answer: u8::from(refusal),
                length: 0,
            };
        }
    };
    written_of(marks::write(link, tape, out))
}

// Reads a mark, and writes its link record into lent octets.
#[unsafe(no_mangle)]
pub extern "C" fn udukemb_marks_read(mark: &[u8], link_record: &mut [u8]) -> Mark
    ensures { (result ≡ mark_told mark.now link_record.old)
        × (link_record.new ≡ (mark_given mark.now link_record.old).buffer) }
{
    let held = match marks::read(mark) {
        Ok(held) => held,
        Err(refusal) => {
            return Mark {
                answer: u8::from(refusal),
                opened: 0,
                offset: 0,
            };
        }
    };
    let link = held.link;
    let octets = record_octets(link);
    let code = give(answer::DONE, &octets, link_record);
    if code != answer::DONE {
        return Mark {
            answer: code,
            opened: 0,
            offset: 0,
        };
    }
    Mark {
        answer: code,
        opened: held.opened,
        offset: held.offset,
    }
}

// Checks a list against the marks of a tape, with the start record in lent octets.
#[unsafe(no_mangle)]
#[tactic(auto, unfolding(crate::specs::Host::marks_checked))]
pub extern "C" fn udukemb_marks_check(link_record: &[u8], tape: &[u8], marks: &[u8]) -> MarksChecked
    ensures { result ≡ marks_checked link_record.now tape.now marks.now }
{
    let link = match read_record(link_record) {
        Ok(link) => link,
        Err(refusal) => {
            return MarksChecked {
                answer: u8::from(refusal),
                yes: false,
                agreeing: 0,
            };
        }
    };
    checked_of(marks::check(link, tape, marks))
}

// Writes a result into the front of a lent buffer, where it came with 0 and has room.
fn give(code: u8, res: &[u8], out: &mut [u8]) -> u8
    ensures { (result ≡ (given code res.now out.old).code)
        × (out.new ≡ (given code res.now out.old).buffer) }
{
    if code != answer::DONE {
        return code;
    }
    if out.len() < res.len() {
        return answer::ROOM;
    }
    octets::copy(res, out);
    answer::DONE
}

// Writes what a call gave into the front of a lent buffer, where it was not refused and has room. A call of its own, so that its copy of the
// octets doesn't lie on the stack under the call that gives them.
#[inline(never)]
#[tactic(auto, using(mppe_keys::proofs::Laws::unwrapped))]
fn give_octets<const N: usize>(answered: Result<[u8; N], Refusal>, out: &mut [u8]) -> u8
    ensures { (result ≡ (given (number_of answered.entry)
        (value_of (replicate N 0) answered.entry) out.old).code)
        × (out.new ≡ (given (number_of answered.entry)
        (value_of (replicate N 0) answered.entry) out.old).buffer) }
{
    let number = number_of(&answered);
    give(number, &answered.unwrap_or([0; N]), out)
}

// A check's answer in a struct that C has.
#[tactic(auto, unfolding(crate::specs::Host::check_of))]
fn check_of(checked: Result<bool, Refusal>) -> Check
    ensures { result ≡ check_of checked }
{
    Check {
        answer: number_of(&checked),
        yes: checked.unwrap_or(false),
    }
}

// How many octets a call wrote, in a struct that C has.
#[tactic(auto, unfolding(crate::specs::Host::written_of))]
fn written_of(written: Result<usize, Refusal>) -> Written
    ensures { result ≡ written_of written }
{
    Written {
        answer: number_of(&written),
        length: written.unwrap_or(0),
    }
}

// A check's answer about marks, in a struct that C has.
fn checked_of(checked: Result<marks::Checked, Refusal>) -> MarksChecked
    ensures { result ≡ checked_of checked }
{
    match checked {
        Ok(found) => MarksChecked {
            answer: answer::DONE,
            yes: found.yes,
            agreeing: found.agreeing,
        },
        Err(refusal) => MarksChecked {
            answer: u8::from(refusal),
            yes: false,
            agreeing: 0,
        },
    }
}

// Which end of the link asks.
fn role_of(server: bool) -> Role
    ensures { result ≡ role_of server }
{
    if server { Role::Server } else { Role::Client }
}

// Which way its packets go.
fn direction_of(send: bool) -> Direction
    ensures { result ≡ direction_of send }
{
    if send {
        Direction::Send
    } else {
        Direction::Receive
    }
}

// A start key from credentials.
#[tactic(auto, using(mppe_keys::proofs::Laws::master_key_length, crate::proofs::Laws::placed_whole), unfolding(crate::specs::Host::start_key_from, crate::specs::Host::master_key_from, mppe_keys::specs::Answers::start_key_answer, mppe_keys::specs::Answers::key_answer, answer::specs::Answer::one_code))]
fn start_key_from(
    strength: Strength,
    role: Role,
    direction: Direction,
    password: &[u8],
    response: &[u8],
) -> Result<[u8; 16], Refusal>
    ensures { result ≡ key_answer (first_of (credential_rows password.now response.now))
        (start_key_from strength role direction password.now response.now) }
{
    let master = master_key_from(password, response)?;
    mppe_keys::start_key(strength, role, direction, &master)
}

// A master key from credentials.
#[tactic(auto, using(mschap::proofs::Laws::password_hash_length, mschap::proofs::Laws::hash_hash_length), unfolding(crate::specs::Host::master_key_from, mschap::specs::Answers::password_hash_answer, mschap::specs::Answers::hash_hash_answer, mppe_keys::specs::Answers::master_key_answer, mppe_keys::specs::Answers::key_answer, answer::specs::Answer::two_code))]
fn master_key_from(password: &[u8], response: &[u8]) -> Result<[u8; 16], Refusal>
    ensures { result ≡ key_answer (first_of (credential_rows password.now response.now))
        (master_key_from password.now response.now) }
{
    let hash = mschap::password_hash(password)?;
    let hash_hash = mschap::hash_hash(&hash)?;
    mppe_keys::master_key(&hash_hash, response)
}

// Writes the option of a choice.
fn put_reply(accept: bool, choice: Choice, out: &mut [u8]) -> Reply
    ensures { (result ≡ choice_reply accept choice (given done (choice_octets choice) out.old).code)
        × (out.new ≡ (given done (choice_octets choice) out.old).buffer) }
{
    let mode = choice.mode;
    let strength = choice.strength;
    let number = number_of(&ccp::write(mode, ccp::only(strength), out));
    if number != answer::DONE {
        return refused_reply(number);
    }
    Reply {
        answer: number,
        accept,
        bits: bits_of(strength),
        stateful: is_stateful(mode),
    }
}

// A refusal of a reply.
fn refused_reply(number: u8) -> Reply
    ensures { result ≡ no_reply number }
{
    Reply {
        answer: number,
        accept: false,
        bits: 0,
        stateful: false,
    }
}

// Nothing opened, and no key change.
fn unopened(refusal: Refusal) -> Opened
    ensures { result ≡ unopened (number refusal) }
{
    Opened {
        answer: u8::from(refusal),
        changes: 0,
    }
}

// Writes a link record over the octets of another.
fn put_record(link: Link, link_record: &mut [u8])
    requires { length link_record.old ≡ record_length }
    ensures { link_record.new ≡ record_octets link }
{
    let octets = record_octets(link);
    link_record.copy_from_slice(&octets);
}

// Writes a walk over the octets of another.
fn put_walk(held: Walk, walk: &mut [u8])
    requires { length walk.old ≡ walk_length }
    ensures { walk.new ≡ walk_octets held }
{
    let octets = walk_octets(held);
    walk.copy_from_slice(&octets);
}

// Closes a walk whose record cannot be read: zeros behind the record.
fn close_walk(walk: &mut [u8])
    requires { length walk.old ≡ walk_length }
    ensures { walk.new ≡ closed_octets walk.old }
{
    octets::copy_at(&[0u8; 282], mppe_record::RECORD_LENGTH, walk);
}
