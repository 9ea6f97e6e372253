// The MPPE option of CCP (RFC 3078, section 2): read, written and replied to. Its Reset-Request: read and written.
#![tactic(auto, unfolding(crate::specs::Answers::read_code, crate::specs::Answers::supported_bits, crate::specs::Answers::read_answer, crate::specs::Answers::write_out, crate::specs::Answers::reply_code, crate::specs::Answers::chosen, crate::specs::Answers::reply_with, crate::specs::Answers::reply_answer, crate::specs::Option::mode_of, crate::specs::Option::strengths_of, crate::specs::Option::word_of, crate::specs::Option::option_octets, crate::specs::Reset::reset_octets, crate::specs::Reset::reset_code, crate::specs::Reset::reset_answer, crate::specs::Reset::write_reset_code, crate::specs::Reset::write_reset_out))]

mod reset;

ghost use Rattle.std.specs.Prelude.{◌≡◌, ◌∷◌};
ghost use Rattle.answer.specs.Answer.{pick, number_of, result_of};
ghost use Rattle.octets.specs.Octets.{big_endian};
ghost use Rattle.mppe_keys.specs.declared.Mode.TheVariants.{Stateless};
ghost use Rattle.ccp.specs.Option.{option_type, option_length, is_set, mode_of, strengths_of, mode_bit, word_of, common as in_common, none_of, strongest as strongest_of, only as alone, choice_word};
ghost use Rattle.ccp.specs.Answers.{read_code, supported_bits, read_answer, write_code, write_out, reply_code, replied_word, reply_answer, reply_word};

use answer::Refusal;
use mppe_keys::{Mode, Strength};
pub use reset::{read_reset, write_reset};

// The option's type.
const OPTION_TYPE: u8 = 18;
// Octets in an option, and its length field.
const OPTION_LENGTH: u8 = 6;

// Bit H: stateless mode.
const BIT_H: u32 = 0x0100_0000;
// Bit M: 56 bits.
const BIT_M: u32 = 0x80;
// Bit S: 128 bits.
const BIT_S: u32 = 0x40;
// Bit L: 40 bits.
const BIT_L: u32 = 0x20;

// Strengths that are offered, or that a policy allows.
#[derive(Clone, Copy, Debug, PartialEq, Eq)]
pub struct Strengths {
    pub bits40: bool,
    pub bits56: bool,
    pub bits128: bool,
}

// What an option offers.
#[derive(Clone, Copy, Debug, PartialEq, Eq)]
pub struct Offer {
    pub mode: Mode,
    pub strengths: Strengths,
}

// What a responder picks.
#[derive(Clone, Copy, Debug, PartialEq, Eq)]
pub struct Choice {
    pub strength: Strength,
    pub mode: Mode,
}

// The reply to a request.
#[derive(Clone, Copy, Debug, PartialEq, Eq)]
pub enum Reply {
    Accept(Choice),
    CounterOffer(Choice),
}

// Reads an option; refused as `shape` where it is not six octets, of type 18 and length 6. Bits other than H, M, S and L are ignored.
pub fn read(option: &[u8]) -> Result<Offer, Refusal>
    ensures { result ≡ read_answer option.now }
{
    let bits = supported_bits(option)?;
    Ok(Offer {
        mode: mode_of(bits),
        strengths: strengths_of(bits),
    })
}

// Writes an option into the front of a lent buffer; refused as `room` where that is shorter than six octets.
pub fn write(mode: Mode, strengths: Strengths, out: &mut [u8]) -> Result<(), Refusal>
    ensures { (result ≡ result_of (write_code out.old) tt) × (out.new ≡ write_out mode strengths out.old) }
{
    if out.len() < OPTION_LENGTH as usize {
        return Err(Refusal::Room);
    }
    out[..6].copy_from_slice(&option_octets(word_of(mode, strengths)));
    Ok(())
}

// Replies to a request with the strongest strength that is offered and allowed, in the mode asked for where stateful is allowed; refused
// as in reading, then as `strength` where there is none.
pub fn reply_to(option: &[u8], allowed: Strengths, stateful: bool) -> Result<Reply, Refusal>
    ensures { (result ≡ reply_answer option.now allowed stateful)
        × (number_of result ≡ reply_code option.now allowed) × (reply_word result ≡ replied_word option.now allowed stateful) }
{
    reply_of(option, allowed, stateful)
}

// One strength alone, as the option of a reply has it.
pub fn only(strength: Strength) -> Strengths
    ensures { result ≡ alone strength }
{
    Strengths {
        bits40: strength == Strength::Bits40,
        bits56: strength == Strength::Bits56,
        bits128: strength == Strength::Bits128,
    }
}

// The reply to a request, case by case.
fn reply_of(option: &[u8], allowed: Strengths, stateful: bool) -> Result<Reply, Refusal>
    ensures { result ≡ reply_answer option.now allowed stateful }
{
    let bits = supported_bits(option)?;
    let usable = common(strengths_of(bits), allowed);
    if none_of(usable) {
        return Err(Refusal::Strength);
    }
    let choice = Choice {
        strength: strongest(usable),
        mode: mode_for(stateful, bits),
    };
    if bits != choice_word(choice) {
        return Ok(Reply::CounterOffer(choice));
    }
    Ok(Reply::Accept(choice))
}

// The supported bits of an option.
fn supported_bits(option: &[u8]) -> Result<u32, Refusal>
    ensures { result ≡ result_of (read_code option.now) (supported_bits option.now) }
{
    match option {
        [OPTION_TYPE, OPTION_LENGTH, a, b, c, d] => Ok(u32::from_be_bytes([*a, *b, *c, *d])),
        _ => Err(Refusal::Shape),
    }
}

// Whether a bit is set.
fn is_set(word: u32, bit: u32) -> bool
    ensures { result ≡ is_set word bit }
{
    (word & bit) != 0
}

// The mode of a reply to supported bits.
fn mode_for(stateful: bool, word: u32) -> Mode
    ensures { result ≡ pick stateful (mode_of word) Stateless }
{
    if stateful {
        mode_of(word)
    } else {
        Mode::Stateless
    }
}

// The mode that supported bits name.
fn mode_of(word: u32) -> Mode
    ensures { result ≡ mode_of word }
{
    if is_set(word, BIT_H) {
        Mode::Stateless
    } else {
        Mode::Stateful
    }
}

// The strengths that supported bits offer.
fn strengths_of(word: u32) -> Strengths
    ensures { result ≡ strengths_of word }
{
    Strengths {
        bits40: is_set(word, BIT_L),
        bits56: is_set(word, BIT_M),
        bits128: is_set(word, BIT_S),
    }
}

// The supported bits of a mode and strengths.
fn word_of(mode: Mode, strengths: Strengths) -> u32
    ensures { result ≡ word_of mode strengths }
{
    mode_bit(mode)
        | bit_if(strengths.bits56, BIT_M)
        | bit_if(strengths.bits128, BIT_S)
        | bit_if(strengths.bits40, BIT_L)
}

// The bit of a mode.
fn mode_bit(mode: Mode) -> u32
    ensures { result ≡ mode_bit mode }
{
    match mode {
        Mode::Stateless => BIT_H,
        Mode::Stateful => 0,
    }
}

// A bit where it is to be set.
fn bit_if(set: bool, bit: u32) -> u32
    ensures { result ≡ pick set bit 0 }
{
    if set { bit } else { 0 }
}

// The six octets of an option.
fn option_octets(word: u32) -> [u8; 6]
    ensures { result ≡ option_type ∷ option_length ∷ big_endian 4 word }
{
    let [a, b, c, d] = word.to_be_bytes();
    [OPTION_TYPE, OPTION_LENGTH, a, b, c, d]
}

// The strengths that are both offered and allowed.
fn common(offered: Strengths, allowed: Strengths) -> Strengths
    ensures { result ≡ in_common offered allowed }
{
    Strengths {
        bits40: offered.bits40 && allowed.bits40,
        bits56: offered.bits56 && allowed.bits56,
        bits128: offered.bits128 && allowed.bits128,
    }
}

// Whether there is no strength.
fn none_of(strengths: Strengths) -> bool
    ensures { result ≡ none_of strengths }
{
    !(strengths.bits40 || strengths.bits56 || strengths.bits128)
}

// The strongest of strengths.
fn strongest(strengths: Strengths) -> Strength
    ensures { result ≡ strongest_of strengths }
{
    if strengths.bits128 {
        Strength::Bits128
    } else if strengths.bits56 {
        Strength::Bits56
    } else {
        Strength::Bits40
    }
}

// The supported bits of a choice.
fn choice_word(choice: Choice) -> u32
    ensures { result ≡ choice_word choice }
{
    word_of(choice.mode, only(choice.strength))
}
