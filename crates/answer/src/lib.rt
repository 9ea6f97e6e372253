// The numbers a call may answer (01, "Numbers a call may answer", and 02), and the refusals behind them. specs/Answer.antt has the same for contracts.
#![tactic(auto)]

ghost use Rattle.std.specs.Prelude.{◌≡◌};
ghost use Rattle.answer.specs.Answer.{number, number_of};

// No refusal applies.
pub const DONE: u8 = 0;
// A packet or option has a wrong length or fixed field.
pub const SHAPE: u8 = 1;
// The lent output is shorter than the result.
pub const ROOM: u8 = 2;
// A length lies outside its limits.
pub const SIZE: u8 = 3;
// The plain protocol number is outside 0x0021 to 0x00FA.
pub const PROTOCOL: u8 = 4;
// Bit A or bit D of an MPPE header is 0.
pub const FLAGS: u8 = 5;
// The count equals the last one.
pub const REPEAT: u8 = 6;
// The link record is not well formed.
pub const RECORD: u8 = 7;
// No strength is both offered and allowed.
pub const STRENGTH: u8 = 8;
// A user name to be hashed holds 0x5C: no longer given (02, M-100). The number keeps its row, so that no other refusal is ever 9.
pub const DOMAIN: u8 = 9;
// The count is farther ahead of the last one than is opened: that of a packet that comes late (02, M-101).
pub const LATE: u8 = 10;
// A stateful receiver waits for a packet with bit A: it has no box for this one (02, M-103).
pub const WAITING: u8 = 11;

// Why a call refuses: the rows of the table, in its order.
#[derive(Clone, Copy, Debug, PartialEq, Eq)]
pub enum Refusal {
    Shape,
    Room,
    Size,
    Protocol,
    Flags,
    Repeat,
    Record,
    Strength,
    Domain,
    Late,
    Waiting,
}

impl From<Refusal> for u8 {
    ghost from_gives = { λ refusal n. n ≡ number refusal };

    fn from(refusal: Refusal) -> u8 {
        match refusal {
            Refusal::Shape => SHAPE,
            Refusal::Room => ROOM,
            Refusal::Size => SIZE,
            Refusal::Protocol => PROTOCOL,
            Refusal::Flags => FLAGS,
            Refusal::Repeat => REPEAT,
            Refusal::Record => RECORD,
            Refusal::Strength => STRENGTH,
            Refusal::Domain => DOMAIN,
            Refusal::Late => LATE,
            Refusal::Waiting => WAITING,
        }
    }
}

// The number that C is told: that of the refusal, or 0.
pub fn number_of<T>(answer: &Result<T, Refusal>) -> u8
    ensures { result ≡ number_of answer.now }
{
    match answer {
        Ok(_) => DONE,
        Err(refusal) => u8::from(*refusal),
    }
}
