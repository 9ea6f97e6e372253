// A walk as octets: its link record 295; and behind it live 1, header 2, session key 16, RC4's indices 1 each, its cells 256, total 2, fed 2,
// the first protocol octet 1. Numbers have their highest octet first.
#![tactic(auto)]

ghost use Rattle.std.specs.Prelude.{◌≡◌, length, Ok};
ghost use Rattle.mppe_walk.specs.Walk.{key_octets, fed_octets, rest_put, walk_length, walk_octets, front_read, walk_in, walk_read};

use answer::Refusal;
use mppe::Link;
use mppe_pieces::Walk;
use mppe_record::{read_record, record_octets, yes_number};
use octets::pair;
use rc4::Rc4;

// The octets of a walk; the first 295 are its link record.
pub const WALK_LENGTH: usize = 577;
// Where it stands whether the walk is live.
const LIVE_AT: usize = 295;
// Where the packet's header begins.
const HEADER_AT: usize = 296;
// Where its session key begins.
const SESSION_AT: usize = 298;
// Where RC4's state begins, with both indices, and its cells.
const STATE_AT: usize = 314;

const CELLS_AT: usize = 316;
// Where the total begins, and the octets fed.
const TOTAL_AT: usize = 572;

const FED_AT: usize = 574;
// Where the first protocol octet stands.
const FIRST_AT: usize = 576;

// The octets of a walk.
pub fn walk_octets(walk: Walk) -> [u8; 577]
    ensures { result ≡ walk_octets walk }
{
    let front = record_octets(walk.link);
    let mut octets = [0u8; 577];
    octets::copy(&front, &mut octets);
    put_rest(walk, &mut octets);
    octets
}

// Writes what stands behind the record of a walk into the octets of another; nothing where they are not 577.
pub fn put_rest(walk: Walk, octets: &mut [u8])
    ensures { octets.new ≡ rest_put walk octets.old }
{
    if octets.len() != WALK_LENGTH {
        return;
    }
    let keyed = key_octets(walk);
    let state = walk.state;
    let fed = fed_octets(walk);
    octets::copy_at(&keyed, LIVE_AT, octets);
    octets::copy_at(&[state.i, state.j], STATE_AT, octets);
    octets::copy_at(&state.cells, CELLS_AT, octets);
    octets::copy_at(&fed, TOTAL_AT, octets);
}

// Whether it is live, its header and its session key.
fn key_octets(walk: Walk) -> [u8; 19]
    ensures { (result ≡ key_octets walk) × (length result ≡ 19) }
{
    let [high, low] = walk.header.to_be_bytes();
    let mut octets = [0u8; 19];
    octets::copy(&[yes_number(walk.live), high, low], &mut octets);
    octets::copy_at(&walk.session, 3, &mut octets);
    octets
}

// The total, the octets fed, and the first protocol octet.
#[tactic(auto, unfolding(crate::specs::Walk::fed_octets))]
fn fed_octets(walk: Walk) -> [u8; 5]
    ensures { result ≡ fed_octets walk }
{
    let [total_high, total_low] = walk.total.to_be_bytes();
    let [fed_high, fed_low] = walk.fed.to_be_bytes();
    [total_high, total_low, fed_high, fed_low, walk.first]
}

// Reads a walk; refused as `record` where the octets are not 577, do not begin with a record, or the walk is neither live nor not.
#[tactic(auto, unfolding(crate::specs::Walk::walk_read))]
pub fn read_walk(octets: &[u8]) -> Result<Walk, Refusal>
    ensures { result ≡ walk_read octets.now }
{
    if octets.len() != WALK_LENGTH || 1 < octets[LIVE_AT] {
        return Err(Refusal::Record);
    }
    let link = read_record(&octets[..LIVE_AT])?;
    Ok(walk_in(link, octets))
}

// The walk in 577 octets, with the record in front of it.
fn walk_in(link: Link, octets: &[u8]) -> Walk
    requires { (front_read octets.now ≡ Ok link) × (length octets.now ≡ walk_length) }
    ensures { result ≡ walk_in octets.now }
{
    let mut session = [0u8; 16];
    octets::copy(&octets[SESSION_AT..STATE_AT], &mut session);
    let mut cells = [0u8; 256];
    octets::copy(&octets[CELLS_AT..TOTAL_AT], &mut cells);
    Walk {
        live: octets[LIVE_AT] == 1,
        link,
        header: pair(octets[HEADER_AT], octets[HEADER_AT + 1]),
        session,
        state: Rc4 {
            cells,
            i: octets[STATE_AT],
            j: octets[STATE_AT + 1],
        },
        total: pair(octets[TOTAL_AT], octets[TOTAL_AT + 1]),
        fed: pair(octets[FED_AT], octets[FED_AT + 1]),
        first: octets[FIRST_AT],
    }
}
