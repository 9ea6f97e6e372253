// Cases of the MS-CHAPv2 hashes.
use crate::{Case, tell_given};
use std::io;
use std::io::Write;

// The calls 16 to 19: the hash of a password, the hash of a hash, the hash of peer challenge, authenticator challenge and name, and the response
// to a challenge hash under a password's hash.
pub fn call<W: Write>(writer: &mut W, case: Case<'_>) -> io::Result<()> {
    let Case { a, b, c, .. } = case;
    match case.call {
        16 => tell_given(writer, mschap::password_hash(a)),
        17 => tell_given(writer, mschap::hash_hash(a)),
        18 => tell_given(writer, mschap::challenge_hash(a, b, c)),
        19 => tell_given(writer, mschap::challenge_response(a, b)),
        _ => Ok(()),
    }
}
