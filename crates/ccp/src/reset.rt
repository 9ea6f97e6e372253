// CCP's Reset-Request: read and written (02, M-103).
ghost use Rattle.std.specs.Prelude.{◌≡◌};
ghost use Rattle.answer.specs.Answer.{result_of};
ghost use Rattle.ccp.specs.Reset.{reset_answer, write_reset_code, write_reset_out};

use answer::Refusal;

// The code of a Reset-Request.
const RESET_REQUEST: u8 = 14;
// Octets in a request, and its length field.
const RESET_LENGTH: usize = 4;

// Reads a request: its identifier.
pub fn read_reset(request: &[u8]) -> Result<u8, Refusal>
    ensures { result ≡ reset_answer request.now }
{
    match request {
        [RESET_REQUEST, identifier, 0, 4] => Ok(*identifier),
        _ => Err(Refusal::Shape),
    }
}

// Writes a request into the front of a lent buffer; refused as `room` where that is shorter than four octets.
pub fn write_reset(identifier: u8, out: &mut [u8]) -> Result<(), Refusal>
    ensures { (result ≡ result_of (write_reset_code out.old) tt) × (out.new ≡ write_reset_out identifier out.old) }
{
    if out.len() < RESET_LENGTH {
        return Err(Refusal::Room);
    }
    out[..RESET_LENGTH].copy_from_slice(&[RESET_REQUEST, identifier, 0, 4]);
    Ok(())
}
