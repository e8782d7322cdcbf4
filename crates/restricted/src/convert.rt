// The entry points: a local part's unquoted text coded, and read back, in a lent buffer.
ghost use Rattle.std.specs.Prelude.{◌≡◌};
ghost use Rattle.restricted.specs.Answers.{restricted_number, told};
ghost use Rattle.restricted.specs.Convert.{restrict_text, unrestrict_text};

use crate::code::{judge_coded, put_coded};
use crate::parse::{measure_parsed, put_parsed};
use chars::write::place;

// Why a text is not coded or read back.
#[derive(Clone, Copy, Debug, PartialEq, Eq)]
pub enum RestrictedFault {
    ByteOver127,
    ShortBuffer,
}

// Request 9's number for a refusal.
impl From<RestrictedFault> for usize {
    ghost from_gives = { λ fault number. number ≡ restricted_number fault };

    fn from(fault: RestrictedFault) -> usize {
        match fault {
            RestrictedFault::ByteOver127 => 1,
            RestrictedFault::ShortBuffer => 6,
        }
    }
}

// The text coded: its length, or the refusal.
pub fn restrict(text: &[u8], out: &mut [u8]) -> Result<usize, RestrictedFault>
    ensures { told result out.new ≡ restrict_text text.now out.old }
{
    judge_coded(text, out.len())?;
    Ok(put_coded(out, text))
}

// Coded text read back, or as it stands where it does not parse: its length, or the refusal.
pub fn unrestrict(text: &[u8], out: &mut [u8]) -> Result<usize, RestrictedFault>
    ensures { told result out.new ≡ unrestrict_text text.now out.old }
{
    let Some(n) = measure_parsed(text)? else {
        return place(out, text).ok_or(RestrictedFault::ShortBuffer);
    };
    if out.len() < n {
        return Err(RestrictedFault::ShortBuffer);
    }
    Ok(put_parsed(out, text))
}
