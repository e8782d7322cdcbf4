// The restricted encoding, for the public face: the entry points, and the same for C with the result in one value.
#![tactic(auto)]

ghost use Rattle.std.specs.Prelude.{◌≡◌};
ghost use Rattle.restricted.specs.Answers.{told};
ghost use Rattle.restricted.specs.Convert.{restrict_text, unrestrict_text};
ghost use Rattle.gateway_pack.specs.Packed.{ExportedText};

use gateway_pack::pack_result;
use restricted::convert::RestrictedFault;

// A local part's unquoted text in RFC 1137's restricted encoding, in a lent buffer: the text's length, or 1 or 6.
pub fn restrict(text: &[u8], out: &mut [u8]) -> Result<usize, RestrictedFault>
    ensures { told result out.new ≡ restrict_text text.now out.old }
{
    restricted::convert::restrict(text, out)
}

// A text in that encoding back to what it stands for, or as it stands where it does not parse: the text's length, or 1 or 6.
pub fn unrestrict(text: &[u8], out: &mut [u8]) -> Result<usize, RestrictedFault>
    ensures { told result out.new ≡ unrestrict_text text.now out.old }
{
    restricted::convert::unrestrict(text, out)
}

// A local part's unquoted text in RFC 1137's restricted encoding, in `out`.
pub fn packed_restrict(text: &[u8], out: &mut [u8]) -> usize
    ensures { ExportedText (restrict_text text.now out.old) result out.new }
{
    pack_result(restrict(text, out))
}

// A text in that encoding back to what it stands for, in `out`.
pub fn packed_unrestrict(text: &[u8], out: &mut [u8]) -> usize
    ensures { ExportedText (unrestrict_text text.now out.old) result out.new }
{
    pack_result(unrestrict(text, out))
}
