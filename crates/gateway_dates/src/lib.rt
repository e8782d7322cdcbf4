// Dates, for the public face: the entry points, and the same for C with the result in one value.
#![tactic(auto)]

ghost use Rattle.std.specs.Prelude.{◌≡◌};
ghost use Rattle.dates.specs.Answers.{told};
ghost use Rattle.dates.specs.Convert.{date_to_utc, utc_to_date};
ghost use Rattle.gateway_pack.specs.Packed.{ExportedText};

use dates::convert::DateFault;
use gateway_pack::pack_result;

// X.400's UTCTime to RFC 822's date-time in a lent buffer: the text's length, or 10 or 6.
pub fn date_to_822(utc: &[u8], out: &mut [u8]) -> Result<usize, DateFault>
    ensures { told result out.new ≡ utc_to_date utc.now out.old }
{
    dates::convert::utc_to_date(utc, out)
}

// RFC 822's date-time to X.400's UTCTime in a lent buffer: the text's length, or 10 or 6.
pub fn date_to_x400(date: &[u8], out: &mut [u8]) -> Result<usize, DateFault>
    ensures { told result out.new ≡ date_to_utc date.now out.old }
{
    dates::convert::date_to_utc(date, out)
}

// X.400's UTCTime to RFC 822's date-time in `out`.
pub fn packed_date_to_822(utc: &[u8], out: &mut [u8]) -> usize
    ensures { ExportedText (utc_to_date utc.now out.old) result out.new }
{
    pack_result(date_to_822(utc, out))
}

// RFC 822's date-time to X.400's UTCTime in `out`.
pub fn packed_date_to_x400(date: &[u8], out: &mut [u8]) -> usize
    ensures { ExportedText (date_to_utc date.now out.old) result out.new }
{
    pack_result(date_to_x400(date, out))
}
