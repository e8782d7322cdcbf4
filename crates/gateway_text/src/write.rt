// A record's text in a lent buffer.
// That a record is canonical is asked beside it: most callers have proved it of what they made, and a type for it would be taken apart again by each reader.
ghost use Rattle.std.specs.Prelude.{◌≡◌, true, length};
ghost use Rattle.std.proofs.Math.Option.{some};
ghost use Rattle.oraddr.specs.Canonical.{canonical_record};
ghost use Rattle.oraddr.specs.View.{view};
ghost use Rattle.ortext_segments.specs.Keys.{keys};
ghost use Rattle.ortext_write.specs.Write.{longest_text, record_text};
ghost use Rattle.mapping.specs.Answers.{Fronted, told_address};
ghost use Rattle.mapping.specs.Results.{placed};
ghost use Rattle.gateway_pack.specs.Filled.{ShownText};
ghost use Rattle.gateway_text.specs.Texts.{text_of_record};

use gateway_pack::fill;
use mapping::answers::{AddressRefusal, place};
use oraddr::record::Record;
use oraddr_canonical::canonical::is_canonical;
use ortext_write::write::{LONGEST_TEXT, write_text};

// Writes the text of a canonical record to the front of a buffer with room for any.
fn put_text(dst: &mut [u8], rec: Record) -> usize
    requires dst_len { length dst.old ≡ longest_text }
    requires rec_value { canonical_record rec ≡ true }
    ensures { Fronted (some (record_text keys (view rec))) dst.old result dst.new }
{
    write_text(dst, 0, rec, 0)
}

// Writes the text of a canonical record to a lent buffer, if it fits.
pub fn write_canonical(rec: Record, out: &mut [u8]) -> Result<usize, AddressRefusal>
    requires { canonical_record rec ≡ true }
    ensures { told_address result out.new ≡ placed (record_text keys (view rec)) out.old }
{
    let mut text = [0u8; LONGEST_TEXT];
    let n = put_text(&mut text, rec);
    place(out, &text[..n])
}

// Writes a record's text to a lent buffer: 0, 4 or 6.
pub fn write_record(rec: Record, out: &mut [u8]) -> Result<usize, AddressRefusal>
    ensures { told_address result out.new ≡ text_of_record rec out.old }
{
    if !is_canonical(rec) {
        return Err(AddressRefusal::NotCanonical);
    }
    write_canonical(rec, out)
}

// The text of a canonical record in `out`, if it fits, and its length.
pub fn show(rec: Record, out: &mut [u8]) -> usize
    requires { canonical_record rec ≡ true }
    ensures { ShownText (record_text keys (view rec)) out.old result out.new }
{
    let mut text = [0u8; LONGEST_TEXT];
    let n = put_text(&mut text, rec);
    fill(out, &text[..n]);
    n
}
