// An address carried whole in a record.
// A row is places without its text, since it stands by value in a loaded table: that it lies in the text is asked beside it.
ghost use Rattle.std.specs.Prelude.{◌≡◌, ◌≤◌, length};
ghost use Rattle.mailaddr.specs.Shape.{longest_address};
ghost use Rattle.table.specs.Rows.{RowInside, row_at};
ghost use Rattle.mapping.specs.Answers.{told_record};
ghost use Rattle.mapping.specs.Carried.{carrying};

use mailaddr::code::put_coded;
use mapping::answers::RecordRefusal;
use oraddr::bounds::DD_VALUE_ROOM;
use oraddr::record::Record;
use table::line::Row;
use table_settle::settle::add_path;

// The longest coded form of an address.
const LONGEST_CODED: usize = DD_VALUE_ROOM;

// Carries the address `s` whole, under the gateway's path.
pub fn carry(text: &[u8], gateway: Row, s: &[u8]) -> Result<Record, RecordRefusal>
    requires row_inside { RowInside text.now gateway }
    requires s_len_bound { length s.now ≤ longest_address }
    ensures { told_record result ≡ carrying (row_at text.now gateway).path s.now }
{
    let mut value = [0u8; LONGEST_CODED];
    let n = put_coded(&mut value, s);
    if LONGEST_CODED < n {
        return Err(RecordRefusal::TooLongCoded);
    }
    let path = add_path(text, gateway.path, gateway.path_end);
    let done = path.record.with_dd(b"RFC-822", &value[..n]);
    Ok(done.record)
}
