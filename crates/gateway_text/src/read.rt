// A record text read as a canonical record.
ghost use Rattle.std.specs.Prelude.{◌≡◌};
ghost use Rattle.oraddr.specs.Add.{told};
ghost use Rattle.gateway_text.specs.Texts.{record_of_text};

use oraddr::add::{Added, Addition};
use oraddr::record::Record;
use oraddr_canonical::canonical::is_canonical;
use ortext_read::read::read_text;

// Reads a record text: 0, or 4 and an empty record. (An `Addition`, not an `Option`: the form in which the library hands back each record
// that callers build up.)
pub fn read_record(text: &[u8]) -> Addition
    ensures { told result ≡ record_of_text text.now }
{
    match read_text(Record::empty(), 0, text) {
        Ok(record) if is_canonical(record) => Addition {
            record,
            answer: Added::Done,
        },
        _ => Addition {
            record: Record::empty(),
            answer: Added::Refused,
        },
    }
}
