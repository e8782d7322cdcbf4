// What becomes of a witness when both mappings are run on it.
use cases::parts::front;
use mapping_to_address::to_address::{ADDRESS_ROOM, record_to_address};
use mapping_to_record::to_record::address_to_record;
use oraddr::bounds::S;
use oraddr::record::Record;
use oraddr_canonical::canonical::is_canonical;
use oraddr_same::same::same_record;

// Whether an address is mapped back to the record.
fn is_back(table: &[u8], s: &[u8], rec: Record) -> bool {
    match address_to_record(table, s) {
        Ok(back) => same_record(back, rec),
        Err(_) => false,
    }
}

// Whether a record comes back under a table text.
fn comes_back(table: &[u8], rec: Record) -> bool {
    let mut out = [0u8; ADDRESS_ROOM];
    match record_to_address(table, rec, &mut out) {
        Ok(n) => is_back(table, front(&out, n), rec),
        Err(_) => false,
    }
}

// Whether a record is a canonical one with a surname that does not come back.
pub(crate) fn is_lost(table: &[u8], rec: Record) -> bool {
    is_canonical(rec) && 0 < rec.single(S).size() && !comes_back(table, rec)
}
