// What reading a table comes to.
use crate::line::Row;

// A well-formed table: the gateway's row, and how many rows go each way.
#[derive(Clone, Copy)]
pub struct Loaded {
    pub gateway: Row,
    pub to_path: usize,
    pub to_domain: usize,
}

// The number of a table's first bad line, or of a list's first bad entry: document 01's number 7.
#[derive(Clone, Copy)]
pub struct Malformed {
    pub line: usize,
}

pub type TableRead = Result<Loaded, Malformed>;
