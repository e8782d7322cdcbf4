// What the program prints.
use crate::witness::is_lost;
use cases::print::{Output, say, say_number};
use oraddr::record::Record;
use soundness::answers::CheckRefusal;

fn print_line(to: &mut Output, line: usize) {
    say(to, b"7 ");
    say_number(to, line);
    say(to, b"\n");
}

fn print_witness(to: &mut Output, table: &[u8], rec: Record) {
    if is_lost(table, rec) {
        say(to, b"8 lost\n");
    } else {
        say(to, b"8 kept\n");
    }
}

pub(crate) fn print_verdict(to: &mut Output, table: &[u8], done: Result<(), CheckRefusal>) {
    match done {
        Ok(()) => say(to, b"0\n"),
        Err(CheckRefusal::Unsound(witness)) => print_witness(to, table, witness),
        Err(CheckRefusal::Malformed(line)) => print_line(to, line),
    }
}
