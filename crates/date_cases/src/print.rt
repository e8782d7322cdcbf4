// What the program prints.
use cases::print::{Output, say, say_number};
use dates::convert::DateFault;

// The number of what came, 0 where a text was written, and a tab.
fn print_answer(to: &mut Output, done: Result<usize, DateFault>) {
    match done {
        Ok(_) => say_number(to, 0),
        Err(fault) => say_number(to, fault.into()),
    }
    say(to, b"\t");
}

// The number, and the text: with a refusal there is none.
pub(crate) fn print_text(to: &mut Output, done: Result<usize, DateFault>, out: &[u8]) {
    print_answer(to, done);
    say(to, &out[..done.unwrap_or(0).min(out.len())]);
    say(to, b"\n");
}

// The number, the length that is told, which is 0 with a refusal, and the whole buffer.
pub(crate) fn print_buffer(to: &mut Output, done: Result<usize, DateFault>, out: &[u8]) {
    print_answer(to, done);
    say_number(to, done.unwrap_or(0));
    say(to, b"\t");
    say(to, out);
    say(to, b"\n");
}
