// Standard input, and files that a case names.
ghost use Rattle.std.specs.Prelude.{IfOk, ◌≤◌, length};

use std::fs::File;
use std::io::{ErrorKind, Read};
use std::rt::Files;
use std::{io, str};

// Reads until the buffer is full or the input ends, and answers how many bytes there are. A read that a signal interrupted is tried again. A
// proved loop has to end, and nothing says that interruptions do, so it counts up to a number that no run uses up.
pub fn read_full(from: &mut impl Read, buf: &mut [u8]) -> io::Result<usize>
    ensures { IfOk result (λ n. n ≤ length buf.new) }
{
    let mut n = 0;
    for _ in 0..u64::MAX {
        if n == buf.len() {
            break;
        }
        match from.read(&mut buf[n..]) {
            Ok(0) => break,
            Ok(m) => n += m,
            Err(e) => {
                if e.kind() != ErrorKind::Interrupted {
                    return Err(e);
                }
            }
        }
    }
    Ok(n)
}

// Reads the file of a name.
fn read_named(rt: &impl Files, name: &str, buf: &mut [u8]) -> io::Result<usize>
    ensures { IfOk result (λ n. n ≤ length buf.new) }
{
    let mut file = File::open(rt, name)?;
    read_full(&mut file, buf)
}

// Reads the file of a name, which counts as empty where it cannot be read, or the name is no text.
pub fn read_file(rt: &impl Files, name: &[u8], buf: &mut [u8]) -> usize
    ensures { result ≤ length buf.new }
{
    match str::from_utf8(name) {
        Ok(name) => read_named(rt, name, buf).unwrap_or(0),
        Err(_) => 0,
    }
}
