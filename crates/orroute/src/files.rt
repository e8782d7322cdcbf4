// Reads and writes that go on where a signal interrupted them.
ghost use Rattle.std.specs.Prelude.{IfOk, ◌≤◌, length};

use std::fs::File;
use std::io;
use std::io::{Error, ErrorKind, Read, Write};
use std::rt::Files;

// One read: how many bytes, none at the end of the input. A proved loop has to end, and nothing says that interruptions do, so it counts as far
// as no run comes.
pub(crate) fn read_some(from: &mut impl Read, buf: &mut [u8]) -> io::Result<usize>
    ensures { IfOk result (λ n. n ≤ length buf.old) }
{
    for _ in 0..u64::MAX {
        match from.read(buf) {
            Ok(n) => return Ok(n),
            Err(e) => {
                if e.kind() != ErrorKind::Interrupted {
                    return Err(e);
                }
            }
        }
    }
    Err(Error::from(ErrorKind::Interrupted))
}

// One write: how many bytes were taken. (Its turns are those of a read, and no closure is shared: what a call lends, and how far, is in the
// promise.)
fn write_some(to: &mut impl Write, s: &[u8]) -> io::Result<usize>
    ensures { IfOk result (λ n. n ≤ length s.now) }
{
    for _ in 0..u64::MAX {
        match to.write(s) {
            Ok(n) => return Ok(n),
            Err(e) => {
                if e.kind() != ErrorKind::Interrupted {
                    return Err(e);
                }
            }
        }
    }
    Err(Error::from(ErrorKind::Interrupted))
}

// Writes all of `s`. (Not `write_all`, which says of a write that takes nothing something else.)
pub(crate) fn write_out(to: &mut impl Write, s: &[u8]) -> io::Result<()> {
    let mut done = 0;

    // while: a turn writes as much as is taken.
    while done < s.len() {
        let put = write_some(to, &s[done..])?;
        if put == 0 {
            return Err(Error::from(ErrorKind::WriteZero));
        }
        done += put;
    }
    Ok(())
}

// Reads a file until its end or the buffer's.
fn read_whole(from: &mut impl Read, buf: &mut [u8]) -> io::Result<usize>
    ensures { IfOk result (λ n. n ≤ length buf.new) }
{
    let mut n = 0;

    // while: a turn reads as much as comes.
    while n < buf.len() {
        let m = read_some(from, &mut buf[n..])?;
        if m == 0 {
            return Ok(n);
        }
        n += m;
    }
    Ok(n)
}

// Reads `table.tsv`.
fn read_named(rt: &impl Files, buf: &mut [u8]) -> io::Result<usize>
    ensures { IfOk result (λ n. n ≤ length buf.new) }
{
    let mut file = File::open(rt, "table.tsv")?;
    read_whole(&mut file, buf)
}

// Reads the table. One that cannot be opened, or fails on the way, counts as empty text, since a part of a table is another table.
pub(crate) fn read_table(rt: &impl Files, buf: &mut [u8]) -> usize
    ensures { result ≤ length buf.new }
{
    read_named(rt, buf).unwrap_or(0)
}
