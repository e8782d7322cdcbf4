// What each program does: it reads standard input, runs it, and writes to standard output.
ghost use Rattle.std.specs.Prelude.{◌≡◌, OnOk};

use crate::files::read_full;
use crate::print::Output;
use std::io;
use std::io::{Stdin, Stdout};

// Reads standard input, as much as there is space for, and runs it. All is well where nothing failed of reading and of writing.
pub fn read_and_run<F: FnOnce(&mut Output, &[u8])>(
    from: Stdin,
    to: Stdout,
    space: &mut [u8],
    run: F,
) -> io::Result<()>
    requires { F.IsAlwaysCallable run }
    ensures { OnOk result ((begun : _) × (text : _) × (ended : _) × F.post run begun text tt ended × (ended.now.written ≡ Ok tt)) }
{
    let mut from = from;
    let n = read_full(&mut from, space)?;
    let mut to = Output::new(to);
    run(&mut to, &space[..n]);
    to.written()
}
