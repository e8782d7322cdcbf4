// The tail that two domains share by whole parts, case aside, for people hunting overlapping rows.
ghost use Rattle.std.specs.Prelude.{◌≡◌, ◌-◌, length};
ghost use Rattle.mailaddr.specs.Tail.{TailShown, shared_tail};

use crate::domain::part_start;
use chars::case::same_text;

// The longest tail of `a` by whole parts that `b` has too, case aside, as a part of `a`; with nothing shared, its empty end.
pub fn shared_tail<'a, 'b>(a: &'a [u8], b: &'b [u8]) -> &'a [u8]
    ensures { TailShown a.entry b.now result }
{
    let from = tail_start(a, b);
    &a[from..]
}

// Where the shared tail starts in `a`.
fn tail_start(a: &[u8], b: &[u8]) -> usize
    ensures { result ≡ length a.now - length (shared_tail a.now b.now) }
{
    let mut start = a.len();
    let mut i = a.len();
    let mut j = b.len();
    // loop: it ends at the first parts that differ or at either front, so two places fall together
    loop {
        let p = part_start(a, i);
        let q = part_start(b, j);
        if !same_text(&a[p..i], &b[q..j]) {
            return start;
        }
        start = p;
        if p == 0 || q == 0 {
            return start;
        }
        i = p - 1;
        j = q - 1;
    }
}
