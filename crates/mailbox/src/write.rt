// The bare address in a lent buffer.
ghost use Rattle.std.specs.Prelude.{◌≡◌, ◌++◌, ◌∷◌, [], ◌≤◌, length};
ghost use Rattle.chars.specs.Write.{Wrote, placed_buffer, placed_size};
ghost use Rattle.mailaddr.specs.Shape.{escaped};
ghost use Rattle.lexical.specs.Tokens.{longest_line};
ghost use Rattle.mailbox.specs.Mailbox.{local_text};

use chars::write::put;
use mailaddr::shape::{needs_backslash, put_escaped};

// The length of a byte with its backslash, if it needs one.
#[tactic(auto, using(std::proofs::lemmas::Bool::Decides::nat_tests), unfolding(mailaddr::specs::Shape::escaped))]
fn escaped_byte_size(b: u8) -> usize
    ensures { result ≡ length (escaped (b ∷ [])) }
{
    if needs_backslash(b) { 2 } else { 1 }
}

// The length of a text with a backslash before each quote and backslash.
fn escaped_size(s: &[u8]) -> usize
    ensures { result ≡ length (escaped s.now) }
{
    let mut n = 0;
    for &b in s {
        n += escaped_byte_size(b);
    }
    n
}

// The length of a local part as it is written.
fn local_size(s: &[u8], quoted: bool) -> usize
    requires { length s.now ≤ longest_line }
    ensures { result ≡ length (local_text quoted s.now) }
{
    if quoted {
        return escaped_size(s) + 2;
    }
    s.len()
}

// Writes a local part at the buffer's front: one quoted string, or as it is.
fn put_local(out: &mut [u8], s: &[u8], quoted: bool) -> usize
    requires { length (local_text quoted s.now) ≤ length out.old }
    ensures { Wrote out.old 0 (local_text quoted s.now) result out.new }
{
    if !quoted {
        return put(out, 0, s);
    }
    out[0] = b'"';
    let end = put_escaped(out, 1, s);
    out[end] = b'"';
    end + 1
}

// Writes the address of a local part and a domain at the buffer's front.
fn put_bare(out: &mut [u8], local: &[u8], quoted: bool, domain: &[u8]) -> usize
    requires { length (local_text quoted local.now ++ 64 ∷ domain.now) ≤ length out.old }
    ensures { Wrote out.old 0 (local_text quoted local.now ++ 64 ∷ domain.now) result out.new }
{
    let end = put_local(out, local, quoted);
    out[end] = b'@';
    put(out, end + 1, domain)
}

// The address of a local part and a domain in the buffer, if it fits: its length.
pub(crate) fn place_bare(out: &mut [u8], local: &[u8], quoted: bool, domain: &[u8]) -> Option<usize>
    requires { (length local.now ≤ longest_line) × (length domain.now ≤ longest_line) }
    ensures size { result ≡ placed_size (local_text quoted local.now ++ 64 ∷ domain.now) out.old }
    ensures buffer { out.new ≡ placed_buffer (local_text quoted local.now ++ 64 ∷ domain.now) out.old }
{
    if out.len() < local_size(local, quoted) + 1 + domain.len() {
        return None;
    }
    Some(put_bare(out, local, quoted, domain))
}
