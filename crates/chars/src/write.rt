// Writing text into a lent buffer.
ghost use Rattle.std.specs.Prelude.{◌≡◌, ◌+◌, ◌≤◌, length};
ghost use Rattle.chars.specs.Write.{Wrote, placed_buffer, placed_size};

// Writes `text` at `at`, and returns where the next one goes.
pub fn put(dst: &mut [u8], at: usize, text: &[u8]) -> usize
    requires { at + length text.now ≤ length dst.old }
    ensures { Wrote dst.old at text.now result dst.new }
{
    let next = at + text.len();
    dst[at..next].copy_from_slice(text);
    next
}

// Writes `text` to the front of a buffer that has room for it, and returns its length. A buffer that has none is as it was.
pub fn place(out: &mut [u8], text: &[u8]) -> Option<usize>
    ensures size { result ≡ placed_size text.now out.old }
    ensures buffer { out.new ≡ placed_buffer text.now out.old }
{
    if out.len() < text.len() {
        return None;
    }
    Some(put(out, 0, text))
}
