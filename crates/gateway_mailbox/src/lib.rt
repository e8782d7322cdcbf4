// Mailboxes, for the public face: the entry points, and the same for C with the result in one value.
#![tactic(auto)]

ghost use Rattle.std.specs.Prelude.{◌≡◌, []};
ghost use Rattle.mailbox.specs.Answers.{told_place, told_written};
ghost use Rattle.mailbox.specs.Mailbox.{phrase_place, read_mailbox};
ghost use Rattle.gateway_pack.specs.Packed.{ExportedText, packed_place, packed_text};
ghost use Rattle.gateway_mailbox.specs.Shows.{Shows};

use gateway_pack::{pack_place, pack_text};
use mailbox::entry::{MailboxFault, MailboxWritten, read_mailbox};
use mailbox::phrase::PhrasePlace;

// A header line as a mailbox, its bare address in a lent buffer: stored are the number, 0, 1, 2, 6 or 9, and the address's length, and returned is the part
// of the line that its phrase is; with none, or refused, the line's empty start.
pub fn mailbox<'a>(line: &'a [u8], out: &mut [u8], number: &mut usize, size: &mut usize) -> &'a [u8]
    ensures { Shows (read_mailbox line.now out.old) line.entry number.new size.new out.new result }
{
    match read_mailbox(line, out) {
        Ok(done) => {
            *number = 0;
            *size = done.size;
            let start = done.phrase.start;
            let end = start + done.phrase.size;
            &line[start..end]
        }
        Err(fault) => {
            *number = usize::from(fault);
            *size = 0;
            &line[..0]
        }
    }
}

// Where the phrase of a mailbox stands in its line, as if there were room for its address.
pub fn phrase_place(line: &[u8]) -> PhrasePlace
    ensures { told_place result ≡ phrase_place line.now }
{
    mailbox::entry::phrase_place(line)
}

// A mailbox's result in one value.
fn pack_mailbox(done: Result<MailboxWritten, MailboxFault>) -> usize
    ensures { result ≡ packed_text (told_written done []).text }
{
    match done {
        Ok(written) => pack_text(0, written.size),
        Err(fault) => pack_text(usize::from(fault), 0),
    }
}

// The bare address of a header line's mailbox, in `out`.
pub fn packed_mailbox(line: &[u8], out: &mut [u8]) -> usize
    ensures { ExportedText (read_mailbox line.now out.old).text result out.new }
{
    pack_mailbox(read_mailbox(line, out))
}

// Where the phrase of a header line's mailbox stands, in one value.
pub fn packed_phrase(line: &[u8]) -> usize
    ensures { result ≡ packed_place (phrase_place line.now) }
{
    let phrase = phrase_place(line);
    pack_place(phrase.start, phrase.size)
}
