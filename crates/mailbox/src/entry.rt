// The entry points: the mailbox of a line.
ghost use Rattle.std.specs.Prelude.{◌≡◌, ◌≤◌, length};
ghost use Rattle.lexical.specs.Tokens.{longest_line};
ghost use Rattle.mailbox.specs.Answers.{JudgesLine, mailbox_number, told_place, told_written};
ghost use Rattle.mailbox.specs.Mailbox.{bare_in, mailbox_by, phrase_place, place_by, read_mailbox, reading_of};

use crate::phrase::{MailboxRead, PhrasePlace, mailbox};
use crate::write::place_bare;
use lexical::nesting::nests_too_deep;

// The longest line.
pub const LONGEST_LINE: usize = 4096;

// Room for the words of most lines.
const SHORT_LINE: usize = 1024;

// With no phrase, and where a line is refused: the line's empty start.
const EMPTY_START: PhrasePlace = PhrasePlace { start: 0, size: 0 };

// Request 2's refusals: 2, 9, 1 and 6.
#[derive(Clone, Copy, Debug, PartialEq, Eq)]
pub enum MailboxFault {
    TooLong,
    TooDeep,
    NoMailbox,
    ShortBuffer,
}

// A mailbox whose bare address is in a buffer: the address's length, and where the phrase stands.
#[derive(Clone, Copy)]
pub struct MailboxWritten {
    pub size: usize,
    pub phrase: PhrasePlace,
}

// Request 2's number for a refusal.
impl From<MailboxFault> for usize {
    ghost from_gives = { λ fault number. number ≡ mailbox_number fault };

    fn from(fault: MailboxFault) -> usize {
        match fault {
            MailboxFault::TooLong => 2,
            MailboxFault::TooDeep => 9,
            MailboxFault::NoMailbox => 1,
            MailboxFault::ShortBuffer => 6,
        }
    }
}

// Whether a line is read at all: 2 or 9 where it isn't. It stands apart, so that a line refused here costs no room for words.
fn judge_line(line: &[u8]) -> Result<(), MailboxFault>
    ensures { JudgesLine line.now result }
{
    if LONGEST_LINE < line.len() {
        return Err(MailboxFault::TooLong);
    }
    if nests_too_deep(line) {
        return Err(MailboxFault::TooDeep);
    }
    Ok(())
}

// A line of at most the longest as a mailbox, its bare address in the buffer if it fits: 1 where it is none, 6 where there is no room.
fn read_short(line: &[u8], out: &mut [u8]) -> Result<MailboxWritten, MailboxFault>
    requires { length line.now ≤ longest_line }
    ensures { told_written result out.new ≡ mailbox_by (reading_of (bare_in line.now)) out.old }
{
    let mut words = [0u8; LONGEST_LINE];
    let Some(m) = mailbox(&mut words, line) else {
        return Err(MailboxFault::NoMailbox);
    };
    let Some(size) = place_bare(out, &words[..m.local], m.quoted, &words[m.local..m.size]) else {
        return Err(MailboxFault::ShortBuffer);
    };
    Ok(MailboxWritten {
        size,
        phrase: m.phrase,
    })
}

// A line as a mailbox, its bare address in the buffer if it fits.
pub fn read_mailbox(line: &[u8], out: &mut [u8]) -> Result<MailboxWritten, MailboxFault>
    ensures { told_written result out.new ≡ read_mailbox line.now out.old }
{
    judge_line(line)?;
    read_short(line, out)
}

// Where the phrase of a line stands, its texts in `words`.
fn phrase_in(words: &mut [u8], line: &[u8]) -> PhrasePlace
    requires { length line.now ≤ length words.old }
    ensures { told_place result ≡ place_by (reading_of (bare_in line.now)) }
{
    match mailbox(words, line) {
        Some(m) => m.phrase,
        None => EMPTY_START,
    }
}

// Where the phrase of a line of at most the longest stands. Its texts are written and nobody reads them, so a short line gets a small room for
// them, which is sooner cleared.
fn short_phrase(line: &[u8]) -> PhrasePlace
    requires { length line.now ≤ longest_line }
    ensures { told_place result ≡ place_by (reading_of (bare_in line.now)) }
{
    if SHORT_LINE < line.len() {
        return phrase_in(&mut [0u8; LONGEST_LINE], line);
    }
    phrase_in(&mut [0u8; SHORT_LINE], line)
}

// Where the phrase of a mailbox stands, as if there were room for its address; 0 and 0 with none.
pub fn phrase_place(line: &[u8]) -> PhrasePlace
    ensures { told_place result ≡ phrase_place line.now }
{
    match judge_line(line) {
        Ok(()) => short_phrase(line),
        Err(_) => EMPTY_START,
    }
}
