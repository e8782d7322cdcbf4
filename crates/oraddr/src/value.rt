// The texts of a record, by value: a length and the room for the longest. The bytes past the length are 0 in every one
// that is made here.
ghost use Rattle.std.specs.Prelude.{◌≡◌, ◌≤◌, length, take};
ghost use Rattle.oraddr.specs.View.{held_text, text_of};

use crate::bounds::{DD_TYPE_ROOM, DD_VALUE_ROOM, OU_ROOM, VALUE_ROOM};
use chars::write::put;

// A text in a room of N bytes: by value and in fixed memory, so its length stands beside the room.
#[derive(Clone, Copy)]
pub struct Text<const N: usize> {
    pub len: usize,
    pub bytes: [u8; N],
}

// The value of an attribute that a record has once.
pub type Value = Text<VALUE_ROOM>;

pub type OrgUnit = Text<OU_ROOM>;

pub type DdType = Text<DD_TYPE_ROOM>;

pub type DdValue = Text<DD_VALUE_ROOM>;

// A domain defined attribute.
#[derive(Clone, Copy)]
pub struct DomainDefined {
    pub kind: DdType,
    pub value: DdValue,
}

// What stands at the front of a room, its length being anything.
pub fn held<T>(room: &[T], len: usize) -> &[T]
    ensures { result.now ≡ take len room.now }
{
    &room[..len.min(room.len())]
}

impl<const N: usize> Text<N> {
    pub fn of(text: &[u8]) -> Self
        requires { length text.now ≤ N }
        ensures { result ≡ text_of N text.now }
    {
        let mut bytes = [0u8; N];
        let len = put(&mut bytes, 0, text);
        Text { len, bytes }
    }

    // How many bytes its text has.
    pub fn size(self) -> usize
        ensures { result ≡ length (held_text self.entry) }
    {
        self.len.min(N)
    }

    // The text that it holds.
    pub fn text(&self) -> &[u8]
        ensures { result.now ≡ held_text self.now }
    {
        held(&self.bytes, self.len)
    }
}
