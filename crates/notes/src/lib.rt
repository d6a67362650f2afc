// A note of the handover book, Ask 8: whether it is good, which of two comes first. All functions are total.
#![tactic(auto)]

ghost use Rattle.std.specs.Prelude.{◌≡◌};
ghost use Rattle.notes.specs.Notes.{order_of, clean_of, text_good, good_of, follows};

use std::cmp::Ordering;

// Room after the text is zero, so that notes with the same content are the same bytes.
#[repr(C)]
#[derive(Clone, Copy, PartialEq, Eq)]
pub struct Note {
    pub tablet: u8,
    pub number: u16,
    pub hours: u32,
    pub len: u8,
    pub text: [u8; 60],
}

// What stands where no note does. It is below every good note.
pub const BLANK: Note = Note {
    tablet: 0,
    number: 0,
    hours: 0,
    len: 0,
    text: [0; 60],
};

fn is_clean(text: &[u8]) -> bool
    ensures { result ≡ clean_of text.now }
{
    text.iter().all(|&b| b != b'\t' && b != b'\n')
}

fn is_text_good(text: &[u8], len: usize) -> bool
    ensures { result ≡ text_good text.now len }
{
    is_clean(wire::part(text, 0, len)) && wire::zero_from(text, len)
}

impl Note {
    // By tablet, then by number.
    pub fn order_of(&self, other: &Note) -> Ordering
        ensures { result ≡ order_of self.now other.now }
    {
        (self.tablet, self.number).cmp(&(other.tablet, other.number))
    }

    // Whether every value is in its range, the text without tab and line feed, and the room after it zero.
    pub fn is_good(&self) -> bool
        ensures { result ≡ good_of self.now }
    {
        0 < self.number
            && self.hours < 1000000
            && 0 < self.len
            && self.len < 61
            && is_text_good(&self.text, self.len as usize)
    }

    // Whether it may stand in a book right after `last`.
    pub fn follows(&self, last: &Note) -> bool
        ensures { result ≡ follows last.now self.now }
    {
        self.is_good() && last.order_of(self).is_lt()
    }
}
