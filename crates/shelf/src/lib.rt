// Whether a list of notes is a book, and what comes of a call that reads, writes or joins books. All functions are total.
#![tactic(auto)]

ghost use Rattle.std.specs.Prelude.{◌≡◌};
ghost use Rattle.shelf.specs.Shelf.{first_bad};

use notes::{BLANK, Note};

// "at most 256 notes"
pub const MOST: usize = 256;

// Why nothing is done: a line or record of a book may not stand where it does; two notes of this tablet and number, one in each book,
// are not alike; there are more than 256 notes; there is no room for a book.
#[derive(Clone, Copy, PartialEq, Eq)]
pub enum Refusal {
    BadLine { book: u8, line: u16 },
    Clash { tablet: u8, number: u16 },
    Full,
    NoRoom,
}

// How many notes, or bytes of text, are written.
pub type Outcome = Result<u32, Refusal>;

// An outcome in numbers, for C: 0 done, 1 bad line, 2 clash, 3 full, 99 no room.
#[repr(C)]
#[derive(Drop)]
pub struct Numbers {
    pub number: u8,
    pub which: u8,
    pub at: u16,
    pub count: u32,
}

impl From<Outcome> for Numbers {
    ghost use Rattle.std.specs.Prelude.{◌≡◌};
    ghost use Rattle.shelf.specs.Outcome.{numbers_of};

    ghost from_gives = { λ outcome r. r ≡ numbers_of outcome };

    fn from(outcome: Outcome) -> Numbers {
        let (number, which, at, count) = match outcome {
            Ok(count) => (0, 0, 0, count),
            Err(Refusal::BadLine { book, line }) => (1, book, line, 0),
            Err(Refusal::Clash { tablet, number }) => (2, tablet, number, 0),
            Err(Refusal::Full) => (3, 0, 0, 0),
            Err(Refusal::NoRoom) => (99, 0, 0, 0),
        };
        Numbers {
            number,
            which,
            at,
            count,
        }
    }
}

// The place of the first note of a list that may not stand in a book, counted from 1.
pub fn first_bad(list: &[Note]) -> Option<u16>
    ensures { result ≡ first_bad list.now }
{
    let mut last = BLANK;
    for (i, note) in list.iter().enumerate() {
        if i == MOST || !note.follows(&last) {
            return Some(i as u16 + 1);
        }
        last = *note;
    }
    None
}
