// The wait as one small value, which is dropped, counted and held, and handed back (02 Ask 7).
ghost use Rattle.std.specs.Prelude.{◌≡◌};
ghost use Rattle.card.specs.Values.{no_wait, dropped, counted, held_for};

use crate::{Fixed, Wait};

impl Wait {
    pub const MOST_WRONG: u8 = 60;

    pub const MOST_LEFT: u8 = Fixed::MOST_PAUSE + Wait::MOST_WRONG;

    // Nothing counted and nothing held.
    pub fn none() -> Wait
        ensures { result ≡ no_wait }
    {
        Wait {
            wrong: 0,
            left: 0,
            size: 0,
        }
    }

    // Nothing held, the count as it was.
    pub fn dropped(self) -> Wait
        ensures { result ≡ dropped self }
    {
        Wait {
            left: 0,
            size: 0,
            ..self
        }
    }

    // One more wrong code; 60 stays.
    pub fn counted(self) -> Wait
        ensures { result ≡ counted self }
    {
        Wait {
            wrong: if self.wrong < Wait::MOST_WRONG {
                self.wrong + 1
            } else {
                self.wrong
            },
            ..self
        }
    }

    // A request of so many bytes held for so many seconds, the count as it was.
    pub fn holding(self, seconds: u8, size: u16) -> Wait
        ensures { result ≡ held_for seconds size self }
    {
        Wait {
            left: seconds,
            size,
            ..self
        }
    }
}
