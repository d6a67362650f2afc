// Taps of a card, run. tests/taps.py made the lines of standard input, and what must be printed, by a second card;
// tests/README.md tells what a line means. Each function here is proved safe and ending; the promises are those of `practice`.
// A line that begins with no letter of the list is printed as it is; of a lent buffer there are 8,192 bytes at most.
#![tactic(auto)]

mod print;

use card::layout;
use manual::Outcome;
use text::lines;

// The most bytes of an image that are held.
const CARD_ROOM: usize = 4096;

// The most bytes of a line, and of a buffer that is lent.
const ROOM: usize = 8192;

// The most bytes that a line spells: two digits each.
const SPELT: usize = ROOM / 2;

// The lengths of the buffers that are lent.
#[derive(Clone, Copy)]
struct Lent {
    questions: usize,
    response: usize,
    next: usize,
}

// The card's image, of which `length` bytes are there, and what is lent.
// A room and its length: nothing here takes memory.
#[derive(Drop)]
struct Table {
    room: [u8; CARD_ROOM],
    length: usize,
    lent: Lent,
}

// Field k of a line, the letter being field 0.
fn field(line: &[u8], k: usize) -> &[u8] {
    line.split(|b| *b == lines::TAB).nth(k).unwrap_or(&[])
}

// The number of four digits.
fn number(digits: &[u8]) -> usize {
    let mut two = [0u8; 2];
    console::unhex(digits, &mut two);
    u16::from_be_bytes(two) as usize
}

impl Table {
    fn image(&self) -> &[u8] {
        wire::part(&self.room, 0, self.length)
    }

    // After number 0 the next image is the current one.
    fn renew(&mut self, o: &Outcome, next: &[u8]) {
        if o.number == 0 {
            self.length = wire::put_bytes(
                &mut self.room,
                0,
                wire::part(next, 0, layout::IMAGE_SIZE),
            );
        }
    }

    fn ask(&self, rt: &impl Print, line: &[u8]) {
        let mut request = [0u8; SPELT];
        let mut draw = [0u8; SPELT];
        let mut questions = [print::FILL; ROOM];
        let n = self.lent.questions.min(ROOM);
        let o = practice::ask(
            self.image(),
            console::unhex(field(line, 1), &mut request),
            console::unhex(field(line, 2), &mut draw),
            &mut questions[..n],
        );
        print::asked(rt, &o, &questions);
    }

    fn settle(&mut self, rt: &impl Print, line: &[u8]) {
        let mut request = [0u8; SPELT];
        let mut draw = [0u8; SPELT];
        let mut answers = [0u8; SPELT];
        let mut response = [print::FILL; ROOM];
        let mut next = [print::FILL; ROOM];
        // Both buffers are lent whole where there is too little of either.
        let Lent {
            response: n,
            next: m,
            ..
        } = if self.lent.response.max(self.lent.next) <= ROOM {
            self.lent
        } else {
            Lent {
                response: ROOM,
                next: ROOM,
                ..self.lent
            }
        };
        let o = practice::settle(
            self.image(),
            console::unhex(field(line, 1), &mut request),
            console::unhex(field(line, 2), &mut draw),
            console::unhex(field(line, 3), &mut answers),
            &mut response[..n],
            &mut next[..m],
        );
        print::settled(rt, &o, self.image(), &response, &next);
        self.renew(&o, &next);
    }

    fn power_off(&mut self, rt: &impl Print) {
        let mut next = [print::FILL; ROOM];
        let n = self.lent.next.min(ROOM);
        let o = practice::power_off(self.image(), &mut next[..n]);
        print::powered_off(rt, &o, self.image(), &next);
        self.renew(&o, &next);
    }

    fn run_line(&mut self, rt: &impl Print, line: &[u8]) {
        match wire::get8(line, 0) {
            b'I' => self.length = text::unhex(field(line, 1), &mut self.room, 0),
            b'W' => {
                text::unhex(field(line, 2), &mut self.room, number(field(line, 1)));
            }
            b'L' => {
                self.lent = Lent {
                    questions: number(field(line, 1)),
                    response: number(field(line, 2)),
                    next: number(field(line, 3)),
                };
            }
            b'A' => self.ask(rt, line),
            b'S' => self.settle(rt, line),
            b'O' => self.power_off(rt),
            _ => print::same(rt, line),
        }
    }
}

fn main(rt: HostRuntime) {
    let mut table = Table {
        room: [0u8; CARD_ROOM],
        length: 0,
        lent: Lent {
            questions: manual::QUESTIONS_ROOM,
            response: manual::RESPONSE_ROOM,
            next: layout::IMAGE_ROOM,
        },
    };
    let mut line = [0u8; ROOM];
    console::each_line(&mut rt.stdin(), &mut line, |line| table.run_line(&rt, line));
}
