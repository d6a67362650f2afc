// Recordings, played. tests/plays.py made the lines of standard input, and what must be printed, by a second card; tests/README.md
// tells what a line means. Each function here is proved safe and ending; the promises are those of `player` and `recording`.
#![tactic(auto)]

use card::layout::IMAGE_SIZE;
use player::{Fed, Player};
use text::lines;

// The most bytes of a line.
const CASE_ROOM: usize = 8300;

// The recording that is being played, and what its player is lent.
#[derive(Drop)]
struct Table {
    player: Player,
    text: [u8; player::TEXT_ROOM],
    img: [u8; IMAGE_SIZE],
    out: [u8; recording::LINE_ROOM],
}

impl Table {
    // Goes on from what a call left, and prints what it says.
    fn go_on(&mut self, rt: &impl Print, fed: Fed) {
        self.player = fed.player;
        console::say(rt, wire::part(&self.out, 0, fed.length));
    }

    fn feed(&mut self, rt: &impl Print, bytes: &[u8]) {
        for b in bytes {
            let fed = player::feed(
                self.player,
                *b,
                &mut self.text,
                &mut self.img,
                &mut self.out,
            );
            self.go_on(rt, fed);
        }
    }

    // A text and what ends it, so many times.
    fn repeat(&mut self, rt: &impl Print, text: &[u8], end: &[u8], times: u32) {
        for _ in 0..times {
            self.feed(rt, text);
            self.feed(rt, end);
        }
    }

    fn close(&mut self, rt: &impl Print) {
        let fed = player::close(self.player, &self.text, &mut self.img, &mut self.out);
        self.go_on(rt, fed);
    }

    // After the letter, N and R have how many times the text is fed; then comes the text, as in L and T. N and L end it with a line feed.
    fn run_line(&mut self, rt: &impl Print, line: &[u8]) {
        let rest = lines::tail_after(line, lines::TAB);
        let times = text::number_of(lines::head_to(rest, lines::TAB)).unwrap_or(0);
        let counted = lines::tail_after(rest, lines::TAB);
        match wire::get8(line, 0) {
            b'C' => {
                console::say(rt, line);
                console::say(rt, b"\n");
                self.player = player::new();
            }
            b'L' => self.repeat(rt, rest, b"\n", 1),
            b'N' => self.repeat(rt, counted, b"\n", times),
            b'T' => self.repeat(rt, rest, b"", 1),
            b'R' => self.repeat(rt, counted, b"", times),
            b'E' => self.close(rt),
            _ => {}
        }
    }
}

fn main(rt: HostRuntime) {
    let mut table = Table {
        player: player::new(),
        text: [0u8; player::TEXT_ROOM],
        img: [0u8; IMAGE_SIZE],
        out: [0u8; recording::LINE_ROOM],
    };
    let mut line = [0u8; CASE_ROOM];
    console::each_line(&mut rt.stdin(), &mut line, |line| table.run_line(&rt, line));
}
