// play, Ask 4: a recording on standard input; on standard output a line for each tap, then the sums, or the number of the line that
// ended the play. Each function here is proved safe and ending; the promises are those of `player` and `recording`.
#![tactic(auto)]

use card::layout::IMAGE_SIZE;
use console::Failure;
use std::io::Read;

// Plays the input byte by byte, so that what a line prints is there before the next byte is read. After a read or a write that failed
// no byte is taken, and nothing is summed up.
fn play(rt: &impl Print, from: &mut impl Read) -> Result<(), Failure> {
    let mut text = [0u8; player::TEXT_ROOM];
    let mut img = [0u8; IMAGE_SIZE];
    let mut out = [0u8; recording::LINE_ROOM];
    let mut player = player::new();
    console::each_byte(from, |b| {
        let fed = player::feed(player, b, &mut text, &mut img, &mut out);
        player = fed.player;
        console::print(rt, wire::part(&out, 0, fed.length))
    })?;
    let fed = player::close(player, &text, &mut img, &mut out);
    console::print(rt, wire::part(&out, 0, fed.length))
}

fn main(rt: HostRuntime) {
    match play(&rt, &mut rt.stdin()) {
        Ok(()) => {}
        Err(Failure::Input(e)) => console::fail(&rt, "standard input", e),
        Err(Failure::Output(e)) => console::fail(&rt, "standard output", e),
    }
}
