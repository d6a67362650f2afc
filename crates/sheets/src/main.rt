// The sheet reader, run on the cases of tests/sheets.py: each line of standard input is the size of an image buffer, a tab and a
// sheet in capital hex. For each it prints the answer, how many bytes of the buffer changed beyond the image, and the image.
#![tactic(auto)]

use card::layout::IMAGE_SIZE;
use text::lines;

// The most bytes of a sheet that are looked at.
const SHEET_ROOM: usize = 4096;

// The most bytes of an image buffer, and of a line that is printed.
const ROOM: usize = 8192;

// What the image buffer holds before.
const FILL: u8 = 165;

// How many bytes are not what the buffer held before. A sum that wraps is one that the compiler makes of many bytes at a time.
fn changed(bytes: &[u8]) -> u32 {
    let mut n: u32 = 0;
    for b in bytes {
        n = n.wrapping_add((*b != FILL) as u32);
    }
    n
}

// The answer, how many bytes changed beyond the image, and the image. A bad sheet makes none.
fn put_answer(line: &mut [u8], answer: u32, image: &[u8]) -> usize {
    let made = if answer == 0 { IMAGE_SIZE } else { 0 };
    let a = text::put_decimal_then(line, 0, answer, lines::TAB);
    let b = text::put_decimal(line, a, changed(wire::rest(image, made)));
    if answer != 0 {
        return b;
    }
    let c = wire::put8(line, b, lines::TAB);
    text::put_hex(line, c, wire::part(image, 0, made))
}

// A line is written at once: what is printed goes to the system as it is.
fn print(rt: &impl Print, answer: u32, image: &[u8]) {
    let mut line = [0u8; ROOM];
    let n = put_answer(&mut line, answer, image);
    console::say(rt, wire::part(&line, 0, n));
    console::say(rt, b"\n");
}

fn run_case(rt: &impl Print, case: &[u8]) {
    let size = text::number_of(lines::head_to(case, lines::TAB)).unwrap_or(0) as usize;
    let mut room = [0u8; SHEET_ROOM];
    let sheet = console::unhex(lines::tail_after(case, lines::TAB), &mut room);
    let mut image = [FILL; ROOM];
    let answer = personalise::personalise(sheet, &mut image[..size.min(ROOM)]);
    print(rt, answer, &image);
}

fn main(rt: HostRuntime) {
    let mut input = [0u8; 262144];
    let n = console::read_full(&mut rt.stdin(), &mut input);
    console::each_line_of(&input[..n], |case| run_case(&rt, case));
}
