// What taps prints, a line at a time, tests/README.md "The lines of taps".
use card::layout::IMAGE_SIZE;
use console::say;
use manual::Outcome;
use std::io::{Cursor, Write};

// Every byte of a buffer before it is lent.
pub const FILL: u8 = 0xAA;

// The most bytes of a line that is printed.
const LINE_ROOM: usize = 16384;

// A line in a room that is lent: a room by value would be copied whole at each line.
type Line<'a> = Cursor<&'a mut [u8]>;

// A line as it is.
pub fn same(rt: &impl Print, line: &[u8]) {
    say(rt, line);
    say(rt, b"\n");
}

// A line begins with its letter and what the call answered.
fn begin(line: &mut Line, letter: char, o: &Outcome) {
    let _ = write!(
        line,
        "{letter}\t{}\t{}\t{:04X}\t{}",
        o.number, o.reason, o.word, o.length
    );
}

fn put_bytes(line: &mut Line, bytes: &[u8]) {
    let _ = write!(line, "\t");
    for b in bytes {
        let _ = write!(line, "{b:02X}");
    }
}

// The runs of places where the next image differs from the one before, each with its place and the new bytes.
fn put_changes(line: &mut Line, o: &Outcome, old: &[u8], next: &[u8]) {
    let _ = write!(line, "\t");
    if o.number != 0 {
        return;
    }
    let mut end = None;
    for (i, (a, b)) in old.iter().zip(next).enumerate() {
        if *a != *b {
            let _ = match end {
                None => write!(line, "{i:04X}:"),
                Some(e) if e == i => Ok(()),
                Some(_) => write!(line, " {i:04X}:"),
            };
            let _ = write!(line, "{b:02X}");
            end = Some(i + 1);
        }
    }
}

// Of so many bytes, how many are written: none where the call ended with a number.
fn written(o: &Outcome, n: usize) -> usize {
    if o.number == 0 { n } else { 0 }
}

// Whether what lies from `at` on is as it was lent.
fn untouched(s: &[u8], at: usize) -> bool {
    wire::rest(s, at).iter().all(|b| *b == FILL)
}

// Prints the line, and a line T where what was not to be written is not as it was lent.
fn finish(rt: &impl Print, line: &Line, clean: bool) {
    let n = line.position() as usize;
    say(rt, wire::part(line.get_ref(), 0, n));
    say(rt, b"\n");
    if !clean {
        say(rt, b"T\n");
    }
}

pub fn asked(rt: &impl Print, o: &Outcome, questions: &[u8]) {
    let n = written(o, o.length as usize);
    let mut room = [0u8; LINE_ROOM];
    let mut line = Cursor::new(&mut room[..]);
    begin(&mut line, 'A', o);
    put_bytes(&mut line, wire::part(questions, 0, n));
    finish(rt, &line, untouched(questions, n));
}

pub fn settled(rt: &impl Print, o: &Outcome, old: &[u8], response: &[u8], next: &[u8]) {
    let mut room = [0u8; LINE_ROOM];
    let mut line = Cursor::new(&mut room[..]);
    begin(&mut line, 'S', o);
    put_bytes(&mut line, wire::part(response, 0, o.length as usize));
    put_changes(&mut line, o, old, next);
    let n = written(o, o.length as usize);
    finish(
        rt,
        &line,
        untouched(response, n) && untouched(next, written(o, IMAGE_SIZE)),
    );
}

pub fn powered_off(rt: &impl Print, o: &Outcome, old: &[u8], next: &[u8]) {
    let mut room = [0u8; LINE_ROOM];
    let mut line = Cursor::new(&mut room[..]);
    begin(&mut line, 'O', o);
    put_changes(&mut line, o, old, next);
    finish(rt, &line, untouched(next, written(o, IMAGE_SIZE)));
}
