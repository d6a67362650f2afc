// Field cases, run. tests/fields.py wrote them, and what must be printed, from 01 "Requests and fields". A line of standard
// input is a payload in hex. After `*` the payload is also cut at every byte; after `+` stand a value's length and a buffer's
// size, four bytes each, for the writer. Each function here is proved safe and ending; the promises are those of `fields` and
// `sent`.
#![tactic(auto)]

ghost use Rattle.std.specs.Prelude.{◌<◌};

use console::{say, say_hex, say_number};
use fields::{Step, Times};
use sent::Sent;

// The tag that is looked up and written.
const TAG: u8 = 0x10;

// The most bytes of a line that are looked at.
const LINE_ROOM: usize = 1024;

// The most bytes that a value is written into, and a value's.
const OUT_ROOM: usize = 65552;

const VALUE_ROOM: usize = 65536;

// Each field: tag, place of the value, length.
fn say_fields(rt: &impl Print, p: &[u8]) {
    let mut at: usize = 0;
    while let Step::Field {
        tag,
        start,
        len,
        next,
    } = fields::step_at(p, at)
    {
        let _ = print!(rt; "{tag:02X}@{start}+{len} ");
        at = next;
    }
}

fn say_lookup(rt: &impl Print, sent: &Sent) {
    match sent.times(TAG) {
        Times::Absent => {
            say(rt, b";10 absent\n");
            return;
        }
        Times::Once => say(rt, b";10="),
        Times::Twice => say(rt, b";10 twice="),
    }
    say_hex(rt, sent.value(TAG));
    say(rt, b"\n");
}

fn report(rt: &impl Print, p: &[u8]) {
    let mut sent = Sent::new(p);
    sent.walk();
    if sent.whole {
        say_fields(rt, p);
        say_lookup(rt, &sent);
    } else {
        say(rt, b"malformed\n");
    }
}

// Whether the value stands in a payload under the tag.
fn say_back(rt: &impl Print, p: &[u8], value: &[u8]) {
    let mut sent = Sent::new(p);
    sent.walk();
    if sent.holds(TAG, value) {
        say(rt, b" same");
    } else if sent.has(TAG) {
        say(rt, b" other");
    } else {
        say(rt, b" absent");
    }
}

// Writes the field from place 1 on of the first `size` bytes, and prints the place after it, the first bytes, the value read back, and
// whether what stands after is untouched.
fn write_case(rt: &impl Print, len: usize, size: usize) {
    let bytes = [0x5Au8; VALUE_ROOM];
    let value = wire::part(&bytes, 0, len);
    let mut out = [0u8; OUT_ROOM];
    let next = if size <= OUT_ROOM {
        fields::put_field(&mut out[..size], 1, TAG, value)
    } else {
        0
    };
    say_number(rt, next);
    say(rt, b" ");
    say_hex(rt, wire::part(&out, 0, 6));
    say_back(rt, out.get(1..next).unwrap_or(&[]), value);
    say(
        rt,
        if wire::zero_from(&out, next) {
            b" clean\n"
        } else {
            b" beyond\n"
        },
    );
}

// What is no capital hex digit counts as 0.
fn digit(c: u8) -> u8
    ensures { result < 16 }
{
    match c {
        b'0'..=b'9' => c - b'0',
        b'A'..=b'F' => c - b'A' + 10,
        _ => 0,
    }
}

// The bytes of a line of hex, and how many there are.
fn decode(line: &[u8], out: &mut [u8; LINE_ROOM]) -> usize {
    for (b, pair) in out.iter_mut().zip(line.chunks_exact(2)) {
        *b = digit(pair[0]) * 16 + digit(pair[1]);
    }
    (line.len() / 2).min(LINE_ROOM)
}

fn case_line(rt: &impl Print, line: &[u8]) {
    let (mark, digits) = match line {
        [mark @ (b'*' | b'+'), digits @ ..] => (*mark, digits),
        _ => (b' ', line),
    };
    let mut bytes = [0u8; LINE_ROOM];
    let n = decode(digits, &mut bytes);
    let p = wire::part(&bytes, 0, n);
    match mark {
        b'*' => {
            for n in 0..=p.len() {
                report(rt, wire::part(p, 0, n));
            }
        }
        b'+' => write_case(
            rt,
            wire::get32(&bytes, 0) as usize,
            wire::get32(&bytes, 4) as usize,
        ),
        _ => report(rt, p),
    }
}

fn main(rt: HostRuntime) {
    let mut text = [0u8; console::READ_ROOM];
    let n = console::read_full(&mut rt.stdin(), &mut text);
    console::each_line_of(console::ended(&text[..n]), |line| case_line(&rt, line));
}
