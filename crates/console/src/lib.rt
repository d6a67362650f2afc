// What the programs share of reading, lines, printing and failing, over std's traits. No function here takes memory.
#![tactic(auto)]

ghost use Rattle.std.specs.Prelude.{◌≡◌, ◌≤◌, length, take};
ghost use Rattle.std.specs.Io.KnownBytes.{Consumes};
ghost use Rattle.wire.specs.Wire.{part, fit, placed};
ghost use Rattle.text.specs.Text.{unhex};

use std::fmt::Display;
use std::io;
use std::io::{Cursor, Read, Write};
use text::lines;

// How much a program takes at a time.
pub const READ_ROOM: usize = 65536;

// Reads until buf is full, the input ends or a read fails, and answers how many bytes it put at the start of buf.
pub fn read_full<R: Read>(from: &mut R, buf: &mut [u8]) -> usize
    ensures in_bounds { result ≤ length buf.new }
    ensures bytes { Consumes (R.remaining from.old) (R.remaining from.new) (take result buf.new) }
{
    let mut done = 0;
    while done < buf.len() {
        match from.read(&mut buf[done..]) {
            Ok(0) | Err(_) => break,
            Ok(n) => done += n,
        }
    }
    done
}

// A read of standard input that failed, or a write to standard output.
#[derive(Drop)]
pub enum Failure {
    Input(io::Error),
    Output(io::Error),
}

// Hands on the bytes of standard input, each as soon as it has been read, until the input ends, a read fails or `take` does.
pub fn each_byte<R: Read, F: FnMut(u8) -> Result<(), Failure>>(
    from: &mut R,
    mut take: F,
) -> Result<(), Failure>
    requires { F.IsAlwaysCallable take }
{
    let mut bytes = [0u8; READ_ROOM];
    // Nothing says that an input ends, so the turns are counted, to a number that no run uses up.
    for _ in 0..u64::MAX {
        let n = from.read(&mut bytes).map_err(Failure::Input)?;
        if n == 0 {
            break;
        }
        for b in &bytes[..n] {
            take(*b)?;
        }
    }
    Ok(())
}

// Runs each line of an input that has its line feed, without it: of a line that is longer than the room in `held`, what it begins with.
// A read that fails ends the input.
pub fn each_line<R: Read, F: FnMut(&[u8])>(from: &mut R, held: &mut [u8], mut run: F)
    requires { F.IsAlwaysCallable run }
{
    let mut bytes = [0u8; READ_ROOM];
    let mut length = 0;
    for _ in 0..u64::MAX {
        let n = read_full(from, &mut bytes);
        if n == 0 {
            return;
        }
        for b in &bytes[..n] {
            if *b == lines::LINE_FEED {
                run(wire::part(held, 0, length));
                length = 0;
            } else {
                length = wire::put8(held, length, *b);
            }
        }
    }
}

// Runs each line of a text, without its line feed, and what stands after the last line feed, where anything does.
pub fn each_line_of<F: FnMut(&[u8])>(text: &[u8], mut run: F)
    requires { F.IsAlwaysCallable run }
{
    for line in text.split_inclusive(|b| *b == lines::LINE_FEED) {
        run(lines::head_to(line, lines::LINE_FEED));
    }
}

// The lines of a text that have their line feed.
pub fn ended(text: &[u8]) -> &[u8]
    ensures { result.now ≡ take (length result.now) text.now }
{
    match text.iter().rposition(|b| *b == lines::LINE_FEED) {
        Some(last) => &text[..last + 1],
        None => &[],
    }
}

// The bytes that capital hex digits spell, in the room that is lent; none where it is too small.
pub fn unhex<'a>(digits: &[u8], room: &'a mut [u8]) -> &'a [u8]
    ensures { result.now ≡ part (fit room.old 0 (unhex digits.now)) 0 (placed room.old 0 (unhex digits.now)) }
{
    let n = text::unhex(digits, room, 0);
    wire::part(room, 0, n)
}

// Prints bytes as they are. Of none nothing is called: a program that prints what each byte of its input gives has mostly none.
pub fn print<P: Print>(to: &P, bytes: &[u8]) -> Result<(), Failure> {
    if bytes.is_empty() {
        return Ok(());
    }
    to.write_all(bytes).map_err(Failure::Output)
}

// The same, where nobody is told that a write failed.
pub fn say<P: Print>(to: &P, bytes: &[u8]) {
    let _ = to.write_all(bytes);
}

// The same of a number, in decimal.
pub fn say_number<P: Print>(to: &P, n: usize) {
    let _ = to.print(n);
}

// How many bytes are spelt at a time: the digits take room of a stack that a program may have used for its own.
const HEX_ROOM: usize = 512;

// The same of bytes in capital hex.
pub fn say_hex<P: Print>(to: &P, bytes: &[u8]) {
    let mut digits = [0u8; 2 * HEX_ROOM];
    for some in bytes.chunks(HEX_ROOM) {
        let n = text::put_hex(&mut digits, 0, some);
        say(to, wire::part(&digits, 0, n));
    }
}

// The most bytes of an error's text.
const WORDS_ROOM: usize = 256;

// What stands in text before the system's number of the error, which std adds.
fn words(text: &str) -> &str {
    match text.rsplit_once(" (os error ") {
        Some((words, _)) => words,
        None => text,
    }
}

// Writes a line to standard error: what failed, as the caller names it, a colon and the system's words for the error.
pub fn fail<E: Eprint>(to: &E, what: &str, error: io::Error) {
    let mut text = Cursor::new([0u8; WORDS_ROOM]);
    let _ = write!(text, "{error}");
    let n = text.position() as usize;
    let bytes = text.into_inner();
    let said = match str::from_utf8(&bytes[..n.min(WORDS_ROOM)]) {
        Ok(said) => words(said),
        Err(_) => "",
    };
    let _ = eprintln!(to; "{what}: {said}");
}

#[cfg(test)]
mod tests {
    use super::*;

    // A reader that gives its bytes one at a time, and then fails.
    #[derive(Drop)]
    struct Breaking<'a>(&'a [u8]);

    impl Read for Breaking<'_> {
        fn read(&mut self, buf: &mut [u8]) -> io::Result<usize> {
            let Some((first, others)) = self.0.split_first() else {
                return Err(io::Error::other("broken"));
            };
            if buf.is_empty() {
                return Ok(0);
            }
            buf[0] = *first;
            self.0 = others;
            Ok(1)
        }
    }

    #[test]
    fn reads_to_the_end_of_the_buffer_of_the_input_or_of_good_reads(rt: HostRuntime) {
        let mut buf = [0u8; 4];
        let mut long: &[u8] = b"abcdef";
        assert_eq!(rt; read_full(&mut long, &mut buf), 4);
        assert_eq!(rt; buf, *b"abcd");
        assert_eq!(rt; read_full(&mut long, &mut buf), 2);
        assert_eq!(rt; buf, *b"efcd");
        assert_eq!(rt; read_full(&mut long, &mut buf), 0);
        let mut breaking = Breaking(b"xyz");
        assert_eq!(rt; read_full(&mut breaking, &mut buf), 3);
        assert_eq!(rt; buf, *b"xyzd");
        assert_eq!(rt; read_full(&mut breaking, &mut buf), 0);
    }

    #[test]
    fn hands_bytes_on_until_one_is_refused_or_a_read_fails(rt: HostRuntime) {
        let mut input: &[u8] = b"abc";
        let mut n = 0usize;
        let all = each_byte(&mut input, |b| {
            if b == b'c' {
                return Err(Failure::Output(io::Error::other("refused")));
            }
            n = n.wrapping_add(1);
            Ok(())
        });
        assert_eq!(rt; n, 2);
        assert!(rt; matches!(all, Err(Failure::Output(_))));
        let mut breaking = Breaking(b"xyz");
        let mut m = 0usize;
        let broken = each_byte(&mut breaking, |_| {
            m = m.wrapping_add(1);
            Ok(())
        });
        assert_eq!(rt; m, 3);
        assert!(rt; matches!(broken, Err(Failure::Input(_))));
    }

    // The lengths of lines, a digit each.
    #[derive(Clone, Copy)]
    struct Lengths(usize);

    impl Lengths {
        fn with(self, line: &[u8]) -> Lengths {
            Lengths(self.0.wrapping_mul(10).wrapping_add(line.len()))
        }
    }

    #[test]
    fn runs_the_lines_of_an_input_that_are_ended_and_cuts_long_ones(rt: HostRuntime) {
        let mut input: &[u8] = b"ab\n\nabcdef\nxyz";
        let mut held = [0u8; 4];
        let mut lengths = Lengths(9);
        each_line(&mut input, &mut held, |line| lengths = lengths.with(line));
        assert_eq!(rt; lengths.0, 9204);
    }

    #[test]
    fn runs_the_lines_of_a_text(rt: HostRuntime) {
        let text = b"ab\n\nabcdef\nxyz";
        let mut lengths = Lengths(9);
        each_line_of(text, |line| lengths = lengths.with(line));
        assert_eq!(rt; lengths.0, 92063);
        assert_eq!(rt; ended(text).len(), 11);
        assert_eq!(rt; ended(b"xyz").len(), 0);
    }

    #[test]
    fn leaves_the_number_of_an_error_out(rt: HostRuntime) {
        assert_eq!(rt;
            words("No such file or directory (os error 2)"),
            "No such file or directory"
        );
        assert_eq!(rt;
            words("failed to write whole buffer"),
            "failed to write whole buffer"
        );
    }
}
