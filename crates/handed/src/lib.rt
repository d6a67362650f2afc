// What handover prints for two texts, Ask 8: the joined book, or one line that no book begins with.
#![tactic(auto)]

ghost use Rattle.std.specs.Prelude.{◌≡◌, [], ◌∷◌};
ghost use Rattle.wire.specs.Wire.{Wrotes};
ghost use Rattle.text.specs.Text.{ascii};
ghost use Rattle.shelf.specs.Outcome.{after_of};
ghost use Rattle.noteline.specs.NoteLine.{feed};
ghost use Rattle.booktext.specs.BookText.{meaning};
ghost use Rattle.handed.specs.Handed.{told, outcome_of, union_of, handed_parts};

use notes::{BLANK, Note};
use shelf::{MOST, Outcome, Refusal};
use text::lines;

// How much of a file a program reads. No book is so long, so that what follows cannot change the answer: `front_enough` in `spelled`.
pub const BOOK_ROOM: usize = booktext::TEXT_ROOM;

// The books of two texts joined, into an array.
fn join(first: &[u8], second: &[u8], joined: &mut [Note; MOST]) -> Outcome
    ensures { (result ≡ outcome_of (meaning first.now) (meaning second.now))
        × (joined.new ≡ after_of result (union_of (meaning first.now) (meaning second.now)) joined.old) }
{
    let mut a = [BLANK; MOST];
    let n = booktext::read_as(first, 1, &mut a)?;
    let mut b = [BLANK; MOST];
    let m = booktext::read_as(second, 2, &mut b)?;
    union::join(&a[..n as usize], &b[..m as usize], joined)
}

fn put_told(out: &mut [u8], word: &[u8], a: u32, b: u32) -> usize
    ensures { Wrotes out.old 0 (told word.now a b) out.new result }
{
    let c = wire::put_bytes(out, 0, word);
    let d = wire::put8(out, c, lines::TAB);
    let e = text::put_decimal_then(out, d, a, lines::TAB);
    text::put_decimal_then(out, e, b, lines::LINE_FEED)
}

fn put_full(out: &mut [u8]) -> usize
    ensures { Wrotes out.old 0 (ascii "full" ∷ feed ∷ []) out.new result }
{
    let a = wire::put_bytes(out, 0, b"full");
    wire::put8(out, a, lines::LINE_FEED)
}

// Writes what is printed for two texts at the front of the buffer, and returns its length. A part without room is left out.
pub fn handed(first: &[u8], second: &[u8], out: &mut [u8]) -> usize
    ensures { Wrotes out.old 0 (handed_parts (meaning first.now) (meaning second.now)) out.new result }
{
    let mut joined = [BLANK; MOST];
    match join(first, second, &mut joined) {
        Ok(n) => booktext::put_lines(out, &joined[..n as usize]),
        Err(Refusal::BadLine { book, line }) => put_told(out, b"line", book as u32, line as u32),
        Err(Refusal::Clash { tablet, number }) => put_told(
            out,
            b"clash",
            tablet as u32,
            number as u32,
        ),
        Err(Refusal::Full) => put_full(out),
        Err(Refusal::NoRoom) => 0,
    }
}
