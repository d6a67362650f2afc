// A book as text, Ask 8, read into a list of notes and written from one. All functions are total. On a refusal what is lent is as it was.
#![tactic(auto)]

ghost use Rattle.std.specs.Prelude.{◌≡◌, ◌≤◌, None, IfOk, MatchResult, length, take};
ghost use Rattle.wire.specs.Wire.{Wrotes};
ghost use Rattle.noteline.specs.NoteLine.{note_at};
ghost use Rattle.shelf.specs.Shelf.{most, first_bad};
ghost use Rattle.shelf.specs.Outcome.{after_of};
ghost use Rattle.booktext.specs.BookText.{standing, Book, meaning, notes_of, read_outcome, book_parts, text_of, read_as_of, read_of, write_of};

use notes::{BLANK, Note};
use shelf::{MOST, Outcome, Refusal};
use text::lines;

// Room for any book, and more.
pub const TEXT_ROOM: usize = 20480;

// The note of the line that a text begins with, where it may stand right after `last`.
fn next_note(text: &[u8], last: &Note) -> Option<Note>
    ensures { result ≡ standing last.now (note_at text.now) }
{
    let note = noteline::note_at(text)?;
    note.follows(last).then_some(note)
}

// The notes of a text, in front of an array, and how many they are.
fn take_notes(text: &[u8], number: u8, notes: &mut [Note; MOST]) -> Result<usize, Refusal>
    ensures { MatchResult result (λ n. (n ≤ most) × (meaning text.now ≡ Book (take n notes.new)))
        (λ refusal. read_outcome number (meaning text.now) ≡ Err refusal) }
{
    let mut rest = text;
    let mut last = BLANK;
    let mut n = 0;
    // What is left of the text is what the definition goes by.
    while !rest.is_empty() {
        let bad_line = Refusal::BadLine {
            book: number,
            line: n as u16 + 1,
        };
        if n == MOST {
            return Err(bad_line);
        }
        let Some(note) = next_note(rest, &last) else {
            return Err(bad_line);
        };
        notes[n] = note;
        last = note;
        n += 1;
        rest = lines::tail_after(rest, lines::LINE_FEED);
    }
    Ok(n)
}

// The notes of a text, into a lent list; a bad line is told as one of the book of this number. They go by way of an array, so that the
// list is as it was also where a later line is bad.
pub fn read_as(text: &[u8], number: u8, book: &mut [Note]) -> Outcome
    ensures { (result ≡ read_as_of number (length book.old) text.now)
        × (book.new ≡ after_of result (notes_of (meaning text.now)) book.old)
        × IfOk result (λ n. n ≤ most) }
{
    if book.len() < MOST {
        return Err(Refusal::NoRoom);
    }
    let mut notes = [BLANK; MOST];
    let n = take_notes(text, number, &mut notes)?;
    book[..n].copy_from_slice(&notes[..n]);
    Ok(n as u32)
}

// The same of a text that is the only one.
pub fn read(text: &[u8], book: &mut [Note]) -> Outcome
    ensures { (result ≡ read_of (length book.old) text.now)
        × (book.new ≡ after_of result (notes_of (meaning text.now)) book.old)
        × IfOk result (λ n. n ≤ most) }
{
    read_as(text, 1, book)
}

// Writes the lines of notes, and returns the place after them. A part without room is left out. It promises too how long the text of a
// book can be: 78 bytes for each of 256 notes.
pub fn put_lines(out: &mut [u8], notes: &[Note]) -> usize
    ensures { (Wrotes out.old 0 (book_parts notes.now) out.new result)
        × (first_bad notes.now ≡ None → length (text_of notes.now) ≤ 19968) }
{
    let mut at = 0;
    for note in notes {
        at = noteline::put_line(out, at, note);
    }
    at
}

// The text of a book, into a lent buffer.
pub fn write(book: &[Note], text: &mut [u8]) -> Outcome
    ensures { (result ≡ write_of (length text.old) book.now)
        × (text.new ≡ after_of result (text_of book.now) text.old) }
{
    if text.len() < TEXT_ROOM {
        return Err(Refusal::NoRoom);
    }
    if let Some(line) = shelf::first_bad(book) {
        return Err(Refusal::BadLine { book: 1, line });
    }
    Ok(put_lines(text, book) as u32)
}
