// The line of a note, Ask 8, read and written. All functions are total: a write without room changes nothing.
#![tactic(auto)]

ghost use Rattle.std.specs.Prelude.{◌≡◌, true, ◌≤◌, length};
ghost use Rattle.wire.specs.Wire.{Wrotes};
ghost use Rattle.notes.specs.Notes.{good_of};
ghost use Rattle.noteline.specs.NoteLine.{line_parts, line_of, held, fields_of, note_at};

use notes::Note;
use text::lines;

// The note of these values, where they fit their places; whether it is good is another question.
fn held(tablet: u32, number: u32, hours: u32, text: &[u8]) -> Option<Note>
    ensures { result ≡ held tablet number hours text.now }
{
    if 60 < text.len() {
        return None;
    }
    Some(Note {
        tablet: u8::try_from(tablet).ok()?,
        number: u16::try_from(number).ok()?,
        hours,
        len: text.len() as u8,
        text: wire::padded(text),
    })
}

fn fields(line: &[u8]) -> Option<Note>
    ensures { result ≡ fields_of line.now }
{
    let second = lines::tail_after(line, lines::TAB);
    let third = lines::tail_after(second, lines::TAB);
    held(
        text::number_of(lines::head_to(line, lines::TAB))?,
        text::number_of(lines::head_to(second, lines::TAB))?,
        text::number_of(lines::head_to(third, lines::TAB))?,
        lines::tail_after(third, lines::TAB),
    )
}

// The note of the line that the text begins with.
pub fn note_at(s: &[u8]) -> Option<Note>
    ensures { result ≡ note_at s.now }
{
    if !lines::is_ended(s) {
        return None;
    }
    fields(lines::head_to(s, lines::LINE_FEED))
}

// Writes the line of a note, and returns the place after it. It promises too how long the line of a good note can be, so that a caller
// knows what room there must be.
pub fn put_line(out: &mut [u8], at: usize, note: &Note) -> usize
    ensures { (Wrotes out.old at (line_parts note.now) out.new result)
        × (good_of note.now ≡ true → length (line_of note.now) ≤ 78) }
{
    // A copy of its own, which lies nowhere in what is written: then C needs no memmove for it.
    let text = note.text;
    let a = text::put_decimal_then(out, at, note.tablet as u32, lines::TAB);
    let b = text::put_decimal_then(out, a, note.number as u32, lines::TAB);
    let c = text::put_decimal_then(out, b, note.hours, lines::TAB);
    let d = wire::put_bytes(out, c, wire::part(&text, 0, note.len as usize));
    wire::put8(out, d, lines::LINE_FEED)
}
