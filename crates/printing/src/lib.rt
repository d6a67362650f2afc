// The lines that a play prints, Ask 4. All functions are total: a write without room changes nothing. Each promises too how long its
// line can be, so that a caller knows what room there must be.
#![tactic(auto, using(crate::proofs::Laws::told_short), unfolding(crate::specs::Printing::told_as, crate::specs::Printing::sameness))]

ghost use Rattle.std.specs.Prelude.{◌≡◌, ◌+◌, ◌*◌, ◌≤◌, length};
ghost use Rattle.wire.specs.Wire.{alike, Wrote, Wrotes};
ghost use Rattle.printing.specs.Printing.{told_as, sameness, tap_parts, tap_text, sums_parts, sums_text, bad_parts, bad_text};

use text::lines;

// The response, or the number of a refusal without one.
pub fn put_told(out: &mut [u8], number: u8, response: &[u8]) -> usize
    ensures { (Wrote out.old 0 (told_as number response.now) out.new result)
        × (length (told_as number response.now) ≤ 2 * length response.now + 10) }
{
    if number == 0 {
        text::put_hex(out, 0, response)
    } else {
        text::put_decimal(out, 0, number as u32)
    }
}

// A response with which the expected one only begins is another.
pub fn is_same(expected: &[u8], told: &[u8]) -> bool
    ensures { result ≡ alike expected.now told.now }
{
    wire::equal(expected, told)
}

fn put_sameness(out: &mut [u8], at: usize, same: bool) -> usize
    ensures { Wrote out.old at (sameness same) out.new result }
{
    if same {
        wire::put_bytes(out, at, b"same")
    } else {
        wire::put_bytes(out, at, b"other")
    }
}

// Of a tap.
pub fn put_tap(out: &mut [u8], n: u32, same: bool, told: &[u8]) -> usize
    ensures { (Wrotes out.old 0 (tap_parts n same told.now) out.new result)
        × (length (tap_text n same told.now) ≤ length told.now + 18) }
{
    let b = text::put_decimal_then(out, 0, n, lines::TAB);
    let c = put_sameness(out, b, same);
    let d = wire::put8(out, c, lines::TAB);
    let e = wire::put_bytes(out, d, told);
    wire::put8(out, e, lines::LINE_FEED)
}

// Of the sums.
pub fn put_sums(out: &mut [u8], remaining: u32, signed: u32, made: u32, hashes: u32) -> usize
    ensures { (Wrotes out.old 0 (sums_parts remaining signed made hashes) out.new result)
        × (length (sums_text remaining signed made hashes) ≤ 44) }
{
    let a = text::put_decimal_then(out, 0, remaining, lines::TAB);
    let b = text::put_decimal_then(out, a, signed, lines::TAB);
    let c = text::put_decimal_then(out, b, made, lines::TAB);
    text::put_decimal_then(out, c, hashes, lines::LINE_FEED)
}

// Of a line that ends the play.
pub fn put_bad(out: &mut [u8], line: u32) -> usize
    ensures { (Wrotes out.old 0 (bad_parts line) out.new result) × (length (bad_text line) ≤ 16) }
{
    let a = wire::put_bytes(out, 0, b"line");
    let b = wire::put8(out, a, lines::TAB);
    text::put_decimal_then(out, b, line, lines::LINE_FEED)
}
