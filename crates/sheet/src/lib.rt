// The personalisation sheet, 01: lines, each name, tab, value, line feed; which of them is the first bad one, and where in a file a
// sheet ends.
#![tactic(auto, unfolding(crate::specs::Sheet::curve_of, crate::specs::Sheet::count_of, crate::specs::Sheet::max_of, crate::specs::Sheet::flag_of, crate::specs::Sheet::pause_of, crate::specs::Sheet::is_cvc, crate::specs::Sheet::is_curve, crate::specs::Sheet::is_max, crate::specs::Sheet::is_flag, crate::specs::Sheet::up_to, crate::specs::Sheet::is_pause, crate::specs::Sheet::no_row, crate::specs::Sheet::row_of, crate::specs::Sheet::good_row, crate::specs::Sheet::good_line, crate::specs::Sheet::is_pause_line, crate::specs::Sheet::has_pause, crate::specs::Sheet::belongs, crate::specs::Sheet::size_with, crate::specs::Sheet::line_after, crate::specs::Sheet::some_line, crate::specs::Sheet::optional, crate::specs::Sheet::bad_after, text::specs::Lines::from_line))]

ghost use Rattle.std.specs.Prelude.{◌≡◌, ◌≤◌, cond, ltb, suc};
ghost use Rattle.sheet.specs.Sheet.{is_hex_of, is_cvc, curve_of, is_curve, count_of, max_of, is_max, flag_of, is_flag, pause_of, is_pause};
ghost use Rattle.sheet.specs.Sheet.{sheet_lines, row_of, value_in, good_row, good_line, bad_after, optional, some_line, first_bad, belongs, is_pause_line, has_pause, line_after};
ghost use Rattle.text.specs.Lines.{start_of};

use card::Fixed;
use text::lines;

// The lines of a sheet that must be there. A pause may follow them.
pub const LINES: u32 = 14;

// The values: what each spells, and 0 where it is none, of a flag 2, so that the card of a sheet is said for every text.

pub fn curve_of(v: &[u8]) -> u8
    ensures { result ≡ curve_of v.now }
{
    if wire::equal(v, b"secp256k1") {
        Fixed::SECP256K1
    } else if wire::equal(v, b"ed25519") {
        Fixed::ED25519
    } else {
        0
    }
}

fn count_of(n: Option<u32>) -> u32
    ensures { result ≡ count_of n }
{
    match n {
        Some(x) => x,
        None => 0,
    }
}

pub fn max_of(v: &[u8]) -> u32
    ensures { result ≡ max_of v.now }
{
    count_of(text::number_of(v))
}

pub fn flag_of(v: &[u8]) -> u8
    ensures { result ≡ flag_of v.now }
{
    if wire::equal(v, b"0") {
        0
    } else if wire::equal(v, b"1") {
        1
    } else {
        2
    }
}

// The pause, in seconds.
pub fn pause_of(v: &[u8]) -> u8
    ensures { result ≡ pause_of v.now }
{
    (count_of(text::number_of(v)) % 256) as u8
}

// Whether a value is one of its kind.

#[tactic(auto, unfolding(crate::specs::Sheet::is_hex_of))]
fn is_hex_of(digits: usize, v: &[u8]) -> bool
    ensures { result ≡ is_hex_of digits v.now }
{
    v.len() == digits && text::is_hex(v)
}

fn is_cvc(v: &[u8]) -> bool
    ensures { result ≡ is_cvc v.now }
{
    v.len() == 3 && text::is_digits(v)
}

fn is_curve(v: &[u8]) -> bool
    ensures { result ≡ is_curve v.now }
{
    1 <= curve_of(v)
}

fn is_max(v: &[u8]) -> bool
    ensures { result ≡ is_max v.now }
{
    1 <= max_of(v)
}

fn is_flag(v: &[u8]) -> bool
    ensures { result ≡ is_flag v.now }
{
    flag_of(v) <= 1
}

fn is_pause(v: &[u8]) -> bool
    ensures { result ≡ is_pause v.now }
{
    matches!(text::number_of(v), Some(n) if n <= Fixed::MOST_PAUSE as u32)
}

// The lines in their order.
fn good_row(line: u32, name: &[u8], value: &[u8]) -> bool
    ensures { result ≡ good_row (row_of line) name.now value.now }
{
    match line {
        1 => wire::equal(name, b"cid") && is_hex_of(16, value),
        2 => wire::equal(name, b"pin1") && is_hex_of(64, value),
        3 => wire::equal(name, b"pin2") && is_hex_of(64, value),
        4 => wire::equal(name, b"cvc") && is_cvc(value),
        5 => wire::equal(name, b"curve") && is_curve(value),
        6 => wire::equal(name, b"max") && is_max(value),
        7 => wire::equal(name, b"reusable") && is_flag(value),
        8 => wire::equal(name, b"usecvc") && is_flag(value),
        9 => wire::equal(name, b"setpin1") && is_flag(value),
        10 => wire::equal(name, b"setpin2") && is_flag(value),
        11 => wire::equal(name, b"nopurge") && is_flag(value),
        12 => wire::equal(name, b"replay") && is_flag(value),
        13 => wire::equal(name, b"active") && is_flag(value),
        14 => wire::equal(name, b"seed") && is_hex_of(32, value),
        _ => false,
    }
}

// Whether the text begins with a good line of that number. Its end is looked for twice, and not for each part: a line may be as long as
// the text.
fn good_line(line: u32, s: &[u8]) -> bool
    ensures { result ≡ good_line (row_of line) s.now }
{
    if !lines::is_ended(s) {
        return false;
    }
    let all = lines::head_to(s, lines::LINE_FEED);
    good_row(
        line,
        lines::head_to(all, lines::TAB),
        lines::tail_after(all, lines::TAB),
    )
}

// Whether the text begins with a good pause line.
pub fn is_pause_line(s: &[u8]) -> bool
    ensures { result ≡ is_pause_line s.now }
{
    if !lines::is_ended(s) {
        return false;
    }
    let all = lines::head_to(s, lines::LINE_FEED);
    wire::equal(lines::head_to(all, lines::TAB), b"pause")
        && is_pause(lines::tail_after(all, lines::TAB))
}

// The pause of a line that begins with one.
pub fn pause_in(s: &[u8]) -> u8
    ensures { result ≡ pause_of (value_in s.now) }
{
    pause_of(lines::tail_after(lines::head_to(s, lines::LINE_FEED), lines::TAB))
}

// Whether a pause stands behind the lines that must be there.
pub fn has_pause(sheet: &[u8]) -> bool
    ensures { result ≡ has_pause sheet.now }
{
    is_pause_line(wire::rest(sheet, lines::start_of(sheet, LINES + 1)))
}

// The line that begins at a place, where bytes stand there.
fn line_at(line: u32, at: usize, size: usize) -> Option<u32>
    requires { 1 ≤ line }
    ensures { result ≡ some_line (cond (ltb at size) line 0) }
{
    if at < size { Some(line) } else { None }
}

// What follows the lines that must be there, whose end is at `at`: a good pause is one line more, and then no bytes may stand.
fn after_required(sheet: &[u8], at: usize) -> Option<u32>
    requires { at ≡ start_of (suc sheet_lines) sheet.now }
    ensures { result ≡ some_line (bad_after optional (suc sheet_lines) sheet.now) }
{
    if is_pause_line(wire::rest(sheet, at)) {
        return line_at(LINES + 2, lines::next_line(sheet, at), sheet.len());
    }
    line_at(LINES + 1, at, sheet.len())
}

// The number of the first bad line, or of the line after the last where bytes stand there; none of a good sheet. It is yielded by the
// break of a loop, a form that 01 names.
pub fn first_bad(sheet: &[u8]) -> Option<u32>
    ensures { result ≡ some_line (first_bad sheet.now) }
{
    let mut at = 0;
    let mut line = 1;
    loop {
        if LINES < line {
            break after_required(sheet, at);
        }
        if !good_line(line, wire::rest(sheet, at)) {
            break Some(line);
        }
        at = lines::next_line(sheet, at);
        line += 1;
    }
}

// Whether, after so many lines of a file that begins with a sheet, the next one is still one that must be there.
pub fn belongs(lines: u32) -> bool
    ensures { result ≡ belongs lines }
{
    lines < LINES
}

// The number in the file of the line that stands after the sheet, with its pause or without, and so many lines more.
pub fn line_after(paused: bool, more: u16) -> u32
    ensures { result ≡ line_after paused more }
{
    LINES + paused as u32 + more as u32 + 1
}
