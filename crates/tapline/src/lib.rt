// The line of a tap in a recording, Ask 4: its four fields, parted by tabs, and whether they are what they must be.
#![tactic(auto, unfolding(crate::specs::Line::request_in, crate::specs::Line::draw_in, crate::specs::Line::answers_in, crate::specs::Line::expected_in, crate::specs::Line::is_bytes, crate::specs::Line::is_some, crate::specs::Line::is_draw, crate::specs::Line::is_expected, crate::specs::Line::is_tap, crate::specs::Line::is_tap_line))]

ghost use Rattle.std.specs.Prelude.{◌≡◌};
ghost use Rattle.tapline.specs.Line.{request_in, draw_in, answers_in, expected_in, is_bytes, is_some, is_draw, is_expected, is_tap, is_tap_line};

use text::lines;

// The most bytes of a line before its line feed.
pub const LONGEST: usize = 8192;

pub fn request(l: &[u8]) -> &[u8]
    ensures { result.now ≡ request_in l.now }
{
    lines::head_to(l, lines::TAB)
}

pub fn draw(l: &[u8]) -> &[u8]
    ensures { result.now ≡ draw_in l.now }
{
    lines::head_to(lines::tail_after(l, lines::TAB), lines::TAB)
}

pub fn answers(l: &[u8]) -> &[u8]
    ensures { result.now ≡ answers_in l.now }
{
    draw(lines::tail_after(l, lines::TAB))
}

pub fn expected(l: &[u8]) -> &[u8]
    ensures { result.now ≡ expected_in l.now }
{
    let second = lines::tail_after(l, lines::TAB);
    lines::tail_after(lines::tail_after(second, lines::TAB), lines::TAB)
}

fn is_bytes(v: &[u8]) -> bool
    ensures { result ≡ is_bytes v.now }
{
    v.len() % 2 == 0 && text::is_hex(v)
}

fn is_some(v: &[u8]) -> bool
    ensures { result ≡ is_some v.now }
{
    !v.is_empty() && is_bytes(v)
}

fn is_draw(v: &[u8]) -> bool
    ensures { result ≡ is_draw v.now }
{
    v.len() == 64 && text::is_hex(v)
}

fn is_expected(v: &[u8]) -> bool
    ensures { result ≡ is_expected v.now }
{
    wire::equal(v, b"4") || is_some(v)
}

fn is_tap(l: &[u8]) -> bool
    ensures { result ≡ is_tap l.now }
{
    is_some(request(l)) && is_draw(draw(l)) && is_bytes(answers(l)) && is_expected(expected(l))
}

// Whether a line, with its line feed, is a tap.
pub fn is_tap_line(s: &[u8]) -> bool
    ensures { result ≡ is_tap_line s.now }
{
    let l = lines::head_to(s, lines::LINE_FEED);
    lines::is_ended(s) && l.len() <= LONGEST && is_tap(l)
}
