// A recording played byte by byte, whatever pieces it comes in: bytes are held until they are a whole sheet or a whole line. Room is
// needed for one byte more than the longest line, for an image and for a line that is printed; a call without it does nothing.
#![tactic(auto, unfolding(crate::specs::Feed::played_held, crate::specs::Feed::lines_with, crate::specs::Feed::is_whole, crate::specs::Feed::roomy, crate::specs::Feed::fed, crate::specs::Feed::is_cut, crate::specs::Feed::closed, recording::specs::Step::leaves, sheet::specs::Sheet::belongs))]

ghost use Rattle.std.specs.Prelude.{◌≡◌, [], ◌∷◌, true, length};
ghost use Rattle.wire.specs.Wire.{fit, placed};
ghost use Rattle.recording.specs.Step.{room_for, wrote};
ghost use Rattle.recording.specs.Step as Recording;
ghost use Rattle.player.specs.Feed.{at_first, after, played_held, lines_with, is_whole, left_by, roomy, taken, fed, is_cut, at_end, closed};

use recording::{Play, Turn};
use tapline::LONGEST;
use text::lines;

// One byte more than a line may have.
pub const TEXT_ROOM: usize = LONGEST + 1;

// What lasts from byte to byte: the play, the lines of the sheet so far, and how many bytes are held.
#[derive(Clone, Copy)]
pub struct Player {
    pub play: Play,
    pub lines: u32,
    pub held: usize,
}

// The player after a call, and the length of what the call printed.
#[derive(Drop)]
pub struct Fed {
    pub player: Player,
    pub length: usize,
}

// Before the first byte.
pub fn new() -> Player
    ensures { result ≡ at_first }
{
    Player {
        play: recording::new_play(),
        lines: 0,
        held: 0,
    }
}

fn has_place(text: usize, img: usize, out: usize) -> bool
    ensures { result ≡ roomy text img out }
{
    TEXT_ROOM <= text && recording::has_place(img, out)
}

// The lines of the sheet after a byte.
fn lines_with(b: u8, lines: u32) -> u32
    ensures { result ≡ lines_with b lines }
{
    if b == lines::LINE_FEED && sheet::belongs(lines) {
        lines + 1
    } else {
        lines
    }
}

fn is_whole(lines: u32, n: usize, b: u8) -> bool
    ensures { result ≡ is_whole lines n b }
{
    TEXT_ROOM <= n || b == lines::LINE_FEED && !sheet::belongs(lines_with(b, lines))
}

fn quiet(player: Player) -> Fed
    ensures { result ≡ record { player = player; length = 0 } }
{
    Fed { player, length: 0 }
}

// After a play nothing is held, and the lines that a sheet must have are through.
fn after(t: Turn) -> Fed
    ensures { result ≡ record { player = after t.play; length = t.length } }
{
    Fed {
        player: Player {
            play: t.play,
            lines: sheet::LINES,
            held: 0,
        },
        length: t.length,
    }
}

// What is held is the sheet, or a line.
fn play_held(p: Player, text: &[u8], img: &mut [u8], out: &mut [u8]) -> Turn
    requires { room_for (length img.old) (length out.old) ≡ true }
    ensures { Recording.left_by result img.new out.new
        ≡ wrote (played_held p.play p.lines text.now img.old) out.old }
{
    if sheet::belongs(p.lines) {
        recording::begin(text, img, out)
    } else {
        recording::step(p.play, text, img, out)
    }
}

fn take(p: Player, b: u8, text: &mut [u8], img: &mut [u8], out: &mut [u8]) -> Fed
    requires { room_for (length img.old) (length out.old) ≡ true }
    ensures { left_by result text.new img.new out.new
        ≡ taken p b (fit text.old p.held (b ∷ [])) (placed text.old p.held (b ∷ [])) img.old out.old }
{
    let n = wire::put8(text, p.held, b);
    if is_whole(p.lines, n, b) {
        after(play_held(p, wire::part(text, 0, n), img, out))
    } else {
        quiet(Player {
            lines: lines_with(b, p.lines),
            held: n,
            ..p
        })
    }
}

// One more byte.
pub fn feed(p: Player, b: u8, text: &mut [u8], img: &mut [u8], out: &mut [u8]) -> Fed
    ensures { left_by result text.new img.new out.new ≡ fed p b text.old img.old out.old }
{
    if has_place(text.len(), img.len(), out.len()) {
        take(p, b, text, img, out)
    } else {
        quiet(p)
    }
}

fn is_cut(lines: u32, held: usize) -> bool
    ensures { result ≡ is_cut lines held }
{
    sheet::belongs(lines) || 0 < held
}

fn end(p: Player, text: &[u8], img: &mut [u8], out: &mut [u8]) -> Turn
    requires { room_for (length img.old) (length out.old) ≡ true }
    ensures { Recording.left_by result img.new out.new ≡ wrote (at_end p text.now img.old) out.old }
{
    if is_cut(p.lines, p.held) {
        play_held(p, wire::part(text, 0, p.held), img, out)
    } else {
        recording::finish(p.play, img, out)
    }
}

// The end of the bytes.
pub fn close(p: Player, text: &[u8], img: &mut [u8], out: &mut [u8]) -> Fed
    ensures { left_by result text.now img.new out.new ≡ closed p text.now img.old out.old }
{
    if has_place(text.len(), img.len(), out.len()) {
        after(end(p, text, img, out))
    } else {
        quiet(p)
    }
}
