// A recording, Ask 4: a personalisation sheet, then a line for each tap. It is played a line at a time; what lasts from line to line
// is a small struct and the card's image. A call that is lent an image of another length, or no room for a line, does nothing.
#![tactic(auto)]

ghost use Rattle.std.specs.Prelude.{◌≡◌, ◌≤◌, ◌<◌, false, length};
ghost use Rattle.wire.specs.Wire.{alike};
ghost use Rattle.manual.specs.Words.{response_room};
ghost use Rattle.manual.specs.Settle.{over};
ghost use Rattle.text.specs.Text.{unhex};
ghost use Rattle.tapline.specs.Line.{longest, recorded_in};
ghost use Rattle.printing.specs.Printing.{told_as, tap_text, bad_text};
ghost use Rattle.recording.specs.Recording.{most_taps};
ghost use Rattle.recording.specs.Play.{last_text};
ghost use Rattle.recording.specs.Step.{start_with, start, ended_at, played, tapped, is_next, is_first_pause, pausing, stepped, started, finished};
ghost use Rattle.recording.specs.Step.{settled_in, renewed, Gave, Says, line_room, room_for, left_by, wrote, leaves};

use card::layout;
use manual::Outcome;
use sums::Sums;
use text::lines;

// The most taps of a recording.
const MOST_TAPS: u16 = 10000;

// Room for any line that is printed: a response in hex, and what stands around it.
pub const LINE_ROOM: usize = 2 * manual::RESPONSE_ROOM + 256;

// Room for what a field spells, of the longest line.
const FIELD_ROOM: usize = tapline::LONGEST / 2;

// A card's image, of which the length is known.
type Image = [u8; layout::IMAGE_SIZE];

// What lasts from line to line: the taps so far and their sums, whether the sheet had a pause, and whether the play has ended.
// On an ended play a call has to do nothing, so that the flag is no type.
#[derive(Clone, Copy)]
pub struct Play {
    pub taps: u16,
    pub sums: Sums,
    pub paused: bool,
    pub ended: bool,
}

// The play after a call, and the length of what the call printed.
// The player has the same of itself: a field that is a play, or a player, by name.
#[derive(Drop)]
pub struct Turn {
    pub play: Play,
    pub length: usize,
}

// Whether an image of that length, and room of that length to print into, will do.
// The room is asked of the caller, as in `practice`: it is lent to be changed.
#[tactic(auto, unfolding(crate::specs::Step::room_for))]
pub fn has_place(img: usize, out: usize) -> bool
    ensures { result ≡ room_for img out }
{
    img == layout::IMAGE_SIZE && LINE_ROOM <= out
}

// A call that prints nothing.
fn quiet(play: Play) -> Turn
    ensures { result ≡ record { play = play; length = 0 } }
{
    Turn { play, length: 0 }
}

// Before the first tap.
fn play_with(paused: bool) -> Play
    ensures { result ≡ start_with paused }
{
    Play {
        taps: 0,
        sums: sums::none(),
        paused,
        ended: false,
    }
}

pub fn new_play() -> Play
    ensures { result ≡ start }
{
    play_with(false)
}

fn end(play: Play) -> Play
    ensures { result ≡ ended_at play }
{
    Play {
        ended: true,
        ..play
    }
}

// A bad line ends the play.
fn stop(play: Play, bad: u32, out: &mut [u8]) -> Turn
    requires { line_room ≤ length out.old }
    ensures { (result ≡ record { play = ended_at play; length = length (bad_text bad) }) × (out.new ≡ over (bad_text bad) out.old) }
{
    let length = printing::put_bad(out, bad);
    Turn {
        play: end(play),
        length,
    }
}

// The card goes on with the next image, or, after a refusal by number, as it was.
fn renew(number: u8, next: &[u8; layout::IMAGE_ROOM], img: &mut Image)
    ensures { img.new ≡ renewed number next.now img.old }
{
    if number == 0 {
        img.copy_from_slice(&next[..layout::IMAGE_SIZE]);
    }
}

// The bytes that a field spells, in a room for them.
fn bytes_of<'a>(field: &[u8], room: &'a mut [u8]) -> &'a [u8]
    requires { length (unhex field.now) ≤ length room.old }
    ensures { result.now ≡ unhex field.now }
{
    let n = text::unhex(field, room, 0);
    wire::part(room, 0, n)
}

// Settles a request with the draw and the answers of its line, and renews the image.
fn settle(request: &[u8], l: &[u8], img: &mut Image, response: &mut [u8]) -> Outcome
    requires { length l.now ≤ longest }
    ensures { Gave (settled_in img.old request.now l.now response.old) img.old
        result response.new img.new }
{
    let mut draw_room = [0u8; FIELD_ROOM];
    let draw = bytes_of(tapline::draw(l), &mut draw_room);
    let mut answers_room = [0u8; FIELD_ROOM];
    let answers = bytes_of(tapline::answers(l), &mut answers_room);
    let mut next = [0u8; layout::IMAGE_ROOM];
    let o = practice::settle(img, request, draw, answers, response, &mut next);
    renew(o.number, &next, img);
    o
}

// What is printed of a tap.
fn print_tap(n: u32, number: u8, response: &[u8], expected: &[u8], out: &mut [u8]) -> usize
    requires { (length response.now ≤ response_room) × (line_room ≤ length out.old) }
    ensures { Says (tap_text n (alike expected.now (told_as number response.now)) (told_as number response.now))
        out.old result out.new }
{
    let mut text = [0u8; LINE_ROOM];
    let t = printing::put_told(&mut text, number, response);
    let told = wire::part(&text, 0, t);
    printing::put_tap(out, n, printing::is_same(expected, told), told)
}

// A tap, whose line is l.
fn tap(play: Play, l: &[u8], img: &mut Image, out: &mut [u8]) -> Turn
    requires { (play.taps < most_taps) × (length l.now ≤ longest) × (line_room ≤ length out.old) }
    ensures { left_by result img.new out.new
        ≡ wrote (tapped play.paused (played play img.old) (recorded_in l.now)) out.old }
{
    let mut request_room = [0u8; FIELD_ROOM];
    let request = bytes_of(tapline::request(l), &mut request_room);
    let mut response = [0u8; manual::RESPONSE_ROOM];
    let o = settle(request, l, img, &mut response);
    let said = wire::part(&response, 0, o.length as usize);
    let taps = play.taps + 1;
    let length = print_tap(taps as u32, o.number, said, tapline::expected(l), out);
    Turn {
        play: Play {
            taps,
            sums: sums::count(play.sums, request, said),
            ended: false,
            ..play
        },
        length,
    }
}

fn is_next(taps: u16, line: &[u8]) -> bool
    ensures { result ≡ is_next taps line.now }
{
    taps < MOST_TAPS && tapline::is_tap_line(line)
}

fn is_first_pause(play: Play, line: &[u8]) -> bool
    ensures { result ≡ is_first_pause play line.now }
{
    play.taps == 0 && !play.paused && sheet::is_pause_line(line)
}

// The sheet's pause, which the card gets behind its other values.
fn pause(play: Play, line: &[u8], img: &mut Image) -> Turn
    requires { play.ended ≡ false }
    ensures { (result ≡ record { play = (pausing play img.old line.now).play; length = 0 })
        × (img.new ≡ (pausing play img.old line.now).image) }
{
    writing::anew::pause(img, sheet::pause_in(line));
    quiet(Play {
        paused: true,
        ..play
    })
}

#[tactic(auto, unfolding(crate::specs::Step::started, sheet::specs::Sheet::some_line))]
fn fresh_card(sheet: &[u8], img: &mut Image, out: &mut [u8]) -> Turn
    requires { line_room ≤ length out.old }
    ensures { left_by result img.new out.new ≡ wrote (started sheet.now img.old) out.old }
{
    match sheet::first_bad(sheet) {
        Some(line) => stop(new_play(), line, out),
        None => {
            writing::write(personalise::card_of(sheet), img);
            quiet(play_with(sheet::has_pause(sheet)))
        }
    }
}

// The whole sheet: a fresh card, or the number of its first bad line.
#[tactic(auto, unfolding(crate::specs::Step::leaves, crate::specs::Step::room_for))]
pub fn begin(sheet: &[u8], img: &mut [u8], out: &mut [u8]) -> Turn
    ensures { left_by result img.new out.new
        ≡ leaves (ended_at start) img.old out.old (started sheet.now img.old) }
{
    if out.len() < LINE_ROOM {
        return quiet(end(new_play()));
    }
    let Some(img) = img.as_mut_array() else {
        return quiet(end(new_play()));
    };
    fresh_card(sheet, img, out)
}

#[tactic(auto, unfolding(crate::specs::Step::stepped, tapline::specs::Line::recorded), using(crate::proofs::Laws::next_tap))]
fn play_line(play: Play, line: &[u8], img: &mut Image, out: &mut [u8]) -> Turn
    requires { (play.ended ≡ false) × (line_room ≤ length out.old) }
    ensures { left_by result img.new out.new ≡ wrote (stepped play img.old line.now) out.old }
{
    if is_first_pause(play, line) {
        pause(play, line, img)
    } else if is_next(play.taps, line) {
        tap(play, lines::head_to(line, lines::LINE_FEED), img, out)
    } else {
        stop(play, sheet::line_after(play.paused, play.taps), out)
    }
}

// One more line, with its line feed.
#[tactic(auto, unfolding(crate::specs::Step::leaves, crate::specs::Step::room_for, crate::specs::Step::stepped))]
pub fn step(play: Play, line: &[u8], img: &mut [u8], out: &mut [u8]) -> Turn
    ensures { left_by result img.new out.new
        ≡ leaves play img.old out.old (stepped play img.old line.now) }
{
    if play.ended || out.len() < LINE_ROOM {
        return quiet(play);
    }
    let Some(img) = img.as_mut_array() else {
        return quiet(play);
    };
    play_line(play, line, img, out)
}

fn print_sums(s: Sums, img: &[u8], out: &mut [u8]) -> usize
    requires { line_room ≤ length out.old }
    ensures { Says (last_text img.now s) out.old result out.new }
{
    let wallet = image::wallet(img);
    printing::put_sums(
        out,
        wallet.remaining,
        wallet.signed,
        sums::live_signs(s),
        s.hashes,
    )
}

#[tactic(auto, unfolding(crate::specs::Step::finished))]
fn close(play: Play, img: &[u8], out: &mut [u8]) -> Turn
    requires { (play.ended ≡ false) × (line_room ≤ length out.old) }
    ensures { left_by result img.now out.new ≡ wrote (finished play img.now) out.old }
{
    let length = print_sums(play.sums, img, out);
    Turn {
        play: end(play),
        length,
    }
}

// The end of the recording: the sums, where no line has ended the play.
#[tactic(auto, unfolding(crate::specs::Step::leaves, crate::specs::Step::room_for, crate::specs::Step::finished))]
pub fn finish(play: Play, img: &[u8], out: &mut [u8]) -> Turn
    ensures { left_by result img.now out.new ≡ leaves play img.now out.old (finished play img.now) }
{
    if play.ended || !has_place(img.len(), out.len()) {
        quiet(play)
    } else {
        close(play, img, out)
    }
}
