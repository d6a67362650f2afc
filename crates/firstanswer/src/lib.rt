// What firstread prints, 01 "The personalisation sheet": READ_CARD's response for the fresh card of a sheet, or the number of the
// sheet's first bad line.
#![tactic(auto)]

ghost use Rattle.std.specs.Prelude.{◌≡◌, [], ◌∷◌};
ghost use Rattle.wire.specs.Wire.{Wrotes};
ghost use Rattle.text.specs.Text.{hex_of};
ghost use Rattle.card.specs.Image.{encode};
ghost use Rattle.printing.specs.Printing.{feed};
ghost use Rattle.firstanswer.specs.First.{first_request, first_response, first_parts};

use card::{Card, Codes, layout};
use manual::tag;
use text::lines;

// How much of an input a program reads. A good sheet is shorter, so that what follows cannot change the answer: `front_enough` in
// `firstbytes`.
pub const SHEET_ROOM: usize = 4096;

// Room for any line: a response in hex and a line feed, `line_fits`.
pub const LINE_ROOM: usize = 2 * manual::RESPONSE_ROOM + 1;

// INS of READ_CARD.
// The byte itself, as it is sent.
const READ_CARD: u8 = 0xF2;

// The request's one field, with its tag and length, and the whole request, with CLA, INS, P1, P2 and Lc.
const FIELD_SIZE: usize = 2 + Codes::PIN_SIZE;

const REQUEST_SIZE: usize = 5 + FIELD_SIZE;

#[tactic(auto, using(crate::proofs::Laws::request_written))]
fn request(pin: &[u8; Codes::PIN_SIZE]) -> [u8; REQUEST_SIZE]
    ensures { result ≡ first_request pin.now }
{
    let mut request = [0u8; REQUEST_SIZE];
    let head = [0x00, READ_CARD, 0x00, 0x00, FIELD_SIZE as u8];
    let at = wire::put_bytes(&mut request, 0, &head);
    fields::put_field(&mut request, at, tag::PIN1, pin);
    request
}

// READ_CARD's response for a card, under its PIN1, as a line.
fn put_response(card: Card, out: &mut [u8]) -> usize
    ensures { Wrotes out.old 0 (hex_of (first_response (encode card) card.codes.pin1) ∷ feed ∷ []) out.new result }
{
    let mut image = [0u8; layout::IMAGE_ROOM];
    writing::write(card, &mut image);
    let image = &image[..layout::IMAGE_SIZE];
    let request = request(&card.codes.pin1);
    let draw = [0u8; manual::DRAW_SIZE];
    let mut response = [0u8; manual::RESPONSE_ROOM];
    let mut next = [0u8; layout::IMAGE_ROOM];
    let o = practice::settle(image, &request, &draw, b"", &mut response, &mut next);
    let at = text::put_hex(out, 0, wire::part(&response, 0, o.length as usize));
    wire::put8(out, at, lines::LINE_FEED)
}

// Writes the line that is printed for a sheet at the front of the buffer, and returns its length. A part without room is left out.
#[tactic(auto, unfolding(crate::specs::First::first_parts, sheet::specs::Sheet::some_line, personalise::specs::Personalise::sheet_card, card::specs::Values::fresh))]
pub fn answer(sheet: &[u8], out: &mut [u8]) -> usize
    ensures { Wrotes out.old 0 (first_parts sheet.now) out.new result }
{
    match sheet::first_bad(sheet) {
        Some(line) => printing::put_bad(out, line),
        None => put_response(personalise::card_of(sheet), out),
    }
}
