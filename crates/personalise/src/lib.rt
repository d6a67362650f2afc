// Personalisation, 01: the fresh card of a good sheet, and its image. The values are read again by their line's number, so that no
// state is carried.
#![tactic(auto, unfolding(crate::specs::Personalise::value_of, crate::specs::Personalise::sheet_codes, crate::specs::Personalise::sheet_fixed, crate::specs::Personalise::sheet_flags, crate::specs::Personalise::sheet_card, crate::specs::Personalise::personalised, sheet::specs::Sheet::some_line))]

ghost use Rattle.std.specs.Prelude.{◌≡◌};
ghost use Rattle.wire.specs.Wire.{pad};
ghost use Rattle.text.specs.Text.{unhex};
ghost use Rattle.sheet.specs.Sheet.{flag_of};
ghost use Rattle.personalise.specs.Personalise.{value_of, sheet_codes, sheet_fixed, sheet_flags, sheet_card, personalised};

use card::{Card, Codes, Fixed, Flags, layout};
use text::lines;

// The answer for an image buffer that is too short. Answers are numbers, as C has them.
pub const NO_ROOM: u32 = 99;

// The value of line k.
fn value_of(sheet: &[u8], k: u32) -> &[u8]
    ensures { result.now ≡ value_of k sheet.now }
{
    lines::tail_after(lines::line_of(sheet, k), lines::TAB)
}

// The bytes that the digits of line k spell, in their room.
fn hex_at<const N: usize>(sheet: &[u8], k: u32) -> [u8; N]
    ensures { result ≡ pad N (unhex (value_of k sheet.now)) }
{
    let mut bytes = [0u8; N];
    text::unhex(value_of(sheet, k), &mut bytes, 0);
    bytes
}

fn flag_at(sheet: &[u8], k: u32) -> u8
    ensures { result ≡ flag_of (value_of k sheet.now) }
{
    sheet::flag_of(value_of(sheet, k))
}

fn codes_of(sheet: &[u8]) -> Codes
    ensures { result ≡ sheet_codes sheet.now }
{
    Codes {
        pin1: hex_at(sheet, 2),
        pin2: hex_at(sheet, 3),
    }
}

fn fixed_of(sheet: &[u8]) -> Fixed
    ensures { result ≡ sheet_fixed sheet.now }
{
    Fixed {
        cid: hex_at(sheet, 1),
        cvc: wire::padded(value_of(sheet, 4)),
        curve: sheet::curve_of(value_of(sheet, 5)),
        max: sheet::max_of(value_of(sheet, 6)),
        seed: hex_at(sheet, 14),
        pause: sheet::pause_of(value_of(sheet, 15)),
    }
}

fn flags_of(sheet: &[u8]) -> Flags
    ensures { result ≡ sheet_flags sheet.now }
{
    Flags {
        reusable: flag_at(sheet, 7),
        usecvc: flag_at(sheet, 8),
        setpin1: flag_at(sheet, 9),
        setpin2: flag_at(sheet, 10),
        nopurge: flag_at(sheet, 11),
        replay: flag_at(sheet, 12),
        active: flag_at(sheet, 13),
    }
}

// The fresh card that a good sheet describes.
pub fn card_of(sheet: &[u8]) -> Card
    ensures { result ≡ sheet_card sheet.now }
{
    Card::fresh(fixed_of(sheet), flags_of(sheet), codes_of(sheet))
}

// Writes the image of the fresh card that the sheet describes, and answers 0; the number of the first bad line, or 99 for a
// buffer without room for an image, leaves the buffer as it is.
pub fn personalise(sheet: &[u8], image: &mut [u8]) -> u32
    ensures { (result ≡ (personalised sheet.now image.old).answer)
        × (image.new ≡ (personalised sheet.now image.old).image) }
{
    if image.len() < layout::IMAGE_ROOM {
        return NO_ROOM;
    }
    if let Some(line) = sheet::first_bad(sheet) {
        return line;
    }
    writing::write(card_of(sheet), image);
    0
}
