// An image written: that of a whole card, and a group of one anew where it stands. A write without room changes nothing.
#![tactic(auto)]

pub mod anew;
mod whole;

ghost use Rattle.std.specs.Prelude.{◌≡◌, length};
ghost use Rattle.wire.specs.Wire.{Wrote};
ghost use Rattle.card.specs.Layout.{image_size};
ghost use Rattle.card.specs.Image.{encode};

use card::{Card, layout};

// Writes the image at the front of out, where all of it fits, and returns the place after it.
pub fn write(card: Card, out: &mut [u8]) -> usize
    ensures { (Wrote out.old 0 (encode card) out.new result) × (length (encode card) ≡ image_size) }
{
    if !wire::has_room(out.len(), 0, layout::IMAGE_SIZE) {
        return 0;
    }
    let at = whole::write_codes(card.codes, out, 0);
    whole::write_face(card.face, out, at)
}
