// A card's image, once it is tested: all that goes on with it knows how long it is.
ghost use Rattle.std.specs.Prelude.{◌≡◌, length};
ghost use Rattle.card.specs.Layout.{image_size};

use card::layout;

#[derive(Clone, Copy)]
pub struct Whole<'a> {
    pub bytes: &'a [u8],
    pub ghost sized: { length bytes.now ≡ image_size },
}

impl<'a> Whole<'a> {
    // As a slice whose length the compiler knows too: who is handed it reads its values without a test of the length.
    pub(crate) fn sized(self) -> &'a [u8]
        ensures { result.now ≡ self.entry.bytes.now }
    {
        &self.bytes[..layout::IMAGE_SIZE]
    }
}
