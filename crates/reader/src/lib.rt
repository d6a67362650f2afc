// A reader that holds the payload and its place, 01 "Requests and fields": a thin form of the field walk on a slice and a number.
// The walk of `sent` calls `step`.
#![tactic(auto)]

ghost use Rattle.std.specs.Prelude.{◌≡◌};
ghost use Rattle.wire.specs.Wire.{part};
ghost use Rattle.fields.specs.Fields.{step_at};

use fields::Step;

#[derive(Clone, Copy)]
pub struct Reader<'a> {
    pub src: &'a [u8],
    pub at: usize,
}

impl<'a> Reader<'a> {
    // A reader at a place of a payload.
    pub fn new(src: &'a [u8], at: usize) -> Reader<'a>
        ensures { (result.src ≡ src.entry) × (result.at ≡ at) }
    {
        Reader { src, at }
    }

    // What stands at the reader's place.
    pub fn next(self) -> Step
        ensures { result ≡ step_at self.entry.src.now self.entry.at }
    {
        fields::step_at(self.src, self.at)
    }

    // The value of a field that it read, as a part of the caller's payload.
    pub fn value(self, start: usize, len: usize) -> &'a [u8]
        ensures { result.now ≡ part self.entry.src.now start len }
    {
        wire::part(self.src, start, len)
    }
}

// What stands at a place of a payload.
pub fn step(s: &[u8], at: usize) -> Step
    ensures { result ≡ step_at s.now at }
{
    Reader::new(s, at).next()
}
