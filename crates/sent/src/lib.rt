// The fields of a payload, found by one walk: for each tag that has a place where its first value stands, and whether it stands twice.
// Nothing walks the payload again.
#![tactic(auto, unfolding(crate::specs::Sent::marked, crate::specs::Sent::noted, crate::specs::Sent::lookup, crate::specs::Sent::often, crate::specs::Sent::view_by, fields::specs::Fields::has, fields::specs::Fields::val, fields::specs::Fields::holds))]

ghost use Rattle.std.specs.Prelude.{◌≡◌, replicate, ◌<◌};
ghost use Rattle.fields.specs.Fields.{has, val, holds};
ghost use Rattle.sent.specs.Sent.{places, words, marked, with_mark, unmarked, noted, Filled, lookup, view, Walked, unwalked};

use fields::{Step, Times};

// Tags below this have a place. It holds a value's start and its length in 16 bits each, and is 0 where the tag is absent: one word a tag,
// so that clearing them costs little.
pub const PLACES: usize = 93;

// Behind the places stands a mark for each tag that stands twice, 32 in a word.
pub const WORDS: usize = 96;

pub type Places = [u32; WORDS];

// A payload that was walked: its bytes, what the walk noted, and whether it ends at a field's end.
#[derive(Drop)]
pub struct Sent<'a> {
    pub payload: &'a [u8],
    pub places: Places,
    pub whole: bool,
}

// No tag seen yet.
// It stands beside walk, and so does fill: they promise of any places, and walk is made of them.
pub fn none() -> Places
    ensures { result ≡ replicate words 0 }
{
    [0u32; WORDS]
}

fn is_marked(at: &Places, t: usize) -> bool
    requires { t < places }
    ensures { result ≡ marked at.now t }
{
    (at[PLACES + t / 32] >> (t % 32)) % 2 == 1
}

fn mark(at: &mut Places, t: usize)
    requires { t < places }
    ensures { at.new ≡ with_mark at.old t }
{
    let w = PLACES + t / 32;
    at[w] = at[w] | 1 << (t % 32);
}

fn note(at: &mut Places, tag: u8, start: usize, len: usize)
    ensures { at.new ≡ noted at.old tag start len }
{
    let t = tag as usize;
    if t < PLACES {
        if at[t] == 0 {
            at[t] = (start % 65536) as u32 * 65536 + (len % 65536) as u32;
        } else {
            mark(at, t);
        }
    }
}

// The walk: notes the first value with each tag, marks a tag that it meets again, and tells whether the payload ends at a field's end.
// A step that is no field ends it in two ways, so that it is a loop and no `while let`.
pub fn fill(p: &[u8], at: &mut Places) -> bool
    ensures { Filled p.now at.old result at.new }
{
    let mut here: usize = 0;
    loop {
        match reader::step(p, here) {
            Step::Field {
                tag,
                start,
                len,
                next,
            } => {
                note(at, tag, start, len);
                here = next;
            }
            Step::Bad => return false,
            Step::End => return true,
        }
    }
}

impl<'a> Sent<'a> {
    // A payload that is not walked yet.
    pub fn new(payload: &'a [u8]) -> Sent<'a>
        ensures { result ≡ unwalked payload.entry }
    {
        Sent {
            payload,
            places: none(),
            whole: false,
        }
    }

    // Where it stands, since a payload that is walked and then handed over costs a copy of its places.
    pub fn walk(&mut self)
        ensures { Walked self.old self.new }
    {
        self.whole = fill(self.payload, &mut self.places);
    }

    // By the places that the walk found; for a tag that has none, by a walk.
    fn find(&self, tag: u8) -> Option<(usize, usize)>
        ensures { result ≡ lookup self.now.payload.now self.now.places tag }
    {
        let t = tag as usize;
        if PLACES <= t {
            return fields::find(self.payload, tag);
        }
        match self.places[t] {
            0 => None,
            x => Some(((x / 65536) as usize, (x % 65536) as usize)),
        }
    }

    // Whether the field is there.
    pub fn has(&self, tag: u8) -> bool
        ensures { result ≡ has tag (view self.now) }
    {
        matches!(self.find(tag), Some(_))
    }

    // How often the field is there.
    pub fn times(&self, tag: u8) -> Times
        ensures { result ≡ (view self.now).times tag }
    {
        let t = tag as usize;
        if PLACES <= t {
            fields::stands(self.payload, tag)
        } else if is_marked(&self.places, t) {
            Times::Twice
        } else if self.places[t] == 0 {
            Times::Absent
        } else {
            Times::Once
        }
    }

    // Whether no tag that has a place stands twice.
    pub fn none_twice(&self) -> bool
        ensures { result ≡ unmarked self.now.places }
    {
        self.places[PLACES] | self.places[PLACES + 1] | self.places[PLACES + 2] == 0
    }

    // The value of the field, as a part of the payload; nothing where it is absent.
    pub fn value(&self, tag: u8) -> &'a [u8]
        ensures { result.now ≡ val tag (view self.now) }
    {
        match self.find(tag) {
            Some((start, len)) => wire::part(self.payload, start, len),
            None => &self.payload[..0],
        }
    }

    // Whether the field is there and holds the code.
    pub fn holds(&self, tag: u8, code: &[u8]) -> bool
        ensures { result ≡ holds tag (view self.now) code.now }
    {
        self.has(tag) && wire::equal(self.value(tag), code)
    }
}
