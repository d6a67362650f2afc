// Fields, 01 "Requests and fields": tag, length, value. What stands at a place of a payload, the first field with a tag and
// how often the tag stands, the writer; all total.
#![tactic(auto)]

ghost use Rattle.std.specs.Prelude.{◌≡◌, ◌≤◌, ◌<◌, ◌++◌, length};
ghost use Rattle.wire.specs.Wire.{Wrote, be1, be2, be4};
ghost use Rattle.fields.specs.Fields.{step_at, field_at, rest_from, first_in, copies, times_of, met, tlv};

// What stands at a position of a payload: three things, so that neither an Option nor a Result says it.
#[derive(Clone, Copy)]
pub enum Step {
    Field {
        tag: u8,
        start: usize,
        len: usize,
        next: usize,
    },
    Bad,
    End,
}

// How often a tag stands in a payload; Twice is two times or more.
// Three, as a step.
#[derive(Clone, Copy)]
pub enum Times {
    Absent,
    Once,
    Twice,
}

// The field whose tag stands at `at`, and whose value starts at b and has n bytes.
#[tactic(auto, unfolding(crate::specs::Fields::field_at))]
fn field_at(s: &[u8], at: usize, b: usize, n: usize) -> Step
    requires { (at < length s.now) × (b ≤ length s.now) × (n < 65536) }
    ensures { result ≡ field_at s.now at b n }
{
    let next = b + n;
    if next <= s.len() {
        Step::Field {
            tag: s[at],
            start: b,
            len: n,
            next,
        }
    } else {
        Step::Bad
    }
}

pub fn step_at(s: &[u8], at: usize) -> Step
    ensures { result ≡ step_at s.now at }
{
    if s.len() <= at {
        return Step::End;
    }
    match &s[at..] {
        [_, n, ..] if *n < 255 => field_at(s, at, at + 2, *n as usize),
        [_, _, high, low, ..] => field_at(s, at, at + 4, *high as usize * 256 + *low as usize),
        _ => Step::Bad,
    }
}

// Where the first value with the tag stands, its start and its length, by a walk of its own.
// A walk, here and in stands: each step goes on where the field ends. As an iterator it would call std, into which `computed` cannot look.
pub fn find(s: &[u8], tag: u8) -> Option<(usize, usize)>
    ensures { result ≡ first_in tag (rest_from s.now 0) }
{
    let mut at = 0;
    while let Step::Field {
        tag: t,
        start,
        len,
        next,
    } = step_at(s, at)
    {
        if t == tag {
            return Some((start, len));
        }
        at = next;
    }
    None
}

// One field more is met: of two and more nothing else is told.
fn meet(n: usize, t: u8, tag: u8) -> usize
    ensures { result ≡ met n t tag }
{
    if t == tag && n < 2 { n + 1 } else { n }
}

fn told(n: usize) -> Times
    ensures { result ≡ times_of n }
{
    match n {
        0 => Times::Absent,
        1 => Times::Once,
        _ => Times::Twice,
    }
}

// How often the tag stands, by a walk of its own.
pub fn stands(s: &[u8], tag: u8) -> Times
    ensures { result ≡ times_of (copies tag (rest_from s.now 0)) }
{
    let mut at = 0;
    let mut n = 0;
    while let Step::Field { tag: t, next, .. } = step_at(s, at) {
        n = meet(n, t, tag);
        at = next;
    }
    told(n)
}

// A head and a value, both or neither.
fn put_both(out: &mut [u8], at: usize, head: &[u8], v: &[u8]) -> usize
    ensures { Wrote out.old at (head.now ++ v.now) out.new result }
{
    if !wire::has_room(out.len(), at, head.len() + v.len()) {
        return at;
    }
    let b = wire::put_bytes(out, at, head);
    wire::put_bytes(out, b, v)
}

// A field: tag, length in the short form where it fits, value.
#[tactic(auto, using(crate::proofs::Laws::by_length))]
pub fn put_field(out: &mut [u8], at: usize, tag: u8, v: &[u8]) -> usize
    ensures { Wrote out.old at (tlv tag v.now) out.new result }
{
    let n = v.len();
    if n < 255 {
        put_both(out, at, &[tag, n as u8], v)
    } else if n < 65536 {
        let [high, low] = wire::be2(n as u16);
        put_both(out, at, &[tag, 255, high, low], v)
    } else {
        at
    }
}

// A number as a field, a function for each width: what they share is put_field, and a trait with its bytes for each would be longer.
pub fn put_byte(out: &mut [u8], at: usize, tag: u8, x: u8) -> usize
    ensures { Wrote out.old at (tlv tag (be1 x)) out.new result }
{
    put_field(out, at, tag, &[x])
}

pub fn put_short(out: &mut [u8], at: usize, tag: u8, x: u16) -> usize
    ensures { Wrote out.old at (tlv tag (be2 x)) out.new result }
{
    put_field(out, at, tag, &wire::be2(x))
}

pub fn put_number(out: &mut [u8], at: usize, tag: u8, x: u32) -> usize
    ensures { Wrote out.old at (tlv tag (be4 x)) out.new result }
{
    put_field(out, at, tag, &wire::be4(x))
}
