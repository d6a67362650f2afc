// Bytes: reads and writes on slices, all total. A write without room changes nothing.
#![tactic(auto)]

ghost use Rattle.std.specs.Prelude.{◌≡◌, ◌&&◌, ◌||◌, not, ◌++◌, ◌+◌, ◌*◌, ◌≤◌, ◌<◌, eqb, length, get_or, take, drop, replicate};
ghost use Rattle.wire.specs.Wire.{part, put, room, Wrote, pad, num16, num32, be1, be2, be4, alike, all_zero};

// The byte at `at`, 0 past the end.
// By a place that is counted; get8 takes one of 32 bits, so that a sum of places cannot overflow.
fn byte_at(s: &[u8], at: usize) -> u8
    ensures { result ≡ get_or s.now at 0 }
{
    if at < s.len() { s[at] } else { 0 }
}

// A number, a function for each width, as in put8 to put32: a trait over the width has an impl for each, which is these again.
pub fn get8(s: &[u8], at: u32) -> u8
    ensures { result ≡ get_or s.now at 0 }
{
    byte_at(s, at as usize)
}

pub fn get16(s: &[u8], at: u16) -> u16
    ensures { result ≡ num16 s.now at }
{
    let i = at as u32;
    (get8(s, i) as u32 * 256 + get8(s, i + 1) as u32) as u16
}

pub fn get32(s: &[u8], at: u16) -> u32
    ensures { result ≡ num32 s.now at }
{
    let i = at as u32;
    let a = get8(s, i) as u32;
    let b = get8(s, i + 1) as u32;
    let c = get8(s, i + 2) as u32;
    a * 16777216 + b * 65536 + c * 256 + get8(s, i + 3) as u32
}

// The len bytes from start, as a part of the caller's slice; nothing where they run past the end.
pub fn part(s: &[u8], start: usize, len: usize) -> &[u8]
    ensures { result.now ≡ part s.now start len }
{
    if start <= s.len() && len <= s.len() - start {
        &s[start..start + len]
    } else {
        &s[..0]
    }
}

// What follows a place: nothing past the end.
pub fn rest(s: &[u8], at: usize) -> &[u8]
    ensures { result.now ≡ drop at s.now }
{
    if at <= s.len() { &s[at..] } else { &s[..0] }
}

// The most bytes that are moved at once: more than an image has.
const SPAN: usize = 4096;

fn copy_each(out: &mut [u8], at: usize, v: &[u8]) -> usize
    requires { at + length v.now ≤ length out.old }
    ensures { (out.new ≡ put out.old at v.now) × (result ≡ at + length v.now) }
{
    for (i, b) in v.iter().enumerate() {
        out[at + i] = *b;
    }
    at + v.len()
}

// Bytes that go by way of an array of its own. The compiler leaves the array out again, but knows by it that the two slices do not
// overlap, and so moves all bytes at once.
fn copy(out: &mut [u8], at: usize, v: &[u8]) -> usize
    requires { at + length v.now ≤ length out.old }
    ensures { (out.new ≡ put out.old at v.now) × (result ≡ at + length v.now) }
{
    if v.len() <= SPAN {
        let mut held = [0u8; SPAN];
        copy_each(&mut held, 0, v);
        return copy_each(out, at, part(&held, 0, v.len()));
    }
    copy_each(out, at, v)
}

// What is written has mostly a length that the compiler knows, so that `size - n` comes before a loop of writes.
pub fn has_room(size: usize, at: usize, n: usize) -> bool
    ensures { result ≡ room size at n }
{
    n <= size && at <= size - n
}

// Copies v to the place `at`, and returns the place after it.
pub fn put_bytes(out: &mut [u8], at: usize, v: &[u8]) -> usize
    ensures { Wrote out.old at v.now out.new result }
{
    if has_room(out.len(), at, v.len()) {
        return copy(out, at, v);
    }
    at
}

fn wipe(out: &mut [u8], at: usize, n: usize) -> usize
    requires { at + n ≤ length out.old }
    ensures { (out.new ≡ put out.old at (replicate n 0)) × (result ≡ at + n) }
{
    for i in 0..n {
        out[at + i] = 0;
    }
    at + n
}

fn fill(out: &mut [u8], at: usize, n: usize, v: &[u8]) -> usize
    requires { at + n ≤ length out.old }
    ensures { (out.new ≡ put out.old at (pad n v.now)) × (result ≡ at + n) }
{
    if v.len() <= n {
        let end = copy(out, at, v);
        return wipe(out, end, n - v.len());
    }
    wipe(out, at, n)
}

// Copies v to n bytes from the place `at` and clears those after it, all of them where v is longer; returns the place after them.
pub fn put_padded(out: &mut [u8], at: usize, n: usize, v: &[u8]) -> usize
    ensures { Wrote out.old at (pad n v.now) out.new result }
{
    if has_room(out.len(), at, n) {
        return fill(out, at, n, v);
    }
    at
}

// A number as bytes, the highest first.
pub fn be2(x: u16) -> [u8; 2]
    ensures { result ≡ be2 x }
{
    [(x / 256) as u8, (x % 256) as u8]
}

pub fn be4(x: u32) -> [u8; 4]
    ensures { result ≡ be4 x }
{
    [
        (x / 16777216) as u8,
        (x / 65536 % 256) as u8,
        (x / 256 % 256) as u8,
        (x % 256) as u8,
    ]
}

pub fn put8(out: &mut [u8], at: usize, x: u8) -> usize
    ensures { Wrote out.old at (be1 x) out.new result }
{
    put_bytes(out, at, &[x])
}

pub fn put16(out: &mut [u8], at: usize, x: u16) -> usize
    ensures { Wrote out.old at (be2 x) out.new result }
{
    put_bytes(out, at, &be2(x))
}

pub fn put32(out: &mut [u8], at: usize, x: u32) -> usize
    ensures { Wrote out.old at (be4 x) out.new result }
{
    put_bytes(out, at, &be4(x))
}

// All that a code and what was sent differ in, gathered over the whole code whatever was sent: 0 where nothing does. A byte that was not
// sent counts as 0.
fn differences(sent: &[u8], code: &[u8]) -> u8
    ensures { eqb result 0
        ≡ alike (take (length code.now) (sent.now ++ replicate (length code.now) 0)) code.now }
{
    let mut any = 0;
    for (i, b) in code.iter().enumerate() {
        any |= byte_at(sent, i) ^ *b;
    }
    any
}

// Whether what was sent is the code. That the lengths differ is one difference more; one test at the end decides. Each way has a call of
// its own, so that in the first the compiler sees that no byte is missing, and takes many at a time.
pub fn equal(sent: &[u8], code: &[u8]) -> bool
    ensures { result ≡ alike sent.now code.now }
{
    let any = if sent.len() == code.len() {
        differences(sent, code)
    } else {
        differences(sent, code) | 1
    };
    any == 0
}

// All the 4 * n bytes from `at` on in one: the four quarters side by side, of which the compiler can take many bytes at a time.
fn quarters(s: &[u8], at: usize, n: usize) -> u8
    requires { at + n * 4 ≤ length s.now }
    ensures { all_zero (drop at s.now) ≡ (eqb result 0 && all_zero (drop (at + n * 4) s.now)) }
{
    let mut any = 0;
    for i in 0..n {
        any = any | s[at + i] | s[at + n + i] | s[at + n * 2 + i] | s[at + n * 3 + i];
    }
    any
}

// Whether every byte of s from `at` on is zero: unused room. The bytes are gathered and looked at once, at the end: an image is mostly
// unused room. Quarters are whole runs of what the compiler takes at a time; what is left over comes one by one.
pub fn zero_from(s: &[u8], at: usize) -> bool
    ensures { result ≡ all_zero (drop at s.now) }
{
    if s.len() <= at {
        return true;
    }
    let n = (s.len() - at) / 128 * 32;
    let mut any = quarters(s, at, n);
    for b in rest(s, at + n * 4) {
        any |= *b;
    }
    any == 0
}

// Arrays by value, of any length N.

// The bytes at the front of N, zero after them; all of them zero where they are more than N.
pub fn padded<const N: usize>(x: &[u8]) -> [u8; N]
    ensures { (result ≡ pad N x.now) × (length result ≡ N) }
{
    let mut a = [0u8; N];
    put_bytes(&mut a, 0, x);
    a
}

// Copies an array to the place `at`, and returns the place after it.
pub fn give<const N: usize>(out: &mut [u8], at: usize, a: [u8; N]) -> usize
    ensures { (Wrote out.old at a.entry out.new result) × (length a.entry ≡ N) }
{
    put_bytes(out, at, &a)
}
