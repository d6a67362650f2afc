// Numbers as text: capital hex and decimal, read and written. All functions are total: a write without room changes nothing.
#![tactic(auto, using(crate::proofs::Laws::steps), unfolding(crate::specs::Text::hex_value, crate::specs::Text::is_hex_digit, crate::specs::Text::pair_value, crate::specs::Text::hex_digit, crate::specs::Text::is_digit, crate::specs::Text::plain_decimal, crate::specs::Text::fitting, crate::specs::Text::number_of, wire::specs::Wire::room))]

ghost use Rattle.std.specs.Prelude.{◌≡◌, ◌+◌, ◌-◌, ◌*◌, ◌/◌, ◌%◌, ◌≤◌, ◌<◌, [], ◌∷◌, length};
ghost use Rattle.wire.specs.Wire.{put, Wrote, Wrotes};
ghost use Rattle.text.specs.Text.{hex_value, is_hex_digit, is_hex, pair_value, unhex, hex_digit, hex_of};
ghost use Rattle.text.specs.Text.{is_digit, is_digits, decimal, plain_decimal, fitting, number_of, decimal_of};

pub mod lines;

// The value of a capital hex digit. It is a number also where the byte is none, 16, because pair_value spells a byte for any two.
fn hex_value(b: u8) -> u8
    ensures { (result ≡ hex_value b) × (result ≤ 16) }
{
    match b {
        b'0'..=b'9' => b - b'0',
        b'A'..=b'F' => b - b'A' + 10,
        _ => 16,
    }
}

fn is_hex_digit(b: u8) -> bool
    ensures { result ≡ is_hex_digit b }
{
    hex_value(b) < 16
}

// Whether every byte is a capital hex digit.
// A loop of its own, as is_digits: `all` is a function of std, into which `computed` cannot look.
pub fn is_hex(s: &[u8]) -> bool
    ensures { result ≡ is_hex s.now }
{
    for b in s {
        if !is_hex_digit(*b) {
            return false;
        }
    }
    true
}

// The byte that two digits spell.
fn pair_value(a: u8, b: u8) -> u8
    ensures { result ≡ pair_value a b }
{
    let pair = hex_value(a) as u32 * 16 + hex_value(b) as u32;
    (pair % 256) as u8
}

// Writes the bytes that the digits spell, and returns the place after them.
pub fn unhex(s: &[u8], out: &mut [u8], at: usize) -> usize
    ensures { Wrote out.old at (unhex s.now) out.new result }
{
    let n = s.len() / 2;
    if !wire::has_room(out.len(), at, n) {
        return at;
    }
    for i in 0..n {
        out[at + i] = pair_value(s[2 * i], s[2 * i + 1]);
    }
    at + n
}

fn hex_digit(n: u8) -> u8
    requires { n < 16 }
    ensures { result ≡ hex_digit n }
{
    if n < 10 { b'0' + n } else { b'A' + (n - 10) }
}

// Writes bytes as capital hex digits, and returns the place after them.
pub fn put_hex(out: &mut [u8], at: usize, v: &[u8]) -> usize
    ensures { Wrote out.old at (hex_of v.now) out.new result }
{
    if !wire::has_room(out.len(), at, 2 * v.len()) {
        return at;
    }
    for (i, b) in v.iter().enumerate() {
        out[at + 2 * i] = hex_digit(*b / 16);
        out[at + 2 * i + 1] = hex_digit(*b % 16);
    }
    at + 2 * v.len()
}

fn is_digit(b: u8) -> bool
    ensures { result ≡ is_digit b }
{
    matches!(b, b'0'..=b'9')
}

// Whether every byte is a decimal digit.
pub fn is_digits(s: &[u8]) -> bool
    ensures { result ≡ is_digits s.now }
{
    for b in s {
        if !is_digit(*b) {
            return false;
        }
    }
    true
}

// Whether the text is a number in decimal with no leading zero.
fn plain_decimal(s: &[u8]) -> bool
    ensures { result ≡ plain_decimal s.now }
{
    match s {
        [] | [b'0', _, ..] => false,
        _ => is_digits(s),
    }
}

// The value of a digit; below `0` it is 0.
fn digit_value(b: u8) -> u64
    ensures { (result ≡ b - 48) × (result < 256) }
{
    if b < b'0' { 0 } else { (b - b'0') as u64 }
}

// The value of digits, where 32 bits hold it.
fn sum(s: &[u8]) -> Option<u32>
    ensures { result ≡ fitting (decimal s.now) }
{
    let mut n: u64 = 0;
    for b in s {
        n = n * 10 + digit_value(*b);
        if n > u32::MAX as u64 {
            return None;
        }
    }
    Some(n as u32)
}

// The number that a text is in decimal with no leading zero, where 32 bits hold it.
pub fn number_of(s: &[u8]) -> Option<u32>
    ensures { result ≡ number_of s.now }
{
    if plain_decimal(s) { sum(s) } else { None }
}

// Writes a number in decimal, and returns the place after it. The last digit is known first, and how many there are at the first one:
// so they are written from the end of a buffer, by a loop that is over with the number.
pub fn put_decimal(out: &mut [u8], at: usize, n: u32) -> usize
    ensures { Wrote out.old at (decimal_of n) out.new result }
{
    let mut digits = [0u8; 10];
    let mut first = digits.len();
    let mut left = n;
    loop {
        first -= 1;
        digits[first] = b'0' + (left % 10) as u8;
        left /= 10;
        if left == 0 {
            break;
        }
    }
    wire::put_bytes(out, at, &digits[first..])
}

// Writes a number in decimal and the byte that ends it, and returns the place after them. It promises too how many digits there can be,
// so that a caller knows what room there must be.
pub fn put_decimal_then(out: &mut [u8], at: usize, n: u32, end: u8) -> usize
    ensures { (Wrotes out.old at (decimal_of n ∷ (end ∷ []) ∷ []) out.new result) × (length (decimal_of n) ≤ 10) }
{
    let a = put_decimal(out, at, n);
    wire::put8(out, a, end)
}
