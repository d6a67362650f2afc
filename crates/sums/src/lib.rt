// What a play sums up, Ask 4: from requests and responses alone.
#![tactic(auto)]

ghost use Rattle.std.specs.Prelude.{◌≡◌};
ghost use Rattle.manual.specs.Settle.{sent_in};
ghost use Rattle.story.specs.Sums.{is_done, accepted, tap};
ghost use Rattle.sums.specs.Counted.{no_sums, with_wallet, with_none, with_signed, with_signing, counted, live_signs};

use manual::{Outcome, Signing};
use sent::Sent;

// Whether a wallet lives, the SIGNs that made new signatures since its creation, all hashes newly signed.
// The SIGNs of a purged wallet stay, as the definition with_none has them, so that they are no Option.
#[derive(Clone, Copy)]
pub struct Sums {
    pub live: bool,
    pub made: u32,
    pub hashes: u32,
}

// Before any tap.
pub fn none() -> Sums
    ensures { result ≡ no_sums }
{
    Sums {
        live: false,
        made: 0,
        hashes: 0,
    }
}

// 9000 to 9003.
fn is_done(word: u16) -> bool
    ensures { result ≡ is_done word }
{
    Outcome::SW_PROCESS_COMPLETED <= word && word <= Outcome::SW_PROCESS_COMPLETED + 3
}

// The status word is in the last two bytes.
#[tactic(auto, using(crate::proofs::Laws::last_word_lem), unfolding(story::specs::Sums::accepted))]
fn is_accepted(response: &[u8]) -> bool
    ensures { result ≡ accepted response.now }
{
    2 <= response.len() && is_done(wire::get16(wire::rest(response, response.len() - 2), 0))
}

fn with_wallet(s: Sums) -> Sums
    ensures { result ≡ with_wallet s }
{
    Sums {
        live: true,
        made: 0,
        ..s
    }
}

fn with_none(s: Sums) -> Sums
    ensures { result ≡ with_none s }
{
    Sums { live: false, ..s }
}

fn with_signed(s: Sums, hashes: u32) -> Sums
    ensures { result ≡ with_signed hashes s }
{
    Sums {
        made: s.made.wrapping_add(1),
        hashes: s.hashes.wrapping_add(hashes),
        ..s
    }
}

// What a SIGN sends, by one walk over its payload. The last signatures again are no new SIGN.
fn signed(s: Sums, request: &[u8]) -> Sums
    ensures { result ≡ with_signing (sent_in request.now) s }
{
    let mut sent = Sent::new(request::payload(request));
    sent.walk();
    match request::signing(&sent) {
        Signing::New(n) => with_signed(s, (n / manual::HASH_SIZE % 4294967296) as u32),
        Signing::Again => s,
    }
}

// A tap more: only an accepted command counts. Its INS is told by the byte, as the sums' definition `did` tells it.
#[tactic(auto, unfolding(crate::specs::Counted::counted, story::specs::Sums::accepted))]
pub fn count(s: Sums, request: &[u8], response: &[u8]) -> Sums
    ensures { result ≡ counted s (tap request.now response.now) }
{
    if !is_accepted(response) {
        return s;
    }
    match wire::get8(request, 1) {
        0xF8 => with_wallet(s),
        0xFB => signed(s, request),
        0xFC => with_none(s),
        _ => s,
    }
}

// The new SIGNs of the wallet that lives; where none lives, 0.
pub fn live_signs(s: Sums) -> u32
    ensures { result ≡ live_signs s }
{
    if s.live { s.made } else { 0 }
}
