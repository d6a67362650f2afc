// What a request says: where its payload stands, its command, and the few values that several columns read.
#![tactic(auto)]

ghost use Rattle.std.specs.Prelude.{◌≡◌, get_or};
ghost use Rattle.sent.specs.Sent.{view};
ghost use Rattle.manual.specs.Request.{lc_of, ins_of, payload, body_in};
ghost use Rattle.manual.specs.Wallet.{signing};
ghost use Rattle.manual.specs.Storage.{sent_counter};
ghost use Rattle.manual.specs.Activation.{resets};

use manual::{Command, Signing, Unlisted, tag};
use sent::Sent;

// Where the payload begins: after an Lc of one byte or of three, and the request ends with it. Check 1.
#[tactic(auto, unfolding(manual::specs::Request::lc_of))]
pub fn lc_of(q: &[u8]) -> Option<usize>
    ensures { result ≡ lc_of q.now }
{
    if q.len() < manual::LEAST_REQUEST || manual::MOST_REQUEST < q.len() {
        return None;
    }
    let (at, size) = match q[4] {
        0 if q.len() < 8 => return None,
        0 => (7, q[5] as usize * 256 + q[6] as usize),
        n => (5, n as usize),
    };
    if q.len() == at + size { Some(at) } else { None }
}

// The payload, as a part of the request; nothing where Lc is wrong.
pub fn payload(q: &[u8]) -> &[u8]
    ensures { result.now ≡ payload q.now }
{
    match lc_of(q) {
        Some(b) => wire::rest(q, b),
        None => &q[..0],
    }
}

// The payload of a request that check 1 lets through, without a second look at its length.
pub fn body(q: &[u8]) -> &[u8]
    ensures { result.now ≡ body_in q.now }
{
    let at = if wire::get8(q, 4) == 0 { 7 } else { 5 };
    wire::rest(q, at)
}

// Check 3.
pub fn command(q: &[u8]) -> Result<Command, Unlisted>
    ensures { result ≡ ins_of (get_or q.now 1 0) }
{
    Command::try_from(wire::get8(q, 1))
}

// What a SIGN asks for: new signatures where either field is there.
#[tactic(auto, unfolding(manual::specs::Wallet::signing))]
pub fn signing(sent: &Sent) -> Signing
    ensures { result ≡ signing (view sent.now) }
{
    if sent.has(tag::TRANSACTION_HASH) || sent.has(tag::TRANSACTION_HASH_SIZE) {
        Signing::New(sent.value(tag::TRANSACTION_HASH).len())
    } else {
        Signing::Again
    }
}

// Whether an activation is to reset PIN1.
pub fn resets(sent: &Sent) -> bool
    ensures { result ≡ resets (view sent.now) }
{
    wire::equal(sent.value(tag::RESET_PIN1), &[1])
}

// The counter that a note is sent with.
pub fn sent_counter(sent: &Sent) -> u32
    ensures { result ≡ sent_counter (view sent.now) }
{
    wire::get32(sent.value(tag::ISSUER_DATA_COUNTER), 0)
}
