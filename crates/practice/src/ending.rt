// How a call ends without being carried out: by a number, by a verdict, by a pause; and a power-off.
ghost use Rattle.std.specs.Prelude.{◌≡◌, ◌++◌, ◌≤◌, length, drop};
ghost use Rattle.wire.specs.Wire.{be2};
ghost use Rattle.card.specs.Layout.{image_size, image_room};
ghost use Rattle.card.specs.Values.{idle, held_request};
ghost use Rattle.card.specs.Image.{encode, decode};
ghost use Rattle.manual.specs.Words.{response_room};
ghost use Rattle.manual.specs.Settle.{waiting, word_of, reason_of, outcome, settled_by, over, off_of, off_by, card_off};
ghost use Rattle.practice.specs.Whole.{card_in};
ghost use Rattle.practice.specs.Carried.{refused_in, paused_in, held_in};

use super::whole::Whole;
use card::Wait;
use manual::{Command, Outcome, Pace, Refusal, tag};

// A number alone: no check has failed, and no status word and no length are told.
pub fn only(number: u8) -> Outcome
    ensures { result ≡ outcome number 0 0 0 }
{
    Outcome {
        number,
        reason: 0,
        word: 0,
        length: 0,
    }
}

// Number 0: the check that refuses, 0 where none does; a status word, and the length written.
pub fn told(reason: u8, word: u16, length: u32) -> Outcome
    ensures { result ≡ outcome 0 reason word length }
{
    Outcome {
        number: 0,
        reason,
        word,
        length,
    }
}

// A verdict, and the length written.
pub fn says(v: Result<Command, Refusal>, length: u32) -> Outcome
    ensures { result ≡ outcome 0 (reason_of v) (word_of v) length }
{
    match v {
        Ok(_) => told(0, Outcome::SW_PROCESS_COMPLETED, length),
        Err(e) => told(e.check, e.word, length),
    }
}

// A verdict, and its status word alone.
pub fn word_alone(v: Result<Command, Refusal>, response: &mut [u8]) -> Outcome
    requires { response_room ≤ length response.old }
    ensures { (result ≡ outcome 0 (reason_of v) (word_of v) 2) × (response.new ≡ over (be2 (word_of v)) response.old) }
{
    let o = says(v, 2);
    wire::put16(response, 0, o.word);
    o
}

// The image as it was, but for this wait and the request that it holds.
// It takes the bytes: of a slice that is an argument the prover knows that they are bytes, of one inside a `Whole` it does not.
fn keep(img: &[u8], wait: Wait, held: &[u8], next: &mut [u8])
    requires { (image_room ≤ length next.old) × (length img.now ≡ image_size) }
    ensures { next.new ≡ encode (waiting (held_request wait held.now) (decode img.now)) ++ drop image_size next.old }
{
    changes::keep(img, next);
    writing::anew::pending(next, wait, held);
}

// The status word alone; the next image is the old one with this wait, and holds no request.
#[tactic(auto, using(crate::proofs::Ends::idled, crate::proofs::Ends::refuses))]
fn refuse(
    img: Whole,
    v: Result<Command, Refusal>,
    wait: Wait,
    response: &mut [u8],
    next: &mut [u8],
) -> Outcome
    requires { (response_room ≤ length response.old) × (image_room ≤ length next.old) }
    ensures { settled_by result response.new next.new
        ≡ refused_in (idle wait) v (card_in img.entry) response.old next.old }
{
    keep(img.bytes, wait, &[], next);
    word_alone(v, response)
}

// Pause, the seconds left in units of 10 ms, and 9789; the request is held.
fn pause(img: Whole, seconds: u8, request: &[u8], response: &mut [u8], next: &mut [u8]) -> Outcome
    requires { (response_room ≤ length response.old) × (image_room ≤ length next.old) }
    ensures { settled_by result response.new next.new
        ≡ paused_in seconds (card_in img.entry) request.now response.old next.old }
{
    let wait = image::wait(img.bytes);
    let size = (request.len() % 65536) as u16;
    keep(img.bytes, wait.holding(seconds, size), request, next);
    let at = fields::put_short(response, 0, tag::PAUSE, seconds as u16 * 100);
    wire::put16(response, at, Outcome::SW_NEED_PAUSE);
    told(0, Outcome::SW_NEED_PAUSE, 6)
}

// A request that has to wait, or is refused with this verdict.
pub fn hold(
    pace: Pace,
    v: Result<Command, Refusal>,
    img: Whole,
    request: &[u8],
    response: &mut [u8],
    next: &mut [u8],
) -> Outcome
    requires { (response_room ≤ length response.old) × (image_room ≤ length next.old) }
    ensures { settled_by result response.new next.new
        ≡ held_in pace v (card_in img.entry) request.now response.old next.old }
{
    match pace {
        Pace::Refused(wrong) => {
            let wait = delay::refused(wrong, image::wait(img.bytes));
            refuse(img, v, wait, response, next)
        }
        Pace::Waits(seconds) => pause(img, seconds, request, response, next),
        Pace::Goes => refuse(img, v, Wait::none(), response, next),
    }
}

// What is held is dropped, and the count stays.
#[tactic(auto, using(crate::proofs::Ends::idled))]
pub fn switch_off(img: Whole, next: &mut [u8]) -> Outcome
    requires { image_room ≤ length next.old }
    ensures { off_of result next.new ≡ off_by 0 (encode (card_off (card_in img.entry)) ++ drop image_size next.old) }
{
    let wait = image::wait(img.bytes);
    keep(img.bytes, wait.dropped(), &[], next);
    only(0)
}
