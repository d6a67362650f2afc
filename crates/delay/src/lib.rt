// The security delay, 02 Ask 7: the pace of a request, by the verdict of checks 1 to 12, by its codes and by what the card holds.
#![tactic(auto)]

ghost use Rattle.std.specs.Prelude.{◌≡◌, not, ◌&&◌, if◌then◌else◌};
ghost use Rattle.fields.specs.Fields.{holds};
ghost use Rattle.sent.specs.Sent.{view};
ghost use Rattle.card.specs.Values.{dropped, counted};
ghost use Rattle.card.specs.Image.{decode};
ghost use Rattle.manual.specs.Tags.{PIN2};
ghost use Rattle.manual.specs.Commands.{row};
ghost use Rattle.manual.specs.Delay.{entered, counts, over_own, over_code, wrong_code, is_held, whole_wait, seconds, pace_for, pace_by};
ghost use Rattle.manual.specs.Settle.{matched};

use card::{Codes, Wait};
use manual::{Command, Pace, Refusal, tag};
use sent::Sent;

// After check 10.
fn has_entered(v: Result<Command, Refusal>) -> bool
    ensures { result ≡ entered v }
{
    match v {
        Ok(_) => true,
        Err(e) => 11 <= e.check,
    }
}

// A wrong code that counts: it is there, and it is not the default.
fn counts(tag: u8, default: &[u8], sent: &Sent) -> bool
    ensures { result ≡ counts tag default.now (view sent.now) }
{
    sent.has(tag) && !sent.holds(tag, default)
}

// PIN2 is needed, and is not right.
fn lacks_pin2(cmd: Command, img: &[u8], sent: &Sent) -> bool
    ensures { result ≡ ((row cmd).pin2 (view sent.now)
        && not (holds PIN2 (view sent.now) (decode img.now).codes.pin2)) }
{
    checks::needs_pin2(cmd, sent) && !sent.holds(tag::PIN2, image::pin2(img))
}

// A refusal by check 10 is over PIN2, or else over the CVC, which has no default.
fn over_own(cmd: Command, img: &[u8], sent: &Sent) -> bool
    ensures { result ≡ over_own (row cmd) (matched (decode img.now).codes (view sent.now))
        (view sent.now) }
{
    if lacks_pin2(cmd, img, sent) {
        counts(tag::PIN2, &Codes::DEFAULT_PIN2, sent)
    } else {
        sent.has(tag::CVC)
    }
}

// A refusal by this check is over a code that counts as wrong.
// The check by the paper's number.
fn over_code(check: u8, cmd: Command, img: &[u8], sent: &Sent) -> bool
    ensures { result ≡ over_code (row cmd) (matched (decode img.now).codes (view sent.now))
        (view sent.now) check }
{
    match check {
        6 => counts(tag::PIN1, &Codes::DEFAULT_PIN1, sent),
        10 => over_own(cmd, img, sent),
        _ => false,
    }
}

fn wrong_code(v: Result<Command, Refusal>, cmd: Command, img: &[u8], sent: &Sent) -> bool
    ensures { result ≡ wrong_code (row cmd) (matched (decode img.now).codes (view sent.now))
        (view sent.now) v }
{
    match v {
        Ok(_) => false,
        Err(e) => over_code(e.check, cmd, img, sent),
    }
}

// The request is the one that is held. Most are of another length, and that is seen first.
#[tactic(auto, using(wire::proofs::Laws::other_length), unfolding(manual::specs::Delay::is_held))]
fn is_held(img: &[u8], q: &[u8]) -> bool
    ensures { result ≡ is_held (decode img.now).face q.now }
{
    let held = image::held(img);
    held.len() == q.len() && wire::equal(held, q)
}

// The wait from its beginning: the wrong codes, and the pause where PIN2 is needed.
fn whole_wait(cmd: Command, img: &[u8], sent: &Sent) -> u8
    ensures { result ≡ whole_wait (row cmd) (decode img.now).face (view sent.now) }
{
    let wrong = image::wait(img).wrong;
    if checks::needs_pin2(cmd, sent) {
        wrong.wrapping_add(image::pause(img))
    } else {
        wrong
    }
}

// Each sending of the identical bytes takes off one second.
fn seconds(cmd: Command, img: &[u8], q: &[u8], sent: &Sent) -> u8
    ensures { result ≡ seconds (row cmd) (decode img.now).face (view sent.now) q.now }
{
    if is_held(img, q) {
        let left = image::wait(img).left;
        if left == 0 { 0 } else { left - 1 }
    } else {
        whole_wait(cmd, img, sent)
    }
}

fn pace_for(seconds: u8) -> Pace
    ensures { result ≡ pace_for seconds }
{
    if seconds == 0 {
        Pace::Goes
    } else {
        Pace::Waits(seconds)
    }
}

// The pace of a request q with this verdict; sent is its payload, walked.
#[tactic(auto, unfolding(manual::specs::Delay::pace_by))]
pub fn pace(v: Result<Command, Refusal>, cmd: Command, img: &[u8], q: &[u8], sent: &Sent) -> Pace
    ensures { result ≡ pace_by v (row cmd) (matched (decode img.now).codes (view sent.now))
        (decode img.now).face (view sent.now) q.now }
{
    if has_entered(v) {
        pace_for(seconds(cmd, img, q, sent))
    } else {
        Pace::Refused(wrong_code(v, cmd, img, sent))
    }
}

// The wait after a refusal by checks 1 to 10: nothing is held, and a wrong code is counted.
pub fn refused(wrong: bool, wait: Wait) -> Wait
    ensures { result ≡ (if wrong then counted (dropped wait) else dropped wait) }
{
    let free = wait.dropped();
    if wrong { free.counted() } else { free }
}
