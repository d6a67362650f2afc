// The checks 1 to 12, in order: the first that fails gives its number and its status word. Checks 1 to 3 come before the payload is
// walked, so that a request without one costs no walk.
#![tactic(auto)]

ghost use Rattle.std.specs.Prelude.{◌≡◌, ◌&&◌, ◌||◌, get_or, eqb, Ok};
ghost use Rattle.fields.specs.Fields.{holds};
ghost use Rattle.sent.specs.Sent.{view};
ghost use Rattle.card.specs.declared.Card.{Card};
ghost use Rattle.card.specs.Image.{decode};
ghost use Rattle.manual.specs.Tags.{PIN1};
ghost use Rattle.manual.specs.Row.{plain, allowed, asks_cvc, stop};
ghost use Rattle.manual.specs.Commands.{row};
ghost use Rattle.gate.specs.Gate.{cid_ok, pin2_ok, cvc_ok, head_of, form_of, entry_of, own_of, later_of};

use card::Wallet;
use manual::{Command, Needs, Outcome, Refusal, tag};
use sent::Sent;

fn refuse<T>(check: u8, word: u16) -> Result<T, Refusal>
    ensures { result ≡ stop check word }
{
    Err(Refusal { check, word })
}

// P2 is 01 or 02: an encrypted session.
#[tactic(auto, unfolding(manual::specs::Row::plain))]
fn is_plain(q: &[u8]) -> bool
    ensures { result ≡ plain (get_or q.now 3 0) }
{
    !matches!(wire::get8(q, 3), 1 | 2)
}

fn has_no_parameters(q: &[u8]) -> bool
    ensures { result ≡ (eqb (get_or q.now 2 0) 0 && eqb (get_or q.now 3 0) 0) }
{
    wire::get8(q, 2) == 0 && wire::get8(q, 3) == 0
}

// Checks 1 to 3: what the request is.
pub fn header(q: &[u8]) -> Result<Command, Refusal>
    ensures { result ≡ head_of q.now }
{
    let Some(_) = request::lc_of(q) else {
        return refuse(1, Outcome::SW_WRONG_LENGTH);
    };
    if wire::get8(q, 0) != 0 {
        return refuse(2, Outcome::SW_CLA_NOT_SUPPORTED);
    }
    let Ok(cmd) = request::command(q) else {
        return refuse(3, Outcome::SW_INS_NOT_SUPPORTED);
    };
    Ok(cmd)
}

// Checks 4 and 5. Of check 5 there are two: the payload is well formed, and no tag of the command's entry stands twice.
fn form(cmd: Command, q: &[u8], sent: &Sent) -> Result<(), Refusal>
    ensures { (c : Card) → result ≡ form_of cmd sent.now.whole c (view sent.now) q.now (Ok tt) }
{
    if !is_plain(q) {
        return refuse(4, Outcome::SW_NEED_ENCRYPTION);
    }
    if !has_no_parameters(q) {
        return refuse(4, Outcome::SW_INVALID_PARAMS);
    }
    if !sent.whole {
        return refuse(5, Outcome::SW_INVALID_PARAMS); // malformed
    }
    if !reads::once(cmd, sent) {
        return refuse(5, Outcome::SW_INVALID_PARAMS); // a field twice
    }
    Ok(())
}

fn has_pin1(img: &[u8], sent: &Sent) -> bool
    ensures { result ≡ holds PIN1 (view sent.now) (decode img.now).codes.pin1 }
{
    sent.holds(tag::PIN1, image::pin1(img))
}

fn has_cid(n: Needs, img: &[u8], sent: &Sent) -> bool
    ensures { result ≡ cid_ok n (decode img.now) (view sent.now) }
{
    !n.cid || sent.holds(tag::CID, image::cid(img))
}

fn is_awake(n: Needs, img: &[u8]) -> bool
    ensures { result ≡ (n.asleep || eqb (decode img.now).face.front.flags.active 1) }
{
    n.asleep || image::flags(img).active == 1
}

#[tactic(auto, unfolding(manual::specs::Row::allowed))]
fn is_allowed(n: Needs, status: u8) -> bool
    ensures { result ≡ allowed n status }
{
    match status {
        Wallet::EMPTY => n.empty,
        Wallet::LOADED => n.loaded,
        _ => n.purged,
    }
}

// Checks 6 to 9.
fn entry(cmd: Command, img: &[u8], sent: &Sent) -> Result<(), Refusal>
    ensures { result ≡ entry_of cmd (decode img.now) (view sent.now) (Ok tt) }
{
    let needs = checks::needs(cmd);
    if !has_pin1(img, sent) {
        return refuse(6, Outcome::SW_INVALID_PARAMS);
    }
    if !has_cid(needs, img, sent) {
        return refuse(7, Outcome::SW_INVALID_PARAMS);
    }
    if !is_awake(needs, img) {
        return refuse(8, Outcome::SW_INVALID_STATUS);
    }
    if !is_allowed(needs, image::wallet(img).status) {
        return refuse(9, Outcome::SW_INVALID_STATUS);
    }
    Ok(())
}

fn has_pin2(cmd: Command, img: &[u8], sent: &Sent) -> bool
    ensures { result ≡ pin2_ok cmd (decode img.now) (view sent.now) }
{
    !checks::needs_pin2(cmd, sent) || sent.holds(tag::PIN2, image::pin2(img))
}

// The CVC is asked where the command asks for it and the card uses it.
fn asks_cvc(cmd: Command, img: &[u8]) -> bool
    ensures { result ≡ asks_cvc (row cmd) (decode img.now).face }
{
    checks::needs(cmd).cvc && image::flags(img).usecvc == 1
}

// Never written out in its caller's place: of three bytes the compiler would take the comparison apart there, and how long it takes would tell
// which of them is wrong.
#[inline(never)]
fn has_cvc(cmd: Command, img: &[u8], sent: &Sent) -> bool
    ensures { result ≡ cvc_ok cmd (decode img.now) (view sent.now) }
{
    !asks_cvc(cmd, img) || sent.holds(tag::CVC, image::cvc(img))
}

// Checks 10 to 12.
fn own(cmd: Command, img: &[u8], sent: &Sent) -> Result<(), Refusal>
    ensures { result ≡ own_of cmd (decode img.now) (view sent.now) (Ok tt) }
{
    if !has_pin2(cmd, img, sent) {
        return refuse(10, Outcome::SW_INVALID_PARAMS);
    }
    if !has_cvc(cmd, img, sent) {
        return refuse(10, Outcome::SW_INVALID_PARAMS); // the CVC after PIN2
    }
    if !checks::fields_ok(cmd, img, sent) {
        return refuse(11, Outcome::SW_INVALID_PARAMS);
    }
    if !checks::conditions_ok(cmd, img, sent) {
        return refuse(12, Outcome::SW_INVALID_STATUS);
    }
    Ok(())
}

// Checks 4 to 12 of a command, which ask and settle share: of its request, and of its payload, walked.
// Each refusal is handed on by hand: `?` is made of functions of std, into which `computed` cannot look.
pub fn judge(cmd: Command, img: &[u8], q: &[u8], sent: &Sent) -> Result<Command, Refusal>
    ensures { result ≡ later_of cmd sent.now.whole (decode img.now) (view sent.now) q.now }
{
    if let Err(e) = form(cmd, q, sent) {
        return Err(e);
    }
    if let Err(e) = entry(cmd, img, sent) {
        return Err(e);
    }
    if let Err(e) = own(cmd, img, sent) {
        return Err(e);
    }
    Ok(cmd)
}
