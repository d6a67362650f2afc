// Ask and settle, 01 "Two calls", and the power-off of 02 Ask 7: the practice card, and its C face.
#![tactic(auto)]

mod ending;
mod whole;

ghost use Rattle.std.specs.Prelude.{◌≡◌, ◌≤◌, ◌++◌, length, drop, eqb, leb};
ghost use Rattle.wire.specs.Wire.{Wrotes};
ghost use Rattle.sent.specs.Sent.{view};
ghost use Rattle.card.specs.Layout.{image_size, image_room};
ghost use Rattle.card.specs.Image.{encode, decode};
ghost use Rattle.personalise.specs.Personalise.{personalised};
ghost use Rattle.manual.specs.Words.{questions_room, response_room, draw_size};
ghost use Rattle.manual.specs.Row.{each_asked};
ghost use Rattle.manual.specs.Commands.{row};
ghost use Rattle.manual.specs.Settle.{holding, response_of, settled_by, settled_of, roomy, settled, settle_call};
ghost use Rattle.manual.specs.Settle.{posed_by, asked_from, asked_for, ask_call, off_of, powered_off};
ghost use Rattle.gate.specs.Gate.{later_of};
ghost use Rattle.practice.specs.Whole.{card_in};
ghost use Rattle.practice.specs.Carried.{Says, pace_in, is_waiting, left_card, made_by, confirmed_in, answered_in};

use card::{Wait, layout};
use manual::{Command, Outcome, Pace, Refusal};
use sent::Sent;
use whole::Whole;

#[tactic(auto, unfolding(manual::specs::Settle::roomy))]
fn has_rooms(response: usize, next: usize) -> bool
    ensures { result ≡ roomy response next }
{
    manual::RESPONSE_ROOM <= response && layout::IMAGE_ROOM <= next
}

fn has_room(questions: usize) -> bool
    ensures { result ≡ leb questions_room questions }
{
    manual::QUESTIONS_ROOM <= questions
}

fn is_draw(draw: &[u8]) -> bool
    ensures { result ≡ eqb (length draw.now) draw_size }
{
    draw.len() == manual::DRAW_SIZE
}

// The fields of the card after, and the status word.
// Here and below the rooms are asked of the caller: a struct that lent both buffers would have to say in each promise that it still lends the same.
fn respond(
    cmd: Command,
    img: &[u8],
    word: u16,
    sent: &Sent,
    draw: &[u8],
    answers: &[u8],
    out: &mut [u8],
) -> u32
    requires { response_room ≤ length out.old }
    ensures { Says (response_of (row cmd) word (decode img.now).face (view sent.now) draw.now
        answers.now)
        out.old result out.new }
{
    let at = tells::tell(cmd, img, sent, draw, answers, out);
    let end = wire::put16(out, at, word);
    end as u32
}

// The change that goes with check 13: the command's own where it is confirmed, and READ_CARD's, which is none, where it is not.
fn made(cmd: Command, confirmed: bool) -> Command
    ensures { result ≡ made_by cmd confirmed }
{
    if confirmed { cmd } else { Command::ReadCard }
}

// The next image: what the command leaves, and nothing held or counted.
fn renew(cmd: Command, img: Whole, sent: &Sent, answers: &[u8], next: &mut [u8])
    requires { image_room ≤ length next.old }
    ensures { next.new
        ≡ encode (left_card cmd (card_in img.entry) (view sent.now) answers.now)
        ++ drop image_size next.old }
{
    changes::change(cmd, img.bytes, sent, answers, next);
    writing::anew::pending(next, Wait::none(), &[]);
}

// Number 4, then check 13, then the command.
#[tactic(auto, unfolding(crate::specs::Carried::answered_in, crate::specs::Carried::confirmed_in))]
fn answer(
    cmd: Command,
    img: Whole,
    sent: &Sent,
    draw: &[u8],
    answers: &[u8],
    response: &mut [u8],
    next: &mut [u8],
) -> Outcome
    requires { (response_room ≤ length response.old) × (image_room ≤ length next.old) }
    ensures { settled_by result response.new next.new
        ≡ answered_in cmd (card_in img.entry) (view sent.now) draw.now answers.now
        response.old next.old }
{
    if !answers::have_shape(cmd, img.bytes, sent, answers) {
        return ending::only(Outcome::NO_ANSWERS);
    }
    let confirmed = answers::is_confirmed(cmd, answers);
    renew(made(cmd, confirmed), img, sent, answers, next);
    if !confirmed {
        let refusal = Refusal {
            check: 13,
            word: Outcome::SW_ERROR_PROCESSING_COMMAND,
        };
        return ending::word_alone(Err(refusal), response);
    }
    let word = tells::word(cmd, img.bytes, sent);
    let after = wire::part(next, 0, layout::IMAGE_SIZE);
    let length = respond(cmd, after, word, sent, draw, answers, response);
    ending::told(0, word, length)
}

// Checks 4 to 12, of a card. Ask and settle both come here, so that the gate's function has one caller: the compiler writes it out in
// its place, where the image's length is known.
fn judge(cmd: Command, img: Whole, q: &[u8], sent: &Sent) -> Result<Command, Refusal>
    ensures { result ≡ later_of cmd sent.now.whole (card_in img.entry) (view sent.now) q.now }
{
    gate::judge(cmd, img.sized(), q, sent)
}

// The pace of a request, by an image whose length is known.
fn pace_of(v: Result<Command, Refusal>, cmd: Command, img: Whole, q: &[u8], sent: &Sent) -> Pace
    ensures { result ≡ pace_in v cmd (card_in img.entry) (view sent.now) q.now }
{
    delay::pace(v, cmd, img.sized(), q, sent)
}

fn settle_card(
    img: Whole,
    request: &[u8],
    draw: &[u8],
    answers: &[u8],
    response: &mut [u8],
    next: &mut [u8],
) -> Outcome
    requires { (response_room ≤ length response.old) × (image_room ≤ length next.old) }
    ensures { settled_by result response.new next.new
        ≡ settled_of (card_in img.entry) request.now draw.now answers.now
        response.old next.old }
{
    let h = gate::header(request);
    let Ok(cmd) = h else {
        // No code was looked at.
        return ending::hold(Pace::Refused(false), h, img, request, response, next);
    };
    let mut sent = Sent::new(request::body(request));
    sent.walk();
    let v = judge(cmd, img, request, &sent);
    let pace = pace_of(v, cmd, img, request, &sent);
    let (Pace::Goes, Ok(_)) = (pace, v) else {
        return ending::hold(pace, v, img, request, response, next);
    };
    answer(cmd, img, &sent, draw, answers, response, next)
}

// Takes an image, a request, a draw and the answers; writes the response and the next image.
#[tactic(auto, using(cards::proofs::Round::is_card_length, crate::proofs::Laws::rooms), unfolding(manual::specs::Settle::settled))]
pub fn settle(
    image: &[u8],
    request: &[u8],
    draw: &[u8],
    answers: &[u8],
    response: &mut [u8],
    next: &mut [u8],
) -> Outcome
    ensures { settled_by result response.new next.new
        ≡ settled (holding image.now)
        (settle_call request.now draw.now answers.now response.old next.old) }
{
    if !image::is_card(image) {
        return ending::only(Outcome::NO_CARD);
    }
    if !has_rooms(response.len(), next.len()) {
        return ending::only(Outcome::NO_ROOM);
    }
    if !is_draw(draw) {
        return ending::only(Outcome::NO_DRAW);
    }
    let img = Whole { bytes: image };
    settle_card(img, request, draw, answers, response, next)
}

// The questions, by an image whose length is known.
fn pose(cmd: Command, img: Whole, sent: &Sent, draw: &[u8], out: &mut [u8]) -> usize
    ensures { Wrotes out.old 0
        (each_asked ((row cmd).questions (card_in img.entry).face (view sent.now) draw.now))
        out.new result }
{
    questions::pose(cmd, img.sized(), sent, draw, out)
}

fn is_waiting(pace: Pace) -> bool
    ensures { result ≡ is_waiting pace }
{
    matches!(pace, Pace::Waits(_))
}

fn ask_card(img: Whole, request: &[u8], draw: &[u8], questions: &mut [u8]) -> Outcome
    requires { questions_room ≤ length questions.old }
    ensures { posed_by result questions.new
        ≡ asked_from (card_in img.entry) request.now draw.now questions.old }
{
    let h = gate::header(request);
    let Ok(cmd) = h else {
        return ending::says(h, 0);
    };
    let mut sent = Sent::new(request::body(request));
    sent.walk();
    let v = judge(cmd, img, request, &sent);
    let pace = pace_of(v, cmd, img, request, &sent);
    if is_waiting(pace) {
        return ending::told(0, Outcome::SW_NEED_PAUSE, 0);
    }
    let Ok(_) = v else {
        return ending::says(v, 0);
    };
    let n = pose(cmd, img, &sent, draw, questions);
    ending::says(v, n as u32)
}

// Takes an image, a request and a draw; writes the questions for the crypto provider.
#[tactic(auto, using(cards::proofs::Round::is_card_length), unfolding(manual::specs::Settle::asked_for))]
pub fn ask(image: &[u8], request: &[u8], draw: &[u8], questions: &mut [u8]) -> Outcome
    ensures { posed_by result questions.new
        ≡ asked_for (holding image.now) (ask_call request.now draw.now questions.old) }
{
    if !image::is_card(image) {
        return ending::only(Outcome::NO_CARD);
    }
    if !has_room(questions.len()) {
        return ending::only(Outcome::NO_ROOM);
    }
    if !is_draw(draw) {
        return ending::only(Outcome::NO_DRAW);
    }
    ask_card(Whole { bytes: image }, request, draw, questions)
}

// The card leaves the reader's field: takes an image, and writes the next one.
#[tactic(auto, using(cards::proofs::Round::is_card_length), unfolding(manual::specs::Settle::powered_off))]
pub fn power_off(image: &[u8], next: &mut [u8]) -> Outcome
    ensures { off_of result next.new ≡ powered_off (holding image.now) next.old }
{
    if !image::is_card(image) {
        return ending::only(Outcome::NO_CARD);
    }
    if next.len() < layout::IMAGE_ROOM {
        return ending::only(Outcome::NO_ROOM);
    }
    ending::switch_off(Whole { bytes: image }, next)
}

// The C face: the same calls under plain names. `practice_c` exports them.
pub fn practice_ask(image: &[u8], request: &[u8], draw: &[u8], questions: &mut [u8]) -> Outcome
    ensures { posed_by result questions.new ≡ asked_for (holding image.now)
        (ask_call request.now draw.now questions.old) }
{
    ask(image, request, draw, questions)
}

pub fn practice_settle(
    image: &[u8],
    request: &[u8],
    draw: &[u8],
    answers: &[u8],
    response: &mut [u8],
    next: &mut [u8],
) -> Outcome
    ensures { settled_by result response.new next.new ≡ settled (holding image.now)
        (settle_call request.now draw.now answers.now response.old next.old) }
{
    settle(image, request, draw, answers, response, next)
}

pub fn practice_power_off(image: &[u8], next: &mut [u8]) -> Outcome
    ensures { off_of result next.new ≡ powered_off (holding image.now) next.old }
{
    power_off(image, next)
}

pub fn practice_personalise(sheet: &[u8], image: &mut [u8]) -> u32
    ensures { (result ≡ (personalised sheet.now image.old).answer)
        × (image.new ≡ (personalised sheet.now image.old).image) }
{
    personalise::personalise(sheet, image)
}

pub fn practice_image_length() -> u32
    ensures { result ≡ image_size }
{
    layout::IMAGE_SIZE as u32
}
