// The column of the manual's rows with the questions for the crypto provider.
#![tactic(auto, unfolding(wire::specs::Wire::page, wire::specs::Wire::joined, manual::specs::Row::each_asked))]

ghost use Rattle.std.specs.Prelude.{◌≡◌, ℕ, ◌/◌, List, [], ◌∷◌, length};
ghost use Rattle.wire.specs.Wire.{Wrote, Wrotes, joined};
ghost use Rattle.fields.specs.Fields.{View};
ghost use Rattle.sent.specs.Sent.{view};
ghost use Rattle.card.specs.Values.{u16};
ghost use Rattle.card.specs.Image.{decode};
ghost use Rattle.manual.specs.Words.{hash_size};
ghost use Rattle.manual.specs.Row.{head_bytes, each_asked};
ghost use Rattle.manual.specs.Commands.{row};
ghost use Rattle.manual.specs.Wallet.{create_wallet, sign, hash_questions};
ghost use Rattle.manual.specs.Checking.{salt, key_salt, check_wallet, verify_card, validate_card};
ghost use Rattle.manual.specs.Storage.{write_issuer_data, counter_bytes};
ghost use Rattle.manual.specs.Activation.{activate_card};
ghost use Rattle.questions.specs.Keyed.{key_question};
ghost use Rattle.questions.specs.Posed.{code, of_wallet, parts_of};

use manual::{Command, Signing, tag};
use sent::Sent;

// The kinds of question, by their numbers.
#[derive(Clone, Copy)]
pub enum Kind {
    MakeKey = 1,
    SignHash = 2,
    SignByWallet = 3,
    SignByCard = 4,
    SignedByIssuer = 5,
    ConfirmedByIssuer = 6,
}

// From the front of the buffer.
pub fn pose(cmd: Command, img: &[u8], sent: &Sent, draw: &[u8], out: &mut [u8]) -> usize
    ensures { Wrotes out.old 0
        (each_asked ((row cmd).questions (decode img.now).face (view sent.now) draw.now))
        out.new result }
{
    match cmd {
        Command::CreateWallet => pose_key(img, out),
        Command::CheckWallet => pose_check(img, sent, draw, out),
        Command::Sign => pose_sign(img, sent, out),
        Command::VerifyCard => pose_verify(img, sent, draw, out),
        Command::ValidateCard => pose_validate(img, out),
        Command::WriteIssuerData => pose_issuer(img, sent, out),
        Command::ActivateCard => pose_activation(img, sent, out),
        Command::ReadCard
        | Command::SetPin
        | Command::PurgeWallet
        | Command::ReadUserData
        | Command::WriteUserData
        | Command::ReadIssuerData => 0,
    }
}

// Kind, wallet number, curve, message length.
fn put_head(out: &mut [u8], at: usize, kind: Kind, number: u16, curve: u8, size: u16) -> usize
    ensures { Wrote out.old at (head_bytes (code kind) number curve size) out.new result }
{
    let [n1, n0] = wire::be2(number);
    let [s1, s0] = wire::be2(size);
    wire::put_bytes(out, at, &[kind as u8, n1, n0, curve, s1, s0])
}

// The length of a message, in the two bytes that its question's head has for it.
fn size_of(parts: &[&[u8]]) -> u16
    ensures { result ≡ u16 (length (joined (parts_of parts.now))) }
{
    let mut size: u16 = 0;
    for part in parts {
        size = size.wrapping_add((part.len() % 65536) as u16);
    }
    size
}

fn put_parts(out: &mut [u8], mut at: usize, parts: &[&[u8]]) -> usize
    ensures { Wrotes out.old at (parts_of parts.now) out.new result }
{
    for part in parts {
        at = wire::put_bytes(out, at, part);
    }
    at
}

// A question of the card's wallet: its head, and the parts of its message one after the other.
fn put_question(out: &mut [u8], at: usize, kind: Kind, img: &[u8], parts: &[&[u8]]) -> usize
    ensures { Wrotes out.old at
        (each_asked (of_wallet kind (decode img.now).face (parts_of parts.now) ∷ []))
        out.new result }
{
    let number = image::wallet(img).number;
    let at = put_head(out, at, kind, number, image::curve(img), size_of(parts));
    put_parts(out, at, parts)
}

// F8: the number about to begin.
fn pose_key(img: &[u8], out: &mut [u8]) -> usize
    ensures { (v : View) (d : List ℕ) → Wrotes out.old 0
        (each_asked (create_wallet.questions (decode img.now).face v d))
        out.new result }
{
    let number = image::wallet(img).number.wrapping_add(1);
    put_head(out, 0, Kind::MakeKey, number, image::curve(img), 0)
}

// A question for each hash, in order. A hash is a slice whose length the compiler knows, so that its bytes are moved at once.
fn pose_hashes(img: &[u8], hashes: &[u8], out: &mut [u8]) -> usize
    ensures { let w = (decode img.now).face.front in Wrotes out.old 0
        (each_asked (hash_questions w.wallet.number w.fixed.curve (length hashes.now / hash_size) hashes.now))
        out.new result }
{
    let mut at = 0;
    for i in 0..hashes.len() / manual::HASH_SIZE {
        let from = i * manual::HASH_SIZE;
        let hash = &hashes[from..from + manual::HASH_SIZE];
        at = put_question(out, at, Kind::SignHash, img, &[hash]);
    }
    at
}

fn pose_sign(img: &[u8], sent: &Sent, out: &mut [u8]) -> usize
    ensures { (d : List ℕ) → Wrotes out.old 0
        (each_asked (sign.questions (decode img.now).face (view sent.now) d))
        out.new result }
{
    match request::signing(sent) {
        Signing::New(_) => pose_hashes(img, sent.value(tag::TRANSACTION_HASH), out),
        Signing::Again => 0,
    }
}

// The draw's first half, and its second.
fn salt(draw: &[u8]) -> &[u8]
    ensures { result.now ≡ salt draw.now }
{
    wire::part(draw, manual::SALT_AT, manual::SALT_SIZE)
}

fn key_salt(draw: &[u8]) -> &[u8]
    ensures { result.now ≡ key_salt draw.now }
{
    wire::part(draw, manual::KEY_SALT_AT, manual::SALT_SIZE)
}

// F3: Challenge and Salt by the card key.
fn pose_verify(img: &[u8], sent: &Sent, draw: &[u8], out: &mut [u8]) -> usize
    ensures { Wrotes out.old 0
        (each_asked (verify_card.questions (decode img.now).face (view sent.now) draw.now))
        out.new result }
{
    let challenge = sent.value(tag::CHALLENGE);
    put_question(out, 0, Kind::SignByCard, img, &[challenge, salt(draw)])
}

// F4: the counter's two bytes, after it rose.
fn pose_validate(img: &[u8], out: &mut [u8]) -> usize
    ensures { (v : View) (d : List ℕ) → Wrotes out.old 0
        (each_asked (validate_card.questions (decode img.now).face v d))
        out.new result }
{
    let risen = wire::be2(image::counters(img).validations.wrapping_add(1));
    put_question(out, 0, Kind::SignByCard, img, &[&risen])
}

// F9: Challenge and Salt by the wallet key; with tag 14 also the key by the card key.
fn pose_check(img: &[u8], sent: &Sent, draw: &[u8], out: &mut [u8]) -> usize
    ensures { Wrotes out.old 0
        (each_asked (check_wallet.questions (decode img.now).face (view sent.now) draw.now))
        out.new result }
{
    let challenge = sent.value(tag::CHALLENGE);
    let at = put_question(out, 0, Kind::SignByWallet, img, &[challenge, salt(draw)]);
    if sent.has(tag::PUBLIC_KEY_CHALLENGE) {
        pose_key_check(img, sent, draw, out, at)
    } else {
        at
    }
}

// The key, and what follows it unless tag 14 is empty.
fn pose_key_check(img: &[u8], sent: &Sent, draw: &[u8], out: &mut [u8], at: usize) -> usize
    ensures { Wrotes out.old at
        (each_asked (key_question (decode img.now).face (view sent.now) draw.now ∷ []))
        out.new result }
{
    let key = image::key(img);
    let challenge = sent.value(tag::PUBLIC_KEY_CHALLENGE);
    if challenge.len() == 0 {
        put_question(out, at, Kind::SignByCard, img, &[key])
    } else {
        put_question(
            out,
            at,
            Kind::SignByCard,
            img,
            &[key, challenge, key_salt(draw)],
        )
    }
}

// The counter's bytes, if protected.
fn counter_bytes<'a>(img: &[u8], sent: &Sent<'a>) -> &'a [u8]
    ensures { result.now ≡ counter_bytes (decode img.now).face (view sent.now) }
{
    if image::flags(img).replay == 1 {
        sent.value(tag::ISSUER_DATA_COUNTER)
    } else {
        &[]
    }
}

// F6: the signature, and CID, data and counter, which it signs.
fn pose_issuer(img: &[u8], sent: &Sent, out: &mut [u8]) -> usize
    ensures { (d : List ℕ) → Wrotes out.old 0
        (each_asked (write_issuer_data.questions (decode img.now).face (view sent.now) d))
        out.new result }
{
    let signature = sent.value(tag::ISSUER_DATA_SIGNATURE);
    let note = sent.value(tag::ISSUER_DATA);
    let message = [signature, image::cid(img), note, counter_bytes(img, sent)];
    put_question(out, 0, Kind::SignedByIssuer, img, &message)
}

// FE: the confirmation, and CID, seed and Reset_PIN1, which it signs.
fn pose_activation(img: &[u8], sent: &Sent, out: &mut [u8]) -> usize
    ensures { (d : List ℕ) → Wrotes out.old 0
        (each_asked (activate_card.questions (decode img.now).face (view sent.now) d))
        out.new result }
{
    let signature = sent.value(tag::ACTIVATION_SIGNATURE);
    let reset = sent.value(tag::RESET_PIN1);
    let message = [signature, image::cid(img), image::seed(img), reset];
    put_question(out, 0, Kind::ConfirmedByIssuer, img, &message)
}
