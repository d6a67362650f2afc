// The response: CID, the column of the manual's rows with the fields that follow it, of the face after, and the status word.
#![tactic(auto, unfolding(fields::specs::Fields::each, wire::specs::Wire::page))]

ghost use Rattle.std.specs.Prelude.{◌≡◌, ℕ, ◌+◌, ◌≤◌, List};
ghost use Rattle.wire.specs.Wire.{Wrotes};
ghost use Rattle.fields.specs.Fields.{View, each};
ghost use Rattle.sent.specs.Sent.{view};
ghost use Rattle.card.specs.declared.Face.{Face};
ghost use Rattle.card.specs.Image.{decode};
ghost use Rattle.manual.specs.Words.{sw_process_completed};
ghost use Rattle.manual.specs.Commands.{row};
ghost use Rattle.manual.specs.Wallet.{create_wallet, set_pin, sign, purge_wallet, read_fields, active_fields, asleep_fields, wallet_fields, curve_name};
ghost use Rattle.manual.specs.Checking.{salt, key_salt, signature1, signature2, checked_fields, key_fields, verify_card, validate_card};
ghost use Rattle.manual.specs.Storage.{held_field, read_user_data, note_fields, read_issuer_data};
ghost use Rattle.manual.specs.Settle.{matched, fields_of};

use card::{Fixed, Last, Wallet};
use manual::{Command, Outcome, tag};
use sent::Sent;

// The fields of a response from the front of the buffer: CID, then the command's own.
pub fn tell(
    cmd: Command,
    img: &[u8],
    sent: &Sent,
    draw: &[u8],
    answers: &[u8],
    out: &mut [u8],
) -> usize
    ensures { Wrotes out.old 0
        (each (fields_of (row cmd) (decode img.now).face (view sent.now) draw.now answers.now))
        out.new result }
{
    let at = fields::put_field(out, 0, tag::CID, image::cid(img));
    tell_own(cmd, img, sent, draw, answers, out, at)
}

fn tell_own(
    cmd: Command,
    img: &[u8],
    sent: &Sent,
    draw: &[u8],
    answers: &[u8],
    out: &mut [u8],
    at: usize,
) -> usize
    ensures { Wrotes out.old at
        (each ((row cmd).fields_out (decode img.now).face (view sent.now) draw.now answers.now))
        out.new result }
{
    match cmd {
        Command::ReadCard | Command::ActivateCard => tell_read(img, out, at),
        Command::CreateWallet => tell_created(img, out, at),
        Command::CheckWallet => tell_checked(img, sent, draw, answers, out, at),
        Command::Sign => tell_signed(img, out, at),
        Command::VerifyCard => tell_verified(draw, answers, out, at),
        Command::ValidateCard => tell_validated(img, answers, out, at),
        Command::PurgeWallet => tell_purged(img, out, at),
        Command::ReadUserData => tell_user(img, out, at),
        Command::ReadIssuerData => tell_issuer(img, out, at),
        Command::SetPin | Command::WriteUserData | Command::WriteIssuerData => at,
    }
}

// The status word of a command that is carried out: 9000, and for SET_PIN what it changed.
pub fn word(cmd: Command, img: &[u8], sent: &Sent) -> u16
    ensures { result ≡ sw_process_completed + (row cmd).more (matched (decode img.now).codes (view sent.now)) }
{
    match cmd {
        Command::SetPin => Outcome::SW_PROCESS_COMPLETED + renewed(img, sent),
        Command::ReadCard
        | Command::CreateWallet
        | Command::CheckWallet
        | Command::Sign
        | Command::VerifyCard
        | Command::ValidateCard
        | Command::PurgeWallet
        | Command::ReadUserData
        | Command::WriteUserData
        | Command::WriteIssuerData
        | Command::ReadIssuerData
        | Command::ActivateCard => Outcome::SW_PROCESS_COMPLETED,
    }
}

// SET_PIN: 1 for PIN1, 2 for PIN2, each where it changed.
fn renewed(img: &[u8], sent: &Sent) -> u16
    ensures { (result ≡ set_pin.more (matched (decode img.now).codes (view sent.now))) × (result ≤ 3) }
{
    let same1 = sent.holds(tag::NEW_PIN1, image::pin1(img));
    let same2 = sent.holds(tag::NEW_PIN2, image::pin2(img));
    let pin1 = if same1 { 0 } else { 1 };
    let pin2 = if same2 { 0 } else { 2 };
    pin1 + pin2
}

// FC.
fn tell_purged(img: &[u8], out: &mut [u8], at: usize) -> usize
    ensures { (v : View) (d a : List ℕ) → Wrotes out.old at
        (each (purge_wallet.fields_out (decode img.now).face v d a))
        out.new result }
{
    fields::put_byte(out, at, tag::STATUS, image::wallet(img).status)
}

// A curve's name, without a zero.
#[tactic(auto, unfolding(manual::specs::Wallet::curve_name))]
fn curve_name(curve: u8) -> &'static [u8]
    ensures { result.now ≡ curve_name curve }
{
    if curve == Fixed::SECP256K1 {
        b"secp256k1"
    } else {
        b"ed25519"
    }
}

// F2, and FE of the card after.
fn tell_read(img: &[u8], out: &mut [u8], at: usize) -> usize
    ensures { Wrotes out.old at (each (read_fields (decode img.now).face)) out.new result }
{
    let at = fields::put_byte(out, at, tag::STATUS, image::wallet(img).status);
    if image::flags(img).active == 1 {
        tell_active(img, out, at)
    } else {
        tell_asleep(img, out, at)
    }
}

// Not activated: the seed that the issuer is to confirm.
fn tell_asleep(img: &[u8], out: &mut [u8], at: usize) -> usize
    ensures { Wrotes out.old at (each (asleep_fields (decode img.now).face)) out.new result }
{
    let at = fields::put_byte(out, at, tag::IS_ACTIVATED, 0);
    fields::put_field(out, at, tag::ACTIVATION_SEED, image::seed(img))
}

fn tell_active(img: &[u8], out: &mut [u8], at: usize) -> usize
    ensures { Wrotes out.old at (each (active_fields (decode img.now).face)) out.new result }
{
    let at = fields::put_field(out, at, tag::CURVE_ID, curve_name(image::curve(img)));
    let at = fields::put_number(out, at, tag::SIGNED_HASHES, image::wallet(img).signed);
    tell_wallet(img, out, at)
}

fn tell_wallet(img: &[u8], out: &mut [u8], at: usize) -> usize
    ensures { Wrotes out.old at (each (wallet_fields (decode img.now).face)) out.new result }
{
    let wallet = image::wallet(img);
    if wallet.status != Wallet::LOADED {
        return at;
    }
    let at = fields::put_field(out, at, tag::WALLET_PUBLIC_KEY, image::key(img));
    fields::put_number(out, at, tag::REMAINING, wallet.remaining)
}

// F8.
fn tell_created(img: &[u8], out: &mut [u8], at: usize) -> usize
    ensures { (v : View) (d a : List ℕ) → Wrotes out.old at
        (each (create_wallet.fields_out (decode img.now).face v d a))
        out.new result }
{
    let at = fields::put_byte(out, at, tag::STATUS, image::wallet(img).status);
    fields::put_field(out, at, tag::WALLET_PUBLIC_KEY, image::key(img))
}

// FB, new or again.
fn tell_signed(img: &[u8], out: &mut [u8], at: usize) -> usize
    ensures { (v : View) (d a : List ℕ) → Wrotes out.old at
        (each (sign.fields_out (decode img.now).face v d a))
        out.new result }
{
    let wallet = image::wallet(img);
    let at = fields::put_field(out, at, tag::SIGNATURE, image::last(img));
    let at = fields::put_number(out, at, tag::REMAINING, wallet.remaining);
    fields::put_number(out, at, tag::SIGNED_HASHES, wallet.signed)
}

// The draw's first half, and its second.
fn salt(draw: &[u8]) -> &[u8]
    ensures { result.now ≡ salt draw.now }
{
    wire::part(draw, manual::SALT_AT, manual::SALT_SIZE)
}

fn key_salt(draw: &[u8]) -> &[u8]
    ensures { result.now ≡ key_salt draw.now }
{
    wire::part(draw, manual::KEY_SALT_AT, manual::SALT_SIZE)
}

// The first signature among the answers, and the second.
fn signature1(answers: &[u8]) -> &[u8]
    ensures { result.now ≡ signature1 answers.now }
{
    wire::part(answers, 0, Last::SIGNATURE_SIZE)
}

fn signature2(answers: &[u8]) -> &[u8]
    ensures { result.now ≡ signature2 answers.now }
{
    wire::part(answers, Last::SIGNATURE_SIZE, Last::SIGNATURE_SIZE)
}

// F9.
fn tell_checked(
    img: &[u8],
    sent: &Sent,
    draw: &[u8],
    answers: &[u8],
    out: &mut [u8],
    at: usize,
) -> usize
    ensures { Wrotes out.old at
        (each (checked_fields (decode img.now).face (view sent.now) draw.now answers.now))
        out.new result }
{
    let at = fields::put_field(out, at, tag::SALT, salt(draw));
    let at = fields::put_field(out, at, tag::SIGNATURE, signature1(answers));
    if sent.has(tag::PUBLIC_KEY_CHALLENGE) {
        tell_key(img, sent, draw, answers, out, at)
    } else {
        at
    }
}

// With tag 14.
fn tell_key(
    img: &[u8],
    sent: &Sent,
    draw: &[u8],
    answers: &[u8],
    out: &mut [u8],
    at: usize,
) -> usize
    ensures { Wrotes out.old at
        (each (key_fields (decode img.now).face (view sent.now) draw.now answers.now))
        out.new result }
{
    let mut at = fields::put_number(
        out,
        at,
        tag::CHECK_WALLET_COUNTER,
        image::counters(img).checks,
    );
    if sent.value(tag::PUBLIC_KEY_CHALLENGE).len() != 0 {
        at = fields::put_field(out, at, tag::PUBLIC_KEY_SALT, key_salt(draw));
    }
    fields::put_field(out, at, tag::CARD_SIGNATURE, signature2(answers))
}

// F3.
fn tell_verified(draw: &[u8], answers: &[u8], out: &mut [u8], at: usize) -> usize
    ensures { (f : Face) (v : View) → Wrotes out.old at
        (each (verify_card.fields_out f v draw.now answers.now))
        out.new result }
{
    let at = fields::put_field(out, at, tag::SALT, salt(draw));
    fields::put_field(out, at, tag::CARD_SIGNATURE, signature1(answers))
}

// F4.
fn tell_validated(img: &[u8], answers: &[u8], out: &mut [u8], at: usize) -> usize
    ensures { (v : View) (d : List ℕ) → Wrotes out.old at
        (each (validate_card.fields_out (decode img.now).face v d answers.now))
        out.new result }
{
    let validations = image::counters(img).validations;
    let at = fields::put_short(out, at, tag::CARD_VALIDATION_COUNTER, validations);
    fields::put_field(out, at, tag::CARD_SIGNATURE, signature1(answers))
}

// Held data, only if not empty.
fn tell_held(tag: u8, held: &[u8], out: &mut [u8], at: usize) -> usize
    ensures { Wrotes out.old at (each (held_field tag held.now)) out.new result }
{
    if held.len() == 0 {
        return at;
    }
    fields::put_field(out, at, tag, held)
}

// E1.
fn tell_user(img: &[u8], out: &mut [u8], at: usize) -> usize
    ensures { (v : View) (d a : List ℕ) → Wrotes out.old at
        (each (read_user_data.fields_out (decode img.now).face v d a))
        out.new result }
{
    let counters = image::counters(img);
    let at = tell_held(tag::USER_DATA, image::user(img), out, at);
    let at = tell_held(tag::USER_PROTECTED_DATA, image::protected(img), out, at);
    let at = fields::put_number(out, at, tag::USER_COUNTER, counters.user);
    fields::put_number(out, at, tag::USER_PROTECTED_COUNTER, counters.protected)
}

// F7: the note and its signature.
fn tell_note(img: &[u8], out: &mut [u8], at: usize) -> usize
    ensures { Wrotes out.old at (each (note_fields (decode img.now).face)) out.new result }
{
    let note = image::note(img);
    if note.len() == 0 {
        return at;
    }
    let at = fields::put_field(out, at, tag::ISSUER_DATA, note);
    fields::put_field(
        out,
        at,
        tag::ISSUER_DATA_SIGNATURE,
        image::note_signature(img),
    )
}

fn tell_issuer(img: &[u8], out: &mut [u8], at: usize) -> usize
    ensures { (v : View) (d a : List ℕ) → Wrotes out.old at
        (each (read_issuer_data.fields_out (decode img.now).face v d a))
        out.new result }
{
    let at = tell_note(img, out, at);
    if image::flags(img).replay == 1 {
        fields::put_number(out, at, tag::ISSUER_DATA_COUNTER, image::note_counter(img))
    } else {
        at
    }
}
