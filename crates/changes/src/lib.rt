// What becomes of the card: the image of the card after, made from that of the card before.
#![tactic(auto)]

ghost use Rattle.std.specs.Prelude.{◌≡◌};
ghost use Rattle.wire.specs.Wire.{Wrote};
ghost use Rattle.sent.specs.Sent.{view};
ghost use Rattle.card.specs.declared.Card.{Card};
ghost use Rattle.card.specs.declared.Face.{Face};
ghost use Rattle.card.specs.Image.{decode};
ghost use Rattle.card.specs.Values.{risen, held_last, faced, with_user, with_protected, with_counters, with_last, checked_once, validated_once};
ghost use Rattle.writing.specs.Holds.{Turned};
ghost use Rattle.manual.specs.Tags.{UserData, UserProtectedData};
ghost use Rattle.manual.specs.Wallet.{sign, created_face, purged_face, new_codes};
ghost use Rattle.manual.specs.Storage.{stored_block, stored_number, stored_counters, stored_face, kept_counter, issuer_face};
ghost use Rattle.manual.specs.Activation.{activated_face, activated_codes};
ghost use Rattle.changes.specs.Carried.{kept_image, carried_card, carried_image, charged};

use card::{Codes, Counters, Wallet, layout};
use manual::{Command, Signing, tag};
use sent::Sent;

// The image as it was, where a command is refused.
pub fn keep(img: &[u8], next: &mut [u8]) -> usize
    ensures { Wrote next.old 0 (kept_image img.now) next.new result }
{
    if img.len() == layout::IMAGE_SIZE {
        wire::put_bytes(next, 0, img)
    } else {
        0
    }
}

// THE IMAGE AFTER: the image before, with the groups anew that the command changes.
pub fn change(cmd: Command, img: &[u8], sent: &Sent, answers: &[u8], next: &mut [u8]) -> usize
    ensures { Wrote next.old 0
        (carried_image cmd img.now (view sent.now) answers.now)
        next.new result }
{
    if img.len() != layout::IMAGE_SIZE || !wire::has_room(next.len(), 0, layout::IMAGE_SIZE) {
        return 0;
    }
    wire::put_bytes(next, 0, img);
    alter(cmd, img, sent, answers, next);
    layout::IMAGE_SIZE
}

// What becomes of the card of which next holds the image.
fn alter(cmd: Command, img: &[u8], sent: &Sent, answers: &[u8], next: &mut [u8])
    ensures { Turned (decode img.now)
        (carried_card cmd (decode img.now) (view sent.now) answers.now)
        next.old next.new }
{
    match cmd {
        Command::CreateWallet => created(img, answers, next),
        Command::CheckWallet => checked(img, next),
        Command::SetPin => recoded(sent, next),
        Command::Sign => signed(img, sent, answers, next),
        Command::ValidateCard => validated(img, next),
        Command::PurgeWallet => purged(img, next),
        Command::WriteUserData => stored(img, sent, next),
        Command::WriteIssuerData => noted(img, sent, next),
        Command::ActivateCard => activated(img, sent, next),
        Command::ReadCard | Command::VerifyCard | Command::ReadUserData | Command::ReadIssuerData =>
            (),
    }
}

fn created(img: &[u8], answers: &[u8], next: &mut [u8])
    ensures { Turned (decode img.now)
        (faced (created_face (decode img.now).face answers.now) (decode img.now))
        next.old next.new }
{
    writing::anew::wallet(next, image::wallet(img).create(image::max(img)));
    writing::anew::key(next, answers);
}

fn checked(img: &[u8], next: &mut [u8])
    ensures { Turned (decode img.now)
        (faced (with_counters (checked_once (decode img.now).face.front.counters) (decode img.now).face) (decode img.now))
        next.old next.new }
{
    writing::anew::counters(next, image::counters(img).checked());
}

fn validated(img: &[u8], next: &mut [u8])
    ensures { Turned (decode img.now)
        (faced (with_counters (validated_once (decode img.now).face.front.counters) (decode img.now).face) (decode img.now))
        next.old next.new }
{
    writing::anew::counters(next, image::counters(img).validated());
}

// What a SIGN makes of the wallet: new signatures cost one, however many hashes; the last ones again cost nothing.
fn charged(w: Wallet, s: Signing, hashes: u32) -> Wallet
    ensures { result ≡ charged s hashes w }
{
    match s {
        Signing::New(_) => w.sign(hashes),
        Signing::Again => w,
    }
}

fn signed(img: &[u8], sent: &Sent, answers: &[u8], next: &mut [u8])
    ensures { Turned (decode img.now)
        (faced (sign.next (decode img.now).face (view sent.now) answers.now)
        (decode img.now))
        next.old next.new }
{
    let s = request::signing(sent);
    let array = sent.value(tag::TRANSACTION_HASH);
    let hashes = (array.len() / manual::HASH_SIZE % 4294967296) as u32;
    writing::anew::wallet(next, charged(image::wallet(img), s, hashes));
    match s {
        Signing::New(_) => signed_anew(img, answers, next),
        Signing::Again => (),
    }
}

// What only new signatures change, beside the wallet.
fn signed_anew(img: &[u8], answers: &[u8], next: &mut [u8])
    ensures { (c : Card) → Turned c
        (faced (with_last (held_last answers.now) (with_counters (risen (decode img.now).face.front.counters) c.face)) c)
        next.old next.new }
{
    writing::anew::counters(next, image::counters(img).signed());
    writing::anew::last(next, answers);
}

// Key and last signatures are forgotten: nothing is written over them.
fn purged(img: &[u8], next: &mut [u8])
    ensures { Turned (decode img.now)
        (faced (purged_face (decode img.now).face) (decode img.now))
        next.old next.new }
{
    let wallet = image::wallet(img).purge(image::flags(img).reusable);
    writing::anew::wallet(next, wallet);
    writing::anew::key(next, &[]);
    writing::anew::last(next, &[]);
}

// What is there is stored.
fn stored_user(sent: &Sent, next: &mut [u8])
    ensures { (c : Card) → Turned c
        (faced (with_user (stored_block UserData (view sent.now) c.face.held.user) c.face) c)
        next.old next.new }
{
    if sent.has(tag::USER_DATA) {
        writing::anew::user(next, sent.value(tag::USER_DATA));
    }
}

fn stored_protected(sent: &Sent, next: &mut [u8])
    ensures { (c : Card) → Turned c
        (faced (with_protected (stored_block UserProtectedData (view sent.now) c.face.held.protected) c.face) c)
        next.old next.new }
{
    if sent.has(tag::USER_PROTECTED_DATA) {
        writing::anew::protected(next, sent.value(tag::USER_PROTECTED_DATA));
    }
}

fn stored_number(tag: u8, sent: &Sent, old: u32) -> u32
    ensures { result ≡ stored_number tag (view sent.now) old }
{
    if sent.has(tag) {
        wire::get32(sent.value(tag), 0)
    } else {
        old
    }
}

fn stored_counters(sent: &Sent, old: Counters) -> Counters
    ensures { result ≡ stored_counters (view sent.now) old }
{
    Counters {
        user: stored_number(tag::USER_COUNTER, sent, old.user),
        protected: stored_number(tag::USER_PROTECTED_COUNTER, sent, old.protected),
        ..old
    }
}

fn stored(img: &[u8], sent: &Sent, next: &mut [u8])
    ensures { Turned (decode img.now)
        (faced (stored_face (decode img.now).face (view sent.now)) (decode img.now))
        next.old next.new }
{
    stored_user(sent, next);
    stored_protected(sent, next);
    writing::anew::counters(next, stored_counters(sent, image::counters(img)));
}

// The counter is stored only if protected.
fn kept_counter(img: &[u8], sent: &Sent) -> u32
    ensures { result ≡ kept_counter (decode img.now).face (view sent.now) }
{
    if image::flags(img).replay == 1 {
        request::sent_counter(sent)
    } else {
        image::note_counter(img)
    }
}

fn noted(img: &[u8], sent: &Sent, next: &mut [u8])
    ensures { Turned (decode img.now)
        (faced (issuer_face (decode img.now).face (view sent.now)) (decode img.now))
        next.old next.new }
{
    let counter = kept_counter(img, sent);
    writing::anew::issuer(
        next,
        sent.value(tag::ISSUER_DATA),
        sent.value(tag::ISSUER_DATA_SIGNATURE),
        counter,
    );
}

// PIN1 becomes its default where that was asked for.
fn reset_pin1(img: &[u8], sent: &Sent, next: &mut [u8])
    ensures { (f : Face) → Turned (record { face = f; codes = (decode img.now).codes })
        (record { face = f; codes = activated_codes (view sent.now) (decode img.now).codes })
        next.old next.new }
{
    if request::resets(sent) {
        writing::anew::codes(next, &Codes::DEFAULT_PIN1, image::pin2(img));
    }
}

fn activated(img: &[u8], sent: &Sent, next: &mut [u8])
    ensures { Turned (decode img.now)
        (record {
          face = activated_face (decode img.now).face;
          codes = activated_codes (view sent.now) (decode img.now).codes;
        })
        next.old next.new }
{
    writing::anew::flags(next, image::flags(img).activate());
    reset_pin1(img, sent, next);
}

fn recoded(sent: &Sent, next: &mut [u8])
    ensures { (c : Card) → Turned c
        (record { face = c.face; codes = new_codes (view sent.now) })
        next.old next.new }
{
    writing::anew::codes(next, sent.value(tag::NEW_PIN1), sent.value(tag::NEW_PIN2));
}
