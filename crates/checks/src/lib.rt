// The columns of the manual's rows that the checks 7 to 12 read: one function a column. Commands that share a value share an arm, and
// every command is named, so that the compiler asks for a new one.
#![tactic(auto)]

ghost use Rattle.std.specs.Prelude.{◌≡◌};
ghost use Rattle.sent.specs.Sent.{view};
ghost use Rattle.card.specs.Image.{decode};
ghost use Rattle.manual.specs.Commands.{row};
ghost use Rattle.manual.specs.Wallet.{pin_fields, sign_fields, sign_conditions, hashes_ok};
ghost use Rattle.manual.specs.Checking.{challenged, check_fields};
ghost use Rattle.manual.specs.Storage.{is_data, block_sent, number_sent, any_sent, user_fields, mode_ok, issuer_fields, guarded};
ghost use Rattle.manual.specs.Activation.{activation_fields};
ghost use Rattle.checks.specs.Columns.{conditions_of, pin_conditions, issuer_conditions};

use card::{Block, Codes, Counters, Last, Wallet};
use manual::{Command, Needs, Signing, tag};
use sent::Sent;

// What commands share: an activated card, in every Status,
const ACTIVE: Needs = Needs {
    cid: true,
    asleep: false,
    empty: true,
    loaded: true,
    purged: true,
    cvc: false,
};

// in some of them,
const NOT_PURGED: Needs = Needs {
    purged: false,
    ..ACTIVE
};

const LOADED: Needs = Needs {
    empty: false,
    ..NOT_PURGED
};

const EMPTY: Needs = Needs {
    loaded: false,
    ..NOT_PURGED
};

// or a card that need not be activated.
const ALWAYS: Needs = Needs {
    asleep: true,
    ..ACTIVE
};

// CHECKS 7 to 10: what no request changes.
// This and the other columns are the paper's table read downwards: commands that share a value share an arm, and none is `_`.
pub fn needs(cmd: Command) -> Needs
    ensures { result ≡ (row cmd).needs }
{
    match cmd {
        Command::ReadCard => Needs {
            cid: false,
            ..ALWAYS
        },
        Command::CreateWallet => Needs { cvc: true, ..EMPTY },
        Command::SetPin => Needs {
            cvc: true,
            ..NOT_PURGED
        },
        Command::Sign => Needs {
            cvc: true,
            ..LOADED
        },
        Command::CheckWallet | Command::PurgeWallet => LOADED,
        Command::ValidateCard | Command::WriteUserData | Command::WriteIssuerData => NOT_PURGED,
        Command::VerifyCard | Command::ReadUserData => ACTIVE,
        Command::ReadIssuerData | Command::ActivateCard => ALWAYS,
    }
}

// CHECK 10: whether PIN2 is needed.
pub fn needs_pin2(cmd: Command, sent: &Sent) -> bool
    ensures { result ≡ (row cmd).pin2 (view sent.now) }
{
    match cmd {
        Command::CreateWallet
        | Command::SetPin
        | Command::Sign
        | Command::ValidateCard
        | Command::PurgeWallet => true,
        Command::WriteUserData => {
            sent.has(tag::USER_PROTECTED_DATA) || sent.has(tag::USER_PROTECTED_COUNTER)
        }
        Command::ReadCard
        | Command::CheckWallet
        | Command::VerifyCard
        | Command::ReadUserData
        | Command::WriteIssuerData
        | Command::ReadIssuerData
        | Command::ActivateCard => false,
    }
}

// CHECK 11: the command's own fields.
pub fn fields_ok(cmd: Command, img: &[u8], sent: &Sent) -> bool
    ensures { result ≡ (row cmd).fields (decode img.now).face (view sent.now) }
{
    match cmd {
        Command::CheckWallet => check_fields(sent),
        Command::SetPin => pin_fields(sent),
        Command::Sign => sign_fields(sent),
        Command::VerifyCard => is_challenged(sent),
        Command::WriteUserData => user_fields(sent),
        Command::WriteIssuerData => issuer_fields(img, sent),
        Command::ReadIssuerData => mode_ok(sent),
        Command::ActivateCard => activation_fields(sent),
        Command::ReadCard
        | Command::CreateWallet
        | Command::ValidateCard
        | Command::PurgeWallet
        | Command::ReadUserData => true,
    }
}

fn is_challenged(sent: &Sent) -> bool
    ensures { result ≡ challenged (view sent.now) }
{
    sent.value(tag::CHALLENGE).len() == manual::SALT_SIZE
}

fn check_fields(sent: &Sent) -> bool
    ensures { result ≡ check_fields (view sent.now) }
{
    let n = sent.value(tag::PUBLIC_KEY_CHALLENGE).len();
    let fits = n == 0 || n == manual::SALT_SIZE;
    is_challenged(sent) && (!sent.has(tag::PUBLIC_KEY_CHALLENGE) || fits)
}

fn pin_fields(sent: &Sent) -> bool
    ensures { result ≡ pin_fields (view sent.now) }
{
    sent.value(tag::NEW_PIN1).len() == Codes::PIN_SIZE
        && sent.value(tag::NEW_PIN2).len() == Codes::PIN_SIZE
}

#[tactic(auto, using(crate::proofs::Laws::has_array), unfolding(manual::specs::Wallet::signing))]
fn sign_fields(sent: &Sent) -> bool
    ensures { result ≡ sign_fields (view sent.now) }
{
    match request::signing(sent) {
        Signing::New(n) => {
            let size = sent.value(tag::TRANSACTION_HASH_SIZE);
            whole_hashes(n) && wire::equal(size, &[manual::HASH_SIZE as u8])
        }
        Signing::Again => true,
    }
}

fn whole_hashes(n: usize) -> bool
    ensures { result ≡ hashes_ok n }
{
    let hashes = n / manual::HASH_SIZE;
    n % manual::HASH_SIZE == 0 && 1 <= hashes && hashes <= Last::MOST_HASHES
}

fn is_data(v: &[u8]) -> bool
    ensures { result ≡ is_data v.now }
{
    1 <= v.len() && v.len() <= Block::ROOM
}

// Data of E0.
fn block_sent(tag: u8, sent: &Sent) -> bool
    ensures { result ≡ block_sent tag (view sent.now) }
{
    !sent.has(tag) || is_data(sent.value(tag))
}

// A counter of E0.
fn number_sent(tag: u8, sent: &Sent) -> bool
    ensures { result ≡ number_sent tag (view sent.now) }
{
    !sent.has(tag) || sent.value(tag).len() == 4
}

fn any_sent(sent: &Sent) -> bool
    ensures { result ≡ any_sent (view sent.now) }
{
    sent.has(tag::USER_DATA)
        || sent.has(tag::USER_PROTECTED_DATA)
        || sent.has(tag::USER_COUNTER)
        || sent.has(tag::USER_PROTECTED_COUNTER)
}

fn user_fields(sent: &Sent) -> bool
    ensures { result ≡ user_fields (view sent.now) }
{
    any_sent(sent)
        && block_sent(tag::USER_DATA, sent)
        && block_sent(tag::USER_PROTECTED_DATA, sent)
        && number_sent(tag::USER_COUNTER, sent)
        && number_sent(tag::USER_PROTECTED_COUNTER, sent)
}

// Mode of F6 and F7.
fn mode_ok(sent: &Sent) -> bool
    ensures { result ≡ mode_ok (view sent.now) }
{
    !sent.has(tag::MODE) || wire::equal(sent.value(tag::MODE), &[0])
}

// Whether the card has issuer replay protection.
fn is_guarded(img: &[u8]) -> bool
    ensures { result ≡ guarded (decode img.now).face }
{
    image::flags(img).replay == 1
}

fn issuer_fields(img: &[u8], sent: &Sent) -> bool
    ensures { result ≡ issuer_fields (decode img.now).face (view sent.now) }
{
    mode_ok(sent)
        && is_data(sent.value(tag::ISSUER_DATA))
        && sent.value(tag::ISSUER_DATA_SIGNATURE).len() == Last::SIGNATURE_SIZE
        && (!is_guarded(img) || sent.value(tag::ISSUER_DATA_COUNTER).len() == 4)
}

// Reset_PIN1, one byte 0 or 1, and the issuer's confirmation.
fn activation_fields(sent: &Sent) -> bool
    ensures { result ≡ activation_fields (view sent.now) }
{
    let said = wire::equal(sent.value(tag::RESET_PIN1), &[0]) || request::resets(sent);
    said && sent.value(tag::ACTIVATION_SIGNATURE).len() == Last::SIGNATURE_SIZE
}

// CHECK 12: the command's own conditions.
pub fn conditions_ok(cmd: Command, img: &[u8], sent: &Sent) -> bool
    ensures { result ≡ conditions_of cmd (decode img.now) (view sent.now) }
{
    match cmd {
        Command::CreateWallet => image::wallet(img).number < Wallet::TOP_NUMBER,
        Command::SetPin => pin_conditions(img, sent),
        Command::Sign => sign_conditions(img, sent),
        Command::ValidateCard => image::counters(img).validations < Counters::TOP_VALIDATIONS,
        Command::PurgeWallet => image::flags(img).nopurge == 0,
        Command::WriteIssuerData => issuer_conditions(img, sent),
        Command::ActivateCard => image::flags(img).active != 1,
        Command::ReadCard
        | Command::CheckWallet
        | Command::VerifyCard
        | Command::ReadUserData
        | Command::WriteUserData
        | Command::ReadIssuerData => true,
    }
}

// A code that differs from the stored one may change.
fn pin_conditions(img: &[u8], sent: &Sent) -> bool
    ensures { result ≡ pin_conditions (decode img.now) (view sent.now) }
{
    let flags = image::flags(img);
    let same1 = sent.holds(tag::NEW_PIN1, image::pin1(img));
    let same2 = sent.holds(tag::NEW_PIN2, image::pin2(img));
    (same1 || flags.setpin1 == 1) && (same2 || flags.setpin2 == 1)
}

#[tactic(auto, unfolding(manual::specs::Wallet::signing))]
fn sign_conditions(img: &[u8], sent: &Sent) -> bool
    ensures { result ≡ sign_conditions (decode img.now).face (view sent.now) }
{
    match request::signing(sent) {
        Signing::New(n) => {
            let wallet = image::wallet(img);
            let sum = wallet.signed as usize + n / manual::HASH_SIZE;
            0 < wallet.remaining && sum <= Wallet::TOP as usize
        }
        Signing::Again => 0 < image::last_count(img),
    }
}

fn issuer_conditions(img: &[u8], sent: &Sent) -> bool
    ensures { result ≡ issuer_conditions (decode img.now) (view sent.now) }
{
    !is_guarded(img) || image::note_counter(img) < request::sent_counter(sent)
}
