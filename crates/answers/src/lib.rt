// The columns of the manual's rows about the crypto provider's answers: their shape, number 4, and check 13.
#![tactic(auto)]

ghost use Rattle.std.specs.Prelude.{◌≡◌, ℕ, ◌*◌, List, leb, eqb, length};
ghost use Rattle.sent.specs.Sent.{view};
ghost use Rattle.card.specs.declared.Face.{Face};
ghost use Rattle.card.specs.Layout.{signature_size};
ghost use Rattle.card.specs.Image.{decode};
ghost use Rattle.manual.specs.Row.{key_answer, exactly, fitting, shaped};
ghost use Rattle.manual.specs.Commands.{row};
ghost use Rattle.manual.specs.Wallet.{sign};
ghost use Rattle.manual.specs.Checking.{check_wallet};

use card::{Fixed, Key, Last};
use manual::{Command, Signing, tag};
use sent::Sent;

// Number 4.
#[tactic(auto, unfolding(manual::specs::Row::shaped))]
pub fn have_shape(cmd: Command, img: &[u8], sent: &Sent, answers: &[u8]) -> bool
    ensures { (d : List ℕ) → result ≡ shaped
        ((row cmd).questions (decode img.now).face (view sent.now) d)
        answers.now }
{
    match cmd {
        Command::CreateWallet => is_key(image::curve(img), answers),
        Command::CheckWallet => check_answers(sent, answers),
        Command::Sign => sign_answers(sent, answers),
        Command::VerifyCard | Command::ValidateCard => are_signatures(answers, 1),
        Command::WriteIssuerData | Command::ActivateCard => is_yes_or_no(answers),
        Command::ReadCard
        | Command::SetPin
        | Command::PurgeWallet
        | Command::ReadUserData
        | Command::WriteUserData
        | Command::ReadIssuerData => answers.len() == 0,
    }
}

// So many signatures, one after the other.
fn are_signatures(a: &[u8], n: usize) -> bool
    ensures { result ≡ eqb (length a.now) (n * signature_size) }
{
    a.len() % Last::SIGNATURE_SIZE == 0 && a.len() / Last::SIGNATURE_SIZE == n
}

// A key of 65 bytes that starts with 04, or of 32.
fn is_key(curve: u8, a: &[u8]) -> bool
    ensures { result ≡ fitting (key_answer curve) a.now }
{
    if curve == Fixed::SECP256K1 {
        return a.len() == Key::ROOM && wire::get8(a, 0) == 4;
    }
    a.len() == Key::SHORT
}

// To a question of kind 5 or 6.
fn is_yes_or_no(a: &[u8]) -> bool
    ensures { result ≡ fitting (exactly 1 (λ b. leb b 1)) a.now }
{
    a.len() == 1 && wire::get8(a, 0) <= 1
}

fn check_answers(sent: &Sent, a: &[u8]) -> bool
    ensures { (f : Face) (d : List ℕ) → result ≡ shaped (check_wallet.questions f (view sent.now) d) a.now }
{
    if sent.has(tag::PUBLIC_KEY_CHALLENGE) {
        are_signatures(a, 2)
    } else {
        are_signatures(a, 1)
    }
}

fn sign_answers(sent: &Sent, a: &[u8]) -> bool
    ensures { (f : Face) (d : List ℕ) → result ≡ shaped (sign.questions f (view sent.now) d) a.now }
{
    match request::signing(sent) {
        Signing::New(n) => are_signatures(a, n / manual::HASH_SIZE),
        Signing::Again => are_signatures(a, 0),
    }
}

// Check 13.
pub fn is_confirmed(cmd: Command, answers: &[u8]) -> bool
    ensures { result ≡ (row cmd).confirmed answers.now }
{
    match cmd {
        Command::WriteIssuerData | Command::ActivateCard => wire::get8(answers, 0) == 1,
        Command::ReadCard
        | Command::CreateWallet
        | Command::CheckWallet
        | Command::SetPin
        | Command::Sign
        | Command::VerifyCard
        | Command::ValidateCard
        | Command::PurgeWallet
        | Command::ReadUserData
        | Command::WriteUserData
        | Command::ReadIssuerData => true,
    }
}
