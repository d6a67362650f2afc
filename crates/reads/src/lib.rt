// The second rule of check 5: no tag of the command's entry stands twice. One list of tags a command, its entry in 01, whatever this card
// needs of it.
#![tactic(auto)]

ghost use Rattle.std.specs.Prelude.{◌≡◌};
ghost use Rattle.fields.specs.Fields.{twice};
ghost use Rattle.sent.specs.Sent.{view};
ghost use Rattle.manual.specs.Row.{single};
ghost use Rattle.manual.specs.Commands.{row};

use fields::Times;
use manual::{Command, tag};
use sent::Sent;

// The tags of the command's entry.
// A table of the paper, a command an arm and never `_`, so that the compiler names a new command; so are the columns of the crates above.
fn entry(cmd: Command) -> &'static [u8]
    ensures { result.now ≡ (row cmd).reads }
{
    match cmd {
        Command::ReadCard => &[tag::PIN1],
        Command::CreateWallet => &[tag::PIN1, tag::CID, tag::PIN2, tag::CVC],
        Command::CheckWallet => &[
            tag::PIN1,
            tag::CID,
            tag::CHALLENGE,
            tag::PUBLIC_KEY_CHALLENGE,
        ],
        Command::SetPin => &[
            tag::PIN1,
            tag::CID,
            tag::PIN2,
            tag::CVC,
            tag::NEW_PIN1,
            tag::NEW_PIN2,
        ],
        Command::Sign => &[
            tag::PIN1,
            tag::CID,
            tag::PIN2,
            tag::CVC, // which SIGN's entry names too
            tag::TRANSACTION_HASH,
            tag::TRANSACTION_HASH_SIZE,
        ],
        Command::VerifyCard => &[tag::PIN1, tag::CID, tag::CHALLENGE],
        Command::ValidateCard => &[tag::PIN1, tag::CID, tag::PIN2],
        Command::PurgeWallet => &[tag::PIN1, tag::CID, tag::PIN2],
        Command::ReadUserData => &[tag::PIN1, tag::CID],
        Command::WriteUserData => &[
            tag::PIN1,
            tag::CID,
            tag::PIN2,
            tag::USER_DATA,
            tag::USER_PROTECTED_DATA,
            tag::USER_COUNTER,
            tag::USER_PROTECTED_COUNTER,
        ],
        Command::WriteIssuerData => &[
            tag::PIN1,
            tag::CID,
            tag::MODE,
            tag::ISSUER_DATA,
            tag::ISSUER_DATA_SIGNATURE,
            tag::ISSUER_DATA_COUNTER,
        ],
        Command::ReadIssuerData => &[tag::PIN1, tag::CID, tag::MODE],
        Command::ActivateCard => &[
            tag::PIN1,
            tag::CID,
            tag::RESET_PIN1,
            tag::ACTIVATION_SIGNATURE,
        ],
    }
}

#[tactic(auto, unfolding(fields::specs::Fields::twice))]
fn is_twice(tag: u8, sent: &Sent) -> bool
    ensures { result ≡ twice tag (view sent.now) }
{
    matches!(sent.times(tag), Times::Twice)
}

fn all_single(tags: &[u8], sent: &Sent) -> bool
    ensures { result ≡ single tags.now (view sent.now) }
{
    for tag in tags {
        if is_twice(*tag, sent) {
            return false;
        }
    }
    true
}

// Where no tag at all stands twice, as in every request that an app means, no list is looked at.
#[tactic(auto, using(crate::proofs::Laws::none_marked))]
pub fn once(cmd: Command, sent: &Sent) -> bool
    ensures { result ≡ single (row cmd).reads (view sent.now) }
{
    sent.none_twice() || all_single(entry(cmd), sent)
}
