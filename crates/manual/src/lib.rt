// The manual's words as types: the commands, what each needs, the refusal of a check, the result of a call. The meaning is in specs/.
#![tactic(auto)]

pub mod tag;

#[derive(Clone, Copy)]
pub enum Command {
    ReadCard,
    CreateWallet,
    CheckWallet,
    SetPin,
    Sign,
    VerifyCard,
    ValidateCard,
    PurgeWallet,
    ReadUserData,
    WriteUserData,
    WriteIssuerData,
    ReadIssuerData,
    ActivateCard,
}

// An INS that no command has: check 3.
#[derive(Clone, Copy)]
pub struct Unlisted(pub u8);

impl TryFrom<u8> for Command {
    type Error = Unlisted;

    ghost use Rattle.std.specs.Prelude.{◌≡◌};
    ghost use Rattle.manual.specs.Request.{ins_of};

    ghost try_from_gives = { λ ins r. r ≡ ins_of ins };

    #[tactic(auto, unfolding(crate::specs::Request::ins_of))]
    fn try_from(ins: u8) -> Result<Command, Unlisted> {
        match ins {
            0xF2 => Ok(Command::ReadCard),
            0xF8 => Ok(Command::CreateWallet),
            0xF9 => Ok(Command::CheckWallet),
            0xFA => Ok(Command::SetPin),
            0xFB => Ok(Command::Sign),
            0xF3 => Ok(Command::VerifyCard),
            0xF4 => Ok(Command::ValidateCard),
            0xFC => Ok(Command::PurgeWallet),
            0xE1 => Ok(Command::ReadUserData),
            0xE0 => Ok(Command::WriteUserData),
            0xF6 => Ok(Command::WriteIssuerData),
            0xF7 => Ok(Command::ReadIssuerData),
            0xFE => Ok(Command::ActivateCard),
            _ => Err(Unlisted(ins)),
        }
    }
}

// What SIGN asks for: new signatures, of a hash array of so many bytes, or the last ones again.
// Again is a request of its own, and not the absence of one: no Option.
#[derive(Clone, Copy)]
pub enum Signing {
    New(usize),
    Again,
}

// The first check that fails, by its number in 01, and its status word.
// Both go into the numbers of an Outcome.
#[derive(Clone, Copy)]
pub struct Refusal {
    pub check: u8,
    pub word: u16,
}

// What the delay makes of a request (02 Ask 7): refused by checks 1 to 10, over a code that counts as wrong or not; it waits, so many
// seconds being left; or it goes on.
// Three cases.
#[derive(Clone, Copy)]
pub enum Pace {
    Refused(bool),
    Waits(u8),
    Goes,
}

// The part of a command's row that no request changes: whether check 7 is made, whether it runs on a card that is not activated,
// the statuses that allow it, and whether it asks for the CVC where that is used.
// Six flags, each a column of the paper's table.
#[derive(Clone, Copy)]
pub struct Needs {
    pub cid: bool,
    pub asleep: bool,
    pub empty: bool,
    pub loaded: bool,
    pub purged: bool,
    pub cvc: bool,
}

// What a call returns: the number of 01's table, the reason (the number of the check that refuses, 0 where none does), the status word, the length written.
// C has this struct, so that its numbers are numbers.
#[repr(C)]
#[derive(Drop)]
pub struct Outcome {
    pub number: u8,
    pub reason: u8,
    pub word: u16,
    pub length: u32,
}

impl Outcome {
    // The numbers of 01's table.
    pub const NO_CARD: u8 = 1;

    pub const NO_ROOM: u8 = 2;

    pub const NO_DRAW: u8 = 3;

    pub const NO_ANSWERS: u8 = 4;

    // The status words, by the manual's names.
    pub const SW_PROCESS_COMPLETED: u16 = 0x9000;

    pub const SW_ERROR_PROCESSING_COMMAND: u16 = 0x6286;

    pub const SW_WRONG_LENGTH: u16 = 0x6700;

    pub const SW_NEED_ENCRYPTION: u16 = 0x6982;

    pub const SW_INVALID_STATUS: u16 = 0x6985;

    pub const SW_INVALID_PARAMS: u16 = 0x6A86;

    pub const SW_INS_NOT_SUPPORTED: u16 = 0x6D00;

    pub const SW_CLA_NOT_SUPPORTED: u16 = 0x6E00;

    pub const SW_NEED_PAUSE: u16 = 0x9789;
}

// The room that the buffers for questions and for the response have at least.
pub const QUESTIONS_ROOM: usize = 2048;

pub const RESPONSE_ROOM: usize = 2048;

pub const DRAW_SIZE: usize = 32;

// A challenge, a salt; where salt and key salt stand in a draw.
pub const SALT_SIZE: usize = 16;

pub const SALT_AT: usize = 0;

pub const KEY_SALT_AT: usize = SALT_SIZE;

// A request, as a whole.
pub const LEAST_REQUEST: usize = 6;

pub const MOST_REQUEST: usize = 1024;

pub const HASH_SIZE: usize = 32;
