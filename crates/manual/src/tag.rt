// The tags, by the paper's names. The same table is in specs/Tags.antt.
// Bytes, and no enum: a payload may have any byte for a tag.
pub const CID: u8 = 0x01;

pub const STATUS: u8 = 0x02;

pub const CARD_SIGNATURE: u8 = 0x04;

pub const CURVE_ID: u8 = 0x05;

pub const PIN1: u8 = 0x10;

pub const PIN2: u8 = 0x11;

pub const NEW_PIN1: u8 = 0x12;

pub const NEW_PIN2: u8 = 0x13;

pub const PUBLIC_KEY_CHALLENGE: u8 = 0x14;

pub const PUBLIC_KEY_SALT: u8 = 0x15;

pub const CHALLENGE: u8 = 0x16;

pub const SALT: u8 = 0x17;

pub const CARD_VALIDATION_COUNTER: u8 = 0x18;

pub const CVC: u8 = 0x19;

pub const PAUSE: u8 = 0x1C;

pub const MODE: u8 = 0x23;

pub const USER_DATA: u8 = 0x2A;

pub const USER_PROTECTED_DATA: u8 = 0x2B;

pub const USER_COUNTER: u8 = 0x2C;

pub const USER_PROTECTED_COUNTER: u8 = 0x2D;

pub const ISSUER_DATA: u8 = 0x32;

pub const ISSUER_DATA_SIGNATURE: u8 = 0x33;

pub const ACTIVATION_SIGNATURE: u8 = 0x34;

pub const ISSUER_DATA_COUNTER: u8 = 0x35;

pub const RESET_PIN1: u8 = 0x36;

pub const IS_ACTIVATED: u8 = 0x3A;

pub const ACTIVATION_SEED: u8 = 0x3B;

pub const TRANSACTION_HASH: u8 = 0x50;

pub const TRANSACTION_HASH_SIZE: u8 = 0x51;

pub const WALLET_PUBLIC_KEY: u8 = 0x60;

pub const SIGNATURE: u8 = 0x61;

pub const REMAINING: u8 = 0x62;

pub const SIGNED_HASHES: u8 = 0x63;

pub const CHECK_WALLET_COUNTER: u8 = 0x64;
