// Where the groups of an image stand, docs/IMAGE.md: each where the one before it ends. The same table is in specs/Layout.antt.
use crate::{Block, Codes, Fixed, Key, Last, Pending};

pub const CODES_WIDTH: usize = Codes::PIN_SIZE + Codes::PIN_SIZE;

pub const FIXED_WIDTH: usize = Fixed::CID_SIZE + Fixed::CVC_SIZE + 1 + 4 + Fixed::SEED_SIZE + 1;

pub const FLAGS_WIDTH: usize = 7;

pub const WALLET_WIDTH: usize = 1 + 2 + 4 + 4;

pub const KEY_WIDTH: usize = 1 + Key::ROOM;

pub const COUNTERS_WIDTH: usize = 4 + 2 + 4 + 4;

pub const BLOCK_WIDTH: usize = 2 + Block::ROOM;

pub const ISSUER_WIDTH: usize = BLOCK_WIDTH + Last::SIGNATURE_SIZE + 4;

pub const PENDING_WIDTH: usize = 1 + 1 + 2 + Pending::ROOM;

pub const LAST_WIDTH: usize = 1 + Last::ROOM;

pub const CODES_AT: usize = 0;

pub const FIXED_AT: usize = CODES_AT + CODES_WIDTH;

// The last byte of what is fixed.
pub const PAUSE_AT: usize = FIXED_AT + Fixed::CID_SIZE + Fixed::CVC_SIZE + 1 + 4 + Fixed::SEED_SIZE;

pub const FLAGS_AT: usize = FIXED_AT + FIXED_WIDTH;

pub const WALLET_AT: usize = FLAGS_AT + FLAGS_WIDTH;

pub const KEY_AT: usize = WALLET_AT + WALLET_WIDTH;

pub const COUNTERS_AT: usize = KEY_AT + KEY_WIDTH;

pub const USER_AT: usize = COUNTERS_AT + COUNTERS_WIDTH;

pub const PROTECTED_AT: usize = USER_AT + BLOCK_WIDTH;

pub const ISSUER_AT: usize = PROTECTED_AT + BLOCK_WIDTH;

pub const PENDING_AT: usize = ISSUER_AT + ISSUER_WIDTH;

pub const LAST_AT: usize = PENDING_AT + PENDING_WIDTH;

// The length of an image, and the room that a buffer for one has at least.
pub const IMAGE_SIZE: usize = LAST_AT + LAST_WIDTH;

pub const IMAGE_ROOM: usize = 4096;
