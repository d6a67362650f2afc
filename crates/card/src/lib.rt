// What the card is made of, 01: its values in small groups, all but the codes as its face; the fresh card; and the wallet's
// counters and status as one small value, which create, sign and purge take and hand back.
#![tactic(auto)]

mod defaults;
pub mod layout;
mod waiting;

ghost use Rattle.std.specs.Prelude.{◌≡◌};
ghost use Rattle.card.specs.Values.{activated, created, spent, purged, risen, checked_once, validated_once, fresh};

// Flags, Status and curve are bytes as they stand, since an image may spell any; `image` tests that they are known ones. What is held
// stands in a room of fixed size with its size beside it, as docs/IMAGE.md has it.

// The codes: what no answer may tell.
#[derive(Clone, Copy)]
pub struct Codes {
    pub pin1: [u8; Codes::PIN_SIZE],
    pub pin2: [u8; Codes::PIN_SIZE],
}

#[derive(Clone, Copy)]
pub struct Fixed {
    pub cid: [u8; Fixed::CID_SIZE],
    pub cvc: [u8; Fixed::CVC_SIZE],
    pub curve: u8,
    pub max: u32,
    pub seed: [u8; Fixed::SEED_SIZE],
    pub pause: u8,
}

#[derive(Clone, Copy)]
pub struct Flags {
    pub reusable: u8,
    pub usecvc: u8,
    pub setpin1: u8,
    pub setpin2: u8,
    pub nopurge: u8,
    pub replay: u8,
    pub active: u8,
}

#[derive(Clone, Copy)]
pub struct Wallet {
    pub status: u8,
    pub number: u16,
    pub remaining: u32,
    pub signed: u32,
}

// Wallet_PublicKey: the first `size` bytes.
#[derive(Clone, Copy)]
pub struct Key {
    pub size: u8,
    pub bytes: [u8; Key::ROOM],
}

#[derive(Clone, Copy)]
pub struct Counters {
    pub checks: u32,
    pub validations: u16,
    pub user: u32,
    pub protected: u32,
}

// User_Data, User_ProtectedData, Issuer_Data: the first `size` bytes.
#[derive(Clone, Copy)]
pub struct Block {
    pub size: u16,
    pub bytes: [u8; Block::ROOM],
}

#[derive(Clone, Copy)]
pub struct Issuer {
    pub block: Block,
    pub signature: [u8; Last::SIGNATURE_SIZE],
    pub counter: u32,
}

// The wrong codes counted; of the request that is held, the seconds left and the size, both 0 where none is.
#[derive(Clone, Copy)]
pub struct Wait {
    pub wrong: u8,
    pub left: u8,
    pub size: u16,
}

// The wait, and the request that is held: the first `size` bytes.
#[derive(Clone, Copy)]
pub struct Pending {
    pub wait: Wait,
    pub request: [u8; Pending::ROOM],
}

// The last signatures: the first `count`, of 64 bytes each.
#[derive(Clone, Copy)]
pub struct Last {
    pub count: u8,
    pub signatures: [u8; Last::ROOM],
}

// The groups of a few bytes.
#[derive(Clone, Copy)]
pub struct Front {
    pub fixed: Fixed,
    pub flags: Flags,
    pub wallet: Wallet,
    pub key: Key,
    pub counters: Counters,
}

// User and issuer data.
#[derive(Clone, Copy)]
pub struct Held {
    pub user: Block,
    pub protected: Block,
    pub issuer: Issuer,
}

// All but the codes.
#[derive(Clone, Copy)]
pub struct Face {
    pub front: Front,
    pub held: Held,
    pub pending: Pending,
    pub last: Last,
}

#[derive(Clone, Copy)]
pub struct Card {
    pub face: Face,
    pub codes: Codes,
}

impl Fixed {
    pub const CID_SIZE: usize = 8;

    pub const CVC_SIZE: usize = 3;

    // The activation seed.
    pub const SEED_SIZE: usize = 16;

    // Of the pause before a command that needs PIN2, in seconds.
    pub const MOST_PAUSE: u8 = 60;

    // The curves.
    pub const SECP256K1: u8 = 1;

    pub const ED25519: u8 = 2;
}

impl Flags {
    // FE: activated, for good.
    pub fn activate(self) -> Flags
        ensures { result ≡ activated self }
    {
        Flags { active: 1, ..self }
    }
}

impl Key {
    // A key of secp256k1, and one of ed25519.
    pub const ROOM: usize = 65;

    pub const SHORT: usize = 32;
}

impl Block {
    pub const ROOM: usize = 512;
}

impl Pending {
    // Of the longest request, and of the shortest that is held.
    pub const ROOM: usize = 1024;

    pub const LEAST: usize = 6;
}

impl Last {
    pub const SIGNATURE_SIZE: usize = 64;

    // The most hashes of a SIGN, and the room that their signatures take.
    pub const MOST_HASHES: usize = 10;

    pub const ROOM: usize = Last::MOST_HASHES * Last::SIGNATURE_SIZE;
}

impl Wallet {
    // Status.
    pub const EMPTY: u8 = 1;

    pub const LOADED: u8 = 2;

    pub const PURGED: u8 = 3;

    pub const TOP_NUMBER: u16 = u16::MAX;

    // Of Signed_Hashes.
    pub const TOP: u32 = u32::MAX;

    // F8: Loaded, number one more, Remaining is Max.
    pub fn create(self, max: u32) -> Wallet
        ensures { result ≡ created max self }
    {
        Wallet {
            status: Wallet::LOADED,
            number: self.number.wrapping_add(1),
            remaining: max,
            ..self
        }
    }

    // FB: Remaining falls by one, Signed_Hashes rises by the number of hashes.
    pub fn sign(self, hashes: u32) -> Wallet
        ensures { result ≡ spent hashes self }
    {
        Wallet {
            remaining: if self.remaining == 0 {
                0
            } else {
                self.remaining - 1
            },
            signed: self.signed.wrapping_add(hashes),
            ..self
        }
    }

    // FC: Remaining 0, Empty if reusable, else Purged.
    pub fn purge(self, reusable: u8) -> Wallet
        ensures { result ≡ purged reusable self }
    {
        Wallet {
            status: if reusable == 1 {
                Wallet::EMPTY
            } else {
                Wallet::PURGED
            },
            remaining: 0,
            ..self
        }
    }
}

impl Counters {
    pub const TOP: u32 = u32::MAX;

    pub const TOP_VALIDATIONS: u16 = u16::MAX;

    // FB: both user counters.
    pub fn signed(self) -> Counters
        ensures { result ≡ risen self }
    {
        Counters {
            user: self.user.wrapping_add(1),
            protected: self.protected.wrapping_add(1),
            ..self
        }
    }

    // F9: Check_Wallet_Counter, which stays at its top.
    pub fn checked(self) -> Counters
        ensures { result ≡ checked_once self }
    {
        Counters {
            checks: if self.checks < Counters::TOP {
                self.checks + 1
            } else {
                self.checks
            },
            ..self
        }
    }

    // F4: Card_Validation_Counter; the command's condition keeps it below its top.
    pub fn validated(self) -> Counters
        ensures { result ≡ validated_once self }
    {
        Counters {
            validations: self.validations.wrapping_add(1),
            ..self
        }
    }
}

impl Card {
    // A fresh card: Empty, with Signed_Hashes, the wallet number and every counter 0, no last signatures and all data empty;
    // nothing is held or counted.
    pub fn fresh(fixed: Fixed, flags: Flags, codes: Codes) -> Card
        ensures { result ≡ fresh fixed flags codes }
    {
        let none = Block {
            size: 0,
            bytes: [0; Block::ROOM],
        };
        let front = Front {
            fixed,
            flags,
            wallet: Wallet {
                status: Wallet::EMPTY,
                number: 0,
                remaining: 0,
                signed: 0,
            },
            key: Key {
                size: 0,
                bytes: [0; Key::ROOM],
            },
            counters: Counters {
                checks: 0,
                validations: 0,
                user: 0,
                protected: 0,
            },
        };
        let held = Held {
            user: none,
            protected: none,
            issuer: Issuer {
                block: none,
                signature: [0; Last::SIGNATURE_SIZE],
                counter: 0,
            },
        };
        let pending = Pending {
            wait: Wait::none(),
            request: [0; Pending::ROOM],
        };
        let last = Last {
            count: 0,
            signatures: [0; Last::ROOM],
        };
        Card {
            face: Face {
                front,
                held,
                pending,
                last,
            },
            codes,
        }
    }
}
