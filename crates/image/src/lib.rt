// The image of a card, docs/IMAGE.md: its values, read where they stand, and whether it is a card. Total: what bytes spell is read
// from any bytes, and a value past their end is 0 or nothing.
#![tactic(auto, unfolding(card::specs::Image::decode, card::specs::Values::key_of, card::specs::Values::block_of, card::specs::Values::request_of, card::specs::Values::last_of))]

mod valid;

ghost use Rattle.std.specs.Prelude.{◌≡◌};
ghost use Rattle.card.specs.Values.{key_of, block_of, request_of, last_of};
ghost use Rattle.card.specs.Image.{dec_block, decode};
ghost use Rattle.card.specs.Valid.{is_card};

use card::{Block, Codes, Counters, Fixed, Flags, Key, Last, Pending, Wait, Wallet, layout};

// A reader a value: what they have in common is `wire`'s; a law over any group would hide the layout.
pub fn pin1(img: &[u8]) -> &[u8]
    ensures { result.now ≡ (decode img.now).codes.pin1 }
{
    wire::part(img, layout::CODES_AT, Codes::PIN_SIZE)
}

pub fn pin2(img: &[u8]) -> &[u8]
    ensures { result.now ≡ (decode img.now).codes.pin2 }
{
    wire::part(img, layout::CODES_AT + Codes::PIN_SIZE, Codes::PIN_SIZE)
}

pub fn cid(img: &[u8]) -> &[u8]
    ensures { result.now ≡ (decode img.now).face.front.fixed.cid }
{
    wire::part(img, layout::FIXED_AT, Fixed::CID_SIZE)
}

pub fn cvc(img: &[u8]) -> &[u8]
    ensures { result.now ≡ (decode img.now).face.front.fixed.cvc }
{
    wire::part(img, layout::FIXED_AT + 8, Fixed::CVC_SIZE)
}

pub fn curve(img: &[u8]) -> u8
    ensures { result ≡ (decode img.now).face.front.fixed.curve }
{
    wire::get8(img, layout::FIXED_AT as u32 + 11)
}

pub fn max(img: &[u8]) -> u32
    ensures { result ≡ (decode img.now).face.front.fixed.max }
{
    wire::get32(img, layout::FIXED_AT as u16 + 12)
}

pub fn seed(img: &[u8]) -> &[u8]
    ensures { result.now ≡ (decode img.now).face.front.fixed.seed }
{
    wire::part(img, layout::FIXED_AT + 16, Fixed::SEED_SIZE)
}

// The pause before a command that needs PIN2, in seconds.
pub fn pause(img: &[u8]) -> u8
    ensures { result ≡ (decode img.now).face.front.fixed.pause }
{
    wire::get8(img, layout::PAUSE_AT as u32)
}

pub fn flags(img: &[u8]) -> Flags
    ensures { result ≡ (decode img.now).face.front.flags }
{
    let at = layout::FLAGS_AT as u32;
    Flags {
        reusable: wire::get8(img, at),
        usecvc: wire::get8(img, at + 1),
        setpin1: wire::get8(img, at + 2),
        setpin2: wire::get8(img, at + 3),
        nopurge: wire::get8(img, at + 4),
        replay: wire::get8(img, at + 5),
        active: wire::get8(img, at + 6),
    }
}

pub fn wallet(img: &[u8]) -> Wallet
    ensures { result ≡ (decode img.now).face.front.wallet }
{
    let at = layout::WALLET_AT as u16;
    Wallet {
        status: wire::get8(img, at as u32),
        number: wire::get16(img, at + 1),
        remaining: wire::get32(img, at + 3),
        signed: wire::get32(img, at + 7),
    }
}

// Wallet_PublicKey; nothing where there is none.
pub fn key(img: &[u8]) -> &[u8]
    ensures { result.now ≡ key_of (decode img.now).face.front.key }
{
    let room = wire::part(img, layout::KEY_AT + 1, Key::ROOM);
    wire::part(room, 0, wire::get8(img, layout::KEY_AT as u32) as usize)
}

pub fn counters(img: &[u8]) -> Counters
    ensures { result ≡ (decode img.now).face.front.counters }
{
    let at = layout::COUNTERS_AT as u16;
    Counters {
        checks: wire::get32(img, at),
        validations: wire::get16(img, at + 4),
        user: wire::get32(img, at + 6),
        protected: wire::get32(img, at + 10),
    }
}

// What a block holds.
fn content(img: &[u8], at: u16) -> &[u8]
    ensures { result.now ≡ block_of (dec_block at img.now) }
{
    let room = wire::part(img, at as usize + 2, Block::ROOM);
    wire::part(room, 0, wire::get16(img, at) as usize)
}

pub fn user(img: &[u8]) -> &[u8]
    ensures { result.now ≡ block_of (decode img.now).face.held.user }
{
    content(img, layout::USER_AT as u16)
}

pub fn protected(img: &[u8]) -> &[u8]
    ensures { result.now ≡ block_of (decode img.now).face.held.protected }
{
    content(img, layout::PROTECTED_AT as u16)
}

pub fn note(img: &[u8]) -> &[u8]
    ensures { result.now ≡ block_of (decode img.now).face.held.issuer.block }
{
    content(img, layout::ISSUER_AT as u16)
}

pub fn note_signature(img: &[u8]) -> &[u8]
    ensures { result.now ≡ (decode img.now).face.held.issuer.signature }
{
    wire::part(
        img,
        layout::ISSUER_AT + layout::BLOCK_WIDTH,
        Last::SIGNATURE_SIZE,
    )
}

pub fn note_counter(img: &[u8]) -> u32
    ensures { result ≡ (decode img.now).face.held.issuer.counter }
{
    wire::get32(
        img,
        (layout::ISSUER_AT + layout::BLOCK_WIDTH + Last::SIGNATURE_SIZE) as u16,
    )
}

pub fn wait(img: &[u8]) -> Wait
    ensures { result ≡ (decode img.now).face.pending.wait }
{
    let at = layout::PENDING_AT as u16;
    Wait {
        wrong: wire::get8(img, at as u32),
        left: wire::get8(img, at as u32 + 1),
        size: wire::get16(img, at + 2),
    }
}

// The request that is held; nothing where none is.
pub fn held(img: &[u8]) -> &[u8]
    ensures { result.now ≡ request_of (decode img.now).face.pending }
{
    let room = wire::part(img, layout::PENDING_AT + 4, Pending::ROOM);
    wire::part(room, 0, wait(img).size as usize)
}

// How many last signatures there are.
pub fn last_count(img: &[u8]) -> u8
    ensures { result ≡ (decode img.now).face.last.count }
{
    wire::get8(img, layout::LAST_AT as u32)
}

pub fn last(img: &[u8]) -> &[u8]
    ensures { result.now ≡ last_of (decode img.now).face.last }
{
    let room = wire::part(img, layout::LAST_AT + 1, Last::ROOM);
    wire::part(room, 0, last_count(img) as usize * Last::SIGNATURE_SIZE)
}

// Number 1 of ask and settle: whether the image is a card.
#[tactic(auto, unfolding(card::specs::Valid::is_card))]
pub fn is_card(img: &[u8]) -> bool
    ensures { result ≡ is_card img.now }
{
    img.len() == layout::IMAGE_SIZE && valid::face_ok(img)
}
