// Groups written anew where they stand in an image, docs/IMAGE.md. A write without room changes nothing.
ghost use Rattle.std.specs.Prelude.{◌++◌};
ghost use Rattle.wire.specs.Wire.{be1, pad, Runs, Wrote};
ghost use Rattle.card.specs.Layout.{pin_size, codes_at, pause_at, flags_at, wallet_at, key_at, counters_at, user_at, protected_at, issuer_at, pending_at, last_at};
ghost use Rattle.card.specs.Values.{held_key, held_block, held_issuer, held_request, held_last};
ghost use Rattle.card.specs.Image.{enc_codes, enc_flags, enc_wallet, enc_key, enc_counters, enc_block, enc_issuer, enc_pending, enc_last};

use crate::whole;
use card::{Block, Codes, Counters, Flags, Key, Last, Pending, Wait, Wallet, layout};

// Each asks for room and then writes: a closure for what is written would need its clauses at each call.
pub fn codes(img: &mut [u8], pin1: &[u8], pin2: &[u8]) -> usize
    ensures { Wrote img.old codes_at
        (enc_codes (record { pin1 = pad pin_size pin1.now; pin2 = pad pin_size pin2.now }))
        img.new result }
{
    if !wire::has_room(img.len(), layout::CODES_AT, layout::CODES_WIDTH) {
        return layout::CODES_AT;
    }
    let at = wire::put_padded(img, layout::CODES_AT, Codes::PIN_SIZE, pin1);
    wire::put_padded(img, at, Codes::PIN_SIZE, pin2)
}

// The pause, in seconds, among what is fixed: a recording tells it behind the card.
pub fn pause(img: &mut [u8], seconds: u8) -> usize
    ensures { Wrote img.old pause_at (be1 seconds) img.new result }
{
    wire::put8(img, layout::PAUSE_AT, seconds)
}

pub fn flags(img: &mut [u8], x: Flags) -> usize
    ensures { Wrote img.old flags_at (enc_flags x) img.new result }
{
    whole::write_flags(x, img, layout::FLAGS_AT)
}

pub fn wallet(img: &mut [u8], x: Wallet) -> usize
    ensures { Wrote img.old wallet_at (enc_wallet x) img.new result }
{
    if !wire::has_room(img.len(), layout::WALLET_AT, layout::WALLET_WIDTH) {
        return layout::WALLET_AT;
    }
    whole::write_wallet(x, img, layout::WALLET_AT)
}

// Bytes with their size before them, in a room of their own; that there is room for it has been seen.
fn put_sized(img: &mut [u8], at: usize, size: u8, room: usize, held: &[u8]) -> usize
    ensures { Runs img.old at (be1 size ++ pad room held.now) img.new result }
{
    let at = wire::put8(img, at, size);
    wire::put_padded(img, at, room, held)
}

pub fn key(img: &mut [u8], key: &[u8]) -> usize
    ensures { Wrote img.old key_at (enc_key (held_key key.now)) img.new result }
{
    if !wire::has_room(img.len(), layout::KEY_AT, layout::KEY_WIDTH) {
        return layout::KEY_AT;
    }
    let size = (key.len() % 256) as u8;
    put_sized(img, layout::KEY_AT, size, Key::ROOM, key)
}

pub fn counters(img: &mut [u8], x: Counters) -> usize
    ensures { Wrote img.old counters_at (enc_counters x) img.new result }
{
    if !wire::has_room(img.len(), layout::COUNTERS_AT, layout::COUNTERS_WIDTH) {
        return layout::COUNTERS_AT;
    }
    whole::write_counters(x, img, layout::COUNTERS_AT)
}

// The size of what is held, and its bytes, in a room of their own.
fn block(img: &mut [u8], at: usize, held: &[u8]) -> usize
    ensures { Wrote img.old at (enc_block (held_block held.now)) img.new result }
{
    if !wire::has_room(img.len(), at, layout::BLOCK_WIDTH) {
        return at;
    }
    let size = (held.len() % 65536) as u16;
    let at = wire::put16(img, at, size);
    wire::put_padded(img, at, Block::ROOM, held)
}

pub fn user(img: &mut [u8], held: &[u8]) -> usize
    ensures { Wrote img.old user_at (enc_block (held_block held.now)) img.new result }
{
    block(img, layout::USER_AT, held)
}

pub fn protected(img: &mut [u8], held: &[u8]) -> usize
    ensures { Wrote img.old protected_at (enc_block (held_block held.now)) img.new result }
{
    block(img, layout::PROTECTED_AT, held)
}

pub fn issuer(img: &mut [u8], held: &[u8], signature: &[u8], counter: u32) -> usize
    ensures { Wrote img.old issuer_at (enc_issuer (held_issuer held.now signature.now counter)) img.new result }
{
    if !wire::has_room(img.len(), layout::ISSUER_AT, layout::ISSUER_WIDTH) {
        return layout::ISSUER_AT;
    }
    let at = block(img, layout::ISSUER_AT, held);
    let at = wire::put_padded(img, at, Last::SIGNATURE_SIZE, signature);
    wire::put32(img, at, counter)
}

// The wait, and the bytes of the request that it holds.
pub fn pending(img: &mut [u8], x: Wait, held: &[u8]) -> usize
    ensures { Wrote img.old pending_at (enc_pending (held_request x held.now)) img.new result }
{
    if !wire::has_room(img.len(), layout::PENDING_AT, layout::PENDING_WIDTH) {
        return layout::PENDING_AT;
    }
    let at = whole::write_wait(x, img, layout::PENDING_AT);
    wire::put_padded(img, at, Pending::ROOM, held)
}

pub fn last(img: &mut [u8], signatures: &[u8]) -> usize
    ensures { Wrote img.old last_at (enc_last (held_last signatures.now)) img.new result }
{
    if !wire::has_room(img.len(), layout::LAST_AT, layout::LAST_WIDTH) {
        return layout::LAST_AT;
    }
    let count = (signatures.len() / Last::SIGNATURE_SIZE % 256) as u8;
    put_sized(img, layout::LAST_AT, count, Last::ROOM, signatures)
}
