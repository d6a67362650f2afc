// When an image is a card, 01 "What the card is made of": the tests of that sentence, a function for each group of values, each where
// it stands.
ghost use Rattle.std.specs.Prelude.{◌≡◌, ◌||◌, drop};
ghost use Rattle.wire.specs.Wire.{all_zero};
ghost use Rattle.card.specs.declared.Fixed.{Fixed};
ghost use Rattle.card.specs.Image.{decode, dec_wallet, dec_key, dec_block, dec_issuer, dec_pending, dec_last, dec_held, dec_front};
ghost use Rattle.card.specs.Valid.{key_size, ok_flags, ok_ranges, ok_state, ok_key, ok_block, ok_issuer, ok_pending, ok_last, is_idle, is_holding, last_owned, ok_front, ok_held, ok_face};

use card::{Block, Fixed, Flags, Key, Last, Pending, Wait, Wallet, layout};

// Every flag is 0 or 1.
#[tactic(auto, unfolding(card::specs::Valid::ok_flags))]
fn flags_ok(x: Flags) -> bool
    ensures { result ≡ ok_flags x }
{
    x.reusable <= 1
        && x.usecvc <= 1
        && x.setpin1 <= 1
        && x.setpin2 <= 1
        && x.nopurge <= 1
        && x.replay <= 1
        && x.active <= 1
}

// Curve, Max_Signatures and Status are known ones; Remaining is at most Max, and 0 unless Loaded.
#[tactic(auto, unfolding(card::specs::Valid::ok_ranges))]
fn ranges_ok(curve: u8, max: u32, w: Wallet) -> bool
    ensures { (x : Fixed) → x.curve ≡ curve → x.max ≡ max → result ≡ ok_ranges x w }
{
    matches!(curve, Fixed::SECP256K1 | Fixed::ED25519)
        && 1 <= max
        && matches!(w.status, Wallet::EMPTY | Wallet::LOADED | Wallet::PURGED)
        && w.remaining <= max
        && (w.status == Wallet::LOADED || w.remaining == 0)
}

// The wallet number fits Status and the flags; Purged only when not reusable; not activated, Empty with number 0.
#[tactic(auto, unfolding(card::specs::Valid::ok_state))]
fn state_ok(x: Flags, w: Wallet) -> bool
    ensures { result ≡ ok_state x w }
{
    let empty = w.status == Wallet::EMPTY;
    let only_number = if empty { 0 } else { 1 };
    (empty || 1 <= w.number)
        && (x.reusable == 1 || w.number == only_number)
        && (x.reusable == 0 || empty || w.status == Wallet::LOADED)
        && (x.active == 1 || (empty && w.number == 0))
}

// The size of a key that is present exactly when Loaded.
#[tactic(auto, unfolding(card::specs::Valid::key_size))]
fn key_size(curve: u8, status: u8) -> usize
    ensures { result ≡ key_size curve status }
{
    if status != Wallet::LOADED {
        0
    } else if curve == Fixed::SECP256K1 {
        Key::ROOM
    } else {
        Key::SHORT
    }
}

// Unused room is zero. A room that is all unused has a call of its own: of that one the compiler knows where it begins and ends, and
// takes it without a loop.
fn clear_after(room: &[u8], used: usize) -> bool
    ensures { result ≡ all_zero (drop used room.now) }
{
    if used == 0 {
        wire::zero_from(room, 0)
    } else {
        wire::zero_from(room, used)
    }
}

// A key of 65 bytes starts with 04; unused room is zero.
#[tactic(auto, unfolding(card::specs::Valid::ok_key))]
fn key_ok(curve: u8, status: u8, img: &[u8]) -> bool
    ensures { result ≡ ok_key curve status (dec_key img.now) }
{
    let size = wire::get8(img, layout::KEY_AT as u32) as usize;
    let bytes = wire::part(img, layout::KEY_AT + 1, Key::ROOM);
    size == key_size(curve, status)
        && (size != Key::ROOM || wire::get8(bytes, 0) == 4)
        && clear_after(bytes, size)
}

// Data of 0 to 512 bytes; unused room is zero.
#[tactic(auto, unfolding(card::specs::Valid::ok_block))]
fn block_ok(img: &[u8], at: u16) -> bool
    ensures { result ≡ ok_block (dec_block at img.now) }
{
    let size = wire::get16(img, at) as usize;
    let bytes = wire::part(img, at as usize + 2, Block::ROOM);
    size <= Block::ROOM && clear_after(bytes, size)
}

// While no data is held, the signature is zero too.
#[tactic(auto, unfolding(card::specs::Image::decode, card::specs::Valid::ok_issuer))]
fn issuer_ok(img: &[u8]) -> bool
    ensures { result ≡ ok_issuer (dec_issuer img.now) }
{
    let at = layout::ISSUER_AT as u16;
    block_ok(img, at)
        && (1 <= wire::get16(img, at) || wire::zero_from(crate::note_signature(img), 0))
}

// A request of 6 to 1,024 bytes is held with 1 to 120 seconds left, or none with 0.
fn wait_ok(w: Wait) -> bool
    ensures { result ≡ (is_idle w || is_holding w) }
{
    let size = w.size as usize;
    (w.left == 0 && w.size == 0)
        || (1 <= w.left
            && w.left <= Wait::MOST_LEFT
            && Pending::LEAST <= size
            && size <= Pending::ROOM)
}

// 0 to 60 wrong codes; unused room is zero.
#[tactic(auto, unfolding(card::specs::Image::decode, card::specs::Valid::ok_pending))]
fn pending_ok(img: &[u8]) -> bool
    ensures { result ≡ ok_pending (dec_pending img.now) }
{
    let w = crate::wait(img);
    let request = wire::part(img, layout::PENDING_AT + 4, Pending::ROOM);
    w.wrong <= Wait::MOST_WRONG && wait_ok(w) && clear_after(request, w.size as usize)
}

// 0 to 10 last signatures; unused room is zero.
#[tactic(auto, unfolding(card::specs::Image::decode, card::specs::Valid::ok_last))]
fn last_ok(img: &[u8]) -> bool
    ensures { result ≡ ok_last (dec_last img.now) }
{
    let count = crate::last_count(img) as usize;
    let signatures = wire::part(img, layout::LAST_AT + 1, Last::ROOM);
    count <= Last::MOST_HASHES && clear_after(signatures, count * Last::SIGNATURE_SIZE)
}

// Signatures only with a wallet.
#[tactic(auto, unfolding(card::specs::Image::decode))]
fn last_owned(img: &[u8]) -> bool
    ensures { result ≡ last_owned (dec_wallet img.now) (dec_last img.now) }
{
    wire::get8(img, layout::WALLET_AT as u32) == Wallet::LOADED || crate::last_count(img) == 0
}

#[tactic(auto, unfolding(card::specs::Image::decode, card::specs::Valid::ok_front))]
fn front_ok(img: &[u8]) -> bool
    ensures { result ≡ ok_front (dec_front img.now) }
{
    let flags = crate::flags(img);
    let wallet = crate::wallet(img);
    let curve = crate::curve(img);
    flags_ok(flags)
        && ranges_ok(curve, crate::max(img), wallet)
        && state_ok(flags, wallet)
        && key_ok(curve, wallet.status, img)
        && crate::pause(img) <= Fixed::MOST_PAUSE
}

#[tactic(auto, unfolding(card::specs::Valid::ok_held))]
fn held_ok(img: &[u8]) -> bool
    ensures { result ≡ ok_held (dec_held img.now) }
{
    block_ok(img, layout::USER_AT as u16)
        && block_ok(img, layout::PROTECTED_AT as u16)
        && issuer_ok(img)
}

// Group by group, each behind the one before: of a group that is fine nothing is kept until the last has been looked at.
#[tactic(auto, unfolding(card::specs::Image::decode, card::specs::Valid::ok_face))]
pub fn face_ok(img: &[u8]) -> bool
    ensures { result ≡ ok_face (decode img.now).face }
{
    front_ok(img) && held_ok(img) && pending_ok(img) && last_ok(img) && last_owned(img)
}
