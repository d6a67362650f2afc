// A card written, group after group, where there is room for all of it.
ghost use Rattle.wire.specs.Wire.{Runs, Wrote};
ghost use Rattle.card.specs.Image.{enc_codes, enc_fixed, enc_flags, enc_wallet, enc_key, enc_counters, enc_block, enc_issuer, enc_wait, enc_pending, enc_last, enc_front, enc_held, enc_face};

use card::{
    Block, Codes, Counters, Face, Fixed, Flags, Front, Held, Issuer, Key, Last, Pending, Wait,
    Wallet,
};

pub fn write_codes(x: Codes, out: &mut [u8], at: usize) -> usize
    ensures { Runs out.old at (enc_codes x) out.new result }
{
    let at = wire::give(out, at, x.pin1);
    wire::give(out, at, x.pin2)
}

fn write_fixed(x: Fixed, out: &mut [u8], at: usize) -> usize
    ensures { Runs out.old at (enc_fixed x) out.new result }
{
    let at = wire::give(out, at, x.cid);
    let at = wire::give(out, at, x.cvc);
    let at = wire::put8(out, at, x.curve);
    let at = wire::put32(out, at, x.max);
    let at = wire::give(out, at, x.seed);
    wire::put8(out, at, x.pause)
}

#[tactic(auto, unfolding(card::specs::Image::enc_flags))]
pub fn write_flags(x: Flags, out: &mut [u8], at: usize) -> usize
    ensures { Wrote out.old at (enc_flags x) out.new result }
{
    let bytes = [
        x.reusable, x.usecvc, x.setpin1, x.setpin2, x.nopurge, x.replay, x.active,
    ];
    wire::give(out, at, bytes)
}

pub fn write_wallet(x: Wallet, out: &mut [u8], at: usize) -> usize
    ensures { Runs out.old at (enc_wallet x) out.new result }
{
    let at = wire::put8(out, at, x.status);
    let at = wire::put16(out, at, x.number);
    let at = wire::put32(out, at, x.remaining);
    wire::put32(out, at, x.signed)
}

fn write_key(x: Key, out: &mut [u8], at: usize) -> usize
    ensures { Runs out.old at (enc_key x) out.new result }
{
    let at = wire::put8(out, at, x.size);
    wire::give(out, at, x.bytes)
}

pub fn write_counters(x: Counters, out: &mut [u8], at: usize) -> usize
    ensures { Runs out.old at (enc_counters x) out.new result }
{
    let at = wire::put32(out, at, x.checks);
    let at = wire::put16(out, at, x.validations);
    let at = wire::put32(out, at, x.user);
    wire::put32(out, at, x.protected)
}

fn write_block(x: Block, out: &mut [u8], at: usize) -> usize
    ensures { Runs out.old at (enc_block x) out.new result }
{
    let at = wire::put16(out, at, x.size);
    wire::give(out, at, x.bytes)
}

fn write_issuer(x: Issuer, out: &mut [u8], at: usize) -> usize
    ensures { Runs out.old at (enc_issuer x) out.new result }
{
    let at = write_block(x.block, out, at);
    let at = wire::give(out, at, x.signature);
    wire::put32(out, at, x.counter)
}

pub fn write_wait(x: Wait, out: &mut [u8], at: usize) -> usize
    ensures { Runs out.old at (enc_wait x) out.new result }
{
    let at = wire::put8(out, at, x.wrong);
    let at = wire::put8(out, at, x.left);
    wire::put16(out, at, x.size)
}

fn write_pending(x: Pending, out: &mut [u8], at: usize) -> usize
    ensures { Runs out.old at (enc_pending x) out.new result }
{
    let at = write_wait(x.wait, out, at);
    wire::give(out, at, x.request)
}

fn write_last(x: Last, out: &mut [u8], at: usize) -> usize
    ensures { Runs out.old at (enc_last x) out.new result }
{
    let at = wire::put8(out, at, x.count);
    wire::give(out, at, x.signatures)
}

fn write_front(x: Front, out: &mut [u8], at: usize) -> usize
    ensures { Runs out.old at (enc_front x) out.new result }
{
    let at = write_fixed(x.fixed, out, at);
    let at = write_flags(x.flags, out, at);
    let at = write_wallet(x.wallet, out, at);
    let at = write_key(x.key, out, at);
    write_counters(x.counters, out, at)
}

fn write_held(x: Held, out: &mut [u8], at: usize) -> usize
    ensures { Runs out.old at (enc_held x) out.new result }
{
    let at = write_block(x.user, out, at);
    let at = write_block(x.protected, out, at);
    write_issuer(x.issuer, out, at)
}

pub fn write_face(x: Face, out: &mut [u8], at: usize) -> usize
    ensures { Runs out.old at (enc_face x) out.new result }
{
    let at = write_front(x.front, out, at);
    let at = write_held(x.held, out, at);
    let at = write_pending(x.pending, out, at);
    write_last(x.last, out, at)
}
