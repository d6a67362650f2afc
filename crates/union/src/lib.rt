// Two books joined, Ask 8: side by side, the lowest clash, the union, the outcome.
#![tactic(auto)]

ghost use Rattle.std.specs.Prelude.{◌≡◌, ◌+◌, ◌≤◌, ◌++◌, IfOk, length, drop};
ghost use Rattle.shelf.specs.Shelf.{most};
ghost use Rattle.shelf.specs.Outcome.{after_of};
ghost use Rattle.union.specs.Union.{aside, note_in, clashes, merged, lowest, join_of};

use notes::Note;
use shelf::{MOST, Outcome, Refusal};
use std::cmp::Ordering;

// A note that the first book alone has, or the second alone, or one of each with the same tablet and number.
#[derive(Clone, Copy)]
pub enum Pair {
    First(Note),
    Second(Note),
    Both(Note, Note),
}

impl Pair {
    // The note of it that the union has.
    fn note(&self) -> Note
        ensures { result ≡ note_in self.now }
    {
        match self {
            Pair::First(x) | Pair::Both(x, _) => *x,
            Pair::Second(y) => *y,
        }
    }

    fn clashes(&self) -> bool
        ensures { result ≡ clashes self.now }
    {
        match self {
            Pair::Both(x, y) => x != y,
            Pair::First(_) => false,
            Pair::Second(_) => false,
        }
    }
}

// Two books side by side, by tablet and number: what is left of each.
#[derive(Drop)]
struct Aside<'a> {
    first: &'a [Note],
    second: &'a [Note],
}

impl<'a> Iterator for Aside<'a> {
    ghost use Rattle.std.specs.Iterator.{YieldsFirst, item_count};
    ghost use Rattle.union.specs.Aside.{pairs_left};

    type Item = Pair;

    ghost next_gives = { YieldsFirst pairs_left };

    ghost remaining = { item_count pairs_left };

    fn next(&mut self) -> Option<Pair> {
        let Some((x, xs)) = self.first.split_first() else {
            let (y, ys) = self.second.split_first()?;
            self.second = ys;
            return Some(Pair::Second(*y));
        };
        let Some((y, ys)) = self.second.split_first() else {
            self.first = xs;
            return Some(Pair::First(*x));
        };
        match x.order_of(y) {
            Ordering::Less => {
                self.first = xs;
                Some(Pair::First(*x))
            }
            Ordering::Equal => {
                self.first = xs;
                self.second = ys;
                Some(Pair::Both(*x, *y))
            }
            Ordering::Greater => {
                self.second = ys;
                Some(Pair::Second(*y))
            }
        }
    }
}

// The tablet and number of the lowest note that both books have, but not the same.
fn lowest_clash(first: &[Note], second: &[Note]) -> Option<(u8, u16)>
    ensures { result ≡ lowest (aside first.now second.now) }
{
    let clash = Aside { first, second }.find(|pair| pair.clashes())?.note();
    Some((clash.tablet, clash.number))
}

// How many notes the union of two books has.
fn total(first: &[Note], second: &[Note]) -> usize
    requires { length first.now + length second.now ≤ 512 }
    ensures { result ≡ length (merged first.now second.now) }
{
    Aside { first, second }.count()
}

// Each note of both books once, into the front of a list with room for them.
fn merge(first: &[Note], second: &[Note], joined: &mut [Note])
    requires { length (merged first.now second.now) ≤ length joined.old }
    ensures { joined.new ≡ merged first.now second.now ++ drop (length (merged first.now second.now)) joined.old }
{
    for (i, pair) in (Aside { first, second }).enumerate() {
        joined[i] = pair.note();
    }
}

// Two books joined, into a list. On a refusal it is as it was.
pub fn join(first: &[Note], second: &[Note], joined: &mut [Note]) -> Outcome
    ensures { (result ≡ join_of (length joined.old) first.now second.now)
        × (joined.new ≡ after_of result (merged first.now second.now) joined.old)
        × IfOk result (λ n. n ≤ most) }
{
    if joined.len() < MOST {
        return Err(Refusal::NoRoom);
    }
    if let Some(line) = shelf::first_bad(first) {
        return Err(Refusal::BadLine { book: 1, line });
    }
    if let Some(line) = shelf::first_bad(second) {
        return Err(Refusal::BadLine { book: 2, line });
    }
    if let Some((tablet, number)) = lowest_clash(first, second) {
        return Err(Refusal::Clash { tablet, number });
    }
    let total = total(first, second);
    if MOST < total {
        return Err(Refusal::Full);
    }
    merge(first, second, joined);
    Ok(total as u32)
}
