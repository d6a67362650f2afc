// Which values each byte of an image may take. tests/images.py made the images, and what must be printed, from 01 "What the card
// is made of". A line of standard input is an image in hex, 131,072 bytes in all at most. At each place all 256 values are tried,
// all else as given. Each function here is proved safe and ending; the promises are those of `image`.
#![tactic(auto)]

use card::layout::IMAGE_SIZE;
use console::{say, say_number};

// The most bytes of a line's image that are looked at.
const LINE_ROOM: usize = 4096;

// For each value that a place can take, whether the image is then a card.
fn cards_with(img: &[u8], at: usize) -> [bool; 256] {
    let mut copy = [0u8; IMAGE_SIZE];
    wire::put_bytes(&mut copy, 0, img);
    let mut cards = [false; 256];
    for (v, card) in cards.iter_mut().enumerate() {
        wire::put8(&mut copy, at, v as u8);
        *card = image::is_card(&copy);
    }
    cards
}

// The values with which the image is a card: runs `00-01 41-41`, or `none`.
fn say_values(rt: &impl Print, cards: &[bool; 256]) {
    let mut any = false;
    for (v, card) in cards.iter().enumerate() {
        if *card {
            if v == 0 || !cards[v - 1] {
                if any {
                    say(rt, b" ");
                }
                let _ = print!(rt; "{v:02X}-");
                any = true;
            }
            if v == 255 || !cards[v + 1] {
                let _ = print!(rt; "{v:02X}");
            }
        }
    }
    if !any {
        say(rt, b"none");
    }
}

fn say_row(rt: &impl Print, first: usize, last: usize, cards: &[bool; 256]) {
    say_number(rt, first);
    if first < last {
        say(rt, b"-");
        say_number(rt, last);
    }
    say(rt, b"\t");
    say_values(rt, cards);
    say(rt, b"\n");
}

// A row for each run of places that take the same values.
fn report(rt: &impl Print, img: &[u8]) {
    let mut first = 0;
    let mut cards = cards_with(img, first);
    for at in 1..IMAGE_SIZE {
        let here = cards_with(img, at);
        if here != cards {
            say_row(rt, first, at - 1, &cards);
            first = at;
            cards = here;
        }
    }
    say_row(rt, first, IMAGE_SIZE - 1, &cards);
    say(rt, b"--\n");
}

fn report_length(rt: &impl Print, img: &[u8]) {
    say_number(rt, img.len());
    say(rt, b"\t");
    say(
        rt,
        if image::is_card(img) {
            b"yes\n"
        } else {
            b"no\n"
        },
    );
}

fn image_line(rt: &impl Print, line: &[u8]) {
    let mut room = [0u8; LINE_ROOM];
    let img = console::unhex(line, &mut room);
    if img.len() == IMAGE_SIZE {
        report(rt, img);
    } else {
        report_length(rt, img);
    }
}

fn main(rt: HostRuntime) {
    let mut input = [0u8; 131072];
    let n = console::read_full(&mut rt.stdin(), &mut input);
    console::each_line_of(console::ended(&input[..n]), |line| image_line(&rt, line));
}
