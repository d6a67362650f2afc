// The handover book, run on the cases of tests/books.py: each line of standard input is a word and its values, parted by tabs, texts in
// capital hex. `handed` and two texts: what handover prints for them, in hex. `read`, the places of a list and a text; `join`, the places
// and two texts that are books: the outcome in numbers and, where it is done, the text of the notes.
#![tactic(auto)]

use handed::BOOK_ROOM;
use notes::{BLANK, Note};
use shelf::{MOST, Numbers, Outcome};
use text::lines;

// Two texts in hex, the word and the places.
const CASE_ROOM: usize = 4 * BOOK_ROOM + 32;

fn print_outcome(rt: &impl Print, outcome: Outcome, list: &[Note]) {
    let o = Numbers::from(outcome);
    let _ = print!(rt; "{}\t{}\t{}\t{}", o.number, o.which, o.at, o.count);
    if let Ok(count) = outcome {
        let mut text = [0u8; BOOK_ROOM];
        let n = booktext::put_lines(&mut text, list.get(..count as usize).unwrap_or(&[]));
        console::say(rt, b"\t");
        console::say_hex(rt, wire::part(&text, 0, n));
    }
}

fn run_handed(rt: &impl Print, first: &[u8], second: &[u8]) {
    let mut text = [0u8; BOOK_ROOM];
    let n = handed::handed(first, second, &mut text);
    console::say_hex(rt, wire::part(&text, 0, n));
}

fn run_read(rt: &impl Print, text: &[u8], places: usize) {
    let mut list = [BLANK; MOST];
    let outcome = booktext::read(text, &mut list[..places.min(MOST)]);
    print_outcome(rt, outcome, &list);
}

// The notes of a text, put into the list; none where it is no book.
fn book_of<'a>(text: &[u8], list: &'a mut [Note; MOST]) -> &'a [Note] {
    let n = booktext::read(text, list).unwrap_or(0);
    list.get(..n as usize).unwrap_or(&[])
}

fn run_join(rt: &impl Print, first: &[u8], second: &[u8], places: usize) {
    let mut a = [BLANK; MOST];
    let mut b = [BLANK; MOST];
    let mut list = [BLANK; MOST];
    let outcome = union::join(
        book_of(first, &mut a),
        book_of(second, &mut b),
        &mut list[..places.min(MOST)],
    );
    print_outcome(rt, outcome, &list);
}

// After the word, `read` and `join` have the places; where there is one text, the second is empty.
fn run_case(rt: &impl Print, case: &[u8]) {
    let word = wire::get8(case, 0);
    let values = lines::tail_after(case, lines::TAB);
    let (places, texts) = match word {
        b'h' => (0, values),
        _ => (
            text::number_of(lines::head_to(values, lines::TAB)).unwrap_or(0),
            lines::tail_after(values, lines::TAB),
        ),
    };
    let mut a = [0u8; BOOK_ROOM];
    let mut b = [0u8; BOOK_ROOM];
    let first = console::unhex(lines::head_to(texts, lines::TAB), &mut a);
    let second = console::unhex(lines::tail_after(texts, lines::TAB), &mut b);
    match word {
        b'h' => run_handed(rt, first, second),
        b'j' => run_join(rt, first, second, places as usize),
        b'r' => run_read(rt, first, places as usize),
        _ => {}
    }
    console::say(rt, b"\n");
}

fn main(rt: HostRuntime) {
    let mut case = [0u8; CASE_ROOM];
    console::each_line(&mut rt.stdin(), &mut case, |case| run_case(&rt, case));
}
