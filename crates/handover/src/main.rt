// handover FIRST SECOND, Ask 8: on standard output the two books as one, or one line that no book begins with. What is printed is the
// promise of `handed`; this opens, reads and writes. It writes no file.
#![tactic(auto)]

use handed::BOOK_ROOM;
use std::env::{Env, FillError};
use std::fs;
use std::io::Read;
use std::rt::Files;

// The most bytes of a file's name.
const PATH_ROOM: usize = 4096;

// What a file begins with, put at the front of the buffer; none where it could not be read, which standard error then says.
fn read_from<'a>(
    rt: &impl Eprint,
    from: &mut impl Read,
    text: &'a mut [u8],
    path: &str,
) -> Option<&'a [u8]> {
    let n = console::read_full(from, text);
    // Whether it stopped at the end, or at a read that failed; no matter where it has all that is looked at.
    match from.read(&mut [0u8; 1]) {
        Err(e) if n < BOOK_ROOM => {
            console::fail(rt, path, e);
            None
        }
        _ => Some(wire::part(text, 0, n)),
    }
}

fn read_file<'a>(rt: &(impl Files + Eprint), path: &str, text: &'a mut [u8]) -> Option<&'a [u8]> {
    match fs::open(rt, path) {
        Ok(mut file) => read_from(rt, &mut file, text, path),
        Err(e) => {
            console::fail(rt, path, e);
            None
        }
    }
}

// The file that argument i names; why an argument names none is in the system's words.
fn read_book<'a>(
    rt: &(impl Env + Files + Eprint),
    i: usize,
    text: &'a mut [u8],
) -> Option<&'a [u8]> {
    let mut path = [0u8; PATH_ROOM];
    let why = match rt.arg(i, &mut path) {
        Ok(0) => "Success",
        Ok(n) => match str::from_utf8(&path[..n]) {
            Ok(path) => return read_file(rt, path, text),
            Err(_) => "Invalid or incomplete multibyte or wide character",
        },
        Err(FillError::NotPresent) => "Invalid argument",
        Err(FillError::TooLong) => "File name too long",
    };
    let _ = eprintln!(rt; "handover FIRST SECOND: {why}");
    None
}

fn main(rt: HostRuntime) {
    let mut first = [0u8; BOOK_ROOM];
    let Some(a) = read_book(&rt, 1, &mut first) else {
        return;
    };
    let mut second = [0u8; BOOK_ROOM];
    let Some(b) = read_book(&rt, 2, &mut second) else {
        return;
    };
    let mut out = [0u8; BOOK_ROOM];
    let n = handed::handed(a, b, &mut out);
    if let Err(e) = rt.write_all(wire::part(&out, 0, n)) {
        console::fail(&rt, "standard output", e);
    }
}
