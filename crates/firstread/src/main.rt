// firstread, 01 "The personalisation sheet": a sheet on standard input; on standard output READ_CARD's response under the sheet's
// PIN1 and a draw of zeros, or the number of the bad line. What is printed is the promise of `firstanswer`; this reads and writes.
#![tactic(auto)]

fn main(rt: HostRuntime) {
    let mut sheet = [0u8; firstanswer::SHEET_ROOM];
    let n = console::read_full(&mut rt.stdin(), &mut sheet);
    let mut line = [0u8; firstanswer::LINE_ROOM];
    let e = firstanswer::answer(wire::part(&sheet, 0, n), &mut line);
    console::say(&rt, wire::part(&line, 0, e));
}
