// firstread, run on the cases of tests/firstreads.py: each line of standard input is an input of firstread in capital hex. For each it
// prints what firstread prints.
#![tactic(auto)]

// Two digits for each byte that firstread reads.
const DIGITS: usize = 2 * firstanswer::SHEET_ROOM;

fn run_case(rt: &impl Print, digits: &[u8]) {
    let mut room = [0u8; firstanswer::SHEET_ROOM];
    // As much of an input as firstread reads.
    let sheet = console::unhex(&digits[..digits.len().min(DIGITS)], &mut room);
    let mut line = [0u8; firstanswer::LINE_ROOM];
    let n = firstanswer::answer(sheet, &mut line);
    console::say(rt, wire::part(&line, 0, n));
}

fn main(rt: HostRuntime) {
    let mut input = [0u8; 262144];
    let n = console::read_full(&mut rt.stdin(), &mut input);
    console::each_line_of(&input[..n], |digits| run_case(&rt, digits));
}
