// Text in lines, each ended by a line feed, and the parts of a line, parted by tabs. All functions are total.
#![tactic(auto, using(crate::proofs::LineLaws::scanning), unfolding(crate::specs::Lines::head_to, crate::specs::Lines::tail_after, crate::specs::Lines::next_line, crate::specs::Lines::from_line, crate::specs::Lines::line_of, crate::specs::Lines::ended))]

ghost use Rattle.std.specs.Prelude.{◌≡◌};
ghost use Rattle.text.specs.Lines.{length_to, head_to, tail_after, next_line, start_of, line_of, ended};

pub const TAB: u8 = b'\t';

pub const LINE_FEED: u8 = b'\n';

// How many bytes stand before the first b; all where there is none.
pub fn length_to(s: &[u8], b: u8) -> usize
    ensures { result ≡ length_to b s.now }
{
    for (i, x) in s.iter().enumerate() {
        if *x == b {
            return i;
        }
    }
    s.len()
}

// What stands before the first b.
pub fn head_to(s: &[u8], b: u8) -> &[u8]
    ensures { result.now ≡ head_to b s.now }
{
    wire::part(s, 0, length_to(s, b))
}

// What stands after the first b.
pub fn tail_after(s: &[u8], b: u8) -> &[u8]
    ensures { result.now ≡ tail_after b s.now }
{
    let n = length_to(s, b);
    wire::rest(s, n + 1)
}

// Where the line after the one at `at` starts.
pub fn next_line(s: &[u8], at: usize) -> usize
    ensures { result ≡ next_line s.now at }
{
    if at < s.len() {
        return at + length_to(wire::rest(s, at), LINE_FEED) + 1;
    }
    at
}

// Where line k starts; lines are counted from 1.
pub fn start_of(s: &[u8], k: u32) -> usize
    ensures { result ≡ start_of k s.now }
{
    let mut at = 0;
    for _ in 1..k {
        at = next_line(s, at);
    }
    at
}

// Line k, without its line feed.
pub fn line_of(s: &[u8], k: u32) -> &[u8]
    ensures { result.now ≡ line_of k s.now }
{
    head_to(wire::rest(s, start_of(s, k)), LINE_FEED)
}

// Whether the line that the text begins with has its line feed.
pub fn is_ended(s: &[u8]) -> bool
    ensures { result ≡ ended s.now }
{
    head_to(s, LINE_FEED).len() < s.len()
}
