// Runs the calls of checks.txt and prints what differs: `check`, and the same call for C.
//
// A line of the file is one call: a name; the numbers of both drawings, how many and then each; the bytes of the list
// of pieces, how many and then each; and what must come back: 02's number, and with 23 and 24 the place of the piece,
// from 0, and the drawing, 1 or 2, else two zeros. What is not of this form counts as a difference and ends the file.
#![tactic(auto)]

mod call;
mod told;

use call::tried;
use loading::load;
use told::{for_c, plain};
use trials::TEXT;
use trials::lines::lines;

// The file is read once, so that both tallies are of one text.
fn main(rt: HostRuntime) {
    let mut text = [0u8; TEXT];
    let n = load(&rt, "checks.txt", &mut text);
    let text = &text[..n];
    let tally = lines(&rt, text, |words, call| tried(&rt, words, call, plain));
    let _ = println!(&rt; "checks.txt: {tally}");
    let tally = lines(&rt, text, |words, call| tried(&rt, words, call, for_c));
    let _ = println!(&rt; "checks.txt, for C: {tally}");
}
