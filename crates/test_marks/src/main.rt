// Runs the calls of marks.txt and prints what differs: `carry`, and the same call for C. For each call the result is
// compared, the place down to the bits of its two rests, and the whole buffer, also the bytes that must keep their
// values.
//
// A line of the file is one call: a name; two lists, each with its length first; the room in bytes; the mark; and what
// must come back: the number, the pieces, the bytes (how many, then each), 1 with a place and 0 without, and for each
// axis the step and the 64 bits of the rest, as four numbers of 16 bits. What is not of this form counts as a
// difference and ends the file. But in what must come back a word that is no number, save among the bytes and the
// steps, is one that no call gives: the call differs, and the file goes on.
#![tactic(auto)]

mod call;
mod got;

use call::tried;
use got::{for_c, plain};
use loading::load;
use trials::TEXT;
use trials::lines::lines;

// The file is read once, so that both tallies are of one text.
fn main(rt: HostRuntime) {
    let mut text = [0u8; TEXT];
    let n = load(&rt, "marks.txt", &mut text);
    let text = &text[..n];
    let tally = lines(&rt, text, |words, call| tried(&rt, words, call, plain));
    let _ = println!(&rt; "marks.txt: {tally}");
    let tally = lines(&rt, text, |words, call| tried(&rt, words, call, for_c));
    let _ = println!(&rt; "marks.txt, for C: {tally}");
}
