// Runs the calls of three files and prints what differs: `answer` on 01's outlines that are not proved (outlines.txt)
// and on further calls (calls.txt), and the search alone on tables of sight (cuttings.txt). For each call the result
// is compared and the whole buffer, also the bytes that must keep their values.
//
// A line of a file is one call: a name; what is asked; the room in bytes; and what must come back: the number, the
// pieces, and the bytes (how many, then each). Asked are two lists, each with its length first, or the number n of
// corners and two tables of n rows of n cells. What is not of this form counts as a difference and ends the file. But
// where the number or the pieces stand, a word that is no number is one that no call gives: the call differs, and the
// file goes on.
#![tactic(auto)]

mod limited;
mod lists;
mod tables;

use recorded::words::Words;
use std::rt::Files;
use trials::lines::{Call, file};

fn all<F: FnMut(&mut Words, Call) -> Option<bool>>(rt: &(impl Files + Print), name: &str, tried: F)
    requires { F.IsAlwaysCallable tried }
{
    let tally = file(rt, name, tried);
    let _ = println!(rt; "{name}: {tally}");
}

fn main(rt: HostRuntime) {
    all(
        &rt,
        "outlines.txt",
        |words, call| lists::tried(&rt, words, call),
    );
    all(
        &rt,
        "calls.txt",
        |words, call| lists::tried(&rt, words, call),
    );
    all(
        &rt,
        "cuttings.txt",
        |words, call| tables::tried(&rt, words, call),
    );
    limited::all(&rt);
}
