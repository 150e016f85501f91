// Runs inputs of known output through `terminal`, each in chunks of four sizes, and compares every byte. The
// arguments are files: an input and its output, as often as wanted, and last a file that packs many small ones. A
// file that differs is told with the first chunk size and line that do.
#![tactic(auto)]

mod packed;
mod replay;
mod report;

use packed::cases;
use replay::tried;
use report::{lines, place, print_counts};
use std::env::FillError;
use std::rt::{Env, Files};
use std::str;

// The longest name of a file.
const NAME: usize = 4096;

// The largest files that can be run.
const INPUT: usize = 524288;

const EXPECTED: usize = 65536;

// Argument i, in the buffer: empty where there is none, or none that has room.
fn argument<'a>(rt: &impl Env, i: usize, name: &'a mut [u8]) -> &'a [u8] {
    let length = rt.arg(i, name).unwrap_or(0);
    &name[..length]
}

// How many arguments there are, with the program's own name.
fn argument_count(rt: &impl Env) -> usize {
    let mut name = [0u8; NAME];
    for i in 0..usize::MAX {
        if let Err(FillError::NotPresent) = rt.arg(i, &mut name) {
            return i;
        }
    }
    usize::MAX
}

// The file that argument i names, as far as the buffer holds it.
fn load<'a>(rt: &(impl Env + Files), i: usize, buffer: &'a mut [u8]) -> &'a [u8] {
    let mut name = [0u8; NAME];
    let length = match str::from_utf8(argument(rt, i, &mut name)) {
        Ok(name) => loading::load(rt, name, buffer),
        Err(_) => 0,
    };
    &buffer[..length]
}

// The name in argument i.
fn title(rt: &(impl Env + Print), i: usize) {
    let mut name = [0u8; NAME];
    let _ = rt.write_all(argument(rt, i, &mut name));
}

// The files that arguments i and j name: an input and its output.
fn named(
    rt: &(impl Env + Files + Print),
    i: usize,
    j: usize,
    input: &mut [u8],
    expected: &mut [u8],
) {
    let input = load(rt, i, input);
    let expected = load(rt, j, expected);
    let found = tried(input, expected);
    if let Err(found) = found {
        title(rt, i);
        place(rt, found, expected);
    }
    title(rt, i);
    let count = lines(expected, expected.len());
    print_counts(rt, count as u64, "lines", u64::from(found.is_err()));
}

// The cases that the file of argument i packs.
fn many(rt: &(impl Env + Files + Print), i: usize, packed: &mut [u8]) {
    let tally = cases(rt, load(rt, i, packed));
    title(rt, i);
    print_counts(rt, tally.count, "inputs", tally.differences);
}

fn all(rt: &(impl Env + Files + Print), input: &mut [u8; INPUT], expected: &mut [u8; EXPECTED]) {
    let count = argument_count(rt);
    for i in (1..count.saturating_sub(1)).step_by(2) {
        named(rt, i, i + 1, input, expected);
    }
    // a last one that is left over
    if count > 0 && count % 2 == 0 {
        many(rt, count - 1, input);
    }
}

fn main(rt: HostRuntime) {
    let mut input = [0u8; INPUT];
    let mut expected = [0u8; EXPECTED];
    all(&rt, &mut input, &mut expected);
}
