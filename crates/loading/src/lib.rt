// A file, into a buffer: what the test programs read.
#![tactic(auto)]

ghost use Rattle.std.specs.Prelude.{◌≤◌, length};

use std::fs;
use std::io::Read;
use std::rt::Files;

// Reads until the buffer is full, the input ends or a read fails. How many bytes then stand at its front. It is a loop
// of its own: std's `read_exact` does not say how many bytes a shorter input had, and `read_to_end` takes memory.
fn read_full(input: &mut impl Read, buffer: &mut [u8]) -> usize
    ensures { result ≤ length buffer.new }
{
    let mut done = 0;
    while done < buffer.len() {
        match input.read(&mut buffer[done..]) {
            Ok(0) | Err(_) => break,
            Ok(n) => done += n,
        }
    }
    done
}

// The file of that name, as far as the buffer holds it. One that cannot be opened counts as empty. How many bytes is
// told, and no slice: that a slice is no longer than the buffer would be a clause as well.
pub fn load(files: &impl Files, name: &str, buffer: &mut [u8]) -> usize
    ensures { result ≤ length buffer.new }
{
    match fs::open(files, name) {
        Ok(mut file) => read_full(&mut file, buffer),
        Err(_) => 0,
    }
}
