// What the desk tells beyond the wire: reads questions from standard input, a line each, and writes a line of answer
// for each to standard output, all in decimal numbers. Here the input is cut into lines; what is written for a line is
// `specs/Questions.antt`.
#![tactic(auto)]

use arrayvec::ArrayVec;
use asked::LINE_LIMIT;
use reply::reply;
use std::io::Read;

mod asked;
mod reply;
mod told;

// Bytes read at once.
const CHUNK: usize = 4096;

// What is held of a line that is not ended. Bytes that have no room make the line no question, and need not be held.
type Held = ArrayVec<u8, LINE_LIMIT>;

// The line that answers a line; where it cannot be written, the next one is read all the same.
fn answer(rt: &impl Print, line: &[u8]) {
    let _ = rt.write_all(reply(line).as_str().as_bytes());
}

// One byte more of a line: a line feed ends it, and it is answered.
fn take(rt: &impl Print, c: u8, line: &mut Held) {
    if c == b'\n' {
        answer(rt, line.as_slice());
        line.clear();
    } else {
        let _ = line.try_push(c);
    }
}

// A proved loop has to end, and nothing says that the input does: the turns are counted up to a number that no run
// reaches. At the end of the input, or where a read fails, a line that is not ended is answered too.
fn main(rt: HostRuntime) {
    let mut line = Held::new();
    let mut chunk = [0u8; CHUNK];
    let mut input = rt.stdin();
    for _ in 0..u64::MAX {
        let n = input.read(&mut chunk).unwrap_or(0);
        if n == 0 {
            break;
        }
        for c in &chunk[..n] {
            take(&rt, *c, &mut line);
        }
    }
    if !line.is_empty() {
        answer(&rt, line.as_slice());
    }
}
