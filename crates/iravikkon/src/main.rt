// The desk program: reads standard input to its end and writes the answer lines to standard output. It only moves
// bytes between the two and `terminal`, which has all the logic.
#![tactic(auto)]

use limits::MOST_NUMBERS;
use std::io::Read;
use terminal::{MOST_AT_END, MOST_BEYOND, Session};

// Bytes read at once.
const CHUNK: usize = 65536;

// At the end of the input. The call is not refused: enough is lent.
fn end(rt: &impl Print, session: Session) {
    let mut out = [0u8; MOST_AT_END];
    let ran = terminal::finish(session, &mut out).unwrap();
    let _ = rt.write_all(&out[..ran.len]);
}

// Reads once, and writes once what that gives. A read that fails counts as the end of the input; after the end, after
// EF, or where what a chunk gave cannot be written, nothing is left to do. The call is not refused: enough is lent.
fn turn(
    rt: &impl Print,
    input: &mut impl Read,
    session: Session,
    first: &mut [i32; MOST_NUMBERS],
    second: &mut [i32; MOST_NUMBERS],
) -> Session {
    let mut chunk = [0u8; CHUNK];
    let n = input.read(&mut chunk).unwrap_or(0);
    if n == 0 {
        end(rt, session);
        return None;
    }
    let mut out = [0u8; CHUNK + MOST_BEYOND];
    let ran = terminal::run(session, &chunk[..n], first, second, &mut out).unwrap();
    rt.write_all(&out[..ran.len]).ok()?;
    ran.session
}

// A proved loop has to end, and nothing says that the input does: the turns are counted up to a number that no run
// reaches.
fn main(rt: HostRuntime) {
    let mut first = [0i32; MOST_NUMBERS];
    let mut second = [0i32; MOST_NUMBERS];
    let mut input = rt.stdin();
    let mut session = terminal::open();
    for _ in 0..u64::MAX {
        session = turn(&rt, &mut input, session, &mut first, &mut second);
        if session.is_none() {
            return;
        }
    }
}
