// One input through `terminal`, held to its output.
ghost use Rattle.std.specs.Prelude.{◌<◌, ◌≤◌, length, IfErr, IfOk};

use limits::MOST_NUMBERS;
use recorded::lent::agree;
use terminal::{MOST_BEYOND, Ran, Session, Short};

// The largest chunk: as the program reads its input.
const CHUNK: usize = 65536;

// Where an output differs: with chunks of which size, and after how many bytes.
#[derive(Clone, Copy)]
pub struct Found {
    pub size: usize,
    pub bytes: usize,
}

// What a call wrote, held to the expected output from `met` on: the session, and how many bytes are met then. Where
// the next one is not, how many are. `expected` is the whole output and `met` a place in it, not what is left of it:
// how many bytes were met before the first that differs is what is reported.
fn held(
    ran: Result<Ran, Short>,
    out: &[u8],
    expected: &[u8],
    met: usize,
) -> Result<(Session, usize), usize>
    requires { met ≤ length expected.now }
    ensures met { IfOk result (λ r. r.1 ≤ length expected.now) }
    ensures differs { IfErr result (λ bytes. bytes ≤ length expected.now) }
{
    let Ok(Ran { session, len }) = ran else {
        return Err(met);
    };
    let Some(written) = out.get(..len) else {
        return Err(met);
    };
    let due = &expected[met..];
    if due.starts_with(written) {
        Ok((session, met + len))
    } else {
        Err(met + agree(due, written))
    }
}

fn replay(input: &[u8], expected: &[u8], size: usize) -> Result<(), Found>
    requires { 0 < size }
    ensures { IfErr result (λ found. found.bytes ≤ length expected.now) }
{
    let mut first = [0i32; MOST_NUMBERS];
    let mut second = [0i32; MOST_NUMBERS];
    let mut out = [0u8; CHUNK + MOST_BEYOND];
    let mut session = terminal::open();
    let mut met = 0;
    for chunk in input.chunks(size) {
        let ran = terminal::run(session, chunk, &mut first, &mut second, &mut out);
        (session, met) = held(ran, &out, expected, met).map_err(|bytes| Found { size, bytes })?;
    }
    let ran = terminal::finish(session, &mut out);
    let (_, met) = held(ran, &out, expected, met).map_err(|bytes| Found { size, bytes })?;
    if met == expected.len() {
        Ok(())
    } else {
        Err(Found { size, bytes: met })
    }
}

// The input in chunks as the program reads them, and of 4,096, 7 and 1 bytes.
pub fn tried(input: &[u8], expected: &[u8]) -> Result<(), Found>
    ensures { IfErr result (λ found. found.bytes ≤ length expected.now) }
{
    replay(input, expected, CHUNK)?;
    replay(input, expected, 4096)?;
    replay(input, expected, 7)?;
    replay(input, expected, 1)
}
