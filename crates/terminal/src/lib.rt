// From a whole input to the whole output of the desk program, document 01, "The frames on the wire", in chunks of any
// size. What is kept from chunk to chunk is a session, by value, and the numbers of a pair that is being read, in two
// buffers of the caller's.
#![tactic(auto)]

ghost use Rattle.std.specs.Prelude.{◌≡◌};
ghost use Rattle.terminal.specs.Running.{opened, Runs, Finishes};

mod chunk;
mod reply;

use chunk::read;
use limits::{LONGEST_LINE, MOST_NUMBERS};

// What the end of an input can write: EF.
pub const MOST_AT_END: usize = 3;

// What a chunk can write beyond its own length: a longest line, whose pair may have been read before, and EF.
pub const MOST_BEYOND: usize = LONGEST_LINE + MOST_AT_END;

// A run between two chunks: the reader, or none after EF or after the end of the input, where nothing more is read and
// nothing written.
pub type Session = Option<frames::Reader>;

// The session goes on, and so many bytes are written to the front of the output's buffer. (A length and no slice of
// that buffer: `Wrote` speaks of the whole of it, also of the bytes behind what is written.)
#[derive(Clone, Copy, PartialEq, Eq, Debug)]
pub struct Ran {
    pub session: Session,
    pub len: usize,
}

// Too little was lent, and nothing is touched.
#[derive(Clone, Copy, PartialEq, Eq, Debug)]
pub struct Short;

// The beginning of an input.
pub fn open() -> Session
    ensures { result ≡ opened }
{
    Some(frames::start())
}

// Takes the whole of a chunk and writes the lines of the pairs that it ends, and EF where there is a fault. `first`
// and `second` have `limits::MOST_NUMBERS` numbers at least, and `out` has `MOST_BEYOND` bytes more than the chunk.
pub fn run(
    session: Session,
    chunk: &[u8],
    first: &mut [i32],
    second: &mut [i32],
    out: &mut [u8],
) -> Result<Ran, Short>
    ensures { Runs session first.old second.old chunk.now out.old
        first.new second.new out.new result }
{
    if first.len() < MOST_NUMBERS
        || second.len() < MOST_NUMBERS
        || out.len() < chunk.len() + MOST_BEYOND
    {
        return Err(Short);
    }
    match session {
        Some(reader) => Ok(read(reader, chunk, first, second, out)),
        None => Ok(Ran {
            session: None,
            len: 0,
        }),
    }
}

// Is told the end of the input: writes EF where it ends inside a line or after the first frame of a pair. `out` has
// `MOST_AT_END` bytes at least.
pub fn finish(session: Session, out: &mut [u8]) -> Result<Ran, Short>
    ensures { Finishes session out.old out.new result }
{
    if out.len() < MOST_AT_END {
        return Err(Short);
    }
    let len = match session {
        Some(reader) if frames::fault_at_end(reader) => frames::answer::fault_line(out, 0),
        _ => 0,
    };
    Ok(Ran { session: None, len })
}
