// Lines of hexadecimal, as document 01 has them on the wire: a reader of frames that reports pairs of drawings, and
// the lines of an answer. What is done with a pair is no matter of this crate.
#![tactic(auto)]

ghost use Rattle.std.specs.Prelude.{◌≡◌};
ghost use Rattle.frames.specs.Reader.{fresh, ends_in_fault};
ghost use Rattle.frames.specs.Promise.{Feeding};

pub mod answer;
mod digits;
mod frame;
mod turn;

use turn::Step;

const LINE_FEED: u8 = b'\n';

// What is read of a line. Any values will do: what each means for the next byte is stated for all of them.
#[derive(Clone, Copy, PartialEq, Eq, Debug)]
pub enum Line {
    // within the first two bytes: how many digits of them are read, and their value
    Head {
        digits: usize,
        value: u32,
    },
    // past them: how many numbers the frame has and how many of them are read; of the next one, how many digits are
    // read, and their value
    Body {
        want: usize,
        at: usize,
        digits: usize,
        value: u32,
    },
}

// The reader between two bytes.
#[derive(Clone, Copy, PartialEq, Eq, Debug)]
pub struct Reader {
    // how many numbers the first drawing has, once it is read: the line is then the second of its pair
    pub first: Option<usize>,
    pub line: Line,
}

// What became of a part of the input, where there is no fault.
#[derive(Clone, Copy, PartialEq, Eq, Debug)]
pub enum Fed {
    // all of it is read, and this is the reader after it
    More(Reader),
    // a pair: how many numbers stand in the first buffer and in the second, and where the input goes on, with a fresh
    // reader
    Pair {
        first: usize,
        second: usize,
        next: usize,
    },
}

// A line of another form, or a frame out of turn: nothing after it is read.
#[derive(Clone, Copy, PartialEq, Eq, Debug)]
pub struct Fault;

// The reader at the beginning of an input, and after each pair.
pub fn start() -> Reader
    ensures { result ≡ fresh }
{
    Reader {
        first: None,
        line: Line::blank(),
    }
}

// Reads `chunk` from `from` on, up to its end, a pair or a fault. The numbers of the drawings go into `first` and
// `second`; a frame that has no room there is a fault. `chunk` and `from` are not one slice from `from` on: `Feeding`
// speaks of every `from`, also of one behind the end.
pub fn feed(
    reader: Reader,
    chunk: &[u8],
    from: usize,
    first: &mut [i32],
    second: &mut [i32],
) -> Result<Fed, Fault>
    ensures { Feeding reader chunk.now from first.old second.old
        result first.new second.new }
{
    let mut r = reader;
    for i in from..chunk.len() {
        match r.take(chunk[i], first, second)? {
            Step::On(next) => {
                r = next;
            }
            Step::Pair(a, b) => {
                return Ok(Fed::Pair {
                    first: a,
                    second: b,
                    next: i + 1,
                });
            }
        }
    }
    Ok(Fed::More(r))
}

// Whether an input that ends here ends in a fault: inside a line, or after the first frame of a pair.
#[tactic(auto, unfolding(crate::specs::Reader::ends_in_fault))]
pub fn fault_at_end(reader: Reader) -> bool
    ensures { result ≡ ends_in_fault reader }
{
    reader.first.is_some()
        || match reader.line {
            Line::Head { digits, .. } => digits != 0,
            Line::Body { .. } => true,
        }
}
