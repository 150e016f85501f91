// The two lines of a pair, in turn, a byte at a time.
ghost use Rattle.std.specs.Prelude.{◌≡◌};
ghost use Rattle.frames.specs.Reader.{steps};

use crate::frame::After;
use crate::{Fault, Line, Reader};

const FIRST_TAG: u8 = 0x10;

const SECOND_TAG: u8 = 0x20;

// What a byte did: the reader goes on, or a pair is read, with how many numbers in each drawing. Neither is a failure,
// as with `After`.
#[derive(Clone, Copy, PartialEq, Eq, Debug)]
pub enum Step {
    On(Reader),
    Pair(usize, usize),
}

impl Reader {
    // Two turns, each with its tag, its buffer and what a whole frame does: one match would choose all three, and be
    // no shorter.
    #[tactic(auto, unfolding(crate::specs::Reader::steps))]
    pub(crate) fn take(self, c: u8, first: &mut [i32], second: &mut [i32]) -> Result<Step, Fault>
        ensures { (result, first.new, second.new)
            ≡ steps self first.old second.old c }
    {
        match self.first {
            None => match self.line.read(FIRST_TAG, c, first)? {
                After::On(line) => Ok(Step::On(Reader { first: None, line })),
                After::Frame(n) => Ok(Step::On(Reader {
                    first: Some(n),
                    line: Line::blank(),
                })),
            },
            Some(numbers) => match self.line.read(SECOND_TAG, c, second)? {
                After::On(line) => Ok(Step::On(Reader {
                    first: Some(numbers),
                    line,
                })),
                After::Frame(n) if numbers <= first.len() => Ok(Step::Pair(numbers, n)),
                After::Frame(_) => Err(Fault),
            },
        }
    }
}
