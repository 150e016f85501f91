// What a line asks.
ghost use Rattle.questions.specs.Parts.{IsAsked, IsMark};

use limits::MOST_NUMBERS;
use marks::Mark;
use recorded::words::Words;

// A line of so many bytes is no question: whoever cuts an input into lines need not hold more.
pub const LINE_LIMIT: usize = 4096;

// The numbers that say what is asked.
const MARK: u32 = 1;

// Where a mark lands: the numbers of each drawing, which stand in buffers that are lent, and the mark.
#[derive(Clone, Copy)]
pub struct Question<'a> {
    pub first: &'a [i32],
    pub second: &'a [i32],
    pub mark: Mark,
}

// The rest of a question about a mark: two drawings, the mark, and no more words.
fn read_mark<'a>(
    mut words: Words,
    first: &'a mut [i32; MOST_NUMBERS],
    second: &'a mut [i32; MOST_NUMBERS],
) -> Option<Question<'a>>
    ensures { IsMark words.entry.text.now words.entry.at result }
{
    let a = words.list(first).ok()?;
    let b = words.list(second).ok()?;
    let mut mark = [0i32; 2];
    words.fill(&mut mark)?;
    if !words.is_done() {
        return None;
    }
    let [x, y] = mark;
    Some(Question {
        first: &first[..a],
        second: &second[..b],
        mark: Mark { x, y },
    })
}

pub fn read<'a>(
    line: &[u8],
    first: &'a mut [i32; MOST_NUMBERS],
    second: &'a mut [i32; MOST_NUMBERS],
) -> Option<Question<'a>>
    ensures { IsAsked line.now result }
{
    if line.len() >= LINE_LIMIT {
        return None;
    }
    let mut words = Words::new(line);
    if words.natural()? != MARK {
        return None;
    }
    read_mark(words, first, second)
}
