// The line that answers a line.
ghost use Rattle.questions.specs.Questions.{question, Answers, MarkTold};

use crate::asked::read;
use crate::told::{Line, no_question, told};
use limits::{MOST_NUMBERS, ROOM};
use marks::Mark;

fn carried(first: &[i32], second: &[i32], mark: Mark) -> Line
    ensures { MarkTold first.now second.now mark.x mark.y result.bytes }
{
    let mut room = [0u8; ROOM];
    told(marks::carry(first, second, mark, &mut room))
}

pub fn reply(line: &[u8]) -> Line
    ensures { Answers (question line.now) result.bytes }
{
    let mut first = [0i32; MOST_NUMBERS];
    let mut second = [0i32; MOST_NUMBERS];
    match read(line, &mut first, &mut second) {
        Some(asked) => carried(asked.first, asked.second, asked.mark),
        None => no_question(),
    }
}
