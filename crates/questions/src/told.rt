// The line of an answer.
ghost use Rattle.std.specs.Prelude.{◌≡◌, ◌+◌, ◌≤◌, ◌++◌, length};
ghost use Rattle.questions.specs.Questions.{whole_text, axis_text, landing_text, told_line, no_question};

use arrayvec::ArrayString;
use itoa::{Buffer, Integer};
use marks::{Axis, Carried, Place, Refusal};
use recorded::floats::bits;

// As long as any answer, and a little more.
pub type Line = ArrayString<128>;

// Each `push_` function asks for the room that it may take and says that it takes no more, as `push_str` does: no type
// tells how long a line is already.
fn push_number<I: Integer>(line: &mut Line, n: I)
    requires { length line.old.bytes + I.MAX_STR_LEN ≤ 128 }
    ensures text { line.new.bytes ≡ line.old.bytes ++ I.text n }
    ensures room { length line.new.bytes ≤ length line.old.bytes + I.MAX_STR_LEN }
{
    let mut digits = Buffer::new();
    line.push_str(digits.format(n));
}

#[tactic(auto, using(crate::proofs::Spelling::whole_spelt, crate::proofs::Spelling::below_spelt))]
fn push_step(line: &mut Line, step: i64)
    requires { length line.old.bytes + 21 ≤ 128 }
    ensures text { line.new.bytes ≡ line.old.bytes ++ whole_text step }
    ensures room { length line.new.bytes ≤ length line.old.bytes + 21 }
{
    push_number(line, step);
}

fn push_axis(line: &mut Line, axis: Axis)
    requires { length line.old.bytes + 43 ≤ 128 }
    ensures text { line.new.bytes ≡ line.old.bytes ++ axis_text axis }
    ensures room { length line.new.bytes ≤ length line.old.bytes + 43 }
{
    line.push_str(" ");
    push_step(line, axis.step);
    line.push_str(" ");
    push_number(line, bits(axis.rest));
}

fn push_landing(line: &mut Line, landing: Option<Place>)
    requires { length line.old.bytes + 86 ≤ 128 }
    ensures text { line.new.bytes ≡ line.old.bytes ++ landing_text landing }
    ensures room { length line.new.bytes ≤ length line.old.bytes + 86 }
{
    if let Some(place) = landing {
        push_axis(line, place.x);
        push_axis(line, place.y);
    }
}

pub fn told(carried: Result<Carried, Refusal>) -> Line
    ensures { result.bytes ≡ told_line carried }
{
    let mut line = Line::new();
    match carried {
        Ok(carried) => {
            push_number(&mut line, 0u8);
            push_landing(&mut line, carried.landing);
        }
        Err(refusal) => push_number(&mut line, u8::from(refusal)),
    }
    line.push_str("\n");
    line
}

// What a line gets that is no question.
pub fn no_question() -> Line
    ensures { result.bytes ≡ no_question }
{
    let mut line = Line::new();
    line.push_str("?\n");
    line
}
