// The calls of `desk` for C, and for what links as C does: each slice is a pointer and a length, and the result comes
// by value. A crate is built as a library or as an archive, not as both: so each export here calls the function of
// that name in `desk`, and states its clauses again.
#![tactic(auto)]

ghost use Rattle.desk.specs.Answer.{Answers, for_c};
ghost use Rattle.desk.specs.Stages.{JudgesFirst, Shows, Cuts};

use desk::Outcome;

// `desk::answer` for C.
#[unsafe(no_mangle)]
pub extern "C" fn iravikkon_answer(first: &[i32], second: &[i32], room: &mut [u8]) -> Outcome
    ensures { Answers first.now second.now room.old (for_c result room.new) }
{
    desk::iravikkon_answer(first, second, room)
}

// 01's number for a first drawing: 1 where the list is none of 3 to 64 corners, 3, 4 or 5, and 0 where it is sound.
#[unsafe(no_mangle)]
pub extern "C" fn iravikkon_judge(xy: &[i32]) -> u8
    ensures { JudgesFirst xy.now result }
{
    desk::stages::iravikkon_judge(xy)
}

// `drawing::sight` for C: true where the drawing is sound and there is room, and its cells are told.
#[unsafe(no_mangle)]
pub extern "C" fn iravikkon_sight(xy: &[i32], cells: &mut [u8]) -> bool
    ensures { Shows xy.now cells.old cells.new result }
{
    desk::stages::iravikkon_sight(xy, cells)
}

// The search and the telling for C, from the cells of two drawings.
#[unsafe(no_mangle)]
pub extern "C" fn iravikkon_cut(n: usize, first: &[u8], second: &[u8], answer: &mut [u8]) -> Outcome
    ensures { Cuts n first.now second.now answer.old (for_c result answer.new) }
{
    desk::stages::iravikkon_cut(n, first, second, answer)
}
