// The stages of the answer under their C names: the judgement of a drawing, its sight, the cutting from the sight of
// two. `answer` joins them; here each can be run and measured by itself. Crate `desk_c` exports them, in the archive
// that has the whole.
ghost use Rattle.desk.specs.Answer.{for_c};
ghost use Rattle.desk.specs.Stages.{JudgesFirst, Shows, Cuts};

use crate::Outcome;
use crate::cut::cut;
use limits::ALL_CELLS;
use pair::Which;

// 01's number for a first drawing: 1 where the list is none of 3 to 64 corners, 3, 4 or 5, and 0 where it is sound.
pub fn iravikkon_judge(xy: &[i32]) -> u8
    ensures { JudgesFirst xy.now result }
{
    pair::number(Which::First, drawing::judge(xy))
}

// `drawing::sight` for C: true where the drawing is sound and there is room, and its cells are told.
pub fn iravikkon_sight(xy: &[i32], cells: &mut [u8]) -> bool
    ensures { Shows xy.now cells.old cells.new result }
{
    drawing::sight(xy, cells).is_ok() && cells.len() >= ALL_CELLS
}

// `cut` for C.
pub fn iravikkon_cut(n: usize, first: &[u8], second: &[u8], answer: &mut [u8]) -> Outcome
    ensures { Cuts n first.now second.now answer.old (for_c result answer.new) }
{
    Outcome::from(cut(n, first, second, answer))
}
