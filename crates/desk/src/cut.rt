// From the cells of two drawings to the bytes of the answer: the first smallest cutting is searched for, and told.
//
//     first, second  --search-->  pairs  --tell-->  room
//     who sees whom               the cuts          01's bytes
ghost use Rattle.std.specs.Prelude.{◌≡◌, Err, length};
ghost use Rattle.limits.specs.Limits.{Roomy};
ghost use Rattle.outline.specs.Tells.{Tells};
ghost use Rattle.cutting.specs.Answer as cutting;
ghost use Rattle.telling.specs.Answer as telling;
ghost use Rattle.desk.specs.Answer.{number, result_of};
ghost use Rattle.desk.specs.Stages.{Served, Cuts};

use crate::Refusal;
use limits::{ALL_CELLS, FEWEST_CORNERS, MOST_CORNERS};
use telling::Told;

// What is asked of cells is what the pair's own first line asks of drawings.
impl From<cutting::Refusal> for Refusal {
    ghost from_gives = { λ refusal r. number r ≡ cutting.number (Err refusal) };

    fn from(refusal: cutting::Refusal) -> Refusal {
        match refusal {
            cutting::Refusal::Unserved => Refusal::Pair(pair::Refusal::Unlike),
            cutting::Refusal::NoCutting => Refusal::NoCutting,
        }
    }
}

impl From<telling::Refusal> for Refusal {
    ghost from_gives = { λ refusal r. number r ≡ telling.number refusal };

    fn from(refusal: telling::Refusal) -> Refusal {
        match refusal {
            telling::Refusal::Unserved => Refusal::Pair(pair::Refusal::Unlike),
            telling::Refusal::Short => Refusal::Room,
        }
    }
}

// Whether n and both arrays of cells are within the limits. They stay slices, as `cutting` and `telling` take them and
// ask for the lengths themselves; here it is asked before the room is, as 1 comes before 2 in 01's table.
fn served(n: usize, first: &[u8], second: &[u8]) -> bool
    ensures { Tells result (Served n first.now second.now) }
{
    (FEWEST_CORNERS..=MOST_CORNERS).contains(&n)
        && first.len() >= ALL_CELLS
        && second.len() >= ALL_CELLS
}

// The cutting is searched for, and told.
fn search(
    n: usize,
    first: &[u8],
    second: &[u8],
    pairs: &mut [u8; ALL_CELLS],
    room: &mut [u8],
) -> Result<Told, Refusal>
    requires { Served n first.now second.now × Roomy n (length room.old) }
    ensures { Cuts n first.now second.now room.old (result_of result room.new) }
{
    cutting::search(n, first, second, pairs)?;
    Ok(telling::tell(n, pairs, first, second, room)?)
}

// The answer by the cells of two drawings: line 1 of 01's table where n or the cells are not within the limits, 2
// where the room is too small, 9, or what was told. The cuts stand in this function's frame. `telling` asks for the
// 5n - 10 bytes again, as it may be called alone; here they are asked for before the search, as 2 comes before 9.
pub fn cut(n: usize, first: &[u8], second: &[u8], room: &mut [u8]) -> Result<Told, Refusal>
    ensures { Cuts n first.now second.now room.old (result_of result room.new) }
{
    if !served(n, first, second) {
        return Err(Refusal::Pair(pair::Refusal::Unlike));
    }
    if room.len() < 5 * n - 10 {
        return Err(Refusal::Room);
    }
    let mut pairs = [0u8; ALL_CELLS];
    search(n, first, second, &mut pairs, room)
}
