// Calls at 01's limits: a buffer of a cell too few, a list of odd length, 2 corners, none and 65 keep every cell; a
// triangle with just as many cells as are asked for is told.
use crate::call::{BUFFER, right};
use crate::drawn::rows;
use drawing::Unsound;
use limits::{ALL_CELLS, FEWEST_CORNERS, MOST_NUMBERS};
use recorded::lent::fill;
use recorded::words::Words;
use trials::lines::{Call, Tally};

// Two numbers more than a drawing may have.
const TOO_MANY: usize = MOST_NUMBERS + 2;

// A call that tells no sight, with so many cells lent.
fn keeps(rt: &impl Print, call: u64, xy: &[i32], lent: usize, due: Result<(), Unsound>) -> bool {
    let mut after = [0u8; BUFFER];
    fill(&mut after);
    right(rt, Call::Limit(call), xy, lent, due, &after) == Some(true)
}

// A triangle with just as many cells as are asked for: all see all, in both ways.
fn sees_all(rt: &impl Print, call: u64) -> bool {
    let triangle = [0i32, 0, 4, 0, 0, 4];
    let mut after = [0u8; BUFFER];
    fill(&mut after);
    let all = rows(&mut Words::new(b"333 333 333"), FEWEST_CORNERS, &mut after);
    let right = right(rt, Call::Limit(call), &triangle, ALL_CELLS, Ok(()), &after);
    all.is_some() && right == Some(true)
}

pub fn all(rt: &impl Print) {
    let square = [0i32, 0, 4, 0, 4, 4, 0, 4];
    let many = [0i32; TOO_MANY];
    let misshapen = Err(Unsound::Misshapen);
    let tally = Tally::of(&[
        keeps(rt, 1, &square, ALL_CELLS - 1, Ok(())),
        keeps(rt, 2, &square[..7], BUFFER, misshapen),
        keeps(rt, 3, &square[..4], BUFFER, misshapen),
        keeps(rt, 4, &square[..0], BUFFER, misshapen),
        keeps(rt, 5, &many, BUFFER, misshapen),
        sees_all(rt, 6),
    ]);
    let _ = println!(rt; "limits: {tally}");
}
