// Ranges are told (01, "Cuttings"): "A range is told by its piece, and a piece by the ranges under its lines: first
// the piece of the range, then the ranges under its lines from left to right, each told in the same way."
//
//     i . . c . . d . . . j    The piece on the line i j goes from c on to d, the furthest corner below `top` that c
//      \_ _/ \_ _/ \_ _ _/     is joined to: `top` is j at first, for the closing line is no line to walk, and j + 1
//                              from then on. So each line c d is narrower than the range.
//     out:  k 0 i . . c d . . j | k 0 ..    The piece is written, and behind it the ranges under its lines, which are
//                                           read from it.
//
// Each writes to the beginning of `out`, and returns how many bytes it wrote. Corners, and how many a piece has,
// become bytes by `as`: it is proved that they fit, and `try_from` would bring a case that never comes.
ghost use Rattle.std.specs.Prelude.{◌+◌, ◌<◌, ◌≤◌, length};
ghost use Rattle.limits.specs.Limits.{row};
ghost use Rattle.rules.specs.Cells.{marked};
ghost use Rattle.rules.specs.Walk.{After};
ghost use Rattle.telling.specs.Parts.{Wrote, Corners, first_of, last_of};
ghost use Rattle.telling.specs.Parts.{corners_after, piece_bytes, lines_bytes, range_bytes};

use crate::cells::{Cells, has};

// The furthest corner below `top` that a is joined to.
fn furthest(pairs: &Cells, a: usize, top: usize) -> usize
    requires { (a + 1 < top) × (top ≤ row) }
    ensures { After (marked pairs.now) a top result }
{
    (a + 2..top)
        .rev()
        .find(|t| has(pairs, a, *t))
        .unwrap_or(a + 1)
}

// The corners after i of the piece on the line i j. No `for`: the loop goes from corner to corner, not over places;
// and what is written through `iter_mut`, beside an iterator of the corners, no proof sees.
fn spell(pairs: &Cells, i: usize, j: usize, out: &mut [u8]) -> usize
    requires corners { (i + 1 < j) × (j < row) }
    requires room { length (corners_after pairs.now i j) ≤ length out.old }
    ensures { Wrote out.old out.new result (corners_after pairs.now i j) }
{
    let mut c = i;
    let mut top = j;
    let mut past = 0;
    while c < j {
        c = furthest(pairs, c, top);
        top = j + 1;
        out[past] = c as u8;
        past += 1;
    }
    past
}

// The bytes of that piece: the number of its corners, no centre yet, its corners.
fn piece(pairs: &Cells, i: usize, j: usize, out: &mut [u8]) -> usize
    requires corners { (i + 1 < j) × (j < row) }
    requires room { length (piece_bytes pairs.now i j) ≤ length out.old }
    ensures { Wrote out.old out.new result (piece_bytes pairs.now i j) }
{
    let after = spell(pairs, i, j, &mut out[3..]);
    out[0] = (after + 1) as u8;
    out[1] = 0;
    out[2] = i as u8;
    after + 3
}

// A range is told by its piece ..
#[cycle(walk_lines_write_range)]
pub fn write_range(pairs: &Cells, i: usize, j: usize, out: &mut [u8]) -> usize
    requires corners { (i < j) × (j < row) }
    requires room { length (range_bytes pairs.now i j) ≤ length out.old }
    ensures { Wrote out.old out.new result (range_bytes pairs.now i j) }
{
    if j <= i + 1 {
        return 0;
    }
    let bytes = piece(pairs, i, j, out);
    let (told, rest) = out.split_at_mut(bytes);
    bytes + walk_lines(pairs, &told[2..], rest)
}

// .. and a piece by the ranges under its lines, from left to right.
#[cycle(walk_lines_write_range)]
fn walk_lines(pairs: &Cells, corners: &[u8], out: &mut [u8]) -> usize
    requires corners { Corners pairs.now corners.now }
    requires room { length (lines_bytes pairs.now (first_of corners.now) (last_of corners.now)) ≤ length out.old }
    ensures { Wrote out.old out.new result
        (lines_bytes pairs.now (first_of corners.now) (last_of corners.now)) }
{
    let mut past = 0;
    for (c, d) in corners.iter().zip(&corners[1..]) {
        past += write_range(pairs, usize::from(*c), usize::from(*d), &mut out[past..]);
    }
    past
}
