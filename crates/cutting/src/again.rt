// A lane of a column is filled again, from the values alone: the roads of one centre, by which its piece is found.
//
//     col, the column of j, lane x:   row x .. row j   the least that a road costs from there to j whose corners x
//                                                      sees
ghost use Rattle.std.specs.Prelude.{◌<◌, ◌≤◌};
ghost use Rattle.limits.specs.Limits.{row};
ghost use Rattle.cutting.specs.Rows.{Reach, Laned};

use crate::cells::{Table, cell, put};
use crate::lanes::{Lanes, NONE};
use crate::reading::Readings;
use limits::ROW;

// The cheapest step from b to any corner, by the costs g of the roads on from there.
fn reach(val: &Table, g: &Lanes, b: usize) -> u8
    requires { b < row }
    ensures { Reach val.now g.now b result }
{
    let mut m = NONE;
    for c in 0..ROW {
        m = m.min(cell(val, b, c).saturating_add(g[c]));
    }
    m
}

// The roads of the centre x to j. The row g has them side by side, and NONE for the corners before and beyond: no step
// leads there.
pub fn lane(readings: &Readings, val: &Table, col: &mut Table, x: usize, j: usize)
    requires { (x ≤ j) × (j < row) }
    ensures { Laned readings.now.veil val.now col.old col.new x j }
{
    let mut g = [NONE; ROW];
    let end = cell(&readings.veil, j, x);
    g[j] = end;
    put(col, j, x, end);
    for b in (x..j).rev() {
        let v = reach(val, &g, b).saturating_add(cell(&readings.veil, b, x));
        g[b] = v;
        put(col, b, x, v);
    }
}
