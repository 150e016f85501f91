// The cells of sight. What each corner knows of the sides comes first. Then the pairs are told: neighbours; lines of
// sight that begin with a side; and by a look those i < j in which i is inside the angle at j. Each fills two cells,
// since sight is mutual. Where a third corner lies between, its number stands in the cell until the parts settle it.
ghost use Rattle.std.specs.Prelude.{◌≡◌, ◌<◌, ◌≤◌};
ghost use Rattle.limits.specs.Limits.{most_corners};
ghost use Rattle.outline.specs.Drawing.{corners, Angle};
ghost use Rattle.drawing.specs.Sight.{Seen};
ghost use Rattle.drawing.specs.Table.{None, Marked, RowBlank, NeighboursAdded, RowsAdded, Decided, both};
ghost use Rattle.drawing.specs.Known.{Knows, AllKnown};

use crate::beginnings::beginnings;
use crate::corners::Ring;
use crate::faced::{angles, faced};
use crate::marks::EachMark;
use crate::masks::{Known, learn};
use crate::parting::settle;
use crate::seeing::{SEEN, look};
use limits::{ALL_CELLS, MOST_CORNERS, ROW};

// A ring and the cells go together through twelve functions, as two parameters: the ring is copied, and the cells are
// lent and written. A struct of the two would be lent again in each call, for its two fields.
pub fn fill(ring: Ring, cells: &mut [u8; ALL_CELLS])
    ensures { Seen ring.entry.xy.now cells.old cells.new }
{
    let known = learn(ring);
    blank(ring, cells);
    neighbours(ring, cells);
    beginnings(ring, known, cells);
    rows(ring, known, cells);
    settle(ring, cells);
}

// No corner sees another yet.
fn blank(ring: Ring, cells: &mut [u8; ALL_CELLS])
    ensures { Marked ring.entry.xy.now None cells.old cells.new }
{
    let n = ring.count();
    for i in 0..n {
        blank_row(cells, i, n);
    }
}

fn blank_row(cells: &mut [u8; ALL_CELLS], i: usize, n: usize)
    requires { (i < most_corners) × (n ≤ most_corners) }
    ensures { RowBlank i n cells.old cells.new }
{
    for j in 0..n {
        cells[i * ROW + j] = 0;
    }
}

// Each corner sees itself and its neighbours.
fn neighbours(ring: Ring, cells: &mut [u8; ALL_CELLS])
    ensures { NeighboursAdded ring.entry.xy.now cells.old cells.new }
{
    let n = ring.count();
    for i in 0..n {
        put(cells, i, i, SEEN);
        let m = ring.next(i);
        put(cells, i, m, SEEN);
    }
}

// Of each corner i, the pairs with those after it that have i inside the angle.
fn rows(ring: Ring, known: [Known; MOST_CORNERS], cells: &mut [u8; ALL_CELLS])
    requires { AllKnown ring.xy.now (corners ring.xy.now) known }
    ensures { RowsAdded ring.entry.xy.now cells.old cells.new }
{
    let n = ring.count();
    let bends = angles(known, n);
    for i in 0..n {
        let a = known[i];
        for k in EachMark(faced(a.left, bends, n) >> i) {
            let j = i + k;
            let b = known[j];
            decide(ring, cells, i, a, j, b);
        }
    }
}

// A pair of which the look tells something is written; the others are 0 or told already.
fn decide(ring: Ring, cells: &mut [u8; ALL_CELLS], i: usize, a: Known, j: usize, b: Known)
    requires angle { (i < corners ring.xy.now) × (j < corners ring.xy.now) × Angle ring.xy.now j i }
    requires knows { Knows ring.xy.now i a × Knows ring.xy.now j b }
    ensures { Decided ring.entry.xy.now i j cells.old cells.new }
{
    let told = look(ring, i, a, j, b);
    if told != 0 {
        put(cells, i, j, told);
    }
}

pub fn put(cells: &mut [u8; ALL_CELLS], i: usize, j: usize, v: u8)
    requires { (i < most_corners) × (j < most_corners) }
    ensures { cells.new ≡ both cells.old i j v }
{
    cells[i * ROW + j] = v;
    cells[j * ROW + i] = v;
}
