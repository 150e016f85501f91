// Pairs with a third corner between them: a centre sees from one to the other where it sees from each to the third.
// A part may have third corners itself, and is settled first: it is shorter. Each pair is settled once.
//
//     i ------- k --- j        whether i sees j: whether i sees k and k sees j
ghost use Rattle.std.specs.Prelude.{◌<◌, ◌≤◌};
ghost use Rattle.outline.specs.Drawing.{corners};
ghost use Rattle.drawing.specs.Table.{Coded, PairSettled, SettlesRow, Settles};

use crate::corners::Ring;
use crate::seeing::{GRAZED, SEEN_BY_CENTRES};
use crate::table::put;
use limits::{ALL_CELLS, ROW};

// Of each corner the pairs with the corners after it: the two cells of a pair hold the same.
pub fn settle(ring: Ring, cells: &mut [u8; ALL_CELLS])
    requires { Coded ring.xy.now cells.old }
    ensures { Settles ring.entry.xy.now cells.old cells.new }
{
    let n = ring.count();
    for i in 0..n {
        settle_row(ring, cells, i);
    }
}

fn settle_row(ring: Ring, cells: &mut [u8; ALL_CELLS], i: usize)
    requires coded { Coded ring.xy.now cells.old }
    requires corner { i < corners ring.xy.now }
    ensures { SettlesRow ring.entry.xy.now i cells.old cells.new }
{
    let n = ring.count();
    for j in i + 1..n {
        if cells[i * ROW + j] >= GRAZED {
            centre_sees(ring, cells, i, j);
        }
    }
}

// Whether a centre sees from i to j; what was found on the way stands in the cells. The drawing itself is not looked
// at any more: it is named for what is promised of it.
fn centre_sees(ring: Ring, cells: &mut [u8; ALL_CELLS], i: usize, j: usize) -> bool
    requires coded { Coded ring.xy.now cells.old }
    requires corners { (i < corners ring.xy.now) × (j < corners ring.xy.now) }
    ensures { PairSettled ring.entry.xy.now i j cells.old cells.new result }
{
    let told = cells[i * ROW + j];
    if told < GRAZED {
        return told >= SEEN_BY_CENTRES;
    }
    let k = usize::from(told - GRAZED);
    let first = centre_sees(ring, cells, i, k);
    let second = centre_sees(ring, cells, k, j);
    let seen = first & second;
    put(cells, i, j, SEEN_BY_CENTRES * u8::from(seen));
    seen
}
