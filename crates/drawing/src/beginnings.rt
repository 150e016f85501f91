// Lines of sight that begin with a side: corner i on the line of a side, but no end of it, has the nearer end of the
// side between itself and the other. So these pairs need no look.
//
//     i         k ---- m         the pair i, m: corner k lies between
ghost use Rattle.std.specs.Prelude.{◌<◌, ◌≤◌};
ghost use Rattle.whole.specs.Masks.{Marks};
ghost use Rattle.outline.specs.Drawing.{corners};
ghost use Rattle.drawing.specs.Table.{BeginningsAdded, RowBegun, SideBegun};
ghost use Rattle.drawing.specs.Known.{Along, AllKnown};

use crate::corners::Ring;
use crate::marks::EachMark;
use crate::masks::Known;
use crate::seeing::{GRAZED, lies_on};
use crate::table::put;
use limits::{ALL_CELLS, MOST_CORNERS};

pub fn beginnings(ring: Ring, known: [Known; MOST_CORNERS], cells: &mut [u8; ALL_CELLS])
    requires { AllKnown ring.xy.now (corners ring.xy.now) known }
    ensures { BeginningsAdded ring.entry.xy.now cells.old cells.new }
{
    for i in 0..ring.count() {
        let a = known[i];
        along_sides(ring, cells, i, a.along);
    }
}

fn along_sides(ring: Ring, cells: &mut [u8; ALL_CELLS], i: usize, along: u64)
    requires corner { i < corners ring.xy.now }
    requires marks { Marks (corners ring.xy.now) along (Along ring.xy.now i) }
    ensures { RowBegun ring.entry.xy.now i cells.old cells.new }
{
    for k in EachMark(along) {
        along_side(ring, cells, i, k);
    }
}

// Corner i is on the line of side k. The casts lose nothing: a corner's number is below 64.
fn along_side(ring: Ring, cells: &mut [u8; ALL_CELLS], i: usize, k: usize)
    requires corner { i < corners ring.xy.now }
    requires along { (k < corners ring.xy.now) × Along ring.xy.now i k }
    ensures { SideBegun ring.entry.xy.now i k cells.old cells.new }
{
    let m = ring.next(k);
    if lies_on(ring, k, i, m) {
        put(cells, i, m, GRAZED + k as u8);
    } else {
        put(cells, i, k, GRAZED + m as u8);
    }
}
