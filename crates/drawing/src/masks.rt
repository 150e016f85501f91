// Where a corner lies against the sides, as masks: digit k of a mask tells of side k. That takes n turns for each of
// the n corners; whatever a pair of corners asks of the sides is then a few operations on what the two know.
ghost use Rattle.std.specs.Prelude.{◌≡◌, ◌<◌};
ghost use Rattle.outline.specs.Drawing.{corners};
ghost use Rattle.drawing.specs.Known.{Needs, Knows, AllKnown};
ghost use Rattle.drawing.specs.Away.{Far, Away, cross_of};

use crate::corners::Ring;
use crate::segment::{Place, turn};
use limits::MOST_CORNERS;

// The sides that a corner lies strictly left of, those that it lies strictly right of, those whose line it lies on
// without being an end of the side; those that have an end strictly lower than the corner, or further west; and how
// many of the two sides at the corner another has to lie left of, to be inside the angle.
#[derive(Clone, Copy)]
pub struct Known {
    pub left: u64,
    pub right: u64,
    pub along: u64,
    pub low: u64,
    pub west: u64,
    pub need: u64,
}

// What each corner knows, in their order.
pub fn learn(ring: Ring) -> [Known; MOST_CORNERS]
    ensures { AllKnown ring.entry.xy.now (corners ring.entry.xy.now) result }
{
    let nothing = Known {
        left: 0,
        right: 0,
        along: 0,
        low: 0,
        west: 0,
        need: 0,
    };
    let mut known = [nothing; MOST_CORNERS];
    for i in 0..ring.count() {
        known[i] = know(ring, i);
    }
    known
}

// The digits are made from the last side down, so that the far end of a side is the corner that was looked at just
// before. Of all sides those are right that are neither left nor flat, whose line the corner is on; and of the flat
// ones the two that end at the corner are taken away.
fn know(ring: Ring, i: usize) -> Known
    requires { i < corners ring.xy.now }
    ensures { Knows ring.entry.xy.now i result }
{
    let n = ring.count();
    let mut all = 0;
    let mut left = 0;
    let mut flat = 0;
    let mut low = 0;
    let mut west = 0;
    let mut end = away(ring, i, 0);
    for k in (0..n).rev() {
        let start = away(ring, i, k);
        let s = cross(start, end);
        all = all * 2 + 1;
        left = left * 2 + u64::from(s > 0);
        flat = flat * 2 + u64::from(s == 0);
        low = low * 2 + u64::from((start.y < 0) | (end.y < 0));
        west = west * 2 + u64::from((start.x < 0) | (end.x < 0));
        end = start;
    }
    let h = ring.prev(i);
    let before = 1 << h;
    let after = 1 << i;
    let along = flat ^ before ^ after;
    let need = need(ring, i);
    Known {
        left,
        right: all ^ left ^ flat,
        along,
        low,
        west,
        need,
    }
}

// Corner k, as far as it is from corner i.
fn away(ring: Ring, i: usize, k: usize) -> Place
    requires { (i < corners ring.xy.now) × (k < corners ring.xy.now) }
    ensures { Away ring.entry.xy.now i k result }
{
    let a = ring.corner(i);
    let c = ring.corner(k);
    Place {
        x: c.x - a.x,
        y: c.y - a.y,
    }
}

// Of the two ends of a side, both from one corner: above zero where that corner lies left of the side.
fn cross(c: Place, d: Place) -> i64
    requires { Far c × Far d }
    ensures { result ≡ cross_of c d }
{
    c.x * d.y - c.y * d.x
}

// 2 where corner i turns left, and 1 where not.
fn need(ring: Ring, i: usize) -> u64
    requires { i < corners ring.xy.now }
    ensures { Needs ring.entry.xy.now i result }
{
    let h = ring.prev(i);
    let m = ring.next(i);
    let p = ring.corner(h);
    let a = ring.corner(i);
    let q = ring.corner(m);
    if turn(p, a, q) > 0 { 2 } else { 1 }
}
