// What one look along the segment between two corners tells of both kinds of sight: 01, "Sight", and 02, K3.
//
//     i --------- j     nothing between: both kinds
//     i ----k---- j     a third corner: 01's sight is barred, and a centre's is that of the two parts
//     i ----|---- j     a side across: neither
ghost use Rattle.std.specs.Prelude.{◌<◌};
ghost use Rattle.whole.specs.Masks.{Marks};
ghost use Rattle.outline.specs.Drawing.{corners, Angle};
ghost use Rattle.outline.specs.Tells.{Tells};
ghost use Rattle.outline.specs.Way.{GrazedBy};
ghost use Rattle.drawing.specs.Known.{Left, Open, Looks, Reaches, MeetsSide, TouchedSide, LiesOn, Needs, Knows};
ghost use Rattle.drawing.specs.Table.{Looked, Code};

use crate::corners::Ring;
use crate::marks::EachMark;
use crate::masks::Known;
use crate::segment::{Met, dot, meet, turn};

// What a cell holds while sight is told: 0 for a pair of which nothing is known yet or neither sees the other, 2 for a
// centre's sight alone, 3 for both kinds, and GRAZED + k where corner k lies between the two. Numbers and no enum: the
// cells are the caller's bytes, and `Sight` promises 0, 2 and 3 of them.
pub const SEEN_BY_CENTRES: u8 = 2;

pub const SEEN: u8 = 3;

pub const GRAZED: u8 = 4;

// Corner i is inside the angle at j. The cheapest test comes first: the other angle, and only then the sides. Inside
// both angles the sides at i and j are clear; of the others a few are looked at. A corner's number and what it knows
// stay two parameters: a struct of the two would be made for each pair alone, and taken apart here.
// 0 where there is nothing to tell, and no `Option<u8>`: tried, it proves, and `sight` takes a fifth more time.
pub fn look(ring: Ring, i: usize, a: Known, j: usize, b: Known) -> u8
    requires corners { (i < corners ring.xy.now) × (j < corners ring.xy.now) }
    requires angle { Angle ring.xy.now j i }
    requires knows { Knows ring.xy.now i a × Knows ring.xy.now j b }
    ensures { Looked ring.entry.xy.now i j result }
{
    if !angle(ring, i, a.need, j, b.left) {
        return 0;
    }
    let sides = to_look_at(ring, i, a, j, b);
    look_along(ring, sides, i, j)
}

// The open sides are those whose line has i and j strictly apart, or has both on it. One with the two apart that
// meets the segment ij has an end lower than the higher of them and one west of the eastern: the others are left out.
fn to_look_at(ring: Ring, i: usize, a: Known, j: usize, b: Known) -> u64
    requires corners { (i < corners ring.xy.now) × (j < corners ring.xy.now) }
    requires knows { Knows ring.xy.now i a × Knows ring.xy.now j b }
    ensures { Looks ring.entry.xy.now i j result }
{
    let p = ring.corner(i);
    let q = ring.corner(j);
    let low = reach(p.y, a.low, q.y, b.low);
    let west = reach(p.x, a.west, q.x, b.west);
    let apart = a.left & b.right | a.right & b.left;
    let along = a.along & b.along;
    apart & low & west | along
}

// Of the heights of two corners, and of the sides that reach below the first and below the second: those that reach
// below the higher one, or all, where both have one height. And so for east and west.
fn reach(p: i64, first: u64, q: i64, second: u64) -> u64
    ensures { Reaches p first q second result }
{
    if p == q { u64::MAX } else { first | second }
}

// Corner j, which lies left of the sides that `left` marks, is inside the angle at corner i: left of as many of the
// two sides there as i needs.
fn angle(ring: Ring, i: usize, need: u64, j: usize, left: u64) -> bool
    requires corner { (i < corners ring.xy.now) × Needs ring.xy.now i need }
    requires marks { Marks (corners ring.xy.now) left (Left ring.xy.now j) }
    ensures { Tells result (Angle ring.entry.xy.now i j) }
{
    let h = ring.prev(i);
    (left >> i) % 2 + (left >> h) % 2 >= need
}

// Of two corners inside each other's angles: the open sides, until one is met. A corner's number fits a byte, since it
// is below 64: that is proved of the cast, and `try_from` would bring a case that never comes.
fn look_along(ring: Ring, sides: u64, i: usize, j: usize) -> u8
    requires corners { (i < corners ring.xy.now) × (j < corners ring.xy.now) }
    requires angle { Angle ring.xy.now i j × Angle ring.xy.now j i × Looks ring.xy.now i j sides }
    ensures { Code ring.entry.xy.now i j result }
{
    for k in EachMark(sides) {
        match meet_side(ring, i, j, k) {
            Met::Missed => {}
            Met::Touched => {
                return GRAZED + touched(ring, i, j, k) as u8;
            }
            Met::Crossed => {
                return 0;
            }
        }
    }
    SEEN
}

// How the segment ij meets the open side k.
fn meet_side(ring: Ring, i: usize, j: usize, k: usize) -> Met
    requires corners { (i < corners ring.xy.now) × (j < corners ring.xy.now) × (k < corners ring.xy.now) }
    requires open { Open ring.xy.now i j k }
    ensures { MeetsSide ring.entry.xy.now i j k result }
{
    let m = ring.next(k);
    let a = ring.corner(i);
    let b = ring.corner(j);
    let c = ring.corner(k);
    let d = ring.corner(m);
    meet(a, b, c, d)
}

// The end of the touched side k that lies between i and j.
fn touched(ring: Ring, i: usize, j: usize, k: usize) -> usize
    requires corners { (i < corners ring.xy.now) × (j < corners ring.xy.now) }
    requires touched { (k < corners ring.xy.now) × TouchedSide ring.xy.now i j k }
    ensures { GrazedBy ring.entry.xy.now i j result }
{
    if lies_on(ring, k, i, j) {
        k
    } else {
        ring.next(k)
    }
}

// Corner k lies on the segment ij.
pub fn lies_on(ring: Ring, k: usize, i: usize, j: usize) -> bool
    requires { (i < corners ring.xy.now) × (j < corners ring.xy.now) × (k < corners ring.xy.now) }
    ensures { Tells result (LiesOn ring.entry.xy.now k i j) }
{
    let a = ring.corner(i);
    let b = ring.corner(j);
    let c = ring.corner(k);
    turn(a, b, c) == 0 && dot(c, a, b) <= 0
}
