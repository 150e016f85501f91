// Segments between points with whole coordinates. This module alone knows how it is decided what two segments share.
ghost use Rattle.std.specs.Prelude.{◌≡◌};
ghost use Rattle.outline.specs.Drawing.{turn_of, Shared, SharedOnlyAt};
ghost use Rattle.outline.specs.Tells.{Tells};
ghost use Rattle.outline.specs.Segments.{Dot, OneSide};
ghost use Rattle.outline.specs.Quick.{Touch};
ghost use Rattle.drawing.specs.Meeting.{AnEndOn, Reached, Meets};
ghost use Rattle.outline.specs.FarApart.{Beyond, FarApart};
ghost use Rattle.drawing.specs.Parts.{point, Close};

// A corner, or the way from one corner to another (masks.rt), which is up to twice as far on each axis. So that a
// place is `Close` is a clause of each call that needs a corner, and no fact of the type.
#[derive(Clone, Copy, PartialEq, Eq)]
pub struct Place {
    pub x: i64,
    pub y: i64,
}

// How a segment meets another: not at all; at an end of the other, or along it; across it.
#[derive(Clone, Copy, PartialEq, Eq)]
pub enum Met {
    Missed,
    Touched,
    Crossed,
}

// 01's Turn(a, b, c): the coordinates' limit keeps every product and difference within i64.
pub fn turn(a: Place, b: Place, c: Place) -> i64
    requires { Close (point a) × Close (point b) × Close (point c) }
    ensures { result ≡ turn_of (point a) (point b) (point c) }
{
    (b.x - a.x) * (c.y - a.y) - (b.y - a.y) * (c.x - a.x)
}

// (u - z) . (w - z): of three points on one line, not above zero where z lies between u and w.
pub fn dot(z: Place, u: Place, w: Place) -> i64
    requires { Close (point z) × Close (point u) × Close (point w) }
    ensures { result ≡ Dot (point z) (point u) (point w) }
{
    (u.x - z.x) * (w.x - z.x) + (u.y - z.y) * (w.y - z.y)
}

// Two turns of one line: both strictly left of it, or both strictly right. No branch asks for the sign of one of
// them, which nothing foretells.
fn one_side(s: i64, t: i64) -> bool
    ensures { Tells result (OneSide s t) }
{
    s != 0 && t != 0 && (s > 0) == (t > 0)
}

// Of four points on one line, an end of the segment c d lies on a b.
fn an_end_on(a: Place, b: Place, c: Place, d: Place) -> bool
    requires { Close (point a) × Close (point b) × Close (point c) × Close (point d) }
    ensures { Tells result (AnEndOn (point a) (point b) (point c) (point d)) }
{
    dot(c, a, b) <= 0 || dot(d, a, b) <= 0
}

// Of four points on one line, an end of one segment lies on the other.
fn touch(a: Place, b: Place, c: Place, d: Place) -> bool
    requires { Close (point a) × Close (point b) × Close (point c) × Close (point d) }
    ensures { Tells result (Touch (point a) (point b) (point c) (point d)) }
{
    an_end_on(a, b, c, d) || an_end_on(c, d, a, b)
}

// How the segment a b meets c d. That the line of c d does not have a and b strictly on one side is known. Each end
// has a test of its own, and no `||`: must-fail/grazing_line_is_sight.edit speaks of the first end alone.
pub fn meet(a: Place, b: Place, c: Place, d: Place) -> Met
    requires close { Close (point a) × Close (point b) × Close (point c) × Close (point d) }
    requires reached { Reached (point a) (point b) (point c) (point d) }
    ensures { Meets (point a) (point b) (point c) (point d) result }
{
    let s = turn(a, b, c);
    let t = turn(a, b, d);
    if one_side(s, t) {
        return Met::Missed;
    }
    if s == t {
        return if touch(a, b, c, d) {
            Met::Touched
        } else {
            Met::Missed
        };
    }
    if s == 0 {
        return Met::Touched;
    }
    if t == 0 { Met::Touched } else { Met::Crossed }
}

// On one axis: c and d both lie below a and b, or both above them.
fn beyond(a: i64, b: i64, c: i64, d: i64) -> bool
    ensures { Tells result (Beyond a b c d) }
{
    ((c < a) & (c < b)) & ((d < a) & (d < b)) || ((a < c) & (b < c)) & ((a < d) & (b < d))
}

// The extents of the segments a b and c d do not overlap. No product is formed.
fn far_apart(a: Place, b: Place, c: Place, d: Place) -> bool
    requires { Close (point a) × Close (point b) × Close (point c) × Close (point d) }
    ensures { Tells result (FarApart (point a) (point b) (point c) (point d)) }
{
    beyond(a.x, b.x, c.x, d.x) || beyond(a.y, b.y, c.y, d.y)
}

// The segments a b and c d share a point: extents first, and products only where they overlap.
pub fn share(a: Place, b: Place, c: Place, d: Place) -> bool
    requires { Close (point a) × Close (point b) × Close (point c) × Close (point d) }
    ensures { Tells result (Shared (point a) (point b) (point c) (point d)) }
{
    !far_apart(a, b, c, d)
        && !one_side(turn(a, b, c), turn(a, b, d))
        && meet(c, d, a, b) != Met::Missed
}

// The segments e a and e c share only e.
pub fn only_end(e: Place, a: Place, c: Place) -> bool
    requires { Close (point e) × Close (point a) × Close (point c) }
    ensures { Tells result (SharedOnlyAt (point e) (point e) (point a) (point e) (point c)) }
{
    turn(e, a, c) != 0 || dot(e, a, c) <= 0
}
