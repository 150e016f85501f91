// Points within the limits, and the three of a wedge.
ghost use Rattle.std.specs.Prelude.{◌≡◌, ◌≤◌, ◌<◌, nat_abs};
ghost use Rattle.outline.specs.Drawing.{corner, corners, turn_of, InRange};
ghost use Rattle.marks.specs.Lands.{area};
ghost use Rattle.marks.specs.Sizes.{most_area};
ghost use Rattle.marks.specs.Carry.{point_of};
ghost use Rattle.marks.specs.Parts.{point, Within, Below, IsTriangle};

use crate::Mark;
use crate::sizes::Coordinates;
use limits::FURTHEST;

impl Coordinates {
    // The mark, where it is within the limits. An Option and no `TryFrom`: there is no error to tell, as what is
    // refused hangs on the pair.
    pub fn of(mark: Mark) -> Option<Coordinates>
        ensures { Within (point_of mark) result }
    {
        let limits = -FURTHEST..=FURTHEST;
        if !(limits.contains(&mark.x) && limits.contains(&mark.y)) {
            return None;
        }
        Some(Coordinates {
            x: i64::from(mark.x),
            y: i64::from(mark.y),
        })
    }

    // `drawing` has one for points of its own, as it has a `turn`: called from here it would have to ask for the
    // limits, and a call that another crate can name may ask for nothing.
    fn corner(xy: &[i32], i: usize) -> Coordinates
        requires drawing { InRange xy.now }
        requires below { i < corners xy.now }
        ensures { point result ≡ corner xy.now i }
    {
        Coordinates {
            x: i64::from(xy[2 * i]),
            y: i64::from(xy[2 * i + 1]),
        }
    }
}

// 01's Turn(a, b, c): twice the area of three corners, above zero where they turn left. `drawing` has one of its own:
// its points are differences of corners too, twice as far from 0, so their type can't promise what this one does, and
// a call that another crate can name may ask for nothing.
fn turn(a: Coordinates, b: Coordinates, c: Coordinates) -> i64
    ensures is { result ≡ turn_of (point a) (point b) (point c) }
    ensures small { nat_abs result ≤ most_area }
{
    (b.x - a.x) * (c.y - a.y) - (b.y - a.y) * (c.x - a.x)
}

// Twice the area, whichever way they turn.
pub fn area(a: Coordinates, b: Coordinates, c: Coordinates) -> u64
    ensures is { result ≡ area (point a) (point b) (point c) }
    ensures small { result ≤ most_area }
{
    turn(a, b, c).unsigned_abs()
}

// A centre and two corners that follow each other round its piece, by their numbers.
#[derive(Clone, Copy, PartialEq, Eq, Debug)]
pub struct Wedge {
    pub centre: usize,
    pub from: usize,
    pub to: usize,
}

// The corners of a wedge, as they stand in one drawing.
#[derive(Clone, Copy, PartialEq, Eq, Debug)]
pub struct Triangle {
    pub centre: Coordinates,
    pub from: Coordinates,
    pub to: Coordinates,
}

impl Wedge {
    pub fn triangle(self, xy: &[i32]) -> Triangle
        requires drawing { InRange xy.now }
        requires below { Below (corners xy.now) self }
        ensures { IsTriangle xy.now self result }
    {
        Triangle {
            centre: Coordinates::corner(xy, self.centre),
            from: Coordinates::corner(xy, self.from),
            to: Coordinates::corner(xy, self.to),
        }
    }
}
