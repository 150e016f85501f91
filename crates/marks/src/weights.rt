// What the corners of a wedge weigh for a mark, and the place where the same weights put it.
ghost use Rattle.marks.specs.Steps.{InSteps};
ghost use Rattle.marks.specs.Parts.{point, Reach, Weighs, sum, Placed};

use crate::sizes::{Coordinates, Weights};
use crate::steps::steps;
use crate::wedge::{Triangle, area};
use crate::{Axis, Place};

impl Weights {
    // A wedge holds the mark where the mark's areas with two corners each add up to its own; none, where it doesn't.
    //
    //           to                   area(m, from, to) is the weight of centre
    //           /|\                  area(m, to, centre) is the weight of from
    //          / m \                 area(m, centre, from) is the weight of to
    //         / / \ \
    //    centre --- from
    pub fn of(m: Coordinates, t: Triangle) -> Option<Weights>
        ensures { Weighs (point m) (point t.centre) (point t.from) (point t.to) result }
    {
        let whole = area(t.centre, t.from, t.to);
        let centre = area(m, t.from, t.to);
        let from = area(m, t.to, t.centre);
        let to = area(m, t.centre, t.from);
        if whole == 0 || centre + from + to != whole {
            return None;
        }
        Some(Weights {
            centre,
            from,
            to,
            whole,
        })
    }

    // One axis of the place, where i, j, k are the corners' coordinates on it. The weights add up to an area: they fit
    // i64, and the sum stays below 2^63.
    fn along(self, i: i64, j: i64, k: i64) -> Axis
        requires { Reach i j k }
        ensures { InSteps (sum self i j k) self.whole result }
    {
        let n = self.centre as i64 * i + self.from as i64 * j + self.to as i64 * k;
        steps(n, self.whole as i64)
    }

    // Where the weights put the mark between the corners t.
    pub fn place(self, t: Triangle) -> Place
        ensures { Placed self (point t.centre) (point t.from) (point t.to) result }
    {
        Place {
            x: self.along(t.centre.x, t.from.x, t.to.x),
            y: self.along(t.centre.y, t.from.y, t.to.y),
        }
    }
}
