// The piece that is taken on a line, found again from the finished tables. The tables left and right tell which
// centres attain the line's value; the roads to a centre are in left, those from it on are filled again in its lane of
// the column (`again`).
ghost use Rattle.std.specs.Prelude.{◌≡◌, true, ◌+◌, ◌<◌, ◌≤◌, IfSome};
ghost use Rattle.limits.specs.Limits.{row};
ghost use Rattle.rules.specs.Columns.{costs};
ghost use Rattle.rules.specs.Choice.{Sought, less};
ghost use Rattle.rules.specs.Cells.{cell};
ghost use Rattle.cutting.specs.Rows.{none};
ghost use Rattle.cutting.specs.Tracing.{Next, rest_in, fits_in, better_in, pick_in, or_row, LowestFit, EveryIn};
ghost use Rattle.cutting.specs.Held.{LanesTo, ChosenBy};

use crate::again::lane;
use crate::cells::{Table, cell};
use crate::lines::Tables;
use crate::reading::Readings;

impl Tables {
    // The corner after c on the road of x to t: the smallest whose step and rest cost what the road costs; t where no
    // other does. The side has the rests.
    fn seek(&self, side: &Table, x: usize, t: usize, c: usize) -> usize
        requires { (c < t) × (t < row) × (x < row) }
        ensures { Sought (costs none (cell self.now.val) (cell side.now) x c) (cell side.now c x) c t result }
    {
        let target = cell(side, c, x);
        (c + 1..t)
            .find(|&b| cell(&self.val, c, b).saturating_add(cell(side, b, x)) == target)
            .unwrap_or(t)
    }

    // The corner after c of the piece with the centre x and the last corner j: its road goes to x, and from x on to j.
    pub fn next(&self, col: &Table, x: usize, j: usize, c: usize) -> usize
        requires { (x ≤ j) × (c < j) × (j < row) }
        ensures { Next self.now.val self.now.left col.now x j c result }
    {
        if c < x {
            self.seek(&self.left, x, x, c)
        } else {
            self.seek(col, x, j, c)
        }
    }

    // Whether the road of x from i to j comes before that of y: by the first corner where they differ. The corners of
    // a road are sought and not counted, so no range goes over them; and an iterator of a road would have to hold
    // every parameter of `next`, for this loop and the one of `tracing`.
    fn earlier(&self, col: &Table, i: usize, j: usize, x: usize, y: usize) -> bool
        requires { (x ≤ j) × (y ≤ j) × (i ≤ j) × (j < row) }
        ensures { result ≡ less (rest_in self.now.val self.now.left col.now x j i)
            (rest_in self.now.val self.now.left col.now y j i) }
    {
        let mut c = i;
        while c < j {
            let p = self.next(col, x, j, c);
            let q = self.next(col, y, j, c);
            if p != q {
                return p < q;
            }
            c = p;
        }
        false
    }

    // Whether the piece of the centre x on the line i j is as cheap as the line's value says.
    fn serves(&self, i: usize, j: usize, x: usize) -> bool
        requires { (j < row) × (x ≤ j) × (i ≤ j) }
        ensures { result ≡ fits_in self.now.val self.now.left self.now.right i j x }
    {
        let roads = cell(&self.left, i, x).saturating_add(cell(&self.right, j, x));
        roads.saturating_add(1) == cell(&self.val, i, j)
    }

    // The lowest centre that serves; j where none before it does.
    fn lowest(&self, i: usize, j: usize) -> usize
        requires { (j < row) × (i ≤ j) }
        ensures { LowestFit self.now.val self.now.left self.now.right i j result }
    {
        (i..j).find(|&x| self.serves(i, j, x)).unwrap_or(j)
    }

    // Whether the centre x takes every corner from i to j: no road comes before such a road.
    fn every(&self, col: &Table, i: usize, j: usize, x: usize) -> bool
        requires { (x ≤ j) × (i ≤ j) × (j < row) }
        ensures { result ≡ true → EveryIn self.now.val self.now.left col.now j x i }
    {
        (i..j).all(|c| self.next(col, x, j, c) == c + 1)
    }

    // Of the best centre so far, where there is one, and the centre x, if it serves, the one with the earlier road.
    fn choose(
        &self,
        col: &Table,
        i: usize,
        j: usize,
        best: Option<usize>,
        x: usize,
    ) -> Option<usize>
        requires in_range { (j < row) × (x ≤ j) × (i ≤ j) }
        requires best { IfSome best (λ y. y ≤ j) }
        ensures better { or_row result
            ≡ better_in self.now.val self.now.left self.now.right col.now i j (or_row best) x }
        ensures centre { IfSome result (λ y. y ≤ j) }
    {
        if !self.serves(i, j, x) {
            return best;
        }
        match best {
            Some(y) => if self.earlier(col, i, j, x, y) {
                Some(x)
            } else {
                best
            },
            None => Some(x),
        }
    }

    // The centre by which the piece on the line i j is taken, where the lanes of all that serve are there. The range
    // is not `i..=j`, which was tried: such a range has a second way out of the loop, and each answer of the proof
    // would be given twice. So too in `all_ready`.
    fn pick(&self, col: &Table, i: usize, j: usize) -> Option<usize>
        requires { (i < j) × (j < row) }
        ensures { or_row result ≡ pick_in self.now.val self.now.left self.now.right col.now i j }
    {
        let mut best = None;
        for x in i..j + 1 {
            best = self.choose(col, i, j, best, x);
        }
        best
    }

    // The lane of the centre x, where it serves.
    fn ready(&self, readings: &Readings, col: &mut Table, i: usize, j: usize, x: usize)
        requires in_range { (i ≤ x) × (x ≤ j) × (j < row) }
        requires lanes { LanesTo readings.now self.now col.old i j x }
        ensures { LanesTo readings.now self.now col.new i j (x + 1) }
    {
        if self.serves(i, j, x) {
            lane(readings, &self.val, col, x, j);
        }
    }

    // The lanes of all centres that serve, from the centre `from` on.
    fn all_ready(&self, readings: &Readings, col: &mut Table, i: usize, j: usize, from: usize)
        requires in_range { (i ≤ from) × (from ≤ j + 1) × (j < row) }
        requires lanes { LanesTo readings.now self.now col.old i j from }
        ensures { LanesTo readings.now self.now col.new i j (j + 1) }
    {
        for x in from..j + 1 {
            self.ready(readings, col, i, j, x);
        }
    }

    // The centre by which the piece on the line i j is taken, and its lane. Often the lowest that serves takes every
    // corner: then no other is looked at.
    pub fn centre(&self, readings: &Readings, col: &mut Table, i: usize, j: usize) -> usize
        requires { (i < j) × (j < row) }
        ensures { ChosenBy readings.now self.now col.new i j result }
    {
        let x = self.lowest(i, j);
        lane(readings, &self.val, col, x, j);
        if self.every(col, i, j, x) {
            return x;
        }
        self.all_ready(readings, col, i, j, x + 1);
        self.pick(col, i, j).unwrap_or(j)
    }
}
