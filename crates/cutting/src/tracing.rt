// The cutting is traced: from the whole range down, the lines of the piece that is taken on each range of the set come
// into the set. The ranges are met in the order in which they were filled, backwards: so each is met after the range
// whose piece has its line.
//
//     0 ------------------------ n-1      pairs, cell a b: 1 where a b is in the set; at first the whole range alone
//     0 ---- c ---------- d ---- n-1      then the lines of its piece that are no sides: 0 c, c d, d n-1,
//                                         and so on under each
ghost use Rattle.std.specs.Prelude.{◌+◌, ◌<◌, ◌≤◌};
ghost use Rattle.limits.specs.Limits.{row};
ghost use Rattle.cutting.specs.Tracing.{rest_in, Ticks, Ticked, Marked, Started};
ghost use Rattle.cutting.specs.Held.{TracingAt, SolvesBy, DrawnBy};

use crate::cells::{Table, cell, put};
use crate::lines::Tables;
use crate::reading::Readings;

// The pair c d comes into the set, where it is no side.
fn tick(pairs: &mut Table, c: usize, d: usize)
    requires { Ticks pairs.old × (c < d) × (d < row) }
    ensures { Ticked pairs.old pairs.new c d }
{
    if d > c + 1 {
        put(pairs, c, d, 1);
    }
}

// The whole range alone is in the set.
fn start(pairs: &mut Table, n: usize)
    requires { (3 ≤ n) × (n ≤ row) }
    ensures { Started pairs.new n }
{
    pairs.fill(0);
    put(pairs, 0, n - 1, 1);
}

impl Tables {
    // The lines of the piece with the centre x on the line i j: from each corner of its road to the next. The corners
    // are sought and not counted, so no range goes over them, and no iterator: `earlier` of `pieces` has the reason.
    fn mark(&self, col: &Table, i: usize, j: usize, x: usize, pairs: &mut Table)
        requires { (x ≤ j) × (i ≤ j) × (j < row) × Ticks pairs.old }
        ensures { Marked pairs.old pairs.new i (rest_in self.now.val self.now.left col.now x j i) }
    {
        let mut c = i;
        while c < j {
            let d = self.next(col, x, j, c);
            tick(pairs, c, d);
            c = d;
        }
    }

    // The range i j, where it is in the set: the lines of its piece come into the set.
    fn visit(&self, readings: &Readings, col: &mut Table, i: usize, j: usize, pairs: &mut Table)
        requires in_range { (i < j) × (j < row) }
        requires tracing { TracingAt readings.now self.now pairs.old i j }
        ensures { TracingAt readings.now self.now pairs.new (i + 1) j }
    {
        if cell(pairs, i, j) == 0 {
            return;
        }
        let x = self.centre(readings, col, i, j);
        self.mark(col, i, j, x, pairs);
    }

    // The ranges to j.
    fn trace_column(&self, readings: &Readings, col: &mut Table, j: usize, pairs: &mut Table)
        requires in_range { j < row }
        requires tracing { TracingAt readings.now self.now pairs.old row (j + 1) }
        ensures { TracingAt readings.now self.now pairs.new row j }
    {
        for i in 0..j {
            self.visit(readings, col, i, j, pairs);
        }
    }

    // Every range.
    fn trace_all(&self, readings: &Readings, col: &mut Table, pairs: &mut Table)
        requires { TracingAt readings.now self.now pairs.old row readings.now.n }
        ensures { TracingAt readings.now self.now pairs.new row 0 }
    {
        for j in (0..readings.n).rev() {
            self.trace_column(readings, col, j, pairs);
        }
    }

    // The cutting of finished tables: the whole range is in the set while it is traced, and then goes out, for it is
    // no cut.
    pub fn trace(&self, readings: &Readings, col: &mut Table, pairs: &mut Table)
        requires { SolvesBy readings.now self.now }
        ensures { DrawnBy readings.now pairs.new }
    {
        start(pairs, readings.n);
        self.trace_all(readings, col, pairs);
        put(pairs, 0, readings.n - 1, 0);
    }
}
