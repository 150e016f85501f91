// Numbers whose sizes are known wherever they are: no call asks for them again. The structs stand apart from their
// methods, as a ghost field brings into a file of the specs all that its own file names.
ghost use Rattle.std.specs.Prelude.{◌≡◌, ◌+◌, ◌<◌, ◌≤◌, nat_abs};
ghost use Rattle.limits.specs.Limits.{furthest};
ghost use Rattle.marks.specs.Sizes.{most_area};

// A point within the limits, in numbers that hold the products of its coordinates.
#[derive(Clone, Copy, PartialEq, Eq, Debug)]
pub struct Coordinates {
    pub x: i64,
    pub y: i64,
    ghost x_close: { nat_abs x ≤ furthest },
    ghost y_close: { nat_abs y ≤ furthest },
}

// What the corners of a wedge weigh for a mark that it holds: a corner weighs the mark's area with the two others, and
// the three add up to the wedge's own.
#[derive(Clone, Copy, PartialEq, Eq, Debug)]
pub struct Weights {
    pub centre: u64,
    pub from: u64,
    pub to: u64,
    pub whole: u64,
    ghost adds: { centre + from + to ≡ whole },
    ghost some: { 0 < whole },
    ghost small: { whole ≤ most_area },
}
