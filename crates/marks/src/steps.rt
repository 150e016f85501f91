// A fraction as whole steps and the rest of a step.
ghost use Rattle.std.specs.Prelude.{nat_abs};
ghost use Rattle.marks.specs.Steps.{InSteps};
ghost use Rattle.marks.specs.Parts.{Share};

use crate::Axis;

// n / d, rounded down also below zero. Remainder and divisor are below 2^53: the casts lose nothing, and one division
// rounds once.
pub fn steps(n: i64, d: i64) -> Axis
    requires { Share n d }
    ensures { InSteps n (nat_abs d) result }
{
    Axis {
        step: n.div_euclid(d),
        rest: n.rem_euclid(d) as f64 / d as f64,
    }
}
