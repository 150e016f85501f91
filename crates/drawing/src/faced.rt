// Who has a corner inside the angle there, for all corners at once: masks with a digit for each corner.
ghost use Rattle.std.specs.Prelude.{◌≡◌, ◌^◌, ◌≤◌, ◌<◌};
ghost use Rattle.limits.specs.Limits.{fewest_corners, most_corners};
ghost use Rattle.whole.specs.Masks.{Marks};
ghost use Rattle.drawing.specs.Known.{need_of, Around, Faced};

use crate::masks::Known;
use limits::MOST_CORNERS;

// The corners that need two of their sides to have another to the left, and those that need one.
#[derive(Clone, Copy)]
pub struct Bends {
    pub two: u64,
    pub one: u64,
}

pub fn angles(known: [Known; MOST_CORNERS], n: usize) -> Bends
    requires { n ≤ most_corners }
    ensures two { Marks n result.two (λ j. need_of known j ≡ 2) }
    ensures one { Marks n result.one (λ j. need_of known j ≡ 1) }
{
    let mut two = 0;
    let mut one = 0;
    for j in (0..n).rev() {
        let need = known[j].need;
        two = two * 2 + u64::from(need == 2);
        one = one * 2 + u64::from(need == 1);
    }
    Bends { two, one }
}

// The corners that have another inside the angle: the sides that other lies left of are `left`.
pub fn faced(left: u64, bends: Bends, n: usize) -> u64
    requires { (fewest_corners ≤ n) × (n ≤ most_corners) × (left < 2 ^ n) }
    ensures { Faced n left bends result }
{
    let before = around(left, n);
    bends.two & left & before | bends.one & (left | before)
}

// Digit k of the result is the digit before it: that of the side that ends at corner k.
fn around(m: u64, n: usize) -> u64
    requires { (fewest_corners ≤ n) × (n ≤ most_corners) × (m < 2 ^ n) }
    ensures { Around n m result }
{
    let top = 1 << (n - 1);
    if m < top { m * 2 } else { (m - top) * 2 + 1 }
}
