// The checks of a pair of drawings: lines 1 and 3 to 8 of 01's table ("What comes back"), in one call, which tells the
// sight of both on the way. What else is asked of a pair, and where in the order, is the caller's.
#![tactic(auto)]

ghost use Rattle.std.specs.Prelude.{◌≡◌, Err};
ghost use Rattle.outline.specs.Tells.{Tells};
ghost use Rattle.pair.specs.Pair.{Alike, Checks, FirstTold, SecondTold, number, number_of, result_number};

use drawing::Unsound;
use limits::{FEWEST_CORNERS, MOST_CORNERS};

// The two drawings of a pair.
#[derive(Clone, Copy, PartialEq, Eq, Debug)]
pub enum Which {
    First,
    Second,
}

// The first of lines 1 and 3 to 8 that applies: a case for each.
#[derive(Clone, Copy, PartialEq, Eq, Debug)]
pub enum Refusal {
    Unlike,
    FirstOutOfRange,
    FirstNotSimple,
    FirstNotAnticlockwise,
    SecondOutOfRange,
    SecondNotSimple,
    SecondNotAnticlockwise,
}

// 01's number.
impl From<Refusal> for u8 {
    ghost from_gives = { λ refusal k. k ≡ number refusal };

    fn from(refusal: Refusal) -> u8 {
        match refusal {
            Refusal::Unlike => 1,
            Refusal::FirstOutOfRange => 3,
            Refusal::FirstNotSimple => 4,
            Refusal::FirstNotAnticlockwise => 5,
            Refusal::SecondOutOfRange => 6,
            Refusal::SecondNotSimple => 7,
            Refusal::SecondNotAnticlockwise => 8,
        }
    }
}

// Whether line 1 does not apply. `drawing::judge` too asks for the shape of a list first, but no call of that crate
// tells it alone, without the rest of the judgement.
fn alike(first: &[i32], second: &[i32]) -> bool
    ensures { Tells result (Alike first.now second.now) }
{
    let n = first.len() / 2;
    first.len() == 2 * n
        && second.len() == first.len()
        && (FEWEST_CORNERS..=MOST_CORNERS).contains(&n)
}

// The line that applies to one of the drawings, by what is wrong with it.
fn refused(which: Which, unsound: Unsound) -> Refusal
    ensures { number result ≡ number_of which (Err unsound) }
{
    match (which, unsound) {
        (_, Unsound::Misshapen) => Refusal::Unlike,
        (Which::First, Unsound::OutOfRange) => Refusal::FirstOutOfRange,
        (Which::First, Unsound::NotSimple) => Refusal::FirstNotSimple,
        (Which::First, Unsound::NotAnticlockwise) => Refusal::FirstNotAnticlockwise,
        (Which::Second, Unsound::OutOfRange) => Refusal::SecondOutOfRange,
        (Which::Second, Unsound::NotSimple) => Refusal::SecondNotSimple,
        (Which::Second, Unsound::NotAnticlockwise) => Refusal::SecondNotAnticlockwise,
    }
}

// 01's number for a judgement of the first drawing, 3 to 5, or of the second, 6 to 8; of either, 1 where the list is
// no drawing and 0 where it is sound. The number and no `Refusal`, as it is what C gets, by the stage of `desk` that
// judges one drawing.
pub fn number(which: Which, judged: Result<(), Unsound>) -> u8
    ensures { result ≡ number_of which judged }
{
    match judged {
        Ok(()) => 0,
        Err(unsound) => u8::from(refused(which, unsound)),
    }
}

// The first of these lines that applies, or nothing where both drawings are sound and have equally many corners. Each
// drawing is judged once, and the sight of a sound one is told on the way: that of the first where line 1 does not
// apply, that of the second where none does. Where nothing is told the cells keep their values. The cells stay slices:
// it is promised too what becomes of those that have no room for all rows.
pub fn sight(
    first: &[i32],
    second: &[i32],
    cells1: &mut [u8],
    cells2: &mut [u8],
) -> Result<(), Refusal>
    ensures checks { Checks first.now second.now (result_number result) }
    ensures first_told { FirstTold first.now second.now cells1.old cells1.new }
    ensures second_told { SecondTold second.now (result_number result) cells2.old cells2.new }
{
    if !alike(first, second) {
        return Err(Refusal::Unlike);
    }
    drawing::sight(first, cells1).map_err(|unsound| refused(Which::First, unsound))?;
    drawing::sight(second, cells2).map_err(|unsound| refused(Which::Second, unsound))
}
