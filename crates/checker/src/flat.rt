// The call as C takes it: what comes back is a flat struct, by value.
ghost use Rattle.std.specs.Prelude.{◌≡◌};
ghost use Rattle.checker.specs.Checks.{which_number, says, says_at, verdict, ChecksList};

use crate::{Fault, check};
use pair::Which;

// 02's number; with 23 and 24 the drawing, 1 or 2, and the piece's place in the list, from 0. Zeros where a case has
// none.
#[repr(C)]
#[derive(Clone, Copy)]
pub struct Verdict {
    pub number: u8,
    pub drawing: u8,
    pub place: usize,
}

// (No `From`: both types are other crates'.)
fn which_number(which: Which) -> u8
    ensures { result ≡ which_number which }
{
    match which {
        Which::First => 1,
        Which::Second => 2,
    }
}

fn says(number: u8) -> Verdict
    ensures { result ≡ says number }
{
    Verdict {
        number,
        drawing: 0,
        place: 0,
    }
}

fn says_at(number: u8, place: usize, which: Which) -> Verdict
    ensures { result ≡ says_at number place which }
{
    Verdict {
        number,
        drawing: which_number(which),
        place,
    }
}

impl From<Result<(), Fault>> for Verdict {
    ghost from_gives = { λ checked flat. flat ≡ verdict checked };

    fn from(checked: Result<(), Fault>) -> Verdict {
        match checked {
            Ok(()) => says(0),
            Err(Fault::Pair(refusal)) => says(u8::from(refusal)),
            Err(Fault::NoList) => says(21),
            Err(Fault::NoCutting) => says(22),
            Err(Fault::Unseen { place, drawing }) => says_at(23, place, drawing),
            Err(Fault::Misses { place, drawing }) => says_at(24, place, drawing),
        }
    }
}

// By its name for C. Crate `checker_c` exports it, as a library of Rattle exports nothing.
pub fn iravikkon_check(first: &[i32], second: &[i32], list: &[u8]) -> Verdict
    ensures { ChecksList first.now second.now list.now result }
{
    Verdict::from(check(first, second, list))
}
