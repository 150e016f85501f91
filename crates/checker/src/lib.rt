// Cuttings that were made elsewhere: document 02, K4. A pair of drawings and a list of pieces in 01's layout, in any
// order and with any allowed centres, are accepted exactly when the list is a valid cutting; else the first thing that
// is wrong is told.
#![tactic(auto)]

ghost use Rattle.std.specs.Prelude.{◌≡◌, ◌≤◌};
ghost use Rattle.limits.specs.Limits.{fewest_corners, most_corners};
ghost use Rattle.checker.specs.Checks.{verdict, OfBytes, ChecksList};
ghost use Rattle.checker.specs.Parts.{in_cells};
ghost use Rattle.checker.specs.declared.Fault.TheVariants.{Pair};

mod faults;
pub mod flat;
mod lines;
mod listed;
mod nested;
mod pieces;

use faults::{Sights, first_fault};
use limits::ALL_CELLS;
use listed::is_list;
use nested::is_cutting;
use pair::{Refusal, Which};

// What is wrong with a pair or a list. With the last two: the piece at fault, by its place in the list from 0, and the
// drawing in which one of its lines is unseen, or in which its centre misses a corner.
#[derive(Clone, Copy, PartialEq, Eq, Debug)]
pub enum Fault {
    Pair(Refusal),
    NoList,
    NoCutting,
    Unseen { place: usize, drawing: Which },
    Misses { place: usize, drawing: Which },
}

impl From<Refusal> for Fault {
    ghost from_gives = { λ refusal fault. fault ≡ Pair refusal };

    fn from(refusal: Refusal) -> Fault {
        Fault::Pair(refusal)
    }
}

// By the cells of two sound drawings.
fn of_bytes(n: usize, sights: &Sights, list: &[u8]) -> Result<(), Fault>
    requires { (fewest_corners ≤ n) × (n ≤ most_corners) }
    ensures { OfBytes (in_cells sights.now.first.now) (in_cells sights.now.second.now) n list.now (verdict result) }
{
    if !is_list(n, list) {
        return Err(Fault::NoList);
    }
    if !is_cutting(n, list) {
        return Err(Fault::NoCutting);
    }
    first_fault(sights, list)
}

// The first thing that is wrong, in 02's order: with the pair, with the bytes, with the pieces as a whole, with one of
// them. The cells of both drawings stand in this function's frame.
pub fn check(first: &[i32], second: &[i32], list: &[u8]) -> Result<(), Fault>
    ensures { ChecksList first.now second.now list.now (verdict result) }
{
    let mut sight1 = [0u8; ALL_CELLS];
    let mut sight2 = [0u8; ALL_CELLS];
    pair::sight(first, second, &mut sight1, &mut sight2)?;
    let sights = Sights {
        first: &sight1,
        second: &sight2,
    };
    of_bytes(first.len() / 2, &sights, list)
}
