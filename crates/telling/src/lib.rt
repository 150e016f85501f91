// From a set of pairs to 01's bytes: the pieces are told, and the corner that stands in the centre's place is put in.
// Knows no coordinate and no search.
//
//     ranges:   n, pairs       ->  k 0 corners, k 0 corners, ..    one writes a range, another walks a piece's lines
//     centres:  first, second  ->  k c corners, k c corners, ..    a pass over the told pieces
#![tactic(auto)]

mod cells;
mod centres;
mod ranges;

ghost use Rattle.std.specs.Prelude.{◌≡◌, ◌<◌, length, MatchResult};
ghost use Rattle.limits.specs.Limits.{all_cells};
ghost use Rattle.telling.specs.Answer.{result_of, Telling};
ghost use Rattle.telling.specs.Parts.{IsWhole};
ghost use Rattle.telling.specs.declared.Refusal.TheVariants.{Unserved};

use cells::Cells;
use centres::Sights;
use limits::{FEWEST_CORNERS, MOST_CORNERS};
use ranges::write_range;

// What was told: the count of pieces and the count of bytes used.
#[derive(Clone, Copy, PartialEq, Eq, Debug)]
pub struct Told {
    pub pieces: usize,
    pub bytes: usize,
}

// Why nothing was: n or an array is out of the limits, or the room is too small. `result_of` has 01's number for each
// case.
#[derive(Clone, Copy, PartialEq, Eq, Debug)]
pub enum Refusal {
    Unserved,
    Short,
}

// The cells of a whole array, which may go on beyond them.
fn whole(cells: &[u8]) -> Result<&Cells, Refusal>
    ensures { MatchResult result (IsWhole cells.now) (λ e. (length cells.now < all_cells) × (e ≡ Unserved)) }
{
    cells.first_chunk().ok_or(Refusal::Unserved)
}

// The pieces of n corners cut along `pairs`, each with its lowest centre. The pair a < b is in the set where cell
// a * ROW + b of `pairs` is not 0; x, as a centre, sees y in a drawing where cell x * ROW + y of `first` or `second`
// has the 2 among its binary digits, and no other digit counts. The pairs may cross: what is told of them is fixed all
// the same. p pieces take 4p + n - 2 bytes, at most 5n - 10. What is refused leaves `out` alone.
pub fn tell(
    n: usize,
    pairs: &[u8],
    first: &[u8],
    second: &[u8],
    out: &mut [u8],
) -> Result<Told, Refusal>
    ensures { Telling n pairs.now first.now second.now out.old (result_of result out.new) }
{
    if !(FEWEST_CORNERS..=MOST_CORNERS).contains(&n) {
        return Err(Refusal::Unserved);
    }
    let pairs = whole(pairs)?;
    let first = whole(first)?;
    let second = whole(second)?;
    if out.len() < 5 * n - 10 {
        return Err(Refusal::Short);
    }
    let bytes = write_range(pairs, 0, n - 1, out);
    Sights { first, second }.put_centres(&mut out[..bytes]);
    Ok(Told {
        pieces: (bytes + 2 - n) / 4,
        bytes,
    })
}
